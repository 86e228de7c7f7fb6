// The energy of a day, for C (document 02, A11). A day is four numbers: import and then export, each in
// watt-hours and watt-seconds.
ghost use Rattle.std.specs.Prelude.{◌≡◌, ◌+◌, ◌<◌, length};
ghost use Rattle.energy.specs.Days.{measured_number, measured};
ghost use Rattle.energy.specs.Joins.{joined_days};
ghost use Rattle.pillar.specs.Energy.{energy_in, day_in, stored_day, DayLaws};

use energy::{Day, Energy, EnergyRefusal};

// The energy at a place of numbers from C.
pub(crate) fn energy_at(numbers: &[u64], i: usize) -> Energy
    requires { i + 1 < length numbers.now }
    ensures { result ≡ energy_in numbers.now i (i + 1) }
{
    Energy {
        watthours: numbers[i],
        wattseconds: numbers[i + 1],
    }
}

fn day_in(day: &[u64; 4]) -> Day
    ensures { result ≡ day_in day.now }
{
    Day {
        import: energy_at(day, 0),
        export: energy_at(day, 2),
    }
}

// Stores a day that is not refused, and answers as C is answered.
fn store(measured: Result<Day, EnergyRefusal>, day: &mut [u64; 4]) -> u32
    ensures { (result ≡ measured_number measured) × (day.new ≡ stored_day measured day.old) }
{
    match measured {
        Err(refusal) => u32::from(refusal.number()),
        Ok(Day { import, export }) => {
            *day = [
                import.watthours,
                import.wattseconds,
                export.watthours,
                export.wattseconds,
            ];
            0
        }
    }
}

// The import and the export of up to 86,400 samples: 25 for more.
#[unsafe(no_mangle)]
pub extern "C" fn energy_of_day(samples: &[i32], day: &mut [u64; 4]) -> u32
    ensures value { (result ≡ measured_number (measured samples.now)) × (day.new ≡ stored_day (measured samples.now) day.old) }
    ensures laws { DayLaws }
{
    store(energy::measure(samples), day)
}

// Joins another day to a day, which becomes both together: 26 and 27 as `energy::join_days`.
#[unsafe(no_mangle)]
pub extern "C" fn energy_join(day: &mut [u64; 4], other: &[u64; 4]) -> u32
    ensures value { (result ≡ measured_number (joined_days (day_in day.old) (day_in other.now))) × (day.new ≡ stored_day (joined_days (day_in day.old) (day_in other.now)) day.old) }
    ensures laws { DayLaws }
{
    store(energy::join_days(day_in(day), day_in(other)), day)
}
