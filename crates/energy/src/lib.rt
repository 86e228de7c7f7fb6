// The energy of a day, exactly (document 02, A11): import and export of samples, one power a second,
// and energies joined.
#![tactic(auto)]

ghost use Rattle.std.specs.Prelude.{◌≡◌, ◌+◌};
ghost use Rattle.base.specs.Numbers.{positive_part, negative_part};
ghost use Rattle.energy.specs.Refusals.{refusal_number};
ghost use Rattle.energy.specs.Energy.{energy_of};
ghost use Rattle.energy.specs.Days.{measured};
ghost use Rattle.energy.specs.Laws.{Laws};
ghost use Rattle.energy.specs.NearMisses.{NearMisses};

mod joining;

pub use joining::{join, join_days};

// What is measured or joined here has a remainder below 3,600; what is handed in may have any.
#[derive(Clone, Copy)]
pub struct Energy {
    pub watthours: u64,
    pub wattseconds: u64,
}

// The energy of a day, of several, or of several berths.
#[derive(Clone, Copy)]
pub struct Day {
    pub import: Energy,
    pub export: Energy,
}

// Why a day is not measured, or energies are not joined.
#[derive(Clone, Copy, Debug, PartialEq, Eq)]
pub enum EnergyRefusal {
    // More than 86,400.
    TooManySamples = 25,
    // A remainder of 3,600 watt-seconds or more.
    UnreducedRemainder = 26,
    // Whole watt-hours above 2^53.
    SumTooLarge = 27,
}

impl EnergyRefusal {
    // The document's number.
    pub fn number(self) -> u8
        ensures { result ≡ refusal_number self }
    {
        self as u8
    }
}

// A day has so many seconds.
const MOST_SAMPLES: usize = 86400;

// So many watt-seconds as whole watt-hours and a remainder.
fn energy_of(amount: u64) -> Energy
    ensures { result ≡ energy_of amount }
{
    Energy {
        watthours: amount / 3600,
        wattseconds: amount % 3600,
    }
}

// How far the power is below the highest, which is never negative. It is widened before it is negated,
// so that the lowest is not lost.
fn below_highest(power: i32) -> u32
    ensures { result + positive_part power ≡ negative_part power + 2147483647 }
{
    (-i64::from(power) + 2147483647) as u32
}

// Import and export of up to 86,400 samples: 25 for more. The export is the import less the sum of all
// powers, so that a sample takes one test and two additions.
pub fn measure(samples: &[i32]) -> Result<Day, EnergyRefusal>
    ensures value { result ≡ measured samples.now }
    ensures laws { Laws }
    ensures near_misses { NearMisses }
{
    if MOST_SAMPLES < samples.len() {
        return Err(EnergyRefusal::TooManySamples);
    }
    let mut import = 0;
    let mut distance = 0;
    for &power in samples {
        import += u64::from(base::positive_part(power));
        distance += u64::from(below_highest(power));
    }
    // A distance is the highest power and the export, less the import.
    let export = import + distance - (samples.len() as u64) * 2147483647;
    Ok(Day {
        import: energy_of(import),
        export: energy_of(export),
    })
}
