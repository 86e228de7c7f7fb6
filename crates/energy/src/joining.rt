// Energies joined, of one direction and of both.
ghost use Rattle.std.specs.Prelude.{◌≡◌};
ghost use Rattle.energy.specs.Joins.{is_unreduced, joined, joined_days};
ghost use Rattle.energy.specs.Laws.{JoinLaws};
ghost use Rattle.energy.specs.NearMisses.{NearMisses};

use crate::{Day, Energy, EnergyRefusal};

// 2^53.
const MOST_WATTHOURS: u64 = 9007199254740992;

impl Energy {
    fn is_unreduced(self) -> bool
        ensures { result ≡ is_unreduced self }
    {
        3600 <= self.wattseconds
    }
}

// The sum of two energies: 26 if a remainder is 3,600 or more, 27 if the sum's whole watt-hours are
// above 2^53.
pub fn join(a: Energy, b: Energy) -> Result<Energy, EnergyRefusal>
    ensures { result ≡ joined a b }
{
    if a.is_unreduced() | b.is_unreduced() {
        return Err(EnergyRefusal::UnreducedRemainder);
    }
    let remainders = a.wattseconds + b.wattseconds;
    // A sum that would pass 64 bits stops at their largest number, which is too large as well.
    let watthours = a
        .watthours
        .saturating_add(b.watthours)
        .saturating_add(remainders / 3600);
    if MOST_WATTHOURS < watthours {
        return Err(EnergyRefusal::SumTooLarge);
    }
    Ok(Energy {
        watthours,
        wattseconds: remainders % 3600,
    })
}

// The sum of two days, or of two berths: 26 before 27, whichever direction is at fault.
pub fn join_days(a: Day, b: Day) -> Result<Day, EnergyRefusal>
    ensures value { result ≡ joined_days a b }
    ensures laws { JoinLaws }
    ensures near_misses { NearMisses }
{
    if a.import.is_unreduced()
        | b.import.is_unreduced()
        | a.export.is_unreduced()
        | b.export.is_unreduced()
    {
        return Err(EnergyRefusal::UnreducedRemainder);
    }
    Ok(Day {
        import: join(a.import, b.import)?,
        export: join(a.export, b.export)?,
    })
}
