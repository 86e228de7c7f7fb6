// The records of an input on a three-phase meter: the first makes it, each later one gets the meter
// that the one before handed back.
ghost use Rattle.std.specs.Prelude.{◌≡◌};
ghost use Rattle.tables.specs.Index.{table_in};
ghost use Rattle.phases_replay.specs.Replay.{three_phase_records_from, three_phase_start_of, three_phase_meter_after};

use crate::{THREE_PHASE_RECORD_LEN, input};
use phases::ThreePhaseCommand;
use phases_meter::{ThreePhaseMeter, ThreePhaseOutcome};

// The first record, which is to be of kind 0: a fresh meter, or its refusal.
pub(crate) fn start(first: ThreePhaseCommand) -> ThreePhaseOutcome
    ensures { result ≡ three_phase_start_of first }
{
    ThreePhaseMeter::fresh(
        first.n1,
        calls::signed(first.n2),
        calls::signed(first.n3),
        calls::signed(first.n4),
        calls::signed(first.n5),
        first.n6,
        first.n7,
        first.n8,
    )
}

// The meter after the whole records from number `first` on, counted from 0. It is tested once: one that
// is not sound every call refuses, and a sound one every call keeps sound. It is kept in parts while
// they run: a call that takes it by value copies it.
pub(crate) fn run_from(
    table: &[u16; 256],
    before: ThreePhaseMeter,
    records: &[u8],
    first: usize,
) -> ThreePhaseMeter
    ensures { result ≡ three_phase_meter_after (table_in table.now) before (three_phase_records_from first records.now) }
{
    if !before.sound(table) {
        return before;
    }
    let mut scalars = before.scalars;
    let mut counts = before.logs.counts;
    let mut clocks = before.logs.clocks;
    let mut codes = before.logs.codes;
    let count = records.len() / THREE_PHASE_RECORD_LEN;
    for i in first..count {
        let record = input::whole_record_at(records, i * THREE_PHASE_RECORD_LEN);
        let answered = phases_meter::command_sound(
            table,
            scalars,
            &mut counts,
            &mut clocks,
            &mut codes,
            record,
        );
        scalars = answered.scalars;
    }
    ThreePhaseMeter::of_parts(scalars, counts, clocks, codes)
}
