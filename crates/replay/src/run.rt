// The records of an input on a meter: the first makes it, each later one gets the meter that the one
// before handed back.
ghost use Rattle.std.specs.Prelude.{◌≡◌};
ghost use Rattle.tables.specs.Index.{table_in};
ghost use Rattle.replay.specs.Replay.{records_from, start_of, next_of, meter_after};

use crate::{RECORD_LEN, input};
use calls::Command;
use meter::{Meter, Outcome};

// The first record, which is to be of kind 0: a fresh meter, or its refusal.
pub fn start(first: Command) -> Outcome
    ensures { result ≡ start_of first }
{
    Meter::fresh(
        first.n1,
        calls::signed(first.n2),
        first.n3,
        first.n4,
        first.n5,
    )
}

// A later record: a call, or a kind that is refused.
pub fn next(table: &[u16; 256], meter: Meter, later: Command) -> Outcome
    ensures { result ≡ next_of (table_in table.now) meter later }
{
    meter.command(table, later)
}

// The meter after the whole records from number `first` on, counted from 0. It is tested once: one that
// is not sound every call refuses, and a sound one every call keeps sound. It is kept in parts while
// they run: a call that takes it by value copies it.
pub fn run_from(table: &[u16; 256], before: Meter, records: &[u8], first: usize) -> Meter
    ensures { result ≡ meter_after (table_in table.now) before (records_from first records.now) }
{
    if !before.sound(table) {
        return before;
    }
    let mut scalars = before.scalars();
    let mut counts = before.logs.counts;
    let mut clocks = before.logs.clocks;
    let mut codes = before.logs.codes;
    let count = records.len() / RECORD_LEN;
    for i in first..count {
        let record = input::whole_record_at(records, i * RECORD_LEN);
        let answered = meter::command_sound(
            table,
            scalars,
            &mut counts,
            &mut clocks,
            &mut codes,
            record,
        );
        scalars = answered.scalars;
    }
    Meter::of_parts(scalars, counts, clocks, codes)
}
