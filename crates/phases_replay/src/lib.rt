// A whole input of the three-phase meter at once, from its bytes to the page.
#![tactic(auto)]

ghost use Rattle.std.specs.Prelude.{◌≡◌};
ghost use Rattle.tables.specs.Index.{table_in};
ghost use Rattle.phases_replay.specs.Replay.{three_phase_replay_answer, three_phase_replayed};
ghost use Rattle.phases_replay.specs.Laws.{Laws};
ghost use Rattle.phases_replay.specs.Examples.{Examples};

mod input;
mod run;

use replay::ReplayError;

// The length of a record in bytes. A record is a command, the first one of kind 0 and fresh.
pub const THREE_PHASE_RECORD_LEN: usize = 33;

// Runs a whole input with an event table, and writes the page of its history into the first 586 bytes
// of `page`. Every byte of `page` stays where the answer is an error.
pub fn replay_three_phase(
    table: &[u16; 256],
    records: &[u8],
    page: &mut [u8],
) -> Result<(), ReplayError>
    ensures value { (result ≡ three_phase_replay_answer records.now page.old) × (page.new ≡ three_phase_replayed (table_in table.now) records.now page.old) }
    ensures laws { Laws }
    ensures examples { Examples }
{
    // One test on the way of a whole record: with one more the compiler does not inline the run, which
    // then has a frame of its own (PILLAR_STACK, include/pillar.h).
    if records.len() < THREE_PHASE_RECORD_LEN {
        if records.len() == 0 {
            return Err(ReplayError::Empty);
        }
        return Err(ReplayError::Short);
    }
    let first = input::whole_record_at(records, 0);
    if first.kind != 0 {
        return Err(ReplayError::Bad);
    }
    let fresh = run::start(first);
    replay::accepted(fresh.answer)?;
    // A refused fresh ends the run before it comes to a cut record: this test stands behind it.
    if records.len() % THREE_PHASE_RECORD_LEN != 0 {
        return Err(ReplayError::Short);
    }
    let last = run::run_from(table, fresh.meter, records, 1);
    // Only a short buffer is refused: whatever the calls were, they leave the meter sound.
    replay::accepted(writer::write_three_phase_page(last, table, page))
}
