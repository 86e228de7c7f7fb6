// The bench program's work, but for reading and writing: the records of its input, the meter that they
// drive, the lines of its listing; and a whole input at once, from its bytes to the page.
#![tactic(auto)]

ghost use Rattle.std.specs.Prelude.{◌≡◌, Ok};
ghost use Rattle.tables.specs.Index.{table_in};
ghost use Rattle.replay.specs.Replay.{unless_refused, replay_answer, replayed};
ghost use Rattle.replay.specs.Numbers.{error_number};
ghost use Rattle.replay.specs.Laws.{Laws};
ghost use Rattle.replay.specs.Examples.{Examples};
ghost use Rattle.history.specs.Laws.{Laws as AccountLaws};
ghost use Rattle.history.specs.RemoteDisconnect.{RemoteDisconnectHolds};
ghost use Rattle.history.specs.Examples.{WorkedExample};
ghost use Rattle.history.specs.Histories.{Histories};

mod input;
mod listing;
mod run;

use calls::Answer;
pub use input::record_at;
pub use listing::line_of;
pub use run::{next, run_from, start};

// The length of a record in bytes. A record is a command, the first one of kind 0 and fresh.
pub const RECORD_LEN: usize = 21;

// A line of the listing: the bytes from `start` to the end. Digits come out of a number from the last
// to the first, so that a line is made from its end. Four numbers of at most 20, 3, 3 and 10 digits,
// each with a byte behind it, are 40 bytes.
#[derive(Clone, Copy)]
pub struct ListingLine {
    pub bytes: [u8; 40],
    pub start: usize,
}

// Why the page of an input's history is not written.
#[derive(Clone, Copy, Debug, PartialEq, Eq)]
pub enum ReplayError {
    Empty,
    // The first record is not of kind 0.
    Bad,
    // A record is cut short.
    Short,
    // Fresh refused with this number, or the page's writer did.
    Refused(u8),
}

impl ReplayError {
    // The number of a refusal, or one above every refusal's for what document 01 prints as words.
    pub fn number(self) -> u32
        ensures { result ≡ error_number self }
    {
        match self {
            ReplayError::Empty => 100,
            ReplayError::Bad => 101,
            ReplayError::Short => 102,
            ReplayError::Refused(number) => u32::from(number),
        }
    }
}

// A refusal of the meter or of the writer ends a run with its number.
pub fn accepted(answer: Answer) -> Result<(), ReplayError>
    ensures { result ≡ unless_refused answer (Ok tt) }
{
    match answer {
        Answer::Accepted => Ok(()),
        Answer::Refused(number) => Err(ReplayError::Refused(number)),
    }
}

// Runs a whole input with an event table, and writes the page of its history into the first 599 bytes
// of `page`. Every byte of `page` stays where the answer is an error.
pub fn replay(table: &[u16; 256], records: &[u8], page: &mut [u8]) -> Result<(), ReplayError>
    ensures value { (result ≡ replay_answer records.now page.old) × (page.new ≡ replayed (table_in table.now) records.now page.old) }
    ensures laws { Laws }
    ensures account { AccountLaws }
    ensures remote_disconnect { RemoteDisconnectHolds }
    ensures histories { WorkedExample × Histories }
    ensures examples { Examples }
{
    // One test on the way of a whole record: with one more the compiler does not inline the run, which
    // then has a frame of its own (PILLAR_STACK, include/pillar.h).
    if records.len() < RECORD_LEN {
        if records.len() == 0 {
            return Err(ReplayError::Empty);
        }
        return Err(ReplayError::Short);
    }
    let first = input::record_at(records, 0);
    if first.kind != 0 {
        return Err(ReplayError::Bad);
    }
    let fresh = run::start(first);
    accepted(fresh.answer)?;
    // A refused fresh ends the run before it comes to a cut record: this test stands behind it.
    if records.len() % RECORD_LEN != 0 {
        return Err(ReplayError::Short);
    }
    let last = run::run_from(table, fresh.meter, records, 1);
    // Only a short buffer is refused: whatever the calls were, they leave the meter sound.
    accepted(writer::write_page(last, table, page))
}
