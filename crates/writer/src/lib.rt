// The page's writer.
#![tactic(auto)]

ghost use Rattle.std.specs.Prelude.{◌≡◌, take};
ghost use Rattle.tables.specs.Index.{table_in};
ghost use Rattle.meter.specs.State.{with_logs};
ghost use Rattle.page.specs.Layout.{size, write_answer, written, accepted_outcome, read_of};
ghost use Rattle.writer.specs.Put.{WritesSound, WritesEveryRecord};
ghost use Rattle.page.specs.Demand3.{Demand3};
ghost use Rattle.page.specs.Examples.{Examples};

mod areas;
mod three_phase;

use calls::Answer;
use meter::Meter;
use page::{EMERGENCY, FIRST_LOG, PAGE_LEN};
use steps::Scalars;
pub use three_phase::{write_three_phase_page, write_three_phase_sound};

// Writes the record's page into the first 599 bytes of the buffer. Refuses a record that is not
// sound by the event table with 12, then a buffer that is too short with 8, and then writes nothing.
pub fn write_page(m: Meter, table: &[u16; 256], out: &mut [u8]) -> Answer
    ensures value { (result ≡ write_answer (table_in table.now) m out.old) × (out.new ≡ written (table_in table.now) m out.old) }
    ensures restored { result ≡ Answer.Accepted → read_of (table_in table.now) (take size out.new) ≡ accepted_outcome m }
    ensures demand3 { Demand3 }
    ensures examples { Examples }
{
    // In parts, the arrays lent: each call that takes the whole record copies it.
    let scalars = m.scalars();
    if !(scalars.sound() & logs::sound(table, &m.logs.counts, &m.logs.clocks, &m.logs.codes)) {
        return Answer::Refused(12);
    }
    write_sound(scalars, &m.logs.counts, &m.logs.clocks, &m.logs.codes, out)
}

// The same with no test of the record, which is lent in parts: for one that is known to be sound, since
// the reader has taken it, or a call on a sound record has handed it back. The table plays no part.
pub fn write_sound<'a>(
    scalars: Scalars,
    counts: &'a [u8; 3],
    clocks: &'a [u32; 96],
    codes: &'a [u8; 96],
    out: &mut [u8],
) -> Answer
    ensures writes_sound { WritesSound (with_logs scalars counts.now clocks.now codes.now) out.old result out.new }
    ensures every_record { WritesEveryRecord }
{
    if out.len() < PAGE_LEN {
        return Answer::Refused(8);
    }
    areas::put_scalars(out, scalars);
    areas::put_logs(out, FIRST_LOG, counts, clocks, codes);
    areas::put_emergency(out, EMERGENCY, scalars.emergency);
    Answer::Accepted
}
