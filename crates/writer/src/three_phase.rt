// The writer of the three-phase meter's page. Its pairs and its limiter area are put here; what both
// meters have, the areas' functions put in either page.
ghost use Rattle.std.specs.Prelude.{◌≡◌, ◌+◌, ◌≤◌, length, take};
ghost use Rattle.std.proofs.lemmas.List.Edits.{sets};
ghost use Rattle.tables.specs.Index.{table_in};
ghost use Rattle.phases_meter.specs.State.{three_phase_with_logs};
ghost use Rattle.phases_page.specs.Layout.{monitored_area, limiters_area, three_phase_directory, three_phase_start, three_phase_size};
ghost use Rattle.phases_page.specs.Layout.{three_phase_write_answer, three_phase_written, three_phase_accepted_outcome, three_phase_read_of};
ghost use Rattle.phases_page.specs.Demand3.{ThreePhaseDemand3};
ghost use Rattle.phases_page.specs.Examples.{Examples};
ghost use Rattle.writer.specs.ThreePhase.{with_three_phase_scalars, ThreePhaseWritesSound, ThreePhaseWritesEveryRecord};

use crate::areas;
use calls::Answer;
use page::{ALARMS_LEN, CLOCK_LEN, CONTROL_LEN, LOG_LEN, REGISTER_LEN};
use phases_meter::ThreePhaseMeter;
use phases_page::{
    LIMITERS, LIMITERS_LEN, MONITORED_LEN, THREE_PHASE_ALARMS, THREE_PHASE_CLOCK,
    THREE_PHASE_CONTROL, THREE_PHASE_ERRORS, THREE_PHASE_FIRST_LOG, THREE_PHASE_PAGE_LEN,
    THREE_PHASE_SECOND_LOG, THREE_PHASE_THIRD_LOG,
};
use phases_steps::{Limiters, MonitoredValue, ThreePhaseScalars};

fn put_three_phase_directory(out: &mut [u8])
    requires { three_phase_start ≤ length out.old }
    ensures { out.new ≡ sets out.old 0 three_phase_directory }
{
    areas::put_pair(out, 0, THREE_PHASE_CONTROL, CONTROL_LEN);
    areas::put_pair(out, 4, LIMITERS, LIMITERS_LEN);
    areas::put_pair(out, 8, THREE_PHASE_CLOCK, CLOCK_LEN);
    areas::put_pair(out, 12, THREE_PHASE_ALARMS, ALARMS_LEN);
    areas::put_pair(out, 16, THREE_PHASE_ERRORS, REGISTER_LEN);
    areas::put_pair(out, 20, THREE_PHASE_FIRST_LOG, LOG_LEN);
    areas::put_pair(out, 24, THREE_PHASE_SECOND_LOG, LOG_LEN);
    areas::put_pair(out, 28, THREE_PHASE_THIRD_LOG, LOG_LEN);
}

fn put_monitored(out: &mut [u8], at: usize, m: MonitoredValue)
    requires { at + monitored_area.width ≤ length out.old }
    ensures { out.new ≡ sets out.old at (monitored_area.enc m) }
{
    codec::put_u32(out, at, m.threshold.unsigned_abs());
    codec::put_flag(out, at + 4, m.exceeded);
    codec::put_u32(out, at + 5, m.run);
}

// Over and Under, which the four monitored values share, and the values in their order.
fn put_limiters(out: &mut [u8], at: usize, l: Limiters)
    requires { at + limiters_area.width ≤ length out.old }
    ensures { out.new ≡ sets out.old at (limiters_area.enc l) }
{
    codec::put_u32(out, at, l.over);
    codec::put_u32(out, at + 4, l.under);
    put_monitored(out, at + 8, l.l1);
    put_monitored(out, at + 8 + MONITORED_LEN, l.l2);
    put_monitored(out, at + 8 + 2 * MONITORED_LEN, l.l3);
    put_monitored(out, at + 8 + 3 * MONITORED_LEN, l.sum);
}

// The directory and the areas before the logs.
fn put_three_phase_scalars(out: &mut [u8], m: ThreePhaseScalars)
    requires { three_phase_size ≤ length out.old }
    ensures { out.new ≡ with_three_phase_scalars out.old m }
{
    let status = m.status;
    put_three_phase_directory(out);
    areas::put_control(out, THREE_PHASE_CONTROL, status.control);
    put_limiters(out, LIMITERS, m.limiters);
    codec::put_u32(out, THREE_PHASE_CLOCK, status.clock);
    areas::put_alarms(out, THREE_PHASE_ALARMS, status.alarms);
    areas::put_register(out, THREE_PHASE_ERRORS, status.errors);
}

// Writes the record's page into the first 586 bytes of the buffer. Refuses a record that is not
// sound by the event table with 12, then a buffer that is too short with 8, and then writes nothing.
pub fn write_three_phase_page(m: ThreePhaseMeter, table: &[u16; 256], out: &mut [u8]) -> Answer
    ensures value { (result ≡ three_phase_write_answer (table_in table.now) m out.old) × (out.new ≡ three_phase_written (table_in table.now) m out.old) }
    ensures restored { result ≡ Answer.Accepted → three_phase_read_of (table_in table.now) (take three_phase_size out.new) ≡ three_phase_accepted_outcome m }
    ensures demand3 { ThreePhaseDemand3 }
    ensures examples { Examples }
{
    // In parts, the arrays lent: each call that takes the whole record copies it.
    let scalars = m.scalars;
    if !(scalars.sound() & logs::sound(table, &m.logs.counts, &m.logs.clocks, &m.logs.codes)) {
        return Answer::Refused(12);
    }
    write_three_phase_sound(scalars, &m.logs.counts, &m.logs.clocks, &m.logs.codes, out)
}

// The same with no test of the record, which is lent in parts: for one that is known to be sound, since
// the reader has taken it, or a call on a sound record has handed it back. The table plays no part.
pub fn write_three_phase_sound<'a>(
    scalars: ThreePhaseScalars,
    counts: &'a [u8; 3],
    clocks: &'a [u32; 96],
    codes: &'a [u8; 96],
    out: &mut [u8],
) -> Answer
    ensures three_phase_writes_sound { ThreePhaseWritesSound (three_phase_with_logs scalars counts.now clocks.now codes.now) out.old result out.new }
    ensures every_record { ThreePhaseWritesEveryRecord }
{
    if out.len() < THREE_PHASE_PAGE_LEN {
        return Answer::Refused(8);
    }
    put_three_phase_scalars(out, scalars);
    areas::put_logs(out, THREE_PHASE_FIRST_LOG, counts, clocks, codes);
    Answer::Accepted
}
