// The reader of the three-phase meter's page. Its pairs and its limiter area are read here; what both
// meters have, the areas' functions take from either page.
ghost use Rattle.std.specs.Prelude.{◌≡◌, true, ◌&&◌, ◌+◌, ◌≤◌};
ghost use Rattle.codec.specs.Format.{num_at};
ghost use Rattle.limiter.specs.Limiter.{is_threshold};
ghost use Rattle.tables.specs.Index.{table_in};
ghost use Rattle.phases_page.specs.Layout.{monitored_area, limiters_area, three_phase_size, three_phase_has_pairs, three_phase_meter_in, are_thresholds};
ghost use Rattle.phases_page.specs.Layout.{three_phase_is_record, three_phase_read_of};
ghost use Rattle.phases_page.specs.Laws.{Laws, ThreePhaseWrittenBack};
ghost use Rattle.phases_page.specs.NearMisses.{NearMisses};

use crate::areas;
use calls::{Answer, Letter};
use page::{ALARMS_LEN, CLOCK_LEN, CONTROL_LEN, LOG_LEN, REGISTER_LEN};
use phases_meter::{ThreePhaseMeter, ThreePhaseOutcome};
use phases_page::{
    LIMITERS, LIMITERS_LEN, MONITORED_LEN, THREE_PHASE_ALARMS, THREE_PHASE_CLOCK,
    THREE_PHASE_CONTROL, THREE_PHASE_ERRORS, THREE_PHASE_FIRST_LOG, THREE_PHASE_PAGE_LEN,
    THREE_PHASE_SECOND_LOG, THREE_PHASE_THIRD_LOG,
};
use phases_steps::{Limiters, MonitoredValue, ThreePhaseScalars};
use status::Status;

fn three_phase_has_pairs(s: &[u8]) -> bool
    ensures { result ≡ three_phase_has_pairs s.now }
{
    areas::is_pair(s, 0, THREE_PHASE_CONTROL, CONTROL_LEN)
        & areas::is_pair(s, 4, LIMITERS, LIMITERS_LEN)
        & areas::is_pair(s, 8, THREE_PHASE_CLOCK, CLOCK_LEN)
        & areas::is_pair(s, 12, THREE_PHASE_ALARMS, ALARMS_LEN)
        & areas::is_pair(s, 16, THREE_PHASE_ERRORS, REGISTER_LEN)
        & areas::is_pair(s, 20, THREE_PHASE_FIRST_LOG, LOG_LEN)
        & areas::is_pair(s, 24, THREE_PHASE_SECOND_LOG, LOG_LEN)
        & areas::is_pair(s, 28, THREE_PHASE_THIRD_LOG, LOG_LEN)
}

// Whether the bytes are those of a monitored value: Exceeded is 0 or 1, and the threshold is one that
// its field can hold.
fn is_monitored(s: &[u8], at: usize) -> bool
    requires { at + monitored_area.width ≤ three_phase_size }
    ensures { result ≡ (monitored_area.valid s.now at && is_threshold (monitored_area.dec s.now at).threshold) }
{
    (codec::get_u8(s, at + 4) <= 1) & (codec::get_u32(s, at) <= 2147483647)
}

// Whether the bytes are those of a record, sound or not: those of each monitored value are. Any bytes
// are a number, and the other fields are numbers.
fn three_phase_is_record(s: &[u8]) -> bool
    ensures { result ≡ three_phase_is_record s.now }
{
    is_monitored(s, LIMITERS + 8)
        & is_monitored(s, LIMITERS + 8 + MONITORED_LEN)
        & is_monitored(s, LIMITERS + 8 + 2 * MONITORED_LEN)
        & is_monitored(s, LIMITERS + 8 + 3 * MONITORED_LEN)
}

fn monitored_at(s: &[u8], at: usize) -> MonitoredValue
    requires { (at + monitored_area.width ≤ three_phase_size) × (num_at 4 s.now at ≤ 2147483647) }
    ensures { result ≡ monitored_area.dec s.now at }
{
    MonitoredValue {
        threshold: codec::get_u32(s, at).cast_signed(),
        exceeded: codec::get_flag(s, at + 4),
        run: codec::get_u32(s, at + 5),
    }
}

fn limiters_at(s: &[u8], at: usize) -> Limiters
    requires { (at + limiters_area.width ≤ three_phase_size) × (are_thresholds (limiters_area.dec s.now at) ≡ true) }
    ensures { result ≡ limiters_area.dec s.now at }
{
    let l1 = monitored_at(s, at + 8);
    let l2 = monitored_at(s, at + 8 + MONITORED_LEN);
    let l3 = monitored_at(s, at + 8 + 2 * MONITORED_LEN);
    let sum = monitored_at(s, at + 8 + 3 * MONITORED_LEN);
    Limiters {
        over: codec::get_u32(s, at),
        under: codec::get_u32(s, at + 4),
        l1,
        l2,
        l3,
        sum,
    }
}

// The areas before the logs.
fn three_phase_scalars_at(s: &[u8]) -> ThreePhaseScalars
    requires { three_phase_is_record s.now ≡ true }
    ensures { result ≡ (three_phase_meter_in s.now).scalars }
{
    let control = areas::control_at(s, THREE_PHASE_CONTROL);
    let limiters = limiters_at(s, LIMITERS);
    let alarms = areas::alarms_at(s, THREE_PHASE_ALARMS);
    let errors = areas::register_at(s, THREE_PHASE_ERRORS);
    ThreePhaseScalars {
        status: Status {
            control,
            clock: codec::get_u32(s, THREE_PHASE_CLOCK),
            alarms,
            errors,
        },
        limiters,
    }
}

// The record of a page: 9 if the length is not 586, 10 if a pair differs, 11 if the record would not
// be sound by the event table.
pub fn read_three_phase_page(table: &[u16; 256], bytes: &[u8]) -> ThreePhaseOutcome
    ensures value { result ≡ three_phase_read_of (table_in table.now) bytes.now }
    ensures written_back { ThreePhaseWrittenBack (table_in table.now) result bytes.now }
    ensures laws { Laws }
    ensures near_misses { NearMisses }
{
    if bytes.len() != THREE_PHASE_PAGE_LEN {
        return ThreePhaseOutcome::refused(9);
    }
    if !three_phase_has_pairs(bytes) {
        return ThreePhaseOutcome::refused(10);
    }
    if !three_phase_is_record(bytes) {
        return ThreePhaseOutcome::refused(11);
    }
    // The logs first, the scalars last: read before the loops, they would be kept byte by byte.
    let counts = areas::counts_at(bytes, THREE_PHASE_FIRST_LOG);
    let mut clocks = [0u32; 96];
    let mut codes = [0u8; 96];
    areas::lines_at(
        &mut clocks,
        &mut codes,
        bytes,
        THREE_PHASE_FIRST_LOG,
        &counts,
    );
    let scalars = three_phase_scalars_at(bytes);
    if !(scalars.sound() & logs::sound(table, &counts, &clocks, &codes)) {
        return ThreePhaseOutcome::refused(11);
    }
    ThreePhaseOutcome {
        meter: ThreePhaseMeter::of_parts(scalars, counts, clocks, codes),
        answer: Answer::Accepted,
        letter: Letter::None,
    }
}
