// The fresh three-phase meter: the record that the first call of a history gets.
ghost use Rattle.std.specs.Prelude.{◌≡◌};
ghost use Rattle.phases_meter.specs.State.{three_phase_record_of};
ghost use Rattle.phases_meter.specs.Fresh.{three_phase_fresh_state, three_phase_refused_outcome, three_phase_fresh_of, FreshLaws};
ghost use Rattle.phases_meter.specs.Settings.{three_phase_settings_of};

use crate::{ThreePhaseMeter, ThreePhaseOutcome};
use calls::{Answer, Letter};
use control::Control;
use logs::Logs;
use phases_steps::{Limiters, MonitoredValue, ThreePhaseScalars};
use registers::{Alarms, Register};
use status::Status;

// The record of these settings, which are not judged here.
fn with_settings(
    mode: u8,
    l1: i32,
    l2: i32,
    l3: i32,
    sum: i32,
    over: u32,
    under: u32,
    clock: u32,
) -> ThreePhaseMeter
    ensures { result ≡ three_phase_record_of (three_phase_fresh_state (three_phase_settings_of mode l1 l2 l3 sum over under clock)) }
{
    ThreePhaseMeter {
        scalars: ThreePhaseScalars {
            status: Status {
                control: Control {
                    mode,
                    state: 1,
                    openings: 0,
                },
                clock,
                alarms: Alarms {
                    register: Register { bits: 0, filter: 0 },
                    count: 0,
                },
                errors: Register { bits: 0, filter: 0 },
            },
            limiters: Limiters {
                over,
                under,
                l1: MonitoredValue {
                    threshold: l1,
                    exceeded: false,
                    run: 0,
                },
                l2: MonitoredValue {
                    threshold: l2,
                    exceeded: false,
                    run: 0,
                },
                l3: MonitoredValue {
                    threshold: l3,
                    exceeded: false,
                    run: 0,
                },
                sum: MonitoredValue {
                    threshold: sum,
                    exceeded: false,
                    run: 0,
                },
            },
        },
        logs: Logs {
            counts: [0u8; 3],
            clocks: [0u32; 96],
            codes: [0u8; 96],
        },
    }
}

impl ThreePhaseOutcome {
    // Where there is no record to hand back, a refusal hands back a sound meter all the same, always
    // the same one.
    pub fn refused(number: u8) -> ThreePhaseOutcome
        ensures { result ≡ three_phase_refused_outcome number }
    {
        let meter = with_settings(0, 0, 0, 0, 0, 1, 1, 0);
        ThreePhaseOutcome {
            meter,
            answer: Answer::Refused(number),
            letter: Letter::None,
        }
    }
}

impl ThreePhaseMeter {
    // A meter with these settings: connected, with nothing counted, raised or logged. Refused with 1
    // for a mode above 6, judged at its full width, with 4 if a threshold is negative, with 5 if a
    // duration is not 1 to 86,400.
    pub fn fresh(
        mode: u32,
        l1: i32,
        l2: i32,
        l3: i32,
        sum: i32,
        over: u32,
        under: u32,
        clock: u32,
    ) -> ThreePhaseOutcome
        ensures value { result ≡ three_phase_fresh_of (three_phase_settings_of mode l1 l2 l3 sum over under clock) }
        ensures laws { FreshLaws }
    {
        if 6 < mode {
            return ThreePhaseOutcome::refused(1);
        }
        let judged = phases_steps::judge_settings(l1, l2, l3, sum, over, under);
        if let Answer::Refused(number) = judged {
            return ThreePhaseOutcome::refused(number);
        }
        let meter = with_settings(mode as u8, l1, l2, l3, sum, over, under, clock);
        ThreePhaseOutcome {
            meter,
            answer: Answer::Accepted,
            letter: Letter::None,
        }
    }
}
