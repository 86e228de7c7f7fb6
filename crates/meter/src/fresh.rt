// The fresh meter: the record that the first call of a history gets.
ghost use Rattle.std.specs.Prelude.{◌≡◌};
ghost use Rattle.meter.specs.State.{record_of};
ghost use Rattle.meter.specs.Fresh.{fresh_state, refused_outcome, fresh_of, FreshLaws};
ghost use Rattle.meter.specs.Settings.{settings_of};

use crate::{Meter, Outcome};
use calls::{Answer, Letter};
use control::Control;
use emergency::Emergency;
use limiter::Limiter;
use logs::Logs;
use registers::{Alarms, Register};

// The record of these settings, which are not judged here.
fn with_settings(mode: u8, threshold: i32, over: u32, under: u32, clock: u32) -> Meter
    ensures { result ≡ record_of (fresh_state (settings_of mode threshold over under clock)) }
{
    Meter {
        control: Control {
            mode,
            state: 1,
            openings: 0,
        },
        limiter: Limiter {
            threshold,
            over,
            under,
            exceeded: false,
            run: 0,
        },
        clock,
        alarms: Alarms {
            register: Register { bits: 0, filter: 0 },
            count: 0,
        },
        errors: Register { bits: 0, filter: 0 },
        logs: Logs {
            counts: [0u8; 3],
            clocks: [0u32; 96],
            codes: [0u8; 96],
        },
        emergency: Emergency {
            id: 0,
            threshold: 0,
            activation: 0,
            duration: 0,
            left: 0,
            state: 0,
            count: 0,
            ids: [0u16; 8],
        },
    }
}

impl Outcome {
    // Where there is no record to hand back, a refusal hands back a sound meter all the same, always
    // the same one.
    pub fn refused(number: u8) -> Outcome
        ensures { result ≡ refused_outcome number }
    {
        let meter = with_settings(0, 0, 1, 1, 0);
        Outcome {
            meter,
            answer: Answer::Refused(number),
            letter: Letter::None,
        }
    }
}

impl Meter {
    // A meter with these settings: connected, with nothing counted, raised or logged. Refused with 1
    // for a mode above 6, judged at its full width, with 4 if the threshold is negative, with 5 if a
    // duration is not 1 to 86,400.
    pub fn fresh(mode: u32, threshold: i32, over: u32, under: u32, clock: u32) -> Outcome
        ensures value { result ≡ fresh_of (settings_of mode threshold over under clock) }
        ensures laws { FreshLaws }
    {
        if 6 < mode {
            return Outcome::refused(1);
        }
        let judged = steps::judge_limits(threshold, over, under);
        if let Answer::Refused(number) = judged {
            return Outcome::refused(number);
        }
        let meter = with_settings(mode as u8, threshold, over, under, clock);
        Outcome {
            meter,
            answer: Answer::Accepted,
            letter: Letter::None,
        }
    }
}
