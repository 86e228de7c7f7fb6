// What a call makes of the three-phase meter's record without its logs: the next scalars, the answer, the
// letter of its move, and what it does to the logs, which is only named here. A call that touches no
// limiter is the status's, which every meter has.
#![tactic(auto)]

ghost use Rattle.std.specs.Prelude.{◌≡◌};
ghost use Rattle.tables.specs.Index.{table_in};
ghost use Rattle.phases_steps.specs.Scalars.{sound_three_phase_scalars};
ghost use Rattle.phases_steps.specs.Step.{three_phase_result, step_with_limiters, three_phase_step_of};
ghost use Rattle.phases_steps.specs.Laws.{Laws};

mod limiting;
mod sampling;

use calls::{Answer, Letter};
use control::Request;
pub use limiting::judge_settings;
use phases::ThreePhaseCall;
use status::{Status, StatusStep};

// A monitored value: the power of a phase, or the sum of the three.
#[derive(Clone, Copy)]
pub struct MonitoredValue {
    pub threshold: i32,
    pub exceeded: bool,
    pub run: u32,
}

// The limiter: over and under duration for all, and each monitored value.
#[derive(Clone, Copy)]
pub struct Limiters {
    pub over: u32,
    pub under: u32,
    pub l1: MonitoredValue,
    pub l2: MonitoredValue,
    pub l3: MonitoredValue,
    pub sum: MonitoredValue,
}

// The record without its logs.
#[derive(Clone, Copy)]
pub struct ThreePhaseScalars {
    pub status: Status,
    pub limiters: Limiters,
}

// The most lines that a call owes to the logs: a sample's, a firing of each monitored value and the move
// that they try.
const LINES: usize = 5;

// A call's step: the log that it clears (0: none), the log that its lines go to (0 where a call never
// has any), and the lines, the first `count` of each array.
#[derive(Clone, Copy)]
pub struct ThreePhaseStep {
    pub scalars: ThreePhaseScalars,
    pub answer: Answer,
    pub letter: Letter,
    pub cleared: usize,
    pub log: usize,
    pub count: usize,
    pub clocks: [u32; LINES],
    pub codes: [u8; LINES],
}

impl ThreePhaseScalars {
    // Whether they are in their ranges.
    pub fn sound(self) -> bool
        ensures { result ≡ sound_three_phase_scalars self }
    {
        let status = self.status;
        let limiters = self.limiters;
        status.control.sound() & (limiters.sound() & status.alarms.sound())
    }

    // A step of the status, with these limiters.
    pub(crate) fn with(self, step: StatusStep) -> ThreePhaseStep
        ensures { result ≡ step_with_limiters self.limiters step }
    {
        let status = step.status;
        let limiters = self.limiters;
        let answer = step.answer;
        let letter = step.letter;
        let clocks = step.clocks;
        let codes = step.codes;
        ThreePhaseStep {
            scalars: ThreePhaseScalars { status, limiters },
            answer,
            letter,
            cleared: step.cleared,
            log: step.log,
            count: step.count,
            clocks: [clocks[0], clocks[1], clocks[2], clocks[3], 0],
            codes: [codes[0], codes[1], codes[2], codes[3], 0],
        }
    }

    // The step of each call: a match, as a call is an enum with its numbers (document 01's form).
    pub fn step(self, table: &[u16; 256], call: ThreePhaseCall) -> ThreePhaseStep
        ensures value { result ≡ three_phase_step_of self (three_phase_result (table_in table.now) self call) }
        ensures laws { Laws }
    {
        let status = self.status;
        match call {
            ThreePhaseCall::Sample(l1, l2, l3) => self.sample(l1, l2, l3),
            ThreePhaseCall::RemoteDisconnect => {
                self.with(status.request(Request::RemoteDisconnect))
            }
            ThreePhaseCall::RemoteReconnect => self.with(status.request(Request::RemoteReconnect)),
            ThreePhaseCall::ManualDisconnect => {
                self.with(status.request(Request::ManualDisconnect))
            }
            ThreePhaseCall::ManualReconnect => self.manual_reconnect(),
            ThreePhaseCall::SetMode(mode) => self.with(status.set_mode(mode)),
            ThreePhaseCall::SetLimiter(l1, l2, l3, sum, over, under) => {
                self.set_limiter(l1, l2, l3, sum, over, under)
            }
            ThreePhaseCall::SetClock(clock) => self.with(status.set_clock(clock)),
            ThreePhaseCall::Event(code) => self.with(status.event(table, code)),
            ThreePhaseCall::SetAlarmFilter(filter) => self.with(status.set_alarm_filter(filter)),
            ThreePhaseCall::SetErrorFilter(filter) => self.with(status.set_error_filter(filter)),
            ThreePhaseCall::ClearAlarms(mask) => self.with(status.clear_alarms(mask)),
            ThreePhaseCall::ClearErrors(mask) => self.with(status.clear_errors(mask)),
            ThreePhaseCall::ClearLog(log) => self.with(status.clear_log(log)),
            ThreePhaseCall::Script(number) => self.with(status.script(number)),
        }
    }
}
