// The three-phase meter's record, and the calls on it.
#![tactic(auto)]

ghost use Rattle.std.specs.Prelude.{◌≡◌};
ghost use Rattle.tables.specs.Index.{table_in};
ghost use Rattle.phases_meter.specs.State.{three_phase_with_logs, sound_three_phase_meter};
ghost use Rattle.phases_meter.specs.Machine.{three_phase_applied, three_phase_commanded};
ghost use Rattle.phases_meter.specs.Laws.{Laws};
ghost use Rattle.phases_meter.specs.NearMisses.{NearMisses};

mod fresh;
mod parts;

use calls::{Answer, Letter};
use logs::Logs;
pub use parts::{ThreePhaseAnswered, apply_sound, command_sound};
use phases::{ThreePhaseCall, ThreePhaseCommand, ThreePhaseParsed};
use phases_steps::ThreePhaseScalars;

#[derive(Clone, Copy)]
pub struct ThreePhaseMeter {
    pub scalars: ThreePhaseScalars,
    pub logs: Logs,
}

// What a call hands back: the record, its answer, and the letter of the move that it made.
#[derive(Clone, Copy)]
pub struct ThreePhaseOutcome {
    pub meter: ThreePhaseMeter,
    pub answer: Answer,
    pub letter: Letter,
}

impl ThreePhaseMeter {
    // The record of these scalars and the logs in these arrays.
    pub fn of_parts(
        scalars: ThreePhaseScalars,
        counts: [u8; 3],
        clocks: [u32; 96],
        codes: [u8; 96],
    ) -> ThreePhaseMeter
        ensures { result ≡ three_phase_with_logs scalars counts clocks codes }
    {
        ThreePhaseMeter {
            scalars,
            logs: Logs {
                counts,
                clocks,
                codes,
            },
        }
    }

    // Whether the record is sound: the ranges of its scalars, and its logs. Each call makes this test
    // first.
    pub fn sound(self, table: &[u16; 256]) -> bool
        ensures value { result ≡ sound_three_phase_meter (table_in table.now) self }
        ensures near_misses { NearMisses }
    {
        self.scalars.sound()
            & logs::sound(
                table,
                &self.logs.counts,
                &self.logs.clocks,
                &self.logs.codes,
            )
    }

    // A call. A record that is not sound comes back as it was. The arrays are copied out and back: two
    // fields of one record cannot be lent for writing at once.
    pub fn apply(mut self, table: &[u16; 256], call: ThreePhaseCall) -> ThreePhaseOutcome
        ensures value { result ≡ three_phase_applied (table_in table.now) self call }
        ensures laws { Laws }
    {
        if !self.sound(table) {
            return ThreePhaseOutcome {
                meter: self,
                answer: Answer::Refused(12),
                letter: Letter::None,
            };
        }
        let mut counts = self.logs.counts;
        let mut clocks = self.logs.clocks;
        let mut codes = self.logs.codes;
        let answered = parts::apply_sound(
            table,
            self.scalars,
            &mut counts,
            &mut clocks,
            &mut codes,
            call,
        );
        let next = answered.scalars;
        let answer = answered.answer;
        let letter = answered.letter;
        ThreePhaseOutcome {
            meter: ThreePhaseMeter::of_parts(next, counts, clocks, codes),
            answer,
            letter,
        }
    }

    // A command. A kind other than 1 to 15 is refused before the record is looked at.
    pub fn command(self, table: &[u16; 256], command: ThreePhaseCommand) -> ThreePhaseOutcome
        ensures { result ≡ three_phase_commanded (table_in table.now) self command }
    {
        let ThreePhaseParsed::Ok(call) = phases::read_command(command) else {
            return ThreePhaseOutcome {
                meter: self,
                answer: Answer::Refused(13),
                letter: Letter::None,
            };
        };
        self.apply(table, call)
    }

    // The fifteen calls, in document 01's order. Each refuses a record that is not sound with 12; with
    // what else it refuses, and when, is said with it.

    // One second's power of each phase in watts, export negative.
    pub fn sample(mut self, table: &[u16; 256], l1: i32, l2: i32, l3: i32) -> ThreePhaseOutcome
        ensures { result ≡ three_phase_applied (table_in table.now) self (ThreePhaseCall.Sample l1 l2 l3) }
    {
        self.apply(table, ThreePhaseCall::Sample(l1, l2, l3))
    }

    // The network centre opens. Refused with 2 in mode 0.
    pub fn remote_disconnect(mut self, table: &[u16; 256]) -> ThreePhaseOutcome
        ensures { result ≡ three_phase_applied (table_in table.now) self ThreePhaseCall.RemoteDisconnect }
    {
        self.apply(table, ThreePhaseCall::RemoteDisconnect)
    }

    // The network centre reconnects, or makes ready. Refused with 2 in mode 0.
    pub fn remote_reconnect(mut self, table: &[u16; 256]) -> ThreePhaseOutcome
        ensures { result ≡ three_phase_applied (table_in table.now) self ThreePhaseCall.RemoteReconnect }
    {
        self.apply(table, ThreePhaseCall::RemoteReconnect)
    }

    // The holder's key opens. Refused with 2 in modes other than 1, 2 and 5.
    pub fn manual_disconnect(mut self, table: &[u16; 256]) -> ThreePhaseOutcome
        ensures { result ≡ three_phase_applied (table_in table.now) self ThreePhaseCall.ManualDisconnect }
    {
        self.apply(table, ThreePhaseCall::ManualDisconnect)
    }

    // The holder's key closes. Refused with 2 in mode 0.
    pub fn manual_reconnect(mut self, table: &[u16; 256]) -> ThreePhaseOutcome
        ensures { result ≡ three_phase_applied (table_in table.now) self ThreePhaseCall.ManualReconnect }
    {
        self.apply(table, ThreePhaseCall::ManualReconnect)
    }

    // The control mode. Refused with 1 above 6.
    pub fn set_mode(mut self, table: &[u16; 256], mode: u32) -> ThreePhaseOutcome
        ensures { result ≡ three_phase_applied (table_in table.now) self (ThreePhaseCall.SetMode mode) }
    {
        self.apply(table, ThreePhaseCall::SetMode(mode))
    }

    // The thresholds of the phases and of their sum in watts, over and under duration in samples. Refused
    // with 4 if a threshold is negative, with 5 if a duration is not 1 to 86,400.
    pub fn set_limiter(
        mut self,
        table: &[u16; 256],
        l1: i32,
        l2: i32,
        l3: i32,
        sum: i32,
        over: u32,
        under: u32,
    ) -> ThreePhaseOutcome
        ensures { result ≡ three_phase_applied (table_in table.now) self (ThreePhaseCall.SetLimiter l1 l2 l3 sum over under) }
    {
        self.apply(
            table,
            ThreePhaseCall::SetLimiter(l1, l2, l3, sum, over, under),
        )
    }

    // The clock, in seconds.
    pub fn set_clock(mut self, table: &[u16; 256], clock: u32) -> ThreePhaseOutcome
        ensures { result ≡ three_phase_applied (table_in table.now) self (ThreePhaseCall.SetClock clock) }
    {
        self.apply(table, ThreePhaseCall::SetClock(clock))
    }

    // An event by its code. Refused with 6 if the table does not list it.
    pub fn event(mut self, table: &[u16; 256], code: u32) -> ThreePhaseOutcome
        ensures { result ≡ three_phase_applied (table_in table.now) self (ThreePhaseCall.Event code) }
    {
        self.apply(table, ThreePhaseCall::Event(code))
    }

    // The bits that events do not set from now on.
    pub fn set_alarm_filter(mut self, table: &[u16; 256], filter: u32) -> ThreePhaseOutcome
        ensures { result ≡ three_phase_applied (table_in table.now) self (ThreePhaseCall.SetAlarmFilter filter) }
    {
        self.apply(table, ThreePhaseCall::SetAlarmFilter(filter))
    }

    // The same for the error register.
    pub fn set_error_filter(mut self, table: &[u16; 256], filter: u32) -> ThreePhaseOutcome
        ensures { result ≡ three_phase_applied (table_in table.now) self (ThreePhaseCall.SetErrorFilter filter) }
    {
        self.apply(table, ThreePhaseCall::SetErrorFilter(filter))
    }

    // The bits that are one in the mask are cleared.
    pub fn clear_alarms(mut self, table: &[u16; 256], mask: u32) -> ThreePhaseOutcome
        ensures { result ≡ three_phase_applied (table_in table.now) self (ThreePhaseCall.ClearAlarms mask) }
    {
        self.apply(table, ThreePhaseCall::ClearAlarms(mask))
    }

    // The same for the error register.
    pub fn clear_errors(mut self, table: &[u16; 256], mask: u32) -> ThreePhaseOutcome
        ensures { result ≡ three_phase_applied (table_in table.now) self (ThreePhaseCall.ClearErrors mask) }
    {
        self.apply(table, ThreePhaseCall::ClearErrors(mask))
    }

    // A log by its number, which then holds one line. Refused with 7 if it is not 1 to 3.
    pub fn clear_log(mut self, table: &[u16; 256], log: u32) -> ThreePhaseOutcome
        ensures { result ≡ three_phase_applied (table_in table.now) self (ThreePhaseCall.ClearLog log) }
    {
        self.apply(table, ThreePhaseCall::ClearLog(log))
    }

    // Script 1 is a remote disconnect, 2 a remote reconnect. Refused with 3 if it is another, with 2 as
    // those are.
    pub fn script(mut self, table: &[u16; 256], number: u32) -> ThreePhaseOutcome
        ensures { result ≡ three_phase_applied (table_in table.now) self (ThreePhaseCall.Script number) }
    {
        self.apply(table, ThreePhaseCall::Script(number))
    }
}
