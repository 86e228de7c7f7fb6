// The four monitored values, each a limiter with the over and under duration of all; the call that sets
// them, and the manual reconnect that arms them again.
ghost use Rattle.std.specs.Prelude.{◌≡◌, map};
ghost use Rattle.base.specs.Tests.{every};
ghost use Rattle.limiter.specs.Limiter.{sound_limiter, armed};
ghost use Rattle.machine.specs.Settings.{limits_answer};
ghost use Rattle.control.specs.declared.Request.TheVariants.{ManualReconnect};
ghost use Rattle.machine.specs.Machine.{settings_each, request_result, limiter_result};
ghost use Rattle.phases.specs.ThreePhase.{in_order};
ghost use Rattle.phases_steps.specs.Scalars.{limiter_with, value_of, limiters_in, limiters_from, three_phase_values};
ghost use Rattle.phases_steps.specs.Step.{three_phase_step_of};

use crate::{Limiters, MonitoredValue, ThreePhaseScalars, ThreePhaseStep};
use calls::{Answer, Letter};
use control::Request;
use limiter::Limiter;

// What a limiter setting is answered, of a fresh meter and of a call: refused with 4 if a threshold is
// negative, with 5 if a duration is not 1 to 86,400.
pub fn judge_settings(l1: i32, l2: i32, l3: i32, sum: i32, over: u32, under: u32) -> Answer
    ensures { result ≡ limits_answer (in_order l1 l2 l3 sum) over under }
{
    if (l1 < 0) | (l2 < 0) | (l3 < 0) | (sum < 0) {
        return Answer::Refused(4);
    }
    if !(limiter::is_duration(over) & limiter::is_duration(under)) {
        return Answer::Refused(5);
    }
    Answer::Accepted
}

// A limiter's own part: over and under duration are shared.
pub(crate) fn value_of(limiter: Limiter) -> MonitoredValue
    ensures { result ≡ value_of limiter }
{
    MonitoredValue {
        threshold: limiter.threshold,
        exceeded: limiter.exceeded,
        run: limiter.run,
    }
}

impl Limiters {
    // A monitored value as a limiter.
    pub(crate) fn limiter(self, value: MonitoredValue) -> Limiter
        ensures { result ≡ limiter_with self.over self.under value }
    {
        Limiter {
            threshold: value.threshold,
            over: self.over,
            under: self.under,
            exceeded: value.exceeded,
            run: value.run,
        }
    }

    // Whether each is in its ranges.
    pub(crate) fn sound(self) -> bool
        ensures { result ≡ every sound_limiter (limiters_in self) }
    {
        self.limiter(self.l1).sound()
            & (self.limiter(self.l2).sound()
                & (self.limiter(self.l3).sound() & self.limiter(self.sum).sound()))
    }

    // New settings start a new run of each; Exceeded stays.
    fn set(self, l1: i32, l2: i32, l3: i32, sum: i32, over: u32, under: u32) -> Limiters
        ensures { result ≡ limiters_from (settings_each (limiters_in self) (in_order l1 l2 l3 sum) over under) }
    {
        Limiters {
            over,
            under,
            l1: value_of(self.limiter(self.l1).set(l1, over, under)),
            l2: value_of(self.limiter(self.l2).set(l2, over, under)),
            l3: value_of(self.limiter(self.l3).set(l3, over, under)),
            sum: value_of(self.limiter(self.sum).set(sum, over, under)),
        }
    }

    // Armed again: whatever was seen before no longer counts.
    fn arm(self) -> Limiters
        ensures { result ≡ limiters_from (map armed (limiters_in self)) }
    {
        Limiters {
            over: self.over,
            under: self.under,
            l1: value_of(self.limiter(self.l1).arm()),
            l2: value_of(self.limiter(self.l2).arm()),
            l3: value_of(self.limiter(self.l3).arm()),
            sum: value_of(self.limiter(self.sum).arm()),
        }
    }
}

impl ThreePhaseScalars {
    pub(crate) fn set_limiter(
        mut self,
        l1: i32,
        l2: i32,
        l3: i32,
        sum: i32,
        over: u32,
        under: u32,
    ) -> ThreePhaseStep
        ensures { result ≡ three_phase_step_of self (limiter_result (three_phase_values self) (in_order l1 l2 l3 sum) over under) }
    {
        let answer = judge_settings(l1, l2, l3, sum, over, under);
        if let Answer::Refused(number) = answer {
            return self.with(self.status.refused(number));
        }
        self.limiters = self.limiters.set(l1, l2, l3, sum, over, under);
        self.with(self.status.logged(3, 67, Letter::None))
    }

    // A holder who reconnects with the load still on is cut again: a move by the key arms the limiter of
    // each monitored value.
    pub(crate) fn manual_reconnect(mut self) -> ThreePhaseStep
        ensures { result ≡ three_phase_step_of self (request_result (three_phase_values self) ManualReconnect) }
    {
        let step = self.status.request(Request::ManualReconnect);
        let letter = step.letter;
        let Letter::E = letter else {
            return self.with(step);
        };
        self.limiters = self.limiters.arm();
        self.with(step)
    }
}
