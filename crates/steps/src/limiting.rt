// The call that sets the limiter, and the manual reconnect that arms it again.
ghost use Rattle.std.specs.Prelude.{◌≡◌, [], ◌∷◌};
ghost use Rattle.machine.specs.Settings.{limits_answer};
ghost use Rattle.control.specs.declared.Request.TheVariants.{ManualReconnect};
ghost use Rattle.machine.specs.Machine.{request_result, limiter_result};
ghost use Rattle.steps.specs.Scalars.{values_of};
ghost use Rattle.steps.specs.Step.{step_of};

use crate::{Scalars, Step};
use calls::{Answer, Letter};
use control::Request;

// What a limiter setting is answered, of a fresh meter and of a call: refused with 4 if the threshold is
// negative, with 5 if a duration is not 1 to 86,400.
pub fn judge_limits(threshold: i32, over: u32, under: u32) -> Answer
    ensures { result ≡ limits_answer (threshold ∷ []) over under }
{
    if threshold < 0 {
        return Answer::Refused(4);
    }
    if !(limiter::is_duration(over) & limiter::is_duration(under)) {
        return Answer::Refused(5);
    }
    Answer::Accepted
}

impl Scalars {
    pub(crate) fn set_limiter(mut self, threshold: i32, over: u32, under: u32) -> Step
        ensures { result ≡ step_of self (limiter_result (values_of self) (threshold ∷ []) over under) }
    {
        let answer = judge_limits(threshold, over, under);
        if let Answer::Refused(number) = answer {
            return self.with(self.status().refused(number));
        }
        self.limiter = self.limiter.set(threshold, over, under);
        self.with(self.status().logged(3, 67, Letter::None))
    }

    // A holder who reconnects with the load still on is cut again: a move by the key arms the limiter.
    pub(crate) fn manual_reconnect(mut self) -> Step
        ensures { result ≡ step_of self (request_result (values_of self) ManualReconnect) }
    {
        let step = self.status().request(Request::ManualReconnect);
        let Letter::E = step.letter else {
            return self.with(step);
        };
        self.limiter = self.limiter.arm();
        self.with(step)
    }
}
