// A sample, the one call that makes the limiter act. An emergency profile may begin with it and end
// with it, and either may put another threshold in force: that begins a new run, and leaves a line
// before or after those of the sample itself.
ghost use Rattle.std.specs.Prelude.{◌≡◌, ◌||◌, cond, [], ◌∷◌, leb};
ghost use Rattle.limiter.specs.Limiter.{watching};
ghost use Rattle.machine.specs.Machine.{line_now, moving, decided, restarted_by, after_sample, sample_result};
ghost use Rattle.steps.specs.Scalars.{values_of};
ghost use Rattle.steps.specs.Step.{after_normal, quiet_sample, step_for, led_by, ended_by};

use crate::{LINES, Scalars, Step};
use calls::Letter;
use control::{Decision, Request};
use limiter::Limiter;

// A new run if another threshold is in force. It takes that answer and not the two thresholds, since the
// same answer also says whether a line is left.
pub(crate) fn restarted(limiter: Limiter, same: bool) -> Limiter
    ensures { result ≡ restarted_by same limiter }
{
    if same {
        return limiter;
    }
    limiter.restart()
}

impl Step {
    // With a line 67 before the others, unless the threshold in force is the same. The test of the
    // count bounds the index: a sample by itself leaves two lines at most, so that there is always room.
    fn led_by_change(mut self, same: bool) -> Step
        ensures { result ≡ cond (same || leb 4 self.count) self (led_by self 67) }
    {
        if same | (LINES <= self.count) {
            return self;
        }
        let clocks = self.clocks;
        let codes = self.codes;
        let led_clocks = [self.scalars.clock, clocks[0], clocks[1], clocks[2]];
        let led_codes = [67, codes[0], codes[1], codes[2]];
        self.clocks = led_clocks;
        self.codes = led_codes;
        self.count = self.count + 1;
        self
    }

    // With a line 67 behind the others, unless the threshold in force is the same.
    fn ended_by_change(mut self, same: bool) -> Step
        ensures { result ≡ cond (same || leb 4 self.count) self (ended_by self 67) }
    {
        let at = self.count;
        if same | (LINES <= at) {
            return self;
        }
        self.clocks[at] = self.scalars.clock;
        self.codes[at] = 67;
        self.count = at + 1;
        self
    }
}

impl Scalars {
    // The limiter's firing: its own line, then the request that it makes. A mode that is not listed
    // for the request is no refusal here: nothing is tried.
    fn fired(self, code: u8, request: Request) -> Step
        ensures { result ≡ step_for (moving (values_of self) (line_now (values_of self) code ∷ []) (decided (values_of self) request)) }
    {
        let status = self.status();
        match status.decide(request) {
            Decision::Move {
                to,
                code: next,
                opens,
                letter,
            } => self.with(
                status
                    .moved(to, opens)
                    .logged_two(3, self.clock, code, next, letter),
            ),
            Decision::Stay => self.with(status.logged(3, code, Letter::None)),
            Decision::NotListed => self.with(status.logged(3, code, Letter::None)),
        }
    }

    // What a sample that fired or not makes of the switch.
    fn watched(self, fired: bool) -> Step
        ensures { result ≡ step_for (after_sample (values_of self) [] (watching self.limiter fired ∷ [])) }
    {
        if !fired {
            return self.with(self.status().accepted(3));
        }
        if self.limiter.exceeded {
            return self.fired(65, Request::LocalDisconnect);
        }
        self.fired(66, Request::LocalReconnect)
    }

    // The scalars after a sample that is judged by the normal threshold, whether it fires or not: clock
    // and limiter have moved, and the switch has not.
    pub fn normal_sample(self, power: i32) -> Scalars
        ensures { result ≡ after_normal self power }
    {
        let watched = self.limiter.sample(self.limiter.threshold, power);
        Scalars {
            limiter: watched.limiter,
            clock: base::next_held(self.clock),
            ..self
        }
    }

    // Nearly every sample is quiet: it finds no emergency profile and does not fire. Then it moves the
    // clock and the run alone, and leaves no line: these are the scalars after it.
    pub fn quiet_sample(self, power: i32) -> Option<Scalars>
        ensures { result ≡ quiet_sample self power }
    {
        let watched = self.limiter.sample(self.limiter.threshold, power);
        if (self.emergency.state != 0) | watched.fired {
            return None;
        }
        Some(self.normal_sample(power))
    }

    // The clock goes on before anything else: a profile starts by it, and a line bears it.
    pub(crate) fn sample(mut self, power: i32) -> Step
        ensures { result ≡ step_for (sample_result (values_of self) (power ∷ [])) }
    {
        self.clock = base::next_held(self.clock);
        let normal = self.limiter.threshold;
        // The profile takes both its steps at once: `during` is what the sample is judged by.
        let before = self.emergency.in_force(normal);
        self.emergency = self.emergency.start(self.clock);
        let during = self.emergency.in_force(normal);
        self.emergency = self.emergency.end();
        let after = self.emergency.in_force(normal);
        let starts_same = before == during;
        let ends_same = during == after;
        let watched = restarted(self.limiter, starts_same).sample(during, power);
        self.limiter = restarted(watched.limiter, ends_same);
        self.watched(watched.fired)
            .led_by_change(starts_same)
            .ended_by_change(ends_same)
    }
}
