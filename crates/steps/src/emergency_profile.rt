// The calls that set the groups and the emergency profile.
ghost use Rattle.std.specs.Prelude.{◌≡◌};
ghost use Rattle.history.specs.OnePhase.{ids_of, profile_with};
ghost use Rattle.machine.specs.Machine.{groups_result, profile_result};
ghost use Rattle.steps.specs.Scalars.{values_of};
ghost use Rattle.steps.specs.Step.{step_of};

use crate::sampling::restarted;
use crate::{Scalars, Step};
use calls::Letter;

impl Scalars {
    // Two ids to a number, the high half first. The count is judged at its full width.
    pub(crate) fn set_groups(mut self, count: u32, a: u32, b: u32, c: u32, d: u32) -> Step
        ensures { result ≡ step_of self (groups_result (values_of self) count (ids_of a b c d)) }
    {
        if 8 < count {
            return self.with(self.status().refused(14));
        }
        let ids = [
            (a / 65536) as u16,
            (a % 65536) as u16,
            (b / 65536) as u16,
            (b % 65536) as u16,
            (c / 65536) as u16,
            (c % 65536) as u16,
            (d / 65536) as u16,
            (d % 65536) as u16,
        ];
        self.emergency = self.emergency.set_groups(count as u8, ids);
        self.with(self.status().accepted(0))
    }

    // The id is looked up at its full width. A profile that waits leaves the normal threshold in force,
    // so that the change goes from what was in force to that.
    pub(crate) fn set_profile(
        mut self,
        id: u32,
        threshold: i32,
        activation: u32,
        duration: u32,
    ) -> Step
        ensures { result ≡ step_of self (profile_result (values_of self) (profile_with id threshold activation duration)) }
    {
        let Some(found) = self.emergency.find(id) else {
            return self.with(self.status().refused(15));
        };
        if !(emergency::is_duration(duration) & (0 <= threshold)) {
            return self.with(self.status().refused(16));
        }
        let normal = self.limiter.threshold;
        let same = self.emergency.in_force(normal) == normal;
        self.limiter = restarted(self.limiter, same);
        self.emergency = self
            .emergency
            .set_profile(found, threshold, activation, duration);
        if same {
            return self.with(self.status().accepted(3));
        }
        self.with(self.status().logged(3, 67, Letter::None))
    }
}
