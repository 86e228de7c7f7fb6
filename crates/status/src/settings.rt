// The calls that set the clock and the filters.
ghost use Rattle.std.specs.Prelude.{◌≡◌};
ghost use Rattle.history.specs.Effects.{alarms, errors};
ghost use Rattle.machine.specs.Machine.{clock_result, filter_result};
ghost use Rattle.status.specs.Status.{status_values};
ghost use Rattle.status.specs.Step.{status_step_for};

use crate::{Status, StatusStep};
use calls::Letter;

impl Status {
    // A line with the clock before and one with the clock after; a clock that is set is valid again,
    // so that error bit 0 goes.
    pub fn set_clock(mut self, clock: u32) -> StatusStep
        ensures { result ≡ status_step_for (clock_result (status_values self) clock) }
    {
        let before = self.clock;
        self.clock = clock;
        self.errors = self.errors.clear(1);
        self.logged_two(1, before, 4, 5, Letter::None)
    }

    // A function for each register, as the alarms are counted.
    pub fn set_alarm_filter(mut self, filter: u32) -> StatusStep
        ensures { result ≡ status_step_for (filter_result (status_values self) alarms filter) }
    {
        self.alarms = self.alarms.set_filter(filter);
        self.accepted(0)
    }

    pub fn set_error_filter(mut self, filter: u32) -> StatusStep
        ensures { result ≡ status_step_for (filter_result (status_values self) errors filter) }
    {
        self.errors = self.errors.set_filter(filter);
        self.accepted(0)
    }
}
