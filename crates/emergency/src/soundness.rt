// Whether a profile is as the calls leave it: gone without a trace, waiting with all its samples left,
// or active with one left at least.
ghost use Rattle.std.specs.Prelude.{◌≡◌};
ghost use Rattle.emergency.specs.Emergency.{is_empty, in_ranges, sound_profile};

use crate::{Emergency, is_duration};

impl Emergency {
    // The five fields of a profile that is not there. Five tests with no way out between them, where a
    // `==` of two tuples has one behind each and is no plainer.
    fn is_empty(self) -> bool
        ensures { result ≡ is_empty self }
    {
        (self.id == 0)
            & (self.threshold == 0)
            & (self.activation == 0)
            & (self.duration == 0)
            & (self.left == 0)
    }

    // The ranges of a profile that is set.
    fn in_ranges(self) -> bool
        ensures { result ≡ in_ranges self }
    {
        is_duration(self.duration) & limiter::is_threshold(self.threshold)
    }

    // By the state, which comes first: most records have no profile.
    pub(crate) fn profile_sound(self) -> bool
        ensures { result ≡ sound_profile self }
    {
        match self.state {
            0 => self.is_empty(),
            1 => (self.left == self.duration) & self.in_ranges(),
            2 => (1..=self.duration).contains(&self.left) & self.in_ranges(),
            _ => false,
        }
    }
}
