// The limiter (DLMS class 71): samples above the threshold, counted.
#![tactic(auto)]

ghost use Rattle.std.specs.Prelude.{◌≡◌};
ghost use Rattle.limiter.specs.Limiter.{is_over, is_threshold, is_duration, awaited, counts, with_run, watched, sampled_power, with_settings, restarted, armed, sound_limiter};
ghost use Rattle.limiter.specs.Laws.{Laws, ArmedLaws};
ghost use Rattle.limiter.specs.NearMisses.{NearMisses};

#[derive(Clone, Copy)]
pub struct Limiter {
    pub threshold: i32,
    pub over: u32,
    pub under: u32,
    pub exceeded: bool,
    pub run: u32,
}

// The limiter after a sample, and whether the sample changed Exceeded. No Option: the limiter changes
// whether the sample fired or not.
#[derive(Clone, Copy)]
pub struct Watched {
    pub limiter: Limiter,
    pub fired: bool,
}

// A sample is over if its power is above the threshold.
fn is_over(threshold: i32, power: i32) -> bool
    ensures { result ≡ is_over threshold power }
{
    threshold < power
}

// The range of the threshold, in watts; its upper end is its type's.
pub fn is_threshold(watts: i32) -> bool
    ensures { result ≡ is_threshold watts }
{
    0 <= watts
}

// The range of both durations, in samples.
pub fn is_duration(n: u32) -> bool
    ensures { result ≡ is_duration n }
{
    (1..=86400).contains(&n)
}

// A sample counts towards a change of Exceeded: one that is not over while it is Exceeded, one that
// is over while it is not.
fn is_counted(exceeded: bool, over: bool) -> bool
    ensures { result ≡ counts exceeded over }
{
    over != exceeded
}

impl Limiter {
    // How many samples in a row change Exceeded.
    fn awaited(self) -> u32
        ensures { result ≡ awaited self }
    {
        if self.exceeded { self.under } else { self.over }
    }

    // The ranges of the settings, and Run below the duration that is awaited.
    #[tactic(auto, unfolding(crate::specs::Limiter::sound_limiter))]
    pub fn sound(self) -> bool
        ensures value { result ≡ sound_limiter self }
        ensures near_misses { NearMisses }
    {
        is_threshold(self.threshold)
            & is_duration(self.over)
            & is_duration(self.under)
            & (self.run < self.awaited())
    }

    // The same settings, with Exceeded and Run as given.
    fn with_run(self, exceeded: bool, run: u32) -> Limiter
        ensures { result ≡ with_run self exceeded run }
    {
        Limiter {
            exceeded,
            run,
            ..self
        }
    }

    // The limiter after a sample that is over or not.
    #[tactic(auto, unfolding(crate::specs::Limiter::watched))]
    pub fn watch(self, over: bool) -> Watched
        ensures { result ≡ watched self over }
    {
        if !is_counted(self.exceeded, over) {
            return Watched {
                limiter: self.restart(),
                fired: false,
            };
        }
        // In a record that is not sound, Run may be the largest number of 32 bits: no duration is longer.
        let run = self.run.saturating_add(1);
        if self.awaited() <= run {
            return Watched {
                limiter: self.with_run(!self.exceeded, 0),
                fired: true,
            };
        }
        Watched {
            limiter: self.with_run(self.exceeded, run),
            fired: false,
        }
    }

    // The limiter after a sample of power, judged by the threshold in force.
    pub fn sample(self, threshold: i32, power: i32) -> Watched
        ensures value { result ≡ sampled_power self threshold power }
        ensures laws { Laws }
    {
        self.watch(is_over(threshold, power))
    }

    // New settings start a new run; Exceeded stays.
    pub fn set(self, threshold: i32, over: u32, under: u32) -> Limiter
        ensures { result ≡ with_settings self threshold over under }
    {
        Limiter {
            threshold,
            over,
            under,
            exceeded: self.exceeded,
            run: 0,
        }
    }

    // Another threshold is in force: a new run begins; Exceeded stays.
    pub fn restart(self) -> Limiter
        ensures { result ≡ restarted self }
    {
        self.with_run(self.exceeded, 0)
    }

    // Armed again: whatever was seen before no longer counts.
    pub fn arm(self) -> Limiter
        ensures value { result ≡ armed self }
        ensures laws { ArmedLaws }
    {
        self.with_run(false, 0)
    }
}
