// The emergency profile of the limiter and its group ids (DLMS class 71), as the record and the page
// hold them. A profile is set, waits for its activation, governs its samples and is gone; the group
// ids stay.
#![tactic(auto)]

ghost use Rattle.std.specs.Prelude.{◌≡◌, take};
ghost use Rattle.emergency.specs.Emergency.{is_duration, sound_emergency, groups_in, listed_of, with_groups, with_profile, without_profile};
ghost use Rattle.emergency.specs.Emergency.{started, ended, in_force};
ghost use Rattle.emergency.specs.Laws.{Laws};
ghost use Rattle.emergency.specs.NearMisses.{NearMisses};

mod groups;
mod soundness;

#[derive(Clone, Copy)]
pub struct Emergency {
    // The profile's id: one of the group ids when it was set.
    pub id: u16,
    // In watts: in force instead of the limiter's own while the profile is active.
    pub threshold: i32,
    // The clock from which on a sample makes the profile active.
    pub activation: u32,
    // How many samples the profile governs.
    pub duration: u32,
    // How many of them are left.
    pub left: u32,
    // 0 no profile, 1 waiting, 2 active. A number and no enum: a page may hold any, and a record with any
    // other is not sound.
    pub state: u8,
    // How many group ids there are.
    pub count: u8,
    // The group ids, zeros past the count. A count and eight places, as the page holds them: a record that
    // is not sound may have any of both.
    pub ids: [u16; 8],
}

// No profile and no group ids.
const NO_EMERGENCY: Emergency = Emergency {
    id: 0,
    threshold: 0,
    activation: 0,
    duration: 0,
    left: 0,
    state: 0,
    count: 0,
    ids: [0; 8],
};

// The range of a profile's duration, in samples. It is not the limiter's, and one function of both with
// its end as a parameter would be no plainer than the range itself.
pub fn is_duration(n: u32) -> bool
    ensures { result ≡ is_duration n }
{
    (1..=604800).contains(&n)
}

impl Emergency {
    // Whether profile and group ids are as the calls leave them.
    #[tactic(auto, unfolding(crate::specs::Emergency::sound_emergency))]
    pub fn sound(self) -> bool
        ensures value { result ≡ sound_emergency self }
        ensures near_misses { NearMisses }
    {
        self.profile_sound() & groups::sound(self.count, self.ids)
    }

    // The id among the group ids. A call's id has 32 bits and is compared whole; the one that is found
    // has the 16 bits of a group id.
    pub fn find(self, id: u32) -> Option<u16>
        ensures { result ≡ listed_of (groups_in self) id }
    {
        groups::find(self.count, self.ids, id)
    }

    // The threshold in force where the limiter's own is `normal`.
    pub fn in_force(self, normal: i32) -> i32
        ensures { result ≡ in_force self normal }
    {
        if self.state == 2 {
            return self.threshold;
        }
        normal
    }

    // Before a sample is judged: a profile that waits goes active if the clock, advanced by the
    // sample, has reached its activation.
    pub fn start(self, clock: u32) -> Emergency
        ensures value { result ≡ started clock self }
        ensures laws { Laws }
    {
        if self.state != 1 {
            return self;
        }
        if clock < self.activation {
            return self;
        }
        Emergency { state: 2, ..self }
    }

    // After a sample was judged: one sample less is left, and behind the last there is no profile.
    pub fn end(self) -> Emergency
        ensures { result ≡ ended self }
    {
        if self.state != 2 {
            return self;
        }
        if self.left <= 1 {
            return self.without_profile();
        }
        Emergency {
            left: self.left - 1,
            ..self
        }
    }

    // No profile: its five fields are zero, so that nothing of it shows on the page. The group ids stay.
    fn without_profile(self) -> Emergency
        ensures { result ≡ without_profile self }
    {
        let ids = self.ids;
        Emergency {
            count: self.count,
            ids,
            ..NO_EMERGENCY
        }
    }

    // A new profile in the place of any other. It waits, whatever the clock. Its numbers are judged by
    // the caller.
    pub fn set_profile(self, id: u16, threshold: i32, activation: u32, duration: u32) -> Emergency
        ensures { result ≡ with_profile self id threshold activation duration }
    {
        Emergency {
            id,
            threshold,
            activation,
            duration,
            left: duration,
            state: 1,
            ..self
        }
    }

    // New group ids: the first `count` of eight, and zeros behind them. A profile goes on, whatever its
    // id. The count is judged by the caller; of one above eight all eight are taken.
    pub fn set_groups(self, count: u8, ids: [u16; 8]) -> Emergency
        ensures { result ≡ with_groups self (take count ids) }
    {
        Emergency {
            count: count.min(8),
            ids: groups::zeroed(count, ids),
            ..self
        }
    }
}
