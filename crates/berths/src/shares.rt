// What one berth gets: its first part, and its share of what all first parts leave of the limit.
ghost use Rattle.std.specs.Prelude.{◌≡◌, ◌+◌, ◌-◌, ◌<◌, min};
ghost use Rattle.base.specs.Numbers.{positive_part};
ghost use Rattle.berths.specs.Counting.{share_of};

use crate::{Berth, Share};

// The smaller of demand and guarantee.
pub(crate) fn first_part(guarantee: i32, demand: i32) -> u32
    ensures { (result ≡ min (positive_part demand) (positive_part guarantee)) × (result < 2147483648) }
{
    base::positive_part(demand).min(base::positive_part(guarantee))
}

// The most that a berth can get: the smaller of demand and cap.
fn wanted(cap: i32, demand: i32) -> u32
    ensures { (result ≡ min (positive_part demand) (positive_part cap)) × (result < 2147483648) }
{
    base::positive_part(demand).min(base::positive_part(cap))
}

// What a berth gets beyond its first part, of what is left.
fn beyond_first(left: u32, first: u32, wanted: u32) -> u32
    requires { (first < 2147483648) × (wanted < 2147483648) }
    ensures { (result ≡ min left (wanted - first)) × (first + result < 2147483648) }
{
    left.min(wanted.saturating_sub(first))
}

impl Berth {
    // Its share of what is left.
    pub(crate) fn share_of(self, left: u32) -> Share
        ensures { result ≡ share_of left self }
    {
        let first = first_part(self.guarantee, self.demand);
        let more = beyond_first(left, first, wanted(self.cap, self.demand));
        Share {
            allotment: (first + more) as i32,
            left: left - more,
        }
    }
}
