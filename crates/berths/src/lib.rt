// One column and its berths: how the column's limit is shared out among them (document 02, A10). All
// powers are in watts.
#![tactic(auto)]

ghost use Rattle.std.specs.Prelude.{◌≡◌};
ghost use Rattle.berths.specs.Allotments.{refusal, filled};
ghost use Rattle.berths.specs.Counting.{answered};
ghost use Rattle.berths.specs.Laws.{Laws};
ghost use Rattle.berths.specs.NearMisses.{NearMisses};

use calls::Answer;

mod counting;
mod shares;

#[repr(C)]
#[derive(Clone, Copy)]
pub struct Berth {
    // What the berth gets whatever its neighbours draw, if it demands as much.
    pub guarantee: i32,
    // The most that it may get.
    pub cap: i32,
    // What it would draw.
    pub demand: i32,
    // What it gets.
    pub allotment: i32,
}

// A column and those of its berths that have been counted. Two flags and not the refusal so far, since a
// fault in a later berth goes before guarantees that are too large already.
#[derive(Clone, Copy)]
pub(crate) struct Column {
    // The limit, a guarantee or a cap is negative, or a guarantee is above its cap.
    pub faulty: bool,
    // The guarantees sum above the limit.
    pub short: bool,
    // What the guarantees leave of the limit.
    pub room: u32,
    // What the first parts leave of the limit.
    pub left: u32,
}

// Why a column is refused, in the order of the tests.
#[derive(Clone, Copy)]
pub(crate) enum ColumnRefusal {
    // No berth, or more than sixteen.
    BerthCount = 22,
    // The limit, a guarantee or a cap is negative, or a guarantee is above its cap.
    BerthPower = 23,
    // The guarantees sum above the limit.
    GuaranteeSum = 24,
}

// What a berth gets, and what is left for those behind it.
#[derive(Clone, Copy)]
pub(crate) struct Share {
    pub allotment: i32,
    pub left: u32,
}

// Fills the allotments of a column's berths: 22 for no berth or more than sixteen, 23 if the limit, a
// guarantee or a cap is negative or a guarantee is above its cap, 24 if the guarantees sum above the
// limit. More than sixteen are not read at all; a refusal leaves every one as it is.
#[tactic(auto, using(crate::proofs::Sharing::laws, crate::proofs::NearMisses::near_misses))]
pub fn allot(limit: i32, berths: &mut [Berth]) -> Answer
    ensures value { (result ≡ answered (refusal limit berths.old)) × (berths.new ≡ filled limit berths.old) }
    ensures laws { Laws }
    ensures near_misses { NearMisses }
{
    if counting::is_wrong_count(berths.len()) {
        return Answer::from(ColumnRefusal::BerthCount);
    }
    let mut column = Column::at_limit(limit);
    for berth in berths.iter() {
        column = column.with_berth(*berth);
    }
    let mut left = match column.left_over() {
        Ok(left) => left,
        Err(refusal) => return Answer::from(refusal),
    };
    for berth in berths.iter_mut() {
        let share = berth.share_of(left);
        berth.allotment = share.allotment;
        left = share.left;
    }
    Answer::Accepted
}
