// The berths of a column counted against its limit, and whether it is refused.
ghost use Rattle.std.specs.Prelude.{◌≡◌};
ghost use Rattle.calls.specs.declared.Answer.TheVariants.{Refused};
ghost use Rattle.berths.specs.Allotments.{is_faulty};
ghost use Rattle.berths.specs.Counting.{is_wrong_count, at_limit, with_berth, left_over, refusal_number};

use crate::{Berth, Column, ColumnRefusal, shares};
use calls::Answer;

// No berth, or more than sixteen, which are refused whatever they hold.
pub(crate) fn is_wrong_count(n: usize) -> bool
    ensures { result ≡ is_wrong_count n }
{
    (n < 1) | (16 < n)
}

// A negative guarantee or cap, or a guarantee above its cap.
fn is_faulty(guarantee: i32, cap: i32) -> bool
    ensures { result ≡ is_faulty guarantee cap }
{
    (guarantee < 0) | (cap < 0) | (cap < guarantee)
}

impl Column {
    // A column with no berth yet.
    pub(crate) fn at_limit(limit: i32) -> Column
        ensures { result ≡ at_limit limit }
    {
        let room = base::positive_part(limit);
        Column {
            faulty: limit < 0,
            short: false,
            room,
            left: room,
        }
    }

    // The column with one berth more. What is at fault is counted and nothing branches on it, so that a
    // loop over the berths runs straight through.
    pub(crate) fn with_berth(self, berth: Berth) -> Column
        ensures { result ≡ with_berth self berth }
    {
        let guaranteed = base::positive_part(berth.guarantee);
        Column {
            faulty: self.faulty | is_faulty(berth.guarantee, berth.cap),
            short: self.short | (self.room < guaranteed),
            room: self.room.saturating_sub(guaranteed),
            left: self
                .left
                .saturating_sub(shares::first_part(berth.guarantee, berth.demand)),
        }
    }

    // What is left of the limit for what its berths get beyond their first parts.
    pub(crate) fn left_over(self) -> Result<u32, ColumnRefusal>
        ensures { result ≡ left_over self }
    {
        if self.faulty {
            return Err(ColumnRefusal::BerthPower);
        }
        if self.short {
            return Err(ColumnRefusal::GuaranteeSum);
        }
        Ok(self.left)
    }
}

impl ColumnRefusal {
    // The refusal's number in document 02.
    fn number(self) -> u8
        ensures { result ≡ refusal_number self }
    {
        self as u8
    }
}

impl From<ColumnRefusal> for Answer {
    ghost from_gives = { λ refusal answer. answer ≡ Refused (refusal_number refusal) };

    fn from(refusal: ColumnRefusal) -> Answer {
        Answer::Refused(refusal.number())
    }
}
