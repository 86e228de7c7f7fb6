// The listing: a line for each record of the input.
ghost use Rattle.std.specs.Prelude.{◌≡◌, ◌-◌, ◌≤◌, length};
ghost use Rattle.replay.specs.Listing.{field, line_bytes, at_end, stored_before, line_of};

use crate::ListingLine;
use meter::Outcome;

// Stores a number's decimal digits, and a byte behind them, just before `end`, and answers the place
// of the first digit.
fn put_field(out: &mut [u8], end: usize, n: u64, last: u8) -> usize
    requires { (length (field n last) ≤ end) × (end ≤ length out.old) }
    ensures { (result ≡ end - length (field n last)) × (out.new ≡ stored_before out.old end (field n last)) }
{
    let mut at = end - 1;
    out[at] = last;
    let mut rest = n;
    while 10 <= rest {
        at -= 1;
        out[at] = b'0' + (rest % 10) as u8;
        rest = rest / 10;
    }
    at -= 1;
    out[at] = b'0' + rest as u8;
    at
}

// The line of four numbers, made from the last to the first.
fn line_with(position: u64, refusal: u8, state: u8, openings: u32) -> ListingLine
    ensures { result ≡ at_end (line_bytes position refusal state openings) }
{
    let mut bytes = [0u8; 40];
    let openings_at = put_field(&mut bytes, 40, openings as u64, b'\n');
    let state_at = put_field(&mut bytes, openings_at, state as u64, b' ');
    let refusal_at = put_field(&mut bytes, state_at, refusal as u64, b' ');
    let start = put_field(&mut bytes, refusal_at, position, b' ');
    ListingLine { bytes, start }
}

// The line of a record of the input, by what it made of the meter.
pub fn line_of(position: u64, outcome: Outcome) -> ListingLine
    ensures { result ≡ line_of position outcome }
{
    let control = outcome.meter.control;
    let answer = outcome.answer;
    line_with(position, answer.number(), control.state, control.openings)
}
