// The page's reader.
#![tactic(auto)]

ghost use Rattle.std.specs.Prelude.{◌≡◌};
ghost use Rattle.tables.specs.Index.{table_in};
ghost use Rattle.page.specs.Layout.{read_of};
ghost use Rattle.page.specs.Laws.{Laws, WrittenBack};
ghost use Rattle.page.specs.NearMisses.{NearMisses};

mod areas;
mod three_phase;

use calls::{Answer, Letter};
use meter::{Meter, Outcome};
use page::{FIRST_LOG, PAGE_LEN};
pub use three_phase::read_three_phase_page;

// The record of a page: 9 if the length is not 599, 10 if a pair differs, 11 if the record would not
// be sound by the event table.
pub fn read_page(table: &[u16; 256], bytes: &[u8]) -> Outcome
    ensures value { result ≡ read_of (table_in table.now) bytes.now }
    ensures written_back { WrittenBack (table_in table.now) result bytes.now }
    ensures laws { Laws }
    ensures near_misses { NearMisses }
{
    if bytes.len() != PAGE_LEN {
        return Outcome::refused(9);
    }
    if !areas::has_pairs(bytes) {
        return Outcome::refused(10);
    }
    if !areas::is_record(bytes) {
        return Outcome::refused(11);
    }
    // The logs first, the scalars last: read before the loops, they would be kept byte by byte.
    let counts = areas::counts_at(bytes, FIRST_LOG);
    let mut clocks = [0u32; 96];
    let mut codes = [0u8; 96];
    areas::lines_at(&mut clocks, &mut codes, bytes, FIRST_LOG, &counts);
    let scalars = areas::scalars_at(bytes);
    if !(scalars.sound() & logs::sound(table, &counts, &clocks, &codes)) {
        return Outcome::refused(11);
    }
    Outcome {
        meter: Meter::of_parts(scalars, counts, clocks, codes),
        answer: Answer::Accepted,
        letter: Letter::None,
    }
}
