// The listing of the bench program: records are read, and a line for each is written. What a record
// does to the meter, and what its line says, is `replay`'s.
//
// Proved are the texts, each by the bytes it is made of, and that together they are the listing of the
// whole input. No contract here says which bytes a reader gives and a writer takes: it is left to
// comparison that the blocks are the input's bytes, and that each text is written, once and in order.
#![tactic(auto)]

ghost use Rattle.std.specs.Prelude.{◌+◌, ◌≤◌};
ghost use Rattle.listing.specs.Laws.{BlockRead, BlocksRead, InputRead, Laws};
ghost use Rattle.listing.specs.Examples.{Examples};

mod lines;
pub mod reading;

use lines::LINE_LEN;
use meter::Meter;
use replay::RECORD_LEN;
use std::io::{Read, Write};

// The input is read in blocks of whole records, so that a record is cut only where the input ends.
pub(crate) const BLOCK_RECORDS: usize = 195;

pub(crate) const BLOCK_LEN: usize = BLOCK_RECORDS * RECORD_LEN;

// Room for the lines of a block, and `short`.
const TEXT_LEN: usize = BLOCK_RECORDS * LINE_LEN + 6;

// In a block that starts before this position, no position wraps.
const LAST_POSITION: u64 = u64::MAX - 195;

// How far a listing is: the meter, the position of the next record, and whether a block is to be read.
// No Option: how far a listing came is told where it has ended, too.
#[derive(Clone, Copy)]
pub struct Progress {
    pub meter: Meter,
    pub position: u64,
    pub more: bool,
}

// How far a listing came, whether the input could be read so far, and whether all of the text was
// written.
// No Result: a read and a write can both fail, and what was printed before counts in each case.
#[derive(Clone, Copy)]
pub struct ListingEnd {
    pub progress: Progress,
    pub read: bool,
    pub written: bool,
}

// Reads a block and writes its text.
fn print_block<R: Read, W: Write>(input: &mut R, output: &mut W, before: Progress) -> ListingEnd
    requires { before.position + 195 ≤ 18446744073709551615 }
    ensures { BlockRead before result.progress }
{
    let mut block = [0u8; BLOCK_LEN];
    let mut text = [0u8; TEXT_LEN];
    let got = reading::read_part(input, &mut block);
    let count = got.count;
    let part = lines::put_block(&mut text, &block[..count], before);
    let progress = part.progress;
    let len = part.len;
    let written = output.write_all(&text[..len]).is_ok();
    ListingEnd {
        progress,
        read: !got.failed,
        written,
    }
}

// Reads and writes block by block, behind what is printed. A proved loop has to end, and nothing says
// that the input does: this one ends before the position wraps.
fn print_blocks<R: Read, W: Write>(input: &mut R, output: &mut W, first: ListingEnd) -> ListingEnd
    ensures { BlocksRead first.progress result }
{
    let mut printed = first;
    while printed.progress.position < LAST_POSITION && printed.progress.more && printed.written {
        let before = printed.progress;
        printed = print_block(input, output, before);
    }
    printed
}

// Reads records from a reader to its end, and writes their listing to a writer. It stops where a read
// or a write fails.
pub fn print_listing<R: Read, W: Write>(input: &mut R, output: &mut W) -> ListingEnd
    ensures input_read { InputRead result }
    ensures laws { Laws }
    ensures examples { Examples }
{
    let mut bytes = [0u8; RECORD_LEN];
    let mut text = [0u8; LINE_LEN];
    let got = reading::read_part(input, &mut bytes);
    let count = got.count;
    let part = lines::put_first(&mut text, &bytes[..count]);
    let progress = part.progress;
    let len = part.len;
    let written = output.write_all(&text[..len]).is_ok();
    let first = ListingEnd {
        progress,
        read: !got.failed,
        written,
    };
    print_blocks(input, output, first)
}
