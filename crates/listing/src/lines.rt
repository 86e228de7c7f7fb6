// The listing's text: that of the first record, and that of a block of later ones.
ghost use Rattle.std.specs.Prelude.{◌≡◌, ◌+◌, ◌≤◌, length};
ghost use Rattle.events.specs.Table.{built_in};
ghost use Rattle.std.specs.Counts.{IsPrefixLen};
ghost use Rattle.replay.specs.Replay.{records_from, meter_after};
ghost use Rattle.listing.specs.Lines.{PutBehind, PutAtStart, shown, lines_in};
ghost use Rattle.listing.specs.Listing.{cut_line, first_text, after_first, block_text, after_block};

use crate::{BLOCK_LEN, BLOCK_RECORDS, Progress};
use meter::Meter;
use replay::{ListingLine, RECORD_LEN};

// The most bytes that a line has.
pub(crate) const LINE_LEN: usize = 40;

// The meter after some records, and the length of the text that their lines are.
#[derive(Clone, Copy)]
struct PutLines {
    meter: Meter,
    len: usize,
}

// The length of the text of a part of the input, and how far the listing is after it.
#[derive(Clone, Copy)]
pub(crate) struct PutText {
    pub len: usize,
    pub progress: Progress,
}

// Puts bytes behind the first `len` bytes of a text, and answers how long the text then is.
fn put_bytes(text: &mut [u8], len: usize, bytes: &[u8]) -> usize
    requires { len + length bytes.now ≤ length text.old }
    ensures { PutBehind text.old len bytes.now result text.new }
{
    let end = len + bytes.len();
    text[len..end].copy_from_slice(bytes);
    end
}

// Puts a line behind the first `len` bytes of a text, and answers how long the text then is.
fn put_line(text: &mut [u8], len: usize, line: ListingLine) -> usize
    requires { len + 40 ≤ length text.old }
    ensures put_behind { PutBehind text.old len (shown line) result text.new }
    ensures upper_bound { result ≤ len + 40 }
{
    // Behind the line's end there are no bytes to show.
    put_bytes(text, len, &line.bytes[line.start.min(LINE_LEN)..])
}

// Puts `short` behind the first `len` bytes of a text, if the last record of so many bytes is cut.
fn put_cut(text: &mut [u8], len: usize, count: usize) -> usize
    requires { len + 6 ≤ length text.old }
    ensures { PutBehind text.old len (cut_line count) result text.new }
{
    if count % RECORD_LEN == 0 {
        return len;
    }
    put_bytes(text, len, b"short\n")
}

// Puts the lines of a block's whole records at the start of a text, the first with this position. The
// bench keeps the built-in event table.
fn put_lines(text: &mut [u8], block: &[u8], position: u64, before: Meter) -> PutLines
    requires { (7800 ≤ length text.old) × (length block.now ≤ 4095) × (position + 195 ≤ 18446744073709551615) }
    ensures meter_value { result.meter ≡ meter_after built_in before (records_from 0 block.now) }
    ensures put_at_start { PutAtStart text.old (lines_in position before block.now) result.len text.new }
    ensures len_bound { result.len ≤ 7800 }
{
    let table = tables::built_in();
    let mut meter = before;
    let mut len = 0;
    for (i, bytes) in block.chunks_exact(RECORD_LEN).enumerate() {
        let record = replay::record_at(bytes, 0);
        let outcome = replay::next(&table, meter, record);
        len = put_line(text, len, replay::line_of(position + i as u64, outcome));
        meter = outcome.meter;
    }
    PutLines { meter, len }
}

// Puts the text of the first bytes of an input, a record's length if there are so many.
pub(crate) fn put_first(text: &mut [u8], bytes: &[u8]) -> PutText
    requires { 40 ≤ length text.old }
    ensures progress_value { result.progress ≡ after_first bytes.now }
    ensures put_at_start { PutAtStart text.old (first_text bytes.now) result.len text.new }
    ensures prefix_len { IsPrefixLen result.len text.new }
{
    let first = replay::record_at(bytes, 0);
    let fresh = replay::start(first);
    let meter = fresh.meter;
    let answer = fresh.answer;
    let accepted = answer.number() == 0;
    let more = (RECORD_LEN <= bytes.len()) & ((first.kind == 0) & accepted);
    let progress = Progress {
        meter,
        position: 2,
        more,
    };
    if bytes.len() < RECORD_LEN {
        let len = put_cut(text, 0, bytes.len());
        return PutText { len, progress };
    }
    if first.kind != 0 {
        let len = put_bytes(text, 0, b"bad\n");
        return PutText { len, progress };
    }
    let len = put_line(text, 0, replay::line_of(1, fresh));
    PutText { len, progress }
}

// Puts the text of a block: the lines of its whole records, and `short` if its last record is cut.
pub(crate) fn put_block(text: &mut [u8], block: &[u8], before: Progress) -> PutText
    requires { (7806 ≤ length text.old) × (length block.now ≤ 4095) × (before.position + 195 ≤ 18446744073709551615) }
    ensures progress_value { result.progress ≡ after_block before block.now }
    ensures put_at_start { PutAtStart text.old (block_text before block.now) result.len text.new }
    ensures prefix_len { IsPrefixLen result.len text.new }
{
    let listed = put_lines(text, block, before.position, before.meter);
    let meter = listed.meter;
    let len = put_cut(text, listed.len, block.len());
    let position = before.position + BLOCK_RECORDS as u64;
    let more = block.len() == BLOCK_LEN;
    let progress = Progress {
        meter,
        position,
        more,
    };
    PutText { len, progress }
}
