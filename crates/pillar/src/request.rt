// Requests from C.
ghost use Rattle.std.specs.Prelude.{◌≡◌};
ghost use Rattle.tables.specs.Bytes.{table_of};
ghost use Rattle.tables.specs.Index.{table_in};
ghost use Rattle.pillar.specs.Request.{Requested};
ghost use Rattle.pillar.specs.RequestLaws.{RequestLaws};

use calls::Answer;

// A request on the meter of a page, by an event table that is loaded.
fn request_on_page(
    table: &[u16; 256],
    page: &mut [u8],
    request: &[u8],
    answer: &mut [u8],
    length: &mut usize,
    letter: &mut u8,
) -> u32
    ensures { Requested (table_in table.now) page.old request.now answer.old result page.new answer.new length.new letter.new }
{
    *length = 0;
    *letter = 0;
    if answer.len() < 32 {
        return 21;
    }
    let read = reader::read_page(table, page);
    let taken = read.answer;
    if let Answer::Refused(number) = taken {
        return number as u32;
    }
    // The reader takes sound records alone, and a request keeps a sound record sound.
    let served = server::serve_sound(read.meter, table, request, answer);
    let refusal = served.answer;
    if let Answer::Refused(number) = refusal {
        return number as u32;
    }
    *length = served.length;
    let made = served.letter;
    *letter = made.byte();
    if !served.carried {
        return 0;
    }
    let meter = served.meter;
    let after = meter.scalars();
    writer::write_sound(
        after,
        &meter.logs.counts,
        &meter.logs.clocks,
        &meter.logs.codes,
        page,
    )
    .number() as u32
}

// One xDLMS request on the meter of a page: 21 for an answer buffer under 32 bytes, then 9, 10 and 11 as
// `pillar_check`, then 20 for bytes that are no whole request. Else 0: the response stands at the front of
// the buffer, its length in `length`, and the letter of the move that was made in `letter`. Both are
// stored on every way out, 0 where there is none. The page is written only after a SET or an ACTION that
// succeeded.
#[unsafe(no_mangle)]
pub extern "C" fn pillar_request(
    page: &mut [u8],
    table: &[u8],
    request: &[u8],
    answer: &mut [u8],
    length: &mut usize,
    letter: &mut u8,
) -> u32
    ensures requested { Requested (table_of table.now) page.old request.now answer.old result page.new answer.new length.new letter.new }
    ensures laws { RequestLaws }
{
    let index = tables::index_of(table);
    request_on_page(&index, page, request, answer, length, letter)
}
