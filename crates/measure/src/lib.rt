// What the core does, many times over on a record in memory: a benchmark times these, since a call
// of `pillar` reads and writes a page each time. Something changes from round to round, so that no
// round can be left out. `measure_sound` and `measure_write` take a refused page for that of the meter
// which the reader then hands back; `measure_calls` answers the refusal. The event table is lent as the
// core has it, so that loading is not part of what is timed.
#![tactic(auto)]

ghost use Rattle.std.specs.Prelude.{◌≡◌};
ghost use Rattle.tables.specs.Bytes.{table_of};
ghost use Rattle.tables.specs.Index.{table_in};
ghost use Rattle.page.specs.Layout.{read_of};
ghost use Rattle.replay.specs.Replay.{records_from, meter_after};
ghost use Rattle.measure.specs.Rounds.{calls_answer, calls_page, sound_rounds, write_rounds, written_rounds, page_in_round, read_rounds, page_after_rounds};

use calls::Answer;
use meter::Meter;

// The event table of some bytes, as the core has it.
#[unsafe(no_mangle)]
pub extern "C" fn measure_table(table: &[u8], index: &mut [u16; 256])
    ensures { table_in index.new ≡ table_of table.now }
{
    *index = tables::index_of(table);
}

// The meter after the whole records of a list, each made a call by the method on the whole meter, which
// tests it every time.
fn run_by_method(before: Meter, records: &[u8], table: &[u16; 256]) -> Meter
    ensures { result ≡ meter_after (table_in table.now) before (records_from 0 records.now) }
{
    let mut meter = before;
    let count = records.len() / replay::RECORD_LEN;
    for i in 0..count {
        let record = replay::record_at(records, i * replay::RECORD_LEN);
        let outcome = replay::next(table, meter, record);
        meter = outcome.meter;
    }
    meter
}

// The same, or, if `by_method` is 0, the records run as a list, which tests the meter once.
fn run(meter: Meter, records: &[u8], by_method: u32, table: &[u16; 256]) -> Meter
    ensures { result ≡ meter_after (table_in table.now) meter (records_from 0 records.now) }
{
    if by_method != 0 {
        return run_by_method(meter, records, table);
    }
    replay::run_from(table, meter, records, 0)
}

// Runs the whole records of a list, `rounds` times, on the meter of a page, and writes the page.
#[unsafe(no_mangle)]
pub extern "C" fn measure_calls(
    page: &mut [u8],
    records: &[u8],
    rounds: u32,
    by_method: u32,
    table: &[u16; 256],
) -> u32
    ensures { (result ≡ calls_answer (table_in table.now) page.old records.now rounds) × (page.new ≡ calls_page (table_in table.now) page.old records.now rounds) }
{
    let read = reader::read_page(table, page);
    let answer = read.answer;
    if let Answer::Refused(number) = answer {
        return u32::from(number);
    }
    let mut meter = read.meter;
    for _ in 0..rounds {
        meter = run(meter, records, by_method, table);
    }
    u32::from(writer::write_page(meter, table, page).number())
}

// Tests `rounds` times whether the record of a page is sound, and answers how often it was. The
// clock, which the test leaves aside, counts the rounds.
#[unsafe(no_mangle)]
pub extern "C" fn measure_sound(page: &[u8], rounds: u32, table: &[u16; 256]) -> u32
    ensures { result ≡ sound_rounds (table_in table.now) page.now rounds }
{
    let read = reader::read_page(table, page);
    let mut meter = read.meter;
    let mut sound = 0;
    for round in 0..rounds {
        meter.clock = round;
        sound += u32::from(meter.sound(table));
    }
    sound
}

// Writes the record of a page `rounds` times into the same bytes, and answers how often that was
// accepted. The clock counts the rounds.
#[unsafe(no_mangle)]
pub extern "C" fn measure_write(page: &mut [u8], rounds: u32, table: &[u16; 256]) -> u32
    ensures { (result ≡ write_rounds (table_in table.now) page.old rounds) × (page.new ≡ written_rounds (table_in table.now) (read_of (table_in table.now) page.old).meter page.old rounds) }
{
    let read = reader::read_page(table, page);
    let mut meter = read.meter;
    let mut accepted = 0;
    for round in 0..rounds {
        meter.clock = round;
        let answer = writer::write_page(meter, table, page);
        accepted += u32::from(answer.number() == 0);
    }
    accepted
}

// Where the page has the last byte of the clock.
const CLOCK_END: usize = 62;

// Puts the round into that byte, if there is one.
fn count_round(page: &mut [u8], round: u32)
    ensures { page.new ≡ page_in_round page.old round }
{
    if CLOCK_END < page.len() {
        page[CLOCK_END] = (round % 256) as u8;
    }
}

// Reads a page `rounds` times, and answers how often it was accepted. The last byte of its clock
// counts the rounds.
#[unsafe(no_mangle)]
pub extern "C" fn measure_read(page: &mut [u8], rounds: u32, table: &[u16; 256]) -> u32
    ensures { (result ≡ read_rounds (table_in table.now) page.old rounds) × (page.new ≡ page_after_rounds page.old rounds) }
{
    let mut accepted = 0;
    for round in 0..rounds {
        count_round(page, round);
        let read = reader::read_page(table, page);
        accepted += u32::from(read.answer.number() == 0);
    }
    accepted
}
