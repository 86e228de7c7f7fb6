// The C interface of the core, on numbers and bytes. A meter's state is its page, as a device keeps it:
// nothing is kept between calls. No function asks anything of its arguments; each answers 0 or the number
// of a refusal, as C is answered and as the functions behind them hand it on, and a refusal leaves every
// byte of the page. An event table goes as bytes with each call on a page: those of a good table, or any
// others, as none at all, for the built-in one. `include/pillar.h` declares them.
// The three-phase meter has functions of its own, on a page of its own.
// Apart from the meters stand the functions of a column, of the energy of a day and of a bill.
#![tactic(auto)]

ghost use Rattle.std.specs.Prelude.{◌≡◌};
ghost use Rattle.events.specs.Table.{built_in};
ghost use Rattle.tables.specs.Bytes.{table_refusal, table_of};
ghost use Rattle.tables.specs.Index.{table_in};
ghost use Rattle.calls.specs.Calls.{command_of};
ghost use Rattle.meter.specs.Settings.{settings_of};
ghost use Rattle.replay.specs.Replay.{replay_answer, replayed};
ghost use Rattle.replay.specs.Numbers.{replay_number, ReplayNumbers};
ghost use Rattle.pillar.specs.Interface.{kept_number, kept_page, fresh_number, fresh_page, Called, check_number};
ghost use Rattle.pillar.specs.Laws.{Laws, CallsCompared};

mod bill;
mod column;
mod day;
mod request;
mod three_phase;

use calls::{Answer, Command, Parsed};
use meter::{Meter, Outcome};

// Writes the record of an accepted outcome into the page.
fn keep(table: &[u16; 256], outcome: Outcome, page: &mut [u8]) -> u32
    ensures { (result ≡ kept_number (table_in table.now) outcome page.old) × (page.new ≡ kept_page (table_in table.now) outcome page.old) }
{
    let answer = outcome.answer;
    if let Answer::Refused(number) = answer {
        return number as u32;
    }
    writer::write_page(outcome.meter, table, page).number() as u32
}

// Writes the page of a fresh meter into the first 599 bytes: 1 for a mode above 6, 4 if the threshold
// is negative, 5 if a duration is not 1 to 86,400, 8 if there are fewer bytes. A fresh meter has logged
// nothing, so that its page is the same by every event table (`fresh_any_table`).
#[unsafe(no_mangle)]
pub extern "C" fn pillar_fresh(
    page: &mut [u8],
    mode: u32,
    threshold: i32,
    over: u32,
    under: u32,
    clock: u32,
) -> u32
    ensures { (result ≡ fresh_number built_in page.old (settings_of mode threshold over under clock)) × (page.new ≡ fresh_page built_in page.old (settings_of mode threshold over under clock)) }
{
    let table = tables::built_in();
    keep(
        &table,
        Meter::fresh(mode, threshold, over, under, clock),
        page,
    )
}

// Whether bytes are a good event table: 17 if their length is not a multiple of 4 or not that of 1 to 64
// lines; else of the first faulty line 18 for a code that is barred or not above the line before, then
// 19 for a log other than 1 to 3 or a bit of 32 to 254.
#[unsafe(no_mangle)]
pub extern "C" fn pillar_table(table: &[u8]) -> u32
    ensures { result ≡ table_refusal table.now }
{
    match tables::judge(table) {
        Ok(()) => 0,
        Err(refusal) => u32::from(refusal.number()),
    }
}

// A command on the meter of a page, by an event table.
fn call_on_page(table: &[u16; 256], page: &mut [u8], command: Command, letter: &mut u8) -> u32
    ensures { Called (table_in table.now) page.old command result page.new letter.new }
{
    *letter = 0;
    let Parsed::Ok(call) = calls::read_kind(command) else {
        return 13;
    };
    let read = reader::read_page(table, page);
    let answer = read.answer;
    if let Answer::Refused(number) = answer {
        return number as u32;
    }
    // The reader takes sound records alone, and a call keeps a sound record sound: neither the call nor
    // the writer tests it once more.
    let meter = read.meter;
    let before = meter.scalars();
    let mut counts = meter.logs.counts;
    let mut clocks = meter.logs.clocks;
    let mut codes = meter.logs.codes;
    let called = meter::apply_sound(table, before, &mut counts, &mut clocks, &mut codes, call);
    let made = called.letter;
    *letter = made.byte();
    let refusal = called.answer;
    if let Answer::Refused(number) = refusal {
        return number as u32;
    }
    let after = called.scalars;
    writer::write_sound(after, &counts, &clocks, &codes, page).number() as u32
}

// One call on the meter of a page, which is then that of the meter after it: 13 for a kind other than
// 1 to 17, whatever the page, then 9, 10 and 11 as `pillar_check`, then the call's own refusals. The
// letter of the move that it made goes into `letter`, 0 for none, also where it is refused.
#[unsafe(no_mangle)]
pub extern "C" fn pillar_call(
    page: &mut [u8],
    table: &[u8],
    kind: u32,
    n1: u32,
    n2: u32,
    n3: u32,
    n4: u32,
    n5: u32,
    letter: &mut u8,
) -> u32
    ensures called { Called (table_of table.now) page.old (command_of kind n1 n2 n3 n4 n5) result page.new letter.new }
    ensures laws { Laws }
    ensures compared { CallsCompared }
{
    let index = tables::index_of(table);
    let command = Command {
        kind,
        n1,
        n2,
        n3,
        n4,
        n5,
    };
    call_on_page(&index, page, command, letter)
}

// Runs a whole list of 21-byte records, the first of which is fresh, and writes the page of its
// history into the first 599 bytes: 100 if there is no byte, 101 if the first record is not fresh,
// 102 if a record is cut short; 1, 4, 5 and 8 as `pillar_fresh`.
#[unsafe(no_mangle)]
pub extern "C" fn pillar_replay(records: &[u8], table: &[u8], page: &mut [u8]) -> u32
    ensures value { (result ≡ replay_number (replay_answer records.now page.old)) × (page.new ≡ replayed (table_of table.now) records.now page.old) }
    ensures numbers { ReplayNumbers }
{
    let index = tables::index_of(table);
    match replay::replay(&index, records, page) {
        Ok(()) => 0,
        Err(error) => error.number(),
    }
}

// Whether `pillar_call` can read a page: 9 if it is not of 599 bytes, 10 if a pair differs, 11 if its
// record would not be sound by the event table.
#[unsafe(no_mangle)]
pub extern "C" fn pillar_check(page: &[u8], table: &[u8]) -> u32
    ensures { result ≡ check_number (table_of table.now) page.now }
{
    let index = tables::index_of(table);
    let read = reader::read_page(&index, page);
    let answer = read.answer;
    answer.number() as u32
}
