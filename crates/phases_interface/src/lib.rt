// The three-phase meter on numbers and bytes, for a caller from C. A meter's state is its page of 586
// bytes, as a device keeps it: nothing is kept between calls. No function asks anything of its arguments;
// each answers 0 or the number of a refusal, and a refusal leaves every byte of the page. An event table
// goes as bytes with each call on a page: those of a good table, or any others, as none at all, for the
// built-in one.
#![tactic(auto)]

ghost use Rattle.std.specs.Prelude.{◌≡◌};
ghost use Rattle.events.specs.Table.{built_in};
ghost use Rattle.tables.specs.Bytes.{table_of};
ghost use Rattle.phases_meter.specs.Settings.{three_phase_settings_of};
ghost use Rattle.replay.specs.Numbers.{replay_number};
ghost use Rattle.phases_replay.specs.Replay.{three_phase_replay_answer, three_phase_replayed};
ghost use Rattle.phases_interface.specs.Interface.{three_phase_fresh_number, three_phase_fresh_page, ThreePhaseCalled, three_phase_check_number};
ghost use Rattle.phases_interface.specs.Laws.{Laws, ThreePhaseCallsCompared, ThreePhaseReplayNumbers};

use calls::Answer;
use phases::{ThreePhaseCommand, ThreePhaseParsed};
use phases_meter::ThreePhaseMeter;

// Writes the page of a fresh meter into the first 586 bytes: 1 for a mode above 6, 4 if a threshold is
// negative, 5 if a duration is not 1 to 86,400, 8 if there are fewer bytes. A fresh meter has logged
// nothing, so that its page is the same by every event table (`fresh_any_table`).
pub fn fresh_page(
    page: &mut [u8],
    mode: u32,
    l1: i32,
    l2: i32,
    l3: i32,
    sum: i32,
    over: u32,
    under: u32,
    clock: u32,
) -> u32
    ensures { (result ≡ three_phase_fresh_number built_in page.old (three_phase_settings_of mode l1 l2 l3 sum over under clock)) × (page.new ≡ three_phase_fresh_page built_in page.old (three_phase_settings_of mode l1 l2 l3 sum over under clock)) }
{
    let fresh = ThreePhaseMeter::fresh(mode, l1, l2, l3, sum, over, under, clock);
    let answer = fresh.answer;
    if let Answer::Refused(number) = answer {
        return number as u32;
    }
    let table = tables::built_in();
    writer::write_three_phase_page(fresh.meter, &table, page).number() as u32
}

// One command on the meter of a page, which is then that of the meter after it: 13 for a kind other than
// 1 to 15, whatever the page, then 9, 10 and 11 as `check_page`, then the call's own refusals. The letter
// of the move that it made goes into `letter`, 0 for none, also where it is refused.
pub fn call_on_page(
    page: &mut [u8],
    table: &[u8],
    command: ThreePhaseCommand,
    letter: &mut u8,
) -> u32
    ensures three_phase_called { ThreePhaseCalled (table_of table.now) page.old command result page.new letter.new }
    ensures laws { Laws }
    ensures compared { ThreePhaseCallsCompared }
{
    *letter = 0;
    let ThreePhaseParsed::Ok(call) = phases::read_command(command) else {
        return 13;
    };
    let index = tables::index_of(table);
    let read = reader::read_three_phase_page(&index, page);
    let answer = read.answer;
    if let Answer::Refused(number) = answer {
        return number as u32;
    }
    // The reader takes sound records alone, and a call keeps a sound record sound: neither the call nor
    // the writer tests it once more.
    let meter = read.meter;
    let mut counts = meter.logs.counts;
    let mut clocks = meter.logs.clocks;
    let mut codes = meter.logs.codes;
    let called = phases_meter::apply_sound(
        &index,
        meter.scalars,
        &mut counts,
        &mut clocks,
        &mut codes,
        call,
    );
    let made = called.letter;
    *letter = made.byte();
    let refusal = called.answer;
    if let Answer::Refused(number) = refusal {
        return number as u32;
    }
    let after = called.scalars;
    writer::write_three_phase_sound(after, &counts, &clocks, &codes, page).number() as u32
}

// Runs a whole list of 33-byte records, the first of which is fresh, and writes the page of its
// history into the first 586 bytes: 100 if there is no byte, 101 if the first record is not fresh,
// 102 if a record is cut short; 1, 4, 5 and 8 as `fresh_page`.
pub fn replay_page(records: &[u8], table: &[u8], page: &mut [u8]) -> u32
    ensures value { (result ≡ replay_number (three_phase_replay_answer records.now page.old)) × (page.new ≡ three_phase_replayed (table_of table.now) records.now page.old) }
    ensures numbers { ThreePhaseReplayNumbers }
{
    let index = tables::index_of(table);
    match phases_replay::replay_three_phase(&index, records, page) {
        Ok(()) => 0,
        Err(error) => error.number(),
    }
}

// Whether `call_on_page` can read a page: 9 if it is not of 586 bytes, 10 if a pair differs, 11 if its
// record would not be sound by the event table.
pub fn check_page(page: &[u8], table: &[u8]) -> u32
    ensures { result ≡ three_phase_check_number (table_of table.now) page.now }
{
    let index = tables::index_of(table);
    let read = reader::read_three_phase_page(&index, page);
    let answer = read.answer;
    answer.number() as u32
}
