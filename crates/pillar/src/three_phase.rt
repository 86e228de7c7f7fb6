// The three-phase meter from C: the functions of its interface, with a call's kind and numbers one by one.
// Its page is of 586 bytes, and is no one-phase meter's page.
ghost use Rattle.std.specs.Prelude.{◌≡◌};
ghost use Rattle.events.specs.Table.{built_in};
ghost use Rattle.tables.specs.Bytes.{table_of};
ghost use Rattle.replay.specs.Numbers.{replay_number};
ghost use Rattle.phases.specs.Calls.{three_phase_command_of};
ghost use Rattle.phases_meter.specs.Settings.{three_phase_settings_of};
ghost use Rattle.phases_replay.specs.Replay.{three_phase_replay_answer, three_phase_replayed};
ghost use Rattle.phases_interface.specs.Interface.{three_phase_fresh_number, three_phase_fresh_page, ThreePhaseCalled, three_phase_check_number};
ghost use Rattle.phases_interface.specs.Laws.{Laws as ThreePhaseLaws, ThreePhaseCallsCompared, ThreePhaseReplayNumbers};

use phases::ThreePhaseCommand;

// Writes the page of a fresh meter with these four thresholds into the first 586 bytes: 1 for a mode above
// 6, 4 if a threshold is negative, 5 if a duration is not 1 to 86,400, 8 if there are fewer bytes.
#[unsafe(no_mangle)]
pub extern "C" fn three_phase_fresh(
    page: &mut [u8],
    mode: u32,
    l1: i32,
    l2: i32,
    l3: i32,
    sum: i32,
    over: u32,
    under: u32,
    clock: u32,
) -> u32
    ensures { (result ≡ three_phase_fresh_number built_in page.old (three_phase_settings_of mode l1 l2 l3 sum over under clock)) × (page.new ≡ three_phase_fresh_page built_in page.old (three_phase_settings_of mode l1 l2 l3 sum over under clock)) }
{
    phases_interface::fresh_page(page, mode, l1, l2, l3, sum, over, under, clock)
}

// One call on the meter of a page, which is then that of the meter after it: 13 for a kind other than
// 1 to 15, whatever the page, then 9, 10 and 11 as `three_phase_check`, then the call's own refusals. The
// letter of the move that it made goes into `letter`, 0 for none, also where it is refused. No call uses
// a command's last two numbers, which only a list's fresh record has.
#[unsafe(no_mangle)]
pub extern "C" fn three_phase_call(
    page: &mut [u8],
    table: &[u8],
    kind: u32,
    n1: u32,
    n2: u32,
    n3: u32,
    n4: u32,
    n5: u32,
    n6: u32,
    letter: &mut u8,
) -> u32
    ensures three_phase_called { ThreePhaseCalled (table_of table.now) page.old (three_phase_command_of kind n1 n2 n3 n4 n5 n6 0 0) result page.new letter.new }
    ensures laws { ThreePhaseLaws }
    ensures compared { ThreePhaseCallsCompared }
{
    let command = ThreePhaseCommand {
        kind,
        n1,
        n2,
        n3,
        n4,
        n5,
        n6,
        n7: 0,
        n8: 0,
    };
    phases_interface::call_on_page(page, table, command, letter)
}

// Runs a whole list of 33-byte records, the first of which is fresh, and writes the page of its
// history into the first 586 bytes: 100 if there is no byte, 101 if the first record is not fresh,
// 102 if a record is cut short; 1, 4, 5 and 8 as `three_phase_fresh`.
#[unsafe(no_mangle)]
pub extern "C" fn three_phase_replay(records: &[u8], table: &[u8], page: &mut [u8]) -> u32
    ensures value { (result ≡ replay_number (three_phase_replay_answer records.now page.old)) × (page.new ≡ three_phase_replayed (table_of table.now) records.now page.old) }
    ensures numbers { ThreePhaseReplayNumbers }
{
    phases_interface::replay_page(records, table, page)
}

// Whether `three_phase_call` can read a page: 9 if it is not of 586 bytes, 10 if a pair differs, 11 if its
// record would not be sound by the event table.
#[unsafe(no_mangle)]
pub extern "C" fn three_phase_check(page: &[u8], table: &[u8]) -> u32
    ensures { result ≡ three_phase_check_number (table_of table.now) page.now }
{
    phases_interface::check_page(page, table)
}
