// A call on a record of the three-phase meter in parts: the scalars by value, the arrays of the logs lent. A run over a list keeps
// its record so, since a call that takes the whole record copies it.
ghost use Rattle.std.specs.Prelude.{◌≡◌};
ghost use Rattle.tables.specs.Index.{table_in};
ghost use Rattle.phases_meter.specs.Parts.{three_phase_given, three_phase_handed_back, three_phase_in_parts, three_phase_command_in_parts};

use calls::{Answer, Letter};
use phases::{ThreePhaseCall, ThreePhaseCommand, ThreePhaseParsed};
use phases_steps::ThreePhaseScalars;

// What a call hands back of a record in parts: the scalars, its answer, and the letter of its move.
#[derive(Clone, Copy)]
pub struct ThreePhaseAnswered {
    pub scalars: ThreePhaseScalars,
    pub answer: Answer,
    pub letter: Letter,
}

// A call with no test: a call's step, and what it does to the logs. For a record that is known to be
// sound: one that has been tested, or that a call on a sound record has handed back, since every call
// keeps it sound.
pub fn apply_sound(
    table: &[u16; 256],
    scalars: ThreePhaseScalars,
    counts: &mut [u8; 3],
    clocks: &mut [u32; 96],
    codes: &mut [u8; 96],
    call: ThreePhaseCall,
) -> ThreePhaseAnswered
    ensures { three_phase_handed_back result counts clocks codes ≡ three_phase_in_parts (table_in table.now) (three_phase_given scalars counts clocks codes) call }
{
    let step = scalars.step(table, call);
    logs::clear_log(counts, clocks, codes, step.cleared);
    let lines = step.count;
    let line_clocks = step.clocks;
    let line_codes = step.codes;
    logs::append_lines(
        counts,
        clocks,
        codes,
        step.log,
        &line_clocks[..lines],
        &line_codes[..lines],
    );
    let next = step.scalars;
    let answer = step.answer;
    let letter = step.letter;
    ThreePhaseAnswered {
        scalars: next,
        answer,
        letter,
    }
}

// A command on such a record. A kind other than 1 to 15 is refused.
pub fn command_sound(
    table: &[u16; 256],
    scalars: ThreePhaseScalars,
    counts: &mut [u8; 3],
    clocks: &mut [u32; 96],
    codes: &mut [u8; 96],
    command: ThreePhaseCommand,
) -> ThreePhaseAnswered
    ensures { three_phase_handed_back result counts clocks codes ≡ three_phase_command_in_parts (table_in table.now) (three_phase_given scalars counts clocks codes) command }
{
    let ThreePhaseParsed::Ok(call) = phases::read_command(command) else {
        return ThreePhaseAnswered {
            scalars,
            answer: Answer::Refused(13),
            letter: Letter::None,
        };
    };
    apply_sound(table, scalars, counts, clocks, codes, call)
}
