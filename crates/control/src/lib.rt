// The load switch: control mode, control state and openings (DLMS disconnect control, class 70).
// States: 0 disconnected, 1 connected, 2 ready for reconnection.
#![tactic(auto)]

ghost use Rattle.std.specs.Prelude.{◌≡◌, cond, eqb};
ghost use Rattle.control.specs.Table.{switch_table};
ghost use Rattle.control.specs.Control.{decision, mode_decision, moved_to, in_mode, sound_control};
ghost use Rattle.control.specs.NearMisses.{NearMisses};
ghost use Rattle.control.specs.ByMode.{ByMode};

use calls::Letter;

#[derive(Clone, Copy)]
pub enum Request {
    RemoteDisconnect,
    RemoteReconnect,
    ManualDisconnect,
    ManualReconnect,
    LocalDisconnect,
    LocalReconnect,
}

// One enum, as its callers have an arm for each of the three: a `Result` of an `Option` would nest them.
#[derive(Clone, Copy)]
pub enum Decision {
    // The next state, the code of the line in the disconnect log, whether supply opens, and the move's
    // letter.
    Move {
        to: u8,
        code: u8,
        opens: bool,
        letter: Letter,
    },
    // The mode is listed for the request, and the switch stays.
    Stay,
    // The mode is not listed for the request: refusal 2.
    NotListed,
}

// Mode and state are numbers and no enums: a page may hold any, and a record with such a one is not sound.
#[derive(Clone, Copy)]
pub struct Control {
    pub mode: u8,
    pub state: u8,
    pub openings: u32,
}

// A move out of a state: it opens the supply if it leaves state 1.
fn leave(state: u8, to: u8, code: u8, letter: Letter) -> Decision
    ensures { result ≡ Decision.Move to code (eqb state 1) letter }
{
    Decision::Move {
        to,
        code,
        opens: state == 1,
        letter,
    }
}

// A move from one state: in any other the switch stays.
fn move_from(start: u8, state: u8, to: u8, code: u8, letter: Letter) -> Decision
    ensures { result ≡ cond (eqb state start) (Decision.Move to code (eqb state 1) letter) Decision.Stay }
{
    if state == start {
        leave(state, to, code, letter)
    } else {
        Decision::Stay
    }
}

// A remote disconnect has two rows: from state 1 and from state 2.
fn disconnect(state: u8) -> Decision
    ensures { result ≡ cond (eqb state 1) (Decision.Move 0 62 (eqb state 1) Letter.B) (cond (eqb state 2) (Decision.Move 0 62 (eqb state 1) Letter.C) Decision.Stay) }
{
    if state == 1 {
        leave(state, 0, 62, Letter::B)
    } else {
        move_from(2, state, 0, 62, Letter::C)
    }
}

// The answer to a request in a mode and a state: what the rows of the switch table give. Two numbers and
// no `Control`, as `ByMode` asks it of any mode and state, and no opening counts.
#[tactic(auto, using(crate::proofs::ByMode::by_mode))]
pub fn decide(request: Request, mode: u8, state: u8) -> Decision
    ensures value { result ≡ decision switch_table request mode state }
    ensures by_mode { ByMode }
{
    match mode {
        1..=6 => match request {
            Request::RemoteReconnect => match mode {
                // Two rows: from state 0 and from state 2.
                2 | 4 => match state {
                    0 | 2 => leave(state, 1, 63, Letter::A),
                    _ => Decision::Stay,
                },
                _ => move_from(0, state, 2, 59, Letter::D),
            },
            Request::RemoteDisconnect => disconnect(state),
            Request::ManualReconnect => move_from(2, state, 1, 61, Letter::E),
            Request::ManualDisconnect => match mode {
                1 | 2 | 5 => move_from(1, state, 2, 60, Letter::F),
                _ => Decision::NotListed,
            },
            Request::LocalDisconnect => move_from(1, state, 2, 64, Letter::G),
            Request::LocalReconnect => match mode {
                5..=6 => move_from(2, state, 1, 69, Letter::H),
                _ => Decision::NotListed,
            },
        },
        _ => Decision::NotListed, // no row lists mode 0, nor a mode above 6
    }
}

// What accepting a mode does to the switch: mode 0 connects it, a move without a letter; the others
// leave it.
#[tactic(auto, unfolding(crate::specs::Control::mode_decision))]
pub fn decide_mode(mode: u8, state: u8) -> Decision
    ensures { result ≡ mode_decision mode state }
{
    if (mode == 0) & (state != 1) {
        Decision::Move {
            to: 1,
            code: 63,
            opens: false,
            letter: Letter::None,
        }
    } else {
        Decision::Stay
    }
}

impl Control {
    // The ranges of mode and state, and mode 0 only with the switch connected.
    #[tactic(auto, using(crate::proofs::NearMisses::near_misses), unfolding(crate::specs::Control::sound_control))]
    pub fn sound(self) -> bool
        ensures value { result ≡ sound_control self }
        ensures near_misses { NearMisses }
    {
        ((self.mode <= 6) & (self.state <= 2)) & ((self.mode != 0) | (self.state == 1))
    }

    // The record after a move that was decided; one that opens the supply is counted, up to the
    // largest number.
    pub fn moved(mut self, to: u8, opens: bool) -> Control
        ensures { result ≡ moved_to self to opens }
    {
        self.state = to;
        if opens {
            self.openings = base::next_held(self.openings);
        }
        self
    }

    // The record in another mode. What that does to the switch is for `decide_mode` to say.
    pub fn set_mode(mut self, mode: u8) -> Control
        ensures { result ≡ in_mode self mode }
    {
        self.mode = mode;
        self
    }
}
