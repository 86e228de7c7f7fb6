// The calls that a meter takes, its answers with the letter of a move, and the reading of a command: a
// kind and five numbers.
#![tactic(auto)]

ghost use Rattle.std.specs.Prelude.{◌≡◌};
ghost use Rattle.calls.specs.Calls.{answer_number, letter_byte, signed_of, call_of};
ghost use Rattle.calls.specs.Laws.{Laws};

// A call with its numbers, which stay 32 bits wide until they are judged.
#[derive(Clone, Copy)]
pub enum Call {
    // Power in watts; export is negative.
    Sample(i32),
    RemoteDisconnect,
    RemoteReconnect,
    ManualDisconnect,
    ManualReconnect,
    SetMode(u32),
    // Threshold in watts, over and under duration in samples.
    SetLimiter(i32, u32, u32),
    SetClock(u32),
    // The event's code.
    Event(u32),
    SetAlarmFilter(u32),
    SetErrorFilter(u32),
    // The bits to clear.
    ClearAlarms(u32),
    ClearErrors(u32),
    // The log's number.
    ClearLog(u32),
    // The script's number.
    Script(u32),
    // How many group ids, then the ids two to a number, high half first.
    SetGroups(u32, u32, u32, u32, u32),
    // The profile's id, its threshold in watts, the clock of its activation, its duration in samples.
    SetProfile(u32, i32, u32, u32),
}

// An enum of its own and no Result: document 01 names this form, beside the record that goes with it.
#[derive(Clone, Copy)]
pub enum Answer {
    Accepted,
    // The number of the refusal.
    Refused(u8),
}

impl Answer {
    // 0, or the number of the refusal, which the case carries: no discriminant has it.
    pub fn number(self) -> u8
        ensures { result ≡ answer_number self }
    {
        match self {
            Answer::Accepted => 0,
            Answer::Refused(number) => number,
        }
    }
}

// The move of the switch that a call made, by its letter in the switch table: the letter's byte in ASCII,
// and 0 for none. `None` is one of them and no Option: document 02 has the switch rule answer 'a to h or
// none', and C is told it by a byte.
#[derive(Clone, Copy)]
pub enum Letter {
    A = 97,
    B = 98,
    C = 99,
    D = 100,
    E = 101,
    F = 102,
    G = 103,
    H = 104,
    // The call was refused, or moved nothing, or was the acceptance of mode 0.
    None = 0,
}

impl Letter {
    // The letter's byte in ASCII, and 0 for none.
    pub fn byte(self) -> u8
        ensures { result ≡ letter_byte self }
    {
        self as u8
    }
}

// A kind and five numbers, as bytes and C give them: the kind is a number, since any may come.
#[derive(Clone, Copy)]
pub struct Command {
    pub kind: u32,
    pub n1: u32,
    pub n2: u32,
    pub n3: u32,
    pub n4: u32,
    pub n5: u32,
}

// Why a command names no call.
#[derive(Clone, Copy)]
pub enum CommandError {
    // Its kind is none of the meter's: refusal 13.
    NoKind,
}

// What a command names.
pub type Parsed = Result<Call, CommandError>;

// A number of 32 bits as two's complement.
pub fn signed(n: u32) -> i32
    ensures { result ≡ signed_of n }
{
    n.cast_signed()
}

// All five numbers of a command are taken; a kind ignores those that it has no use for.
pub fn read_kind(command: Command) -> Parsed
    ensures value { result ≡ call_of command }
    ensures laws { Laws }
{
    match command.kind {
        1 => Ok(Call::Sample(signed(command.n1))),
        2 => Ok(Call::RemoteDisconnect),
        3 => Ok(Call::RemoteReconnect),
        4 => Ok(Call::ManualDisconnect),
        5 => Ok(Call::ManualReconnect),
        6 => Ok(Call::SetMode(command.n1)),
        7 => Ok(Call::SetLimiter(signed(command.n1), command.n2, command.n3)),
        8 => Ok(Call::SetClock(command.n1)),
        9 => Ok(Call::Event(command.n1)),
        10 => Ok(Call::SetAlarmFilter(command.n1)),
        11 => Ok(Call::SetErrorFilter(command.n1)),
        12 => Ok(Call::ClearAlarms(command.n1)),
        13 => Ok(Call::ClearErrors(command.n1)),
        14 => Ok(Call::ClearLog(command.n1)),
        15 => Ok(Call::Script(command.n1)),
        16 => Ok(Call::SetGroups(command.n1, command.n2, command.n3, command.n4, command.n5)),
        17 => Ok(Call::SetProfile(command.n1, signed(command.n2), command.n3, command.n4)),
        _ => Err(CommandError::NoKind),
    }
}
