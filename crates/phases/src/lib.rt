// The calls that the three-phase meter takes (document 02, A13), and the reading of a command: a kind
// and eight numbers, of which a call uses the first six at most, and a fresh meter all.
#![tactic(auto)]

ghost use Rattle.std.specs.Prelude.{◌≡◌};
ghost use Rattle.phases.specs.Calls.{three_phase_call_of};
ghost use Rattle.phases.specs.ThreePhase.{exact_sum};
ghost use Rattle.phases.specs.Laws.{Laws};
ghost use Rattle.phases.specs.Examples.{Examples};

use calls::CommandError;

// A call with its numbers, which stay 32 bits wide until they are judged.
#[derive(Clone, Copy)]
pub enum ThreePhaseCall {
    // The power of each phase in watts; export is negative.
    Sample(i32, i32, i32),
    RemoteDisconnect,
    RemoteReconnect,
    ManualDisconnect,
    ManualReconnect,
    SetMode(u32),
    // The thresholds of the phases and of their sum in watts, over and under duration in samples.
    SetLimiter(i32, i32, i32, i32, u32, u32),
    SetClock(u32),
    // The event's code.
    Event(u32),
    SetAlarmFilter(u32),
    SetErrorFilter(u32),
    // The bits to clear.
    ClearAlarms(u32),
    ClearErrors(u32),
    // The log's number.
    ClearLog(u32),
    // The script's number.
    Script(u32),
}

// A kind and eight numbers, as bytes and C give them: the kind is a number, since any may come.
#[derive(Clone, Copy)]
pub struct ThreePhaseCommand {
    pub kind: u32,
    pub n1: u32,
    pub n2: u32,
    pub n3: u32,
    pub n4: u32,
    pub n5: u32,
    pub n6: u32,
    pub n7: u32,
    pub n8: u32,
}

// What a command names: a call, or its kind is none of this meter's.
pub type ThreePhaseParsed = Result<ThreePhaseCall, CommandError>;

// The exact sum of the three powers: in 32 bits it would wrap.
pub fn exact_sum(l1: i32, l2: i32, l3: i32) -> i64
    ensures { result ≡ exact_sum l1 l2 l3 }
{
    i64::from(l1) + i64::from(l2) + i64::from(l3)
}

// A kind ignores the numbers that it has no use for. The emergency profile's kinds, 16 and 17, are not
// offered here.
pub fn read_command(command: ThreePhaseCommand) -> ThreePhaseParsed
    ensures value { result ≡ three_phase_call_of command }
    ensures laws { Laws }
    ensures examples { Examples }
{
    match command.kind {
        1 => Ok(ThreePhaseCall::Sample(
            calls::signed(command.n1),
            calls::signed(command.n2),
            calls::signed(command.n3),
        )),
        2 => Ok(ThreePhaseCall::RemoteDisconnect),
        3 => Ok(ThreePhaseCall::RemoteReconnect),
        4 => Ok(ThreePhaseCall::ManualDisconnect),
        5 => Ok(ThreePhaseCall::ManualReconnect),
        6 => Ok(ThreePhaseCall::SetMode(command.n1)),
        7 => Ok(ThreePhaseCall::SetLimiter(
            calls::signed(command.n1),
            calls::signed(command.n2),
            calls::signed(command.n3),
            calls::signed(command.n4),
            command.n5,
            command.n6,
        )),
        8 => Ok(ThreePhaseCall::SetClock(command.n1)),
        9 => Ok(ThreePhaseCall::Event(command.n1)),
        10 => Ok(ThreePhaseCall::SetAlarmFilter(command.n1)),
        11 => Ok(ThreePhaseCall::SetErrorFilter(command.n1)),
        12 => Ok(ThreePhaseCall::ClearAlarms(command.n1)),
        13 => Ok(ThreePhaseCall::ClearErrors(command.n1)),
        14 => Ok(ThreePhaseCall::ClearLog(command.n1)),
        15 => Ok(ThreePhaseCall::Script(command.n1)),
        _ => Err(CommandError::NoKind),
    }
}
