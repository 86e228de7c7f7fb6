// The calls that decide on the load switch: requests and the scripts that name them, and modes. Their
// lines go to log 3, the disconnect log.
ghost use Rattle.std.specs.Prelude.{◌≡◌, []};
ghost use Rattle.control.specs.Control.{moved_to};
ghost use Rattle.machine.specs.Values.{with_control};
ghost use Rattle.machine.specs.Machine.{moving, decided, request_result, mode_result, script_result};
ghost use Rattle.status.specs.Status.{status_values, status_from};
ghost use Rattle.status.specs.Step.{status_step_for, status_step_of};
ghost use Rattle.status.specs.Laws.{Laws};

use crate::{Status, StatusStep};
use control::{Decision, Request};

impl Status {
    // What the switch table says to a request now.
    pub fn decide(self, request: Request) -> Decision
        ensures { result ≡ decided (status_values self) request }
    {
        control::decide(request, self.control.mode, self.control.state)
    }

    // The switch moved; a move that opens the supply is counted.
    pub fn moved(mut self, to: u8, opens: bool) -> Status
        ensures { result ≡ status_from (with_control (status_values self) (moved_to self.control to opens)) }
    {
        self.control = self.control.moved(to, opens);
        self
    }

    // A decision carried out.
    fn switched(self, decision: Decision) -> StatusStep
        ensures { result ≡ status_step_for (moving (status_values self) [] decision) }
    {
        match decision {
            Decision::Move {
                to,
                code,
                opens,
                letter,
            } => self.moved(to, opens).logged(3, code, letter),
            Decision::Stay => self.accepted(3),
            Decision::NotListed => self.accepted(3),
        }
    }

    // A request from outside: a mode that is not listed for it is a refusal.
    pub fn request(self, request: Request) -> StatusStep
        ensures value { result ≡ status_step_of self (request_result (status_values self) request) }
        ensures laws { Laws }
    {
        let decision = self.decide(request);
        match decision {
            Decision::NotListed => self.refused(2),
            _ => self.switched(decision),
        }
    }

    // A script names a request.
    pub fn script(self, number: u32) -> StatusStep
        ensures { result ≡ status_step_of self (script_result (status_values self) number) }
    {
        match number {
            1 => self.request(Request::RemoteDisconnect),
            2 => self.request(Request::RemoteReconnect),
            _ => self.refused(3),
        }
    }

    // The mode is judged at its full width, then cut to the byte that the record has for it.
    pub fn set_mode(mut self, mode: u32) -> StatusStep
        ensures { result ≡ status_step_of self (mode_result (status_values self) mode) }
    {
        if 6 < mode {
            return self.refused(1);
        }
        let decision = control::decide_mode(mode as u8, self.control.state);
        self.control = self.control.set_mode(mode as u8);
        self.switched(decision)
    }
}
