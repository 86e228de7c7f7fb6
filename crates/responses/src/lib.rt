// The xDLMS responses of the Green Book that a meter gives, put as bytes: get-response-normal,
// set-response-normal and action-response-normal.
#![tactic(auto)]

ghost use Rattle.std.specs.Prelude.{◌≡◌, ◌+◌, ◌≤◌, length};
ghost use Rattle.std.proofs.lemmas.List.Edits.{sets};
ghost use Rattle.requests.specs.Requests.{short_format, long_format, data_bytes};
ghost use Rattle.responses.specs.Responses.{result_number, is_success, front_format, response_bytes};
ghost use Rattle.responses.specs.Laws.{Laws};

use requests::Data;

// The data-access-result of a GET or a SET, the action-result of an ACTION: both have the same numbers.
#[derive(Clone, Copy, PartialEq, Eq)]
pub enum AccessResult {
    Success = 0,
    ReadWriteDenied = 3,
    ObjectUndefined = 4,
    TypeUnmatched = 12,
}

impl AccessResult {
    // The number of the result.
    pub fn number(self) -> u8
        ensures { result ≡ result_number self }
    {
        self as u8
    }

    pub fn is_success(self) -> bool
        ensures { result ≡ is_success self }
    {
        self == AccessResult::Success
    }
}

// A response: the request's invoke-id-and-priority, and a value or a result.
#[derive(Clone, Copy)]
pub enum Response {
    // To a GET, with its value.
    GetData(u8, Data),
    // To a GET that gives none.
    GetResult(u8, AccessResult),
    SetResult(u8, AccessResult),
    // Without return-parameters.
    ActionResult(u8, AccessResult),
}

// A value behind the tag of its type; answers how many bytes these are.
fn put_data(out: &mut [u8], at: usize, value: Data) -> usize
    requires { at + 5 ≤ length out.old }
    ensures { (result ≤ 5) × ((result ≡ length (data_bytes value)) × (out.new ≡ sets out.old at (data_bytes value))) }
{
    codec::put_u8(out, at, value.tag());
    match value {
        Data::Boolean(v) | Data::Integer(v) | Data::Enum(v) => {
            codec::put_u8(out, at + 1, v);
            2
        }
        Data::DoubleLong(v) | Data::DoubleLongUnsigned(v) => {
            codec::put_u32(out, at + 1, v);
            5
        }
    }
}

// The four bytes that every response begins with, stored as all numbers are.
fn put_front(out: &mut [u8], tag: u8, invoke: u8, fourth: u8)
    requires { 4 ≤ length out.old }
    ensures { out.new ≡ sets out.old 0 (front_format.enc (tag, (1, (invoke, fourth)))) }
{
    codec::put_u8(out, 0, tag);
    codec::put_u8(out, 1, 1);
    codec::put_u8(out, 2, invoke);
    codec::put_u8(out, 3, fourth);
}

// Puts a response at the front of a buffer that has room for any; answers how many bytes it has.
pub fn put_response(out: &mut [u8], response: Response) -> usize
    requires { 9 ≤ length out.old }
    ensures value { (result ≡ length (response_bytes response)) × (out.new ≡ sets out.old 0 (response_bytes response)) }
    ensures laws { Laws }
{
    match response {
        Response::GetData(invoke, value) => {
            put_front(out, 196, invoke, 0);
            let n = put_data(out, 4, value);
            4 + n
        }
        Response::GetResult(invoke, result) => {
            put_front(out, 196, invoke, 1);
            codec::put_u8(out, 4, result.number());
            5
        }
        Response::SetResult(invoke, result) => {
            put_front(out, 197, invoke, result.number());
            4
        }
        Response::ActionResult(invoke, result) => {
            put_front(out, 199, invoke, result.number());
            codec::put_u8(out, 4, 0);
            5
        }
    }
}
