// A meter as the COSEM server of document 02's A9: what an xDLMS request makes of its record, and the
// response.
#![tactic(auto)]

ghost use Rattle.std.specs.Prelude.{◌≡◌};
ghost use Rattle.tables.specs.Index.{table_in};
ghost use Rattle.server.specs.Service.{refused_with, served_by, service_sound, service, filled_by};
ghost use Rattle.server.specs.Laws.{Laws};
ghost use Rattle.server.specs.Items.{Items};
ghost use Rattle.server.specs.AfterSet.{AfterSet};
ghost use Rattle.server.specs.History.{RequestsCounted};

mod access;
mod naming;
mod objects;
mod reading;

use calls::{Answer, Letter};
use meter::Meter;
use requests::{Descriptor, Parsed};

// What a GET of an attribute reads.
#[derive(Clone, Copy)]
pub enum Value {
    OutputState,
    ControlState,
    ControlMode,
    // The normal threshold, not that of an emergency profile.
    Threshold,
    OverDuration,
    UnderDuration,
    Errors,
    Alarms,
    AlarmFilter,
}

// The call that a SET of an attribute or an ACTION on a method names.
#[derive(Clone, Copy)]
pub enum Operation {
    SetMode,
    // Call 7 with two of its numbers kept.
    SetThreshold,
    SetOverDuration,
    SetUnderDuration,
    // The bits that are zero in the value are cleared.
    ClearErrors,
    ClearAlarms,
    SetAlarmFilter,
    RemoteDisconnect,
    RemoteReconnect,
}

// An attribute or a method of an object: its class-id, the logical name of its object, its attribute-id or
// method-id, the tag of its type (a method's is that of its parameter), what a GET of it reads (a method has no
// value) and what a SET or an ACTION names (of an attribute that is not writable, nothing). The tag is a
// number, since it is compared with the one that was sent.
#[derive(Clone, Copy)]
pub struct Item {
    pub method: bool,
    pub about: Descriptor,
    pub tag: u8,
    pub reads: Option<Value>,
    pub names: Option<Operation>,
}

// What a SET or an ACTION comes to: the record, its result, and the letter of the move that it made.
#[derive(Clone, Copy)]
pub struct Accessed {
    pub meter: Meter,
    pub result: responses::AccessResult,
    pub letter: Letter,
}

// What a request comes to: the record, the response, the letter of the move that it made, and whether a call
// was carried out. The flag makes no Option of the record: it is handed back either way, as by every call.
#[derive(Clone, Copy)]
pub struct Responded {
    pub meter: Meter,
    pub response: responses::Response,
    pub letter: Letter,
    pub carried: bool,
}

// What bytes come to: the record, whether they were answered (else 21, 12 or 20), how many bytes the response
// has, the letter of the move that was made, and whether a call was carried out.
#[derive(Clone, Copy)]
pub struct Served {
    pub meter: Meter,
    pub answer: Answer,
    pub length: usize,
    pub letter: Letter,
    pub carried: bool,
}

// What an answer buffer must have room for: a smaller one is refused with 21.
const ANSWER_SIZE: usize = 32;

// Bytes that are not answered.
fn refused(meter: Meter, number: u8) -> Served
    ensures { result ≡ served_by (refused_with meter number) }
{
    Served {
        meter,
        answer: Answer::Refused(number),
        length: 0,
        letter: Letter::None,
        carried: false,
    }
}

// Serves a request on a record that is known to be sound: 21 for a buffer under 32 bytes, then 20 for
// bytes that are no whole request. The response is put at the front of the buffer; bytes past it stay,
// and on 21 and 20 all do.
pub fn serve_sound(meter: Meter, table: &[u16; 256], request: &[u8], out: &mut [u8]) -> Served
    ensures { (result ≡ served_by (service_sound (table_in table.now) meter request.now out.old)) × (out.new ≡ filled_by (service_sound (table_in table.now) meter request.now out.old) out.old) }
{
    if out.len() < ANSWER_SIZE {
        return refused(meter, 21);
    }
    let Parsed::Ok(whole) = requests::parse(request) else {
        return refused(meter, 20);
    };
    let responded = access::respond(table, meter, whole);
    let length = responses::put_response(out, responded.response);
    Served {
        meter: responded.meter,
        answer: Answer::Accepted,
        length,
        letter: responded.letter,
        carried: responded.carried,
    }
}

// Serves a request: 21 for a buffer under 32 bytes, then 12 for a record that is not sound, then 20.
pub fn serve(meter: Meter, table: &[u16; 256], request: &[u8], out: &mut [u8]) -> Served
    ensures value { (result ≡ served_by (service (table_in table.now) meter request.now out.old)) × (out.new ≡ filled_by (service (table_in table.now) meter request.now out.old) out.old) }
    ensures laws { Laws }
    ensures items { Items }
    ensures after_set { AfterSet }
    ensures requests_counted { RequestsCounted }
{
    if out.len() < ANSWER_SIZE {
        return refused(meter, 21);
    }
    if !meter.sound(table) {
        return refused(meter, 12);
    }
    serve_sound(meter, table, request, out)
}
