// What a whole request comes to, on a record.
ghost use Rattle.std.specs.Prelude.{◌≡◌, false};
ghost use Rattle.tables.specs.Index.{table_in};
ghost use Rattle.server.specs.Objects.{items, item_at};
ghost use Rattle.server.specs.Access.{unchanged_with, called_on, call_at, access_on, read_at, get_on, responded_on};

use crate::{Accessed, Responded, naming, objects, reading};
use calls::{Answer, Call, Letter};
use limiter::Limiter;
use meter::Meter;
use requests::{Data, Descriptor, Request};
use responses::{AccessResult, Response};
use steps::Scalars;

// A result that leaves the record as it was.
fn unchanged(meter: Meter, res: AccessResult) -> Accessed
    ensures { result ≡ unchanged_with meter res }
{
    Accessed {
        meter,
        result: res,
        letter: Letter::None,
    }
}

// The named call on the record: a success where it is accepted.
fn called_on(table: &[u16; 256], meter: Meter, call: Call) -> Accessed
    ensures { result ≡ called_on (table_in table.now) meter call }
{
    let outcome = meter.apply(table, call);
    match outcome.answer {
        Answer::Accepted => Accessed {
            meter: outcome.meter,
            result: AccessResult::Success,
            letter: outcome.letter,
        },
        Answer::Refused(_) => unchanged(meter, AccessResult::ReadWriteDenied),
    }
}

// The call that a SET or an ACTION names, or its result where it names none.
fn call_named(
    limiter: Limiter,
    method: bool,
    about: Descriptor,
    value: Option<Data>,
) -> Result<Call, AccessResult>
    ensures { result ≡ call_at limiter value (item_at items method about) }
{
    let row = objects::find(method, about).ok_or(AccessResult::ObjectUndefined)?;
    let given = value.ok_or(AccessResult::TypeUnmatched)?;
    if row.tag != given.tag() {
        return Err(AccessResult::TypeUnmatched);
    }
    let operation = row.names.ok_or(AccessResult::ReadWriteDenied)?;
    Ok(naming::named_by(limiter, operation, naming::number_of(given)))
}

// A SET of an attribute, or an ACTION on a method.
fn access_on(
    table: &[u16; 256],
    meter: Meter,
    method: bool,
    about: Descriptor,
    value: Option<Data>,
) -> Accessed
    ensures { result ≡ access_on (table_in table.now) meter method about value }
{
    match call_named(meter.limiter, method, about, value) {
        Ok(call) => called_on(table, meter, call),
        Err(result) => unchanged(meter, result),
    }
}

// The value of an attribute, where there is one.
fn read_on(scalars: Scalars, about: Descriptor) -> Option<Data>
    ensures { result ≡ read_at scalars (item_at items false about) }
{
    let row = objects::find(false, about)?;
    let value = row.reads?;
    Some(reading::value_of(scalars, value))
}

// A GET of an attribute.
fn get_on(scalars: Scalars, invoke: u8, about: Descriptor) -> Response
    ensures { result ≡ get_on scalars invoke about }
{
    match read_on(scalars, about) {
        Some(value) => Response::GetData(invoke, value),
        None => Response::GetResult(invoke, AccessResult::ObjectUndefined),
    }
}

// A request.
pub(crate) fn respond(table: &[u16; 256], meter: Meter, request: Request) -> Responded
    ensures { result ≡ responded_on (table_in table.now) meter request }
{
    match request {
        Request::Get(invoke, about) => {
            let response = get_on(meter.scalars(), invoke, about);
            Responded {
                meter,
                response,
                letter: Letter::None,
                carried: false,
            }
        }
        Request::Set(invoke, about, value) => {
            let accessed = access_on(table, meter, false, about, Some(value));
            Responded {
                meter: accessed.meter,
                response: Response::SetResult(invoke, accessed.result),
                letter: accessed.letter,
                carried: accessed.result.is_success(),
            }
        }
        Request::Action(invoke, about, parameter) => {
            let accessed = access_on(table, meter, true, about, parameter);
            Responded {
                meter: accessed.meter,
                response: Response::ActionResult(invoke, accessed.result),
                letter: accessed.letter,
                carried: accessed.result.is_success(),
            }
        }
    }
}
