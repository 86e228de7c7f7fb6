// The xDLMS requests of the Green Book that a meter takes, read from bytes: get-request-normal,
// set-request-normal and action-request-normal, unciphered, without selective access.
#![tactic(auto)]

ghost use Rattle.std.specs.Prelude.{◌≡◌};
ghost use Rattle.requests.specs.Requests.{tag_of, request_of, request_in};
ghost use Rattle.requests.specs.Laws.{Laws};
ghost use Rattle.requests.specs.Examples.{Examples};

mod described;
pub mod tags;
mod value;

// A value with its type, one of the five that the meter takes.
#[derive(Clone, Copy)]
pub enum Data {
    // Its byte as sent: any but 0 is true.
    Boolean(u8),
    // Its four bytes as a number: a negative value is in two's complement.
    DoubleLong(u32),
    DoubleLongUnsigned(u32),
    // Its byte, in two's complement.
    Integer(u8),
    Enum(u8),
}

// A cosem-attribute-descriptor or a cosem-method-descriptor: class-id, logical name (the instance-id, six
// bytes as one number, the highest first), attribute-id or method-id.
#[derive(Clone, Copy, PartialEq, Eq)]
pub struct Descriptor {
    pub class: u16,
    pub name: u64,
    pub id: u8,
}

// A request: its invoke-id-and-priority, what it is about, and the value of a SET or the
// method-invocation-parameters of an ACTION, which are optional.
#[derive(Clone, Copy)]
pub enum Request {
    Get(u8, Descriptor),
    Set(u8, Descriptor, Data),
    Action(u8, Descriptor, Option<Data>),
}

// What bytes are that are no whole request: refusal 20.
#[derive(Clone, Copy)]
pub struct NotWhole;

// What bytes are read as.
pub type Parsed = Result<Request, NotWhole>;

// The tags of the requests.
const GET: u8 = 192;

const SET: u8 = 193;

const ACTION: u8 = 195;

impl Data {
    // The tag of the value's type.
    pub fn tag(self) -> u8
        ensures { result ≡ tag_of self }
    {
        match self {
            Data::Boolean(_) => tags::BOOLEAN,
            Data::DoubleLong(_) => tags::DOUBLE_LONG,
            Data::DoubleLongUnsigned(_) => tags::DOUBLE_LONG_UNSIGNED,
            Data::Integer(_) => tags::INTEGER,
            Data::Enum(_) => tags::ENUM,
        }
    }
}

// A request by its tag and by the flag of its optional part, which is an access-selection in a GET or
// SET and the parameter in an ACTION; `bare` if nothing stands behind the flag.
fn by_tag(
    tag: u8,
    flag: u8,
    bare: bool,
    invoke: u8,
    about: Descriptor,
    value: Option<Data>,
) -> Parsed
    ensures { result ≡ request_of tag flag bare invoke about value }
{
    match (tag, flag, value) {
        (GET, 0, _) if bare => Ok(Request::Get(invoke, about)),
        (SET, 0, Some(data)) => Ok(Request::Set(invoke, about, data)),
        (ACTION, 0, _) if bare => Ok(Request::Action(invoke, about, None)),
        (ACTION, 1, Some(data)) => Ok(Request::Action(invoke, about, Some(data))),
        _ => Err(NotWhole),
    }
}

// The request that is the whole of the bytes.
pub fn parse(s: &[u8]) -> Parsed
    ensures value { result ≡ request_in s.now }
    ensures laws { Laws }
    ensures examples { Examples }
{
    if s.len() < 13 {
        return Err(NotWhole);
    }
    if s[1] != 1 {
        return Err(NotWhole);
    }
    let about = described::descriptor_in(s);
    let value = value::data_in(s);
    by_tag(s[0], s[12], s.len() == 13, s[2], about, value)
}
