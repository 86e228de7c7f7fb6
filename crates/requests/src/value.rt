// The reading of a value: that of a SET, or the parameter of an ACTION.
ghost use Rattle.std.specs.Prelude.{◌≡◌};
ghost use Rattle.requests.specs.Requests.{short_data, long_data, data_in};

use crate::{Data, tags};

// A value of one byte, by its tag.
fn short_data(tag: u8, value: u8) -> Option<Data>
    ensures { result ≡ short_data tag value }
{
    match tag {
        tags::BOOLEAN => Some(Data::Boolean(value)),
        tags::INTEGER => Some(Data::Integer(value)),
        tags::ENUM => Some(Data::Enum(value)),
        _ => None,
    }
}

// A value of four bytes, by its tag.
fn long_data(tag: u8, value: u32) -> Option<Data>
    ensures { result ≡ long_data tag value }
{
    match tag {
        tags::DOUBLE_LONG => Some(Data::DoubleLong(value)),
        tags::DOUBLE_LONG_UNSIGNED => Some(Data::DoubleLongUnsigned(value)),
        _ => None,
    }
}

// The one value that is all of the bytes behind the head, from 13 on.
pub(crate) fn data_in(s: &[u8]) -> Option<Data>
    ensures { result ≡ data_in s.now }
{
    match s.len() {
        15 => short_data(s[13], s[14]),
        18 => long_data(s[13], codec::u32_at(s, 14)),
        _ => None,
    }
}
