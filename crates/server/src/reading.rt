// What a GET reads.
ghost use Rattle.std.specs.Prelude.{◌≡◌};
ghost use Rattle.calls.specs.Laws.{bits_of};
ghost use Rattle.server.specs.Reading.{output_state, value_of};

use crate::Value;
use requests::Data;
use steps::Scalars;

// The four bytes of a signed number, as a number.
fn bits_of(z: i32) -> u32
    ensures { result ≡ bits_of z }
{
    z.cast_unsigned()
}

// The byte of the output state: the supply is on in control state 1 alone.
fn output_state(state: u8) -> u8
    ensures { result ≡ output_state state }
{
    u8::from(state == 1)
}

// The value of an attribute. Enum and match, and no function in each row, as for an operation.
pub(crate) fn value_of(scalars: Scalars, value: Value) -> Data
    ensures { result ≡ value_of scalars value }
{
    let control = scalars.control;
    let limiter = scalars.limiter;
    let alarms = scalars.alarms.register;
    match value {
        Value::OutputState => Data::Boolean(output_state(control.state)),
        Value::ControlState => Data::Enum(control.state),
        Value::ControlMode => Data::Enum(control.mode),
        Value::Threshold => Data::DoubleLong(bits_of(limiter.threshold)),
        Value::OverDuration => Data::DoubleLongUnsigned(limiter.over),
        Value::UnderDuration => Data::DoubleLongUnsigned(limiter.under),
        Value::Errors => Data::DoubleLongUnsigned(scalars.errors.bits),
        Value::Alarms => Data::DoubleLongUnsigned(alarms.bits),
        Value::AlarmFilter => Data::DoubleLongUnsigned(alarms.filter),
    }
}
