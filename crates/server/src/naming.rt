// The call that a SET or an ACTION names.
ghost use Rattle.std.specs.Prelude.{◌≡◌};
ghost use Rattle.server.specs.Naming.{number_of, named_by};

use crate::Operation;
use calls::Call;
use limiter::Limiter;
use requests::Data;

// The value as a number.
pub(crate) fn number_of(value: Data) -> u32
    ensures { result ≡ number_of value }
{
    match value {
        Data::Boolean(v) | Data::Integer(v) | Data::Enum(v) => u32::from(v),
        Data::DoubleLong(v) | Data::DoubleLongUnsigned(v) => v,
    }
}

// The call of an operation with a number. Of the limiter's settings the other two are kept. Enum and match,
// and no function in each row: a constant table of functions would hand them out.
pub(crate) fn named_by(limiter: Limiter, operation: Operation, n: u32) -> Call
    ensures { result ≡ named_by limiter.threshold limiter.over limiter.under operation n }
{
    match operation {
        Operation::SetMode => Call::SetMode(n),
        Operation::SetThreshold => {
            Call::SetLimiter(calls::signed(n), limiter.over, limiter.under)
        }
        Operation::SetOverDuration => Call::SetLimiter(limiter.threshold, n, limiter.under),
        Operation::SetUnderDuration => Call::SetLimiter(limiter.threshold, limiter.over, n),
        Operation::ClearErrors => Call::ClearErrors(!n),
        Operation::ClearAlarms => Call::ClearAlarms(!n),
        Operation::SetAlarmFilter => Call::SetAlarmFilter(n),
        Operation::RemoteDisconnect => Call::RemoteDisconnect,
        Operation::RemoteReconnect => Call::RemoteReconnect,
    }
}
