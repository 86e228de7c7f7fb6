// The objects of the meter, as rows: a further attribute or method is one row more.
ghost use Rattle.std.specs.Prelude.{◌≡◌};
ghost use Rattle.server.specs.Objects.{items, item_at};

use crate::{Item, Operation, Value};
use requests::Descriptor;
use requests::tags::{BOOLEAN, DOUBLE_LONG, DOUBLE_LONG_UNSIGNED, ENUM, INTEGER};

// Logical names, as numbers of six bytes: 0-0:96.3.10.255 of the disconnect control, 0-0:17.0.0.255 of the
// limiter, 0-0:97.97.0.255 of the errors, 0-0:97.98.0.255 of the alarms and 0-0:97.98.10.255 of their filter.
const DISCONNECT_CONTROL: u64 = 1610812159;

const LIMITER: u64 = 285212927;

const ERRORS: u64 = 1633747199;

const ALARMS: u64 = 1633812735;

const ALARM_FILTER: u64 = 1633815295;

const ITEMS: [Item; 11] = [
    Item {
        method: false,
        about: Descriptor {
            class: 70,
            name: DISCONNECT_CONTROL,
            id: 2,
        },
        tag: BOOLEAN,
        reads: Some(Value::OutputState),
        names: None,
    },
    Item {
        method: false,
        about: Descriptor {
            class: 70,
            name: DISCONNECT_CONTROL,
            id: 3,
        },
        tag: ENUM,
        reads: Some(Value::ControlState),
        names: None,
    },
    Item {
        method: false,
        about: Descriptor {
            class: 70,
            name: DISCONNECT_CONTROL,
            id: 4,
        },
        tag: ENUM,
        reads: Some(Value::ControlMode),
        names: Some(Operation::SetMode),
    },
    Item {
        method: true,
        about: Descriptor {
            class: 70,
            name: DISCONNECT_CONTROL,
            id: 1,
        },
        tag: INTEGER,
        reads: None,
        names: Some(Operation::RemoteDisconnect),
    },
    Item {
        method: true,
        about: Descriptor {
            class: 70,
            name: DISCONNECT_CONTROL,
            id: 2,
        },
        tag: INTEGER,
        reads: None,
        names: Some(Operation::RemoteReconnect),
    },
    Item {
        method: false,
        about: Descriptor {
            class: 71,
            name: LIMITER,
            id: 4,
        },
        tag: DOUBLE_LONG,
        reads: Some(Value::Threshold),
        names: Some(Operation::SetThreshold),
    },
    Item {
        method: false,
        about: Descriptor {
            class: 71,
            name: LIMITER,
            id: 6,
        },
        tag: DOUBLE_LONG_UNSIGNED,
        reads: Some(Value::OverDuration),
        names: Some(Operation::SetOverDuration),
    },
    Item {
        method: false,
        about: Descriptor {
            class: 71,
            name: LIMITER,
            id: 7,
        },
        tag: DOUBLE_LONG_UNSIGNED,
        reads: Some(Value::UnderDuration),
        names: Some(Operation::SetUnderDuration),
    },
    Item {
        method: false,
        about: Descriptor {
            class: 1,
            name: ERRORS,
            id: 2,
        },
        tag: DOUBLE_LONG_UNSIGNED,
        reads: Some(Value::Errors),
        names: Some(Operation::ClearErrors),
    },
    Item {
        method: false,
        about: Descriptor {
            class: 1,
            name: ALARMS,
            id: 2,
        },
        tag: DOUBLE_LONG_UNSIGNED,
        reads: Some(Value::Alarms),
        names: Some(Operation::ClearAlarms),
    },
    Item {
        method: false,
        about: Descriptor {
            class: 1,
            name: ALARM_FILTER,
            id: 2,
        },
        tag: DOUBLE_LONG_UNSIGNED,
        reads: Some(Value::AlarmFilter),
        names: Some(Operation::SetAlarmFilter),
    },
];

// The row of an attribute, or of a method.
pub(crate) fn find(method: bool, about: Descriptor) -> Option<Item>
    ensures { result ≡ item_at items method about }
{
    ITEMS
        .iter()
        .find(|row| row.method == method && row.about == about)
        .copied()
}
