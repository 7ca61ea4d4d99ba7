ghost use Rattle.std.specs.Prelude.{◌≡◌};
ghost use Rattle.event_model.specs.declared.fault.EventFault.TheVariants.{OutOfMemory};

use base_types::Text;
use std::alloc::AllocError;

/// Why a field isn't set.
#[derive(Clone, Copy, Debug, PartialEq, Eq)]
pub enum EventFault {
    /// The name is that of no field.
    NoField,
    /// The kind of the field has no canonical value for the value.
    BadValue,
    /// The field is there already.
    Present,
    OutOfMemory,
}

impl From<AllocError> for EventFault {
    ghost from_gives = { λ _ fault. fault ≡ OutOfMemory };

    fn from(_: AllocError) -> Self {
        EventFault::OutOfMemory
    }
}

impl From<base_types::OutOfMemory> for EventFault {
    ghost from_gives = { λ _ fault. fault ≡ OutOfMemory };

    fn from(_: base_types::OutOfMemory) -> Self {
        EventFault::OutOfMemory
    }
}

/// Why bytes or a tree are no message.
#[derive(Debug, PartialEq, Eq, Drop)]
pub enum ReadFault {
    /// The bytes are no JSON text (RFC 8259).
    Json,
    /// The JSON value is no object.
    NotObject,
    /// `__type` is neither `Report` nor `Event`.
    Kind,
    /// The least name in byte order that is no field, or whose value its kind doesn't take.
    Field { key: Text },
    /// The bytes are a message, and not its canonical text.
    Spelling,
    OutOfMemory,
}
