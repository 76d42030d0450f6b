//! Why a text has no marked reading.
ghost use Rattle.std.specs.Prelude.{◌≡◌};
ghost use Rattle.marked_json.specs.declared.fault.JsonFault.TheVariants.{OutOfMemory};

use std::alloc::AllocError;
use std::error::Error;
use std::fmt;

/// Why a text was not read. The first fault in the text is reported; for one number `BadNumber` comes
/// before `NumberAsKey`.
#[derive(Clone, Copy, Debug, PartialEq, Eq)]
pub enum JsonFault {
    /// A number token that is outside the number grammar of RFC 8259.
    BadNumber = 1,
    /// A number token with a colon behind it, blanks apart.
    NumberAsKey = 2,
    /// The marked text is no JSON, or nests deeper than 127.
    NotJson = 3,
    /// The allocator refused memory.
    OutOfMemory = 4,
}

impl fmt::Display for JsonFault {
    ghost use Rattle.std.specs.Prelude.{Some};
    ghost use Rattle.marked_json.specs.Fault.{message_of};

    ghost output = { λ fault. Some (message_of fault) };

    fn fmt<W: fmt::Write>(&self, f: &mut fmt::Formatter<W>) -> fmt::Result {
        match self {
            JsonFault::BadNumber => write!(f, "a number outside the grammar of JSON"),
            JsonFault::NumberAsKey => write!(f, "a number as a key"),
            JsonFault::NotJson => write!(f, "not JSON"),
            JsonFault::OutOfMemory => write!(f, "out of memory"),
        }
    }
}

impl Error for JsonFault {}

impl From<AllocError> for JsonFault {
    ghost from_gives = { λ _ fault. fault ≡ OutOfMemory };

    fn from(_error: AllocError) -> JsonFault {
        JsonFault::OutOfMemory
    }
}
