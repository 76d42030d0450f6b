//! Why the payload of a transaction event is refused.
ghost use Rattle.std.{specs.Prelude.{◌≡◌, ◌≤◌, ◌↔◌, length, true, IsTrue}, specs.List.list_all};
ghost use Rattle.ocppj_frame.specs.Reply.{is_letter};
ghost use Rattle.transaction_event.{specs.declared.fault.PayloadFault.TheVariants.OutOfMemory, specs.Fault.{fault_number, fault_name}};

/// Why a TransactionEventRequest (OCPP 2.0.1 Part 2, block E) is refused. The first fault in the order
/// of the checks is reported.
#[derive(Clone, Copy, PartialEq, Eq)]
pub enum PayloadFault {
    /// The payload is no object.
    Format,
    /// A member that is required is absent or null.
    Missing,
    /// A member or an element is of another JSON kind, or an integer is written with a point or an
    /// exponent.
    WrongType,
    /// A value is outside the range, or the set, of its member.
    Range,
    /// More than 1,024 readings count.
    TooManyReadings,
    /// A counted value is no reading of an energy register, 0 to 10^13 milliwatt-hours.
    Decimal,
    /// A timestamp is no instant of the years 2000 to 2099.
    Moment,
    /// The allocator refused memory.
    OutOfMemory,
}

impl PayloadFault {
    /// The fault's number, 1 to 8.
    pub fn number(self) -> u8
        ensures { result ≡ fault_number self }
    {
        match self {
            PayloadFault::Format => 1,
            PayloadFault::Missing => 2,
            PayloadFault::WrongType => 3,
            PayloadFault::Range => 4,
            PayloadFault::TooManyReadings => 5,
            PayloadFault::Decimal => 6,
            PayloadFault::Moment => 7,
            PayloadFault::OutOfMemory => 8,
        }
    }

    /// The fault's name, as it is printed.
    pub fn name(self) -> &'static str
        ensures name { result.now ≡ fault_name self }
        ensures short { length result.now ≤ 32 }
        ensures letters { list_all is_letter result.now ≡ true }
    {
        match self {
            PayloadFault::Format => "Format",
            PayloadFault::Missing => "Missing",
            PayloadFault::WrongType => "WrongType",
            PayloadFault::Range => "Range",
            PayloadFault::TooManyReadings => "TooManyReadings",
            PayloadFault::Decimal => "Decimal",
            PayloadFault::Moment => "Moment",
            PayloadFault::OutOfMemory => "OutOfMemory",
        }
    }

    // Returns whether the allocator refused memory.
    pub(crate) fn is_out_of_memory(self) -> bool
        ensures { IsTrue result ↔ (self ≡ OutOfMemory) }
    {
        matches!(self, PayloadFault::OutOfMemory)
    }
}
