ghost use Rattle.std.specs.Prelude.{◌≡◌};

/// What a ledger answers to a command.
#[derive(Clone, Copy, PartialEq, Eq)]
pub enum Answer {
    /// The command changed the content; the number of changes accepted so far, this one included.
    Accepted(u64),
    /// An equal event is stored already; nothing changed.
    Repeat,
    /// The command is refused; nothing changed.
    Refused(Refusal),
}

/// Why a command is refused (this product's profile).
#[derive(Clone, Copy, PartialEq, Eq)]
pub enum Refusal {
    /// An event with this key is stored and is not equal to the delivered one.
    ConflictingEvent,
    /// The transaction is new, and as many as the limit allows are stored.
    TooManyTransactions,
    /// As many events as the limit allows are stored.
    EventsFull,
    /// The readings stored and the event's are together more than the limit allows.
    ReadingsFull,
    /// No event with this key is stored.
    NoSuchEvent,
    /// The event is voided already.
    AlreadyVoided,
    /// The event is not voided.
    NotVoided,
    /// As many changes as the limit allows were accepted.
    ChangesExhausted,
}

impl Refusal {
    ghost use Rattle.ledger_model.specs.Refusal.{refusal_number, refusal_name};

    /// The refusal's number, 1 to 8.
    pub fn number(self) -> u8
        ensures { result ≡ refusal_number self }
    {
        match self {
            Refusal::ConflictingEvent => 1,
            Refusal::TooManyTransactions => 2,
            Refusal::EventsFull => 3,
            Refusal::ReadingsFull => 4,
            Refusal::NoSuchEvent => 5,
            Refusal::AlreadyVoided => 6,
            Refusal::NotVoided => 7,
            Refusal::ChangesExhausted => 8,
        }
    }

    /// The refusal's name, as it is printed.
    pub fn name(self) -> &'static str
        ensures { result.now ≡ refusal_name self }
    {
        match self {
            Refusal::ConflictingEvent => "ConflictingEvent",
            Refusal::TooManyTransactions => "TooManyTransactions",
            Refusal::EventsFull => "EventsFull",
            Refusal::ReadingsFull => "ReadingsFull",
            Refusal::NoSuchEvent => "NoSuchEvent",
            Refusal::AlreadyVoided => "AlreadyVoided",
            Refusal::NotVoided => "NotVoided",
            Refusal::ChangesExhausted => "ChangesExhausted",
        }
    }
}
