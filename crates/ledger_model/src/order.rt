/// The order in which a site takes the readings of a transaction (MeterValueType, OCPP 2.0.1 Part 2,
/// J02). What is equal, live, missing, complete or refused does not depend on it.
#[derive(Clone, Copy)]
pub enum Order {
    /// By the sequence numbers of their events, and within an event as sent.
    Sequence,
    /// By their own moments, and readings of one moment by sequence. A reading that a station lists
    /// again at the end of a transaction is then beside the one that it repeats.
    Moment,
}

impl Default for Order {
    ghost use Rattle.std.specs.Prelude.{◌≡◌};
    ghost use Rattle.ledger_model.specs.declared.order.Order.TheVariants.{Sequence};

    ghost is_default = { λ order. order ≡ Sequence };

    /// The order of a site that declares none: by sequence.
    fn default() -> Self {
        Order::Sequence
    }
}
