ghost use Rattle.std.specs.Prelude.{◌≡◌};

/// The actions of a station that this product answers (OCPP 2.0.1 Part 2; the choice is this
/// product's profile).
#[derive(Clone, Copy)]
pub enum Action {
    /// The station has started.
    BootNotification,
    /// The station is alive and asks for the time.
    Heartbeat,
    /// The status of a connector has changed.
    StatusNotification,
    /// Meter values outside a transaction.
    MeterValues,
    /// A transaction started, went on or ended.
    TransactionEvent,
}

impl Action {
    ghost use Rattle.ocppj_frame.specs.Action.{action_of};

    // The action of that name, if it is one of the five.
    #[tactic(auto, unfolding(crate::specs::Action::action_of))]
    pub(crate) fn of(name: &str) -> Option<Action>
        ensures { result ≡ action_of name.now }
    {
        match name {
            "BootNotification" => Some(Action::BootNotification),
            "Heartbeat" => Some(Action::Heartbeat),
            "StatusNotification" => Some(Action::StatusNotification),
            "MeterValues" => Some(Action::MeterValues),
            "TransactionEvent" => Some(Action::TransactionEvent),
            _ => None,
        }
    }
}
