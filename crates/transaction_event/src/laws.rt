//! Laws of the definitions.
ghost use Rattle.transaction_event.specs.Laws.{EachDeliveryIsAdmissible, EachDeliveryIsAnswered};

/// [`event_reply`](crate::event_reply) takes each answer that a delivery can get.
#[tactic(auto, using(crate::proofs::Deliveries::each_delivery_is_answered))]
pub fn deliveries_are_answered()
    ensures { EachDeliveryIsAnswered }
{}

/// Each event that a text means can be delivered to a ledger: its key, its moment, its EVSE and its readings
/// are in their ranges.
pub fn deliveries_are_admissible()
    ensures { EachDeliveryIsAdmissible }
{}
