//! Laws of events, each proved as the contract of a function that does nothing.
ghost use Rattle.std.specs.Prelude.{◌≡◌, ◌↔◌, ℕ, List, Ok};
ghost use Rattle.serde_json.specs.Data.{Data};
ghost use Rattle.transaction_event.{specs.Message.{Event, message}, specs.Request.{Request, event_reading}};
ghost use Rattle.event_laws.specs.EventRequest.{IsEventCall, IsEventRequest};

/// A payload is read as an event exactly if the grammar derives it, and as the event that it means.
pub fn event_payloads()
    ensures { (payload : Data) (r : Request) → (event_reading payload ≡ Ok r) ↔ IsEventRequest payload r }
{}

/// A text asks for the delivery of an event, at whatever moment, exactly if the grammar derives it as the call of that
/// event.
pub fn event_texts()
    ensures { (text : List ℕ) (now : ℕ) (id : List ℕ) (r : Request) → (message text now ≡ Event id r) ↔ IsEventCall text id r }
{}
