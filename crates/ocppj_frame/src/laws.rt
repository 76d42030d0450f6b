//! Laws of frames and replies, each proved as the contract of a function that does nothing.
ghost use Rattle.std.{specs.Prelude.{◌≡◌, ◌↔◌, ℕ, List, Some}, specs.Str.IsUtf8};
ghost use Rattle.serde_json.{specs.Data.{Data, string}, specs.Read.read};
ghost use Rattle.ocppj_frame.{specs.declared.action.Action.Action, specs.Frame.{frame, Called, Silence}, specs.Message.{IsCall, IsAnswer}, specs.Reply.json_string};

/// A text is taken as a call exactly if it is one (CALL, OCPP 2.0.1 Part 4), with its id, action and payload.
pub fn calls_are_taken()
    ensures { (text id : List ℕ) (action : Action) (payload : Data)
        → (frame text ≡ Called id action payload) ↔ IsCall text id action payload }
{}

/// A text gets no reply exactly if it is an answer (CALLRESULT, CALLERROR, OCPP 2.0.1 Part 4).
pub fn answers_get_silence()
    ensures { (text : List ℕ) → (frame text ≡ Silence) ↔ IsAnswer text }
{}

/// A reader of JSON (RFC 8259) gives back exactly the text that was written as a JSON string.
pub fn a_json_string_reads_back()
    ensures { (text : List ℕ) → IsUtf8 text → read (json_string text) ≡ Some (string text) }
{}
