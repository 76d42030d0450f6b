//! Laws of single steps: of a content, and of what it has of one transaction.
ghost use Rattle.std.specs.Prelude.{◌≡◌, ◌≤◌, ℕ, true, false, List};
ghost use Rattle.ledger_model.{specs.declared.command.Command.Command, specs.Admissible.key_of, specs.Content.{Content, empty_content, entries}, specs.Deltas.own_events, specs.Limits.Bounds, specs.Step.{answer, step}};
ghost use Rattle.transaction_laws.specs.Alone.{AreEnough, IsStepAlone, NeedsNoMore, alone, is_by_limit, belongs_to};

/// A command that no limit refuses does to its transaction alone what it does to it among others, and a
/// command on another transaction does nothing to it. The ledger of the transaction alone may have any
/// limits that are enough for one transaction, as the station's own are; the transaction needs no more room
/// than the station has. Its events are those of the station under its keys, in their order.
pub fn steps_of_a_transaction()
    ensures own { (limits lone : Bounds) (c : Content) (tx : List ℕ) (n : ℕ) (command : Command) → AreEnough limits lone → n ≤ c.changes
        → belongs_to tx (key_of command) ≡ true → is_by_limit (answer limits c command) ≡ false → IsStepAlone limits lone c tx n command }
    ensures others { (limits : Bounds) (c : Content) (tx : List ℕ) (n : ℕ) (command : Command) → belongs_to tx (key_of command) ≡ false
        → alone tx n (step limits c command).0 ≡ alone tx n c }
    ensures refused { (limits : Bounds) (c : Content) (command : Command) → is_by_limit (answer limits c command) ≡ true → (step limits c command).0 ≡ c }
    ensures empty { (tx : List ℕ) → alone tx 0 empty_content ≡ empty_content }
    ensures same { (limits : Bounds) → AreEnough limits limits }
    ensures room { (c : Content) (tx : List ℕ) (n : ℕ) → NeedsNoMore c tx n }
    ensures entries { (c : Content) (tx : List ℕ) (n : ℕ) → entries (alone tx n c) ≡ own_events tx (entries c) }
{}
