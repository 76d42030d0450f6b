//! Laws of the step and of the order of readings, with worked examples of both.

ghost use Rattle.std.specs.Prelude.{◌≡◌, ℕ, ◌+◌, ◌<◌, ◌≤◌, List, [], ◌∷◌, All, length, IsPermutation};
ghost use Rattle.ledger_model.{specs.declared.reading.Direction.Direction, specs.declared.reading.Direction.TheVariants.Import, specs.declared.command.Command.Command, specs.declared.command.Command.TheVariants.{Void, Restore}, specs.declared.answer.Answer.TheVariants.{Accepted, Repeat, Refused}, specs.declared.answer.Refusal.Refusal, specs.declared.answer.Refusal.TheVariants.{ConflictingEvent, EventsFull}, specs.Key.KeyName, specs.Limits.{Bounds, default_limits}, specs.Content.{Content, empty_content, entries, transactions_of}, specs.Board.figures_by, specs.declared.order.Order.Order, specs.Figures.AreWithin, specs.Step.{step, Reached, readings_stored}, specs.Energy.{readings_of, energy}, specs.Laws.{AreAccepted, left_by, answers, by_number, Sent, deliveries, DeliversTheSame, IsLeftByRun}, specs.Examples.{narrow_limits, first_run, late_event, falling_register, conflict, void_and_restore, void_and_restore_answers, full_until_erased, other_direction}};

/// An accepted void and then an accepted restoration of the same key leave the same events, with the
/// same ones voided; both changes are counted.
#[tactic(auto, using(crate::proofs::LedgerLemmas::inverse))]
pub fn inverses()
    ensures events { (limits : Bounds) (c : Content) (key : KeyName) → AreAccepted limits c (Void key ∷ Restore key ∷ []) → (left_by limits c (Void key ∷ Restore key ∷ [])).events ≡ c.events }
    ensures counted { (limits : Bounds) (c : Content) (key : KeyName) → AreAccepted limits c (Void key ∷ Restore key ∷ []) → (left_by limits c (Void key ∷ Restore key ∷ [])).changes ≡ c.changes + 2 }
{}

/// A repeat or a refusal leaves the content as it was, its count of changes included.
pub fn unchanged()
    ensures repeated { (limits : Bounds) (c : Content) (command : Command) → (step limits c command).1 ≡ Repeat → (step limits c command).0 ≡ c }
    ensures refused { (limits : Bounds) (c : Content) (command : Command) (why : Refusal) → (step limits c command).1 ≡ Refused why → (step limits c command).0 ≡ c }
{}

/// If deliveries are all accepted in one order, then from the same content they are all accepted in
/// every order, and they leave the same content.
pub fn orders()
    ensures { (limits : Bounds) (c : Content) (one other : List Sent) → IsPermutation one other → AreAccepted limits c (deliveries one) → DeliversTheSame limits c one other }
{}

/// A content is reached by n changes exactly if some list of n admissible commands, all accepted, leads
/// to it from the empty content. Its count of changes is then n, at most its limit. What it stores and
/// its figures are within its limits.
#[tactic(auto, using(crate::proofs::ReachedContents::run_of, crate::proofs::ReachedContents::reached_by, crate::proofs::ReachedContents::counts, crate::proofs::ReachedContents::few_changes))]
pub fn reached()
    ensures run { (limits : Bounds) (n : ℕ) (c : Content) → Reached limits n c → (commands : List Command) × IsLeftByRun limits n c commands }
    ensures each_run { (limits : Bounds) (n : ℕ) (c : Content) (commands : List Command) → IsLeftByRun limits n c commands → Reached limits n c }
    ensures counted { (limits : Bounds) (n : ℕ) (c : Content) → Reached limits n c → c.changes ≡ n }
    ensures few { (limits : Bounds) (n : ℕ) (c : Content) → Reached limits n c → n ≤ limits.changes }
    ensures events { (limits : Bounds) (n : ℕ) (c : Content) → Reached limits n c → length (entries c) ≤ limits.events }
    ensures readings { (limits : Bounds) (n : ℕ) (c : Content) → Reached limits n c → readings_stored (entries c) ≤ limits.readings }
    ensures transactions { (limits : Bounds) (n : ℕ) (c : Content) → Reached limits n c → length (transactions_of (entries c)) ≤ limits.transactions }
    ensures figures { (order : Order) (limits : Bounds) (n : ℕ) (c : Content) → Reached limits n c → AreWithin limits (figures_by order (entries c)) }
{}

/// The readings of a transaction in a direction, in order, are those found by looking at the numbers 0, 1, .. one by
/// one, up to any number above all stored ones.
#[tactic(auto, using(crate::proofs::OrderOfReadings::readings_by_number))]
pub fn readings_in_order()
    ensures { (d : Direction) (tx : List ℕ) (c : Content) (n : ℕ) → All (λ e. e.0.seq < n) (entries c) → by_number d tx c n ≡ readings_of d tx (entries c) }
{}

/// Worked examples: the energies after three runs, and the answers of four.
pub fn examples()
    ensures first_run { energy Import (entries (left_by default_limits empty_content first_run)) ≡ record { up = 600_000; down = 0 } }
    ensures late_event { energy Import (entries (left_by default_limits empty_content late_event)) ≡ record { up = 600_000; down = 0 } }
    ensures falling_register { energy Import (entries (left_by default_limits empty_content falling_register)) ≡ record { up = 50_000; down = 1_500_000 } }
    ensures conflict { answers default_limits empty_content conflict ≡ Accepted 1 ∷ Accepted 2 ∷ Accepted 3 ∷ Repeat ∷ Refused ConflictingEvent ∷ [] }
    ensures other_direction { answers default_limits empty_content other_direction ≡ Accepted 1 ∷ Refused ConflictingEvent ∷ [] }
    ensures void_and_restore { answers default_limits empty_content void_and_restore ≡ void_and_restore_answers }
    ensures full_until_erased { answers narrow_limits empty_content full_until_erased ≡ Accepted 1 ∷ Accepted 2 ∷ Refused EventsFull ∷ Accepted 3 ∷ Refused EventsFull ∷ Accepted 4 ∷ Accepted 5 ∷ [] }
{}
