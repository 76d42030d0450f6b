//! Laws of runs: of a station, and of one of its transactions.
ghost use Rattle.std.specs.Prelude.{◌≡◌, ℕ, false, List, All, filter};
ghost use Rattle.ledger_model.{specs.declared.command.Command.Command, specs.Admissible.key_of, specs.Laws.answers, specs.Content.empty_content, specs.Limits.Bounds};
ghost use Rattle.transaction_laws.{specs.Alone.{AreEnough, is_by_limit, belongs_to}, specs.Transcript.{DoTheSame, IsRunAlone, commands_in, own_transcript}};

/// A transaction depends on its own commands alone. They get the same answers, but for the counts of changes,
/// and leave the same events, whatever else happens at their station, and at another station too. A command that
/// a limit of the station refuses is left out; where no limit refuses, none is.
pub fn runs_of_a_transaction()
    ensures alone { (limits lone : Bounds) (tx : List ℕ) (commands : List Command) → AreEnough limits lone → IsRunAlone limits lone tx commands }
    ensures alike { (tx : List ℕ) (limits : Bounds) (commands : List Command) (limits' : Bounds) (commands' : List Command)
        → commands_in (own_transcript tx limits commands) ≡ commands_in (own_transcript tx limits' commands') → DoTheSame tx limits commands limits' commands' }
    ensures all { (limits : Bounds) (tx : List ℕ) (commands : List Command) → All (λ a. is_by_limit a ≡ false) (answers limits empty_content commands)
        → commands_in (own_transcript tx limits commands) ≡ filter (λ command. belongs_to tx (key_of command)) commands }
{}
