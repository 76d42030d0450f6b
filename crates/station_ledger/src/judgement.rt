ghost use Rattle.std.specs.Prelude.{◌≡◌};

use key_index::KeyPlace;
use ledger_model::Answer;

/// What a ledger answers to a command, and where the command's key is or belongs: a hint that saves a search.
#[derive(Drop)]
pub struct Judgement {
    /// The answer.
    pub answer: Answer,
    pub(crate) place: KeyPlace,
}

impl Judgement {
    // An answer that needed no search for a place.
    pub(crate) fn without_place(answer: Answer) -> Judgement
        ensures { result.answer ≡ answer }
    {
        Judgement {
            answer,
            place: KeyPlace::UNKNOWN,
        }
    }
}
