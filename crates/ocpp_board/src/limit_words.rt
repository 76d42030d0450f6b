//! The words of a server for its stations' limits.
ghost use Rattle.std.specs.Prelude.{◌≡◌, ℕ, IfSome, None, map, option_map};
ghost use Rattle.ocpp_board.specs.LimitWords.{AsksLimits, Says, StateLimits};

use ledger_model::Limits;

/// The limits of each station: those that these words state, or the default ones if there are no words. `None` if
/// words are not four decimals, each in its range.
pub fn limits_of(words: Option<&[&str]>) -> Option<Limits>
    ensures { AsksLimits (option_map (λ w. map (λ t. t.now) w.now) words.entry) result }
{
    match words {
        Some(words) => stated_limits(words),
        None => Some(Limits::default()),
    }
}

// The limits that four words state: of transactions, events, readings and changes.
fn stated_limits(words: &[&str]) -> Option<Limits>
    ensures { StateLimits (map (λ t. t.now) words.now) result }
{
    let [transactions, events, readings, changes] = words else {
        return None;
    };
    Limits::new(
        number(transactions)?,
        number(events)?,
        number(readings)?,
        number(changes)?,
    )
}

// The number that a word says.
fn number(word: &str) -> Option<u64>
    ensures says { IfSome result (λ n. Says word.now n) }
    ensures none { result ≡ None → (n : ℕ) → Says word.now n → ⊥ }
{
    word.parse::<u64>().ok()
}
