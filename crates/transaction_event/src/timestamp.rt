//! The timestamp of an object.
ghost use Rattle.std.specs.Prelude.{◌≡◌, ◌≢◌, option_map, IfErr};
ghost use Rattle.marked_json.specs.Reading.{node};
ghost use Rattle.transaction_event.specs.Timestamp as spec;
ghost use Rattle.transaction_event.specs.declared.fault.PayloadFault.TheVariants.{OutOfMemory};

use crate::PayloadFault;
use crate::member::{required_text, required_text_of};
use ledger_model::Moment;
use marked_json::Node;
use reading_decimal::moment_of;
use std::marker::Model;

#[tactic(auto, unfolding(crate::specs::Timestamp::moment_named))]
fn moment_named(text: &str) -> Result<Moment, PayloadFault>
    ensures value { result ≡ spec.moment_named text.now }
    ensures memory { IfErr result (λ f. f ≢ OutOfMemory) }
{
    moment_of(text).map_err(|_| PayloadFault::Moment)
}

/// A moment, and the text that names it.
#[derive(Drop)]
pub struct NamedMoment<'a> {
    text: &'a str,
    moment: Moment,
}

impl<'a> Model for NamedMoment<'a> {
    ghost use Rattle.std.specs.Prelude.{◌≡◌, ℕ, Ok};
    ghost use Rattle.transaction_event.specs.Timestamp.{moment_named};

    ghost Value = { ℕ };

    ghost view = { λ n. n.moment };

    ghost invariant = { λ n. moment_named n.text.now ≡ Ok n.moment };
}

impl<'a> NamedMoment<'a> {
    /// The moment that a timestamp names. Faults: `Missing`, `WrongType`, `Moment`.
    pub fn of(timestamp: Option<Node<'a>>) -> Result<NamedMoment<'a>, PayloadFault>
        ensures value { result ≡ spec.timestamp_of (option_map node timestamp.entry) }
        ensures memory { IfErr result (λ f. f ≢ OutOfMemory) }
    {
        let text = required_text_of(timestamp)?;
        let moment = moment_named(text)?;
        Ok(NamedMoment { text, moment })
    }

    /// The moment.
    pub fn moment(&self) -> Moment
        ensures { result ≡ self.now }
    {
        self.moment
    }

    /// The moment that the timestamp of an object names. Faults: `Missing`, `WrongType`, `Moment`. Most meter values
    /// have the same text as their request, which is then not read again.
    #[tactic(auto, unfolding(crate::specs::Timestamp::timestamp))]
    pub fn timestamp(&self, object: Node) -> Result<Moment, PayloadFault>
        ensures value { result ≡ spec.timestamp (node object.entry) }
        ensures memory { IfErr result (λ f. f ≢ OutOfMemory) }
    {
        let text = required_text(object, "timestamp")?;
        if text == self.text {
            Ok(self.moment)
        } else {
            moment_named(text)
        }
    }
}
