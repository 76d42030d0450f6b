//! The counted readings of an event.
ghost use Rattle.std.specs.Prelude.{◌≡◌, ◌≢◌, ◌≤◌, [], ◌∷◌, ◌++◌, length, Ok, Err, OnOk, IfErr};
ghost use Rattle.ledger_model.specs.Ranges.{most_event_readings};
ghost use Rattle.transaction_event.specs.Readings as spec;
ghost use Rattle.transaction_event.specs.declared.fault.PayloadFault.TheVariants.{OutOfMemory};

use crate::PayloadFault;
use ledger_model::{MAX_EVENT_READINGS, Reading};
use std::alloc::Global;
use std::marker::Model;

/// The counted readings so far, at most 1,024.
#[derive(Drop)]
pub struct CountedReadings {
    items: Vec<Reading>,
}

impl Model for CountedReadings {
    ghost use Rattle.std.specs.Prelude.{List, ◌≤◌, length};
    ghost use Rattle.ledger_model.{specs.Event.MeterReading, specs.Ranges.most_event_readings};

    ghost Value = { List MeterReading };

    ghost view = { λ r. r.items.items };

    ghost invariant = { λ r. length r.items.items ≤ most_event_readings };
}

impl CountedReadings {
    /// No reading yet; the list takes memory only when it grows.
    pub fn new(alloc: Global) -> CountedReadings
        ensures { result ≡ [] }
    {
        CountedReadings {
            items: Vec::new(alloc),
        }
    }

    /// Takes one more. Faults: `TooManyReadings` if there are 1,024 already, `OutOfMemory`.
    pub fn add(&mut self, reading: Reading) -> Result<(), PayloadFault>
        ensures ok { OnOk result (spec.one_more self.old reading ≡ Ok self.new) }
        ensures err { IfErr result (λ f. f ≢ OutOfMemory → spec.one_more self.old reading ≡ Err f) }
        ensures memory { IfErr result (λ f. f ≡ OutOfMemory → spec.one_more self.old reading ≡ Ok (self.old ++ reading ∷ [])) }
    {
        if self.items.len() >= MAX_EVENT_READINGS {
            return Err(PayloadFault::TooManyReadings);
        }
        match self.items.push(reading) {
            Ok(()) => Ok(()),
            Err(_) => Err(PayloadFault::OutOfMemory),
        }
    }

    /// The readings, in the order in which they came.
    pub fn into_vec(self) -> Vec<Reading>
        ensures value { result.items ≡ self }
        ensures few { length result.items ≤ most_event_readings }
    {
        self.items
    }
}
