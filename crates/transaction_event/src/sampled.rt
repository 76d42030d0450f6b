//! Sampled values, and which of them count.
ghost use Rattle.std.specs.Prelude.{◌≡◌, ◌≢◌, ◌≤◌, Ok, Err, IfOk, OnOk, IfErr, option_map, [], ◌∷◌, ◌++◌};
ghost use Rattle.marked_json.specs.Reading.{node};
ghost use Rattle.ledger_model.{specs.Ranges.greatest_reading, specs.Event.MeterReading};
ghost use Rattle.transaction_event.{specs.Growth.SampleGrows, specs.declared.fault.PayloadFault.TheVariants.OutOfMemory};
ghost use Rattle.transaction_event.specs.Sampled as spec;

use crate::PayloadFault;
use crate::member::{optional_object, optional_text, required_number};
use crate::readings::CountedReadings;
use crate::scale::Scale;
use ledger_model::{Direction, Moment, Reading};
use marked_json::Node;
use reading_decimal::mwh_of;

fn absent_or(expected: &str, text: Option<&str>) -> bool
    ensures { result ≡ spec.absent_or expected.now (option_map (λ s. s.now) text.entry) }
{
    match text {
        Some(text) => text == expected,
        None => true,
    }
}

// The direction of the register that a measurand names.
fn direction_of(measurand: Option<&str>) -> Option<Direction>
    ensures { result ≡ spec.direction_of (option_map (λ s. s.now) measurand.entry) }
{
    if absent_or("Energy.Active.Import.Register", measurand) {
        Some(Direction::Import)
    } else if absent_or("Energy.Active.Export.Register", measurand) {
        Some(Direction::Export)
    } else {
        None
    }
}

// In which direction a sampled value counts, if it does; its three texts are all checked first.
#[tactic(auto, unfolding(crate::specs::Sampled::counts))]
fn counts(sampled: Node) -> Result<Option<Direction>, PayloadFault>
    ensures value { result ≡ spec.counts (node sampled.entry) }
    ensures memory { IfErr result (λ f. f ≢ OutOfMemory) }
{
    let measurand = optional_text(sampled, "measurand")?;
    let phase = optional_text(sampled, "phase")?;
    let location = optional_text(sampled, "location")?;
    if phase.is_none() && absent_or("Outlet", location) {
        Ok(direction_of(measurand))
    } else {
        Ok(None)
    }
}

// The whole milliwatt-hours of a sampled value that counts.
#[tactic(auto, unfolding(crate::specs::Sampled::sampled_mwh))]
fn sampled_mwh(sampled: Node) -> Result<u64, PayloadFault>
    ensures value { result ≡ spec.sampled_mwh (node sampled.entry) }
    ensures range { IfOk result (λ mwh. mwh ≤ greatest_reading) }
    ensures memory { IfErr result (λ f. f ≢ OutOfMemory) }
{
    let scale = Scale::of(optional_object(sampled, "unitOfMeasure")?)?;
    let token = required_number(sampled, "value")?;
    mwh_of(token, scale.multiplier(), scale.unit()).map_err(|_| PayloadFault::Decimal)
}

fn add_counted(
    moment: Moment,
    sampled: Node,
    counted: Option<Direction>,
    readings: &mut CountedReadings,
) -> Result<(), PayloadFault>
    ensures ok { OnOk result
        (spec.if_counted moment readings.old (node sampled.entry) counted ≡ Ok readings.new) }
    ensures err { IfErr result
        (λ f. f ≢ OutOfMemory → spec.if_counted moment readings.old (node sampled.entry) counted ≡ Err f) }
    ensures memory { IfErr result
        (λ f. f ≡ OutOfMemory → (reading : MeterReading)
        × (spec.if_counted moment readings.old (node sampled.entry) counted ≡ Ok (readings.old ++ reading ∷ []))) }
{
    match counted {
        Some(direction) => {
            let mwh = sampled_mwh(sampled)?;
            readings.add(Reading::new(moment, mwh, direction).unwrap())
        }
        None => Ok(()),
    }
}

/// Adds the reading of a sampled value, if it counts: one of an active energy register, of no
/// single phase, taken at the outlet (SampledValueType, OCPP 2.0.1 Part 2, J02). Faults:
/// `WrongType`, `Range`, `Missing`, `Decimal`, `TooManyReadings`, `OutOfMemory`.
#[tactic(auto, unfolding(crate::specs::Sampled::sample))]
pub fn sample(
    moment: Moment,
    value: Node,
    readings: &mut CountedReadings,
) -> Result<(), PayloadFault>
    ensures ok { OnOk result (spec.sample moment readings.old (node value.entry) ≡ Ok readings.new) }
    ensures err { IfErr result
        (λ f. f ≢ OutOfMemory → spec.sample moment readings.old (node value.entry) ≡ Err f) }
    ensures memory { IfErr result (λ f. f ≡ OutOfMemory → SampleGrows moment readings.old (node value.entry)) }
{
    if !value.is_object() {
        return Err(PayloadFault::WrongType);
    }
    let counted = counts(value)?;
    add_counted(moment, value, counted, readings)
}
