//! The meter values of a request.
ghost use Rattle.std.specs.Prelude.{◌≡◌, ◌≢◌, Ok, Err, OnOk, IfOk, IfErr};
ghost use Rattle.marked_json.specs.Reading.{node, left_of};
ghost use Rattle.transaction_event.{specs.Steps.for_each, specs.Sampled.sample, specs.RequestMembers.{AreFound, request_with}, specs.Growth.{GrowsAmong, SampleGrows, MeterValueGrows, MeterValuesGrow}, specs.declared.fault.PayloadFault.TheVariants.OutOfMemory};
ghost use Rattle.transaction_event.specs.MeterValues as spec;

use crate::PayloadFault;
use crate::member::required_items;
use crate::readings::CountedReadings;
use crate::request_members::RequestMembers;
use crate::sampled::sample;
use crate::timestamp::NamedMoment;
use ledger_model::Moment;
use marked_json::{Items, Node};
use std::alloc::Global;

#[tactic(auto, unfolding(crate::specs::Steps::for_each), using(crate::proofs::Growing::grows_here, crate::proofs::Growing::grows_later))]
fn samples(
    moment: Moment,
    values: Items,
    readings: &mut CountedReadings,
) -> Result<(), PayloadFault>
    ensures ok { OnOk result
        (for_each (sample moment) readings.old (left_of values.entry) ≡ Ok readings.new) }
    ensures err { IfErr result
        (λ f. f ≢ OutOfMemory → for_each (sample moment) readings.old (left_of values.entry) ≡ Err f) }
    ensures memory { IfErr result
        (λ f. f ≡ OutOfMemory → GrowsAmong (sample moment) (SampleGrows moment) readings.old (left_of values.entry)) }
{
    for value in values {
        sample(moment, value, readings)?;
    }
    Ok(())
}

#[tactic(auto, unfolding(crate::specs::MeterValues::meter_value))]
fn meter_value(
    at: &NamedMoment,
    element: Node,
    readings: &mut CountedReadings,
) -> Result<(), PayloadFault>
    ensures ok { OnOk result (spec.meter_value readings.old (node element.entry) ≡ Ok readings.new) }
    ensures err { IfErr result
        (λ f. f ≢ OutOfMemory → spec.meter_value readings.old (node element.entry) ≡ Err f) }
    ensures memory { IfErr result (λ f. f ≡ OutOfMemory → MeterValueGrows readings.old (node element.entry)) }
{
    if !element.is_object() {
        return Err(PayloadFault::WrongType);
    }
    let moment = at.timestamp(element)?;
    samples(moment, required_items(element, "sampledValue")?, readings)
}

#[tactic(auto, unfolding(crate::specs::Steps::for_each), using(crate::proofs::Growing::grows_here, crate::proofs::Growing::grows_later))]
fn elements_in_turn(
    at: &NamedMoment,
    elements: Items,
    readings: &mut CountedReadings,
) -> Result<(), PayloadFault>
    ensures ok { OnOk result
        (for_each spec.meter_value readings.old (left_of elements.entry) ≡ Ok readings.new) }
    ensures err { IfErr result
        (λ f. f ≢ OutOfMemory → for_each spec.meter_value readings.old (left_of elements.entry) ≡ Err f) }
    ensures memory { IfErr result
        (λ f. f ≡ OutOfMemory → GrowsAmong spec.meter_value MeterValueGrows readings.old (left_of elements.entry)) }
{
    for element in elements {
        meter_value(at, element, readings)?;
    }
    Ok(())
}

/// The counted readings of a request's meter values (MeterValueType, OCPP 2.0.1 Part 2, J02), in
/// the order sent. The first fault is reported.
#[tactic(auto, unfolding(crate::specs::MeterValues::meter_values, crate::specs::Steps::for_each))]
pub fn meter_values(
    alloc: Global,
    members: &RequestMembers,
    at: &NamedMoment,
) -> Result<CountedReadings, PayloadFault>
    requires { AreFound members.now }
    ensures ok { IfOk result (λ readings. spec.meter_values (request_with members.now) ≡ Ok readings) }
    ensures err { IfErr result
        (λ f. f ≢ OutOfMemory → spec.meter_values (request_with members.now) ≡ Err f) }
    ensures memory { IfErr result (λ f. f ≡ OutOfMemory → MeterValuesGrow (request_with members.now)) }
{
    let mut readings = CountedReadings::new(alloc);
    if let Some(elements) = members.meter_values()? {
        elements_in_turn(at, elements, &mut readings)?;
    }
    Ok(readings)
}
