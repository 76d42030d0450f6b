//! How a sampled value is scaled.
ghost use Rattle.std.specs.Prelude.{◌≡◌, ◌≤ℤ◌, pos, negsuc, option_map, IfOk, ◌≢◌, IfErr};
ghost use Rattle.marked_json.specs.Reading.{node};
ghost use Rattle.transaction_event.specs.Scale as spec;
ghost use Rattle.transaction_event.specs.declared.fault.PayloadFault.TheVariants.{OutOfMemory};

use crate::PayloadFault;
use crate::integer::optional_integer;
use crate::member::optional_text;
use marked_json::Node;
use reading_decimal::Unit;
use std::marker::Model;

/// The unit of a value, and the power of ten that it is multiplied by, -12 to 12.
#[derive(Drop)]
pub struct Scale {
    unit: Unit,
    multiplier: i8,
}

impl Model for Scale {
    ghost use Rattle.std.specs.Prelude.{◌≤ℤ◌, pos, negsuc};
    ghost use Rattle.transaction_event.specs.Scale.{Scaling};

    ghost Value = { Scaling };

    ghost view = { λ s. record { unit = s.unit; multiplier = s.multiplier } };

    ghost invariant = { λ s. (negsuc 11 ≤ℤ s.multiplier) × (s.multiplier ≤ℤ pos 12) };
}

fn unit_named(name: Option<&str>) -> Result<Unit, PayloadFault>
    ensures value { result ≡ spec.unit_named (option_map (λ s. s.now) name.entry) }
    ensures memory { IfErr result (λ f. f ≢ OutOfMemory) }
{
    match name {
        None | Some("Wh") => Ok(Unit::Wh),
        Some("kWh") => Ok(Unit::KWh),
        Some(_) => Err(PayloadFault::Range),
    }
}

#[tactic(auto, unfolding(crate::specs::Scale::named_scale))]
fn named_scale(measure: Node) -> Result<Scale, PayloadFault>
    ensures value { result ≡ spec.named_scale (node measure.entry) }
    ensures memory { IfErr result (λ f. f ≢ OutOfMemory) }
{
    let unit = unit_named(optional_text(measure, "unit")?)?;
    let multiplier = optional_integer(measure, "multiplier", -12, 12)?.unwrap_or(0);
    Ok(Scale {
        unit,
        multiplier: multiplier as i8,
    })
}

impl Scale {
    /// The scale of a unit of measure; plain watt-hours if there is none. Faults: `WrongType`, and
    /// `Range` for another unit than Wh and kWh or a multiplier outside -12 to 12.
    pub fn of(measure: Option<Node>) -> Result<Scale, PayloadFault>
        ensures value { result ≡ spec.scale_of (option_map node measure.entry) }
        ensures memory { IfErr result (λ f. f ≢ OutOfMemory) }
    {
        match measure {
            Some(measure) => named_scale(measure),
            None => Ok(Scale {
                unit: Unit::Wh,
                multiplier: 0,
            }),
        }
    }

    /// The unit of the value.
    pub fn unit(&self) -> Unit
        ensures value { result ≡ self.now.unit }
    {
        self.unit
    }

    /// The power of ten that the value is multiplied by, -12 to 12.
    pub fn multiplier(&self) -> i8
        ensures value { result ≡ self.now.multiplier }
        ensures low { negsuc 11 ≤ℤ result }
        ensures high { result ≤ℤ pos 12 }
    {
        self.multiplier
    }
}
