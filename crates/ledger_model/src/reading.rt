ghost use Rattle.std.specs.Prelude.{◌≡◌, ◌≤◌, ◌↔◌, IsSome, IfSome};
ghost use Rattle.ledger_model.specs.Ranges.{greatest_reading};

use crate::Moment;
use energy_flow::Level;
use std::marker::Model;

/// The greatest level of a reading, in milliwatt-hours: 10^13, which is ten gigawatt-hours (this
/// product's profile).
pub const GREATEST_READING: u64 = 10_000_000_000_000;

/// Which active energy register a reading is of (the measurand of a SampledValueType, OCPP 2.0.1
/// Part 2, J02).
#[derive(Clone, Copy, PartialEq, Eq)]
pub enum Direction {
    /// What the vehicle took: `Energy.Active.Import.Register`.
    Import,
    /// What the vehicle fed back: `Energy.Active.Export.Register`.
    Export,
}

/// A counted reading of an active energy register: its moment, its level in milliwatt-hours, and its
/// direction (MeterValueType, OCPP 2.0.1 Part 2, J02).
#[derive(Clone, Copy, PartialEq, Eq)]
pub struct Reading {
    moment: Moment,
    level: Level,
    direction: Direction,
}

impl Model for Reading {
    ghost use Rattle.std.specs.Prelude.{◌≤◌};
    ghost use Rattle.ledger_model.{specs.Event.MeterReading, specs.Ranges.greatest_reading};

    ghost Value = { MeterReading };

    ghost view = { λ r. record { moment = r.moment; mwh = r.level; direction = r.direction } };

    ghost invariant = { λ r. r.level ≤ greatest_reading };

    ghost inverse = { λ m. record { moment = m.moment; level = m.mwh; direction = m.direction } };
}

impl Reading {
    /// The reading of `mwh` milliwatt-hours at a moment, of this direction's register; `None` above
    /// 10^13.
    pub fn new(moment: Moment, mwh: u64, direction: Direction) -> Option<Self>
        ensures valid { IsSome result ↔ (mwh ≤ greatest_reading) }
        ensures moment { IfSome result (λ r. r.moment ≡ moment) }
        ensures mwh { IfSome result (λ r. r.mwh ≡ mwh) }
        ensures direction { IfSome result (λ r. r.direction ≡ direction) }
    {
        if mwh <= GREATEST_READING {
            Some(Reading {
                moment,
                level: Level::new(mwh),
                direction,
            })
        } else {
            None
        }
    }

    /// When the register was read.
    pub fn moment(self) -> Moment
        ensures { result ≡ self.moment }
    {
        self.moment
    }

    /// What the register showed, in milliwatt-hours, at most 10^13.
    pub fn level(self) -> Level
        ensures value { result ≡ self.mwh }
        ensures range { result ≤ greatest_reading }
    {
        self.level
    }

    /// Which register was read.
    pub fn direction(self) -> Direction
        ensures { result ≡ self.direction }
    {
        self.direction
    }
}
