ghost use Rattle.std.specs.Prelude.{◌≡◌, ◌↔◌, IsTrue};
ghost use Rattle.ledger_model.specs.ByDirection.{in_direction, no_flows, flows_toward, plus_flows, minus_flows, CanPlusFlows, CanMinusFlows};

use crate::Direction;
use energy_flow::Flow;

/// One value for each direction.
#[derive(Clone, Copy, PartialEq, Eq)]
pub struct ByDirection<T> {
    /// The value for the import register.
    pub import: T,
    /// The value for the export register.
    pub export: T,
}

impl<T: Copy> ByDirection<T> {
    /// The value of a direction.
    #[inline(always)]
    pub fn get(&self, direction: Direction) -> T
        ensures { result ≡ in_direction direction self.now }
    {
        match direction {
            Direction::Import => self.import,
            Direction::Export => self.export,
        }
    }
}

/// Energies, added up and subtracted direction by direction.
impl ByDirection<Flow> {
    /// No energy in either direction.
    pub fn zero() -> Self
        ensures { result ≡ no_flows }
    {
        ByDirection {
            import: Flow::zero(),
            export: Flow::zero(),
        }
    }

    /// An energy in one direction, and none in the other.
    pub fn toward(direction: Direction, flow: Flow) -> Self
        ensures { result ≡ flows_toward direction flow }
    {
        match direction {
            Direction::Import => ByDirection {
                import: flow,
                export: Flow::zero(),
            },
            Direction::Export => ByDirection {
                import: Flow::zero(),
                export: flow,
            },
        }
    }

    /// Returns whether `plus` stays within 64 bits.
    pub fn can_plus(self, other: Self) -> bool
        ensures { IsTrue result ↔ CanPlusFlows self other }
    {
        self.import.can_plus(other.import) && self.export.can_plus(other.export)
    }

    /// The sum of both. `can_plus` tests the condition.
    pub fn plus(self, other: Self) -> Self
        requires { CanPlusFlows self other }
        ensures { result ≡ plus_flows self other }
    {
        ByDirection {
            import: self.import.plus(other.import),
            export: self.export.plus(other.export),
        }
    }

    /// Returns whether `other` can be subtracted from these energies.
    pub fn can_minus(self, other: Self) -> bool
        ensures { IsTrue result ↔ CanMinusFlows self other }
    {
        self.import.can_minus(other.import) && self.export.can_minus(other.export)
    }

    /// These energies less the others. `can_minus` tests the condition.
    pub fn minus(self, other: Self) -> Self
        requires { CanMinusFlows self other }
        ensures { result ≡ minus_flows self other }
    {
        ByDirection {
            import: self.import.minus(other.import),
            export: self.export.minus(other.export),
        }
    }
}
