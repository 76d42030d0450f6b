//! In which directions an event has readings.
ghost use Rattle.std.specs.Prelude.{◌≡◌, is_some};
ghost use Rattle.ledger_model.{specs.ByDirection.in_direction, specs.Deltas.first_reading, specs.Event.toward, specs.declared.reading.Direction.Direction};

use ledger_model::{ByDirection, Direction, Reading};

/// In which directions there is a reading.
pub type Carries = ByDirection<bool>;

// Returns whether there is a reading of a direction.
fn has_reading(readings: &[Reading], direction: Direction) -> bool
    ensures { result ≡ is_some (first_reading (toward direction readings.now)) }
{
    for reading in readings {
        if reading.direction() == direction {
            return true;
        }
    }
    false
}

// The directions that these readings have.
pub(crate) fn carried_by(readings: &[Reading]) -> Carries
    ensures { (d : Direction) → in_direction d result ≡ is_some (first_reading (toward d readings.now)) }
{
    ByDirection {
        import: has_reading(readings, Direction::Import),
        export: has_reading(readings, Direction::Export),
    }
}
