//! Hints of the numbers of stations, by their names.
ghost use Rattle.std.specs.Prelude.{◌<◌};

use ledger_model::Name;

// How many numbers it keeps.
const PLACES: usize = 256;

/// The numbers of stations, each at a place computed from its name. They are only hints: a caller checks that the
/// station has the name.
#[derive(Drop)]
pub(crate) struct StationHints {
    numbers: [u8; PLACES],
}

impl StationHints {
    /// Hints that all name the first station.
    pub(crate) fn new() -> Self {
        StationHints {
            numbers: [0; PLACES],
        }
    }

    /// The number that was kept last at this name's place.
    pub(crate) fn number(&self, name: &Name) -> usize {
        usize::from(self.numbers[place(name)])
    }

    /// Keeps the number of the station of this name.
    pub(crate) fn keep(&mut self, name: &Name, number: usize) {
        if let Ok(number) = u8::try_from(number) {
            self.numbers[place(name)] = number;
        }
    }
}

// The place of a name. Names of one plan usually differ in their last two characters.
fn place(name: &Name) -> usize
    ensures { result < 256 }
{
    match name.text().as_bytes() {
        [.., tens, ones] => (usize::from(*tens) * 10 + usize::from(*ones)) % PLACES,
        _ => 0,
    }
}
