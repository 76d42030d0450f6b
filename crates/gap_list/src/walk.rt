ghost use Rattle.std.specs.Prelude.{◌≡◌, ℕ, ◌<◌, List, length, drop, slice_index};
ghost use Rattle.ledger_model.specs.BoardLaws.{AreRising};
ghost use Rattle.gap_list.specs.Walk.{left, StandsAt};

/// A walk over rising numbers, from place to place. Only the walk itself gives places.
pub trait NumberWalk {
    /// A place in the walk: at one of its numbers.
    type Place: Copy;

    // All numbers of the walk.
    ghost numbers: { Self → List ℕ };

    // The numbers from a place on, none if the walk did not give the place.
    ghost ahead: { Self → Self.Place → List ℕ };

    /// The place of the first number, `None` if there is none.
    fn start(&self) -> Option<Self::Place>
        ensures rising { AreRising (numbers self.now) }
        ensures all { left ahead self.now result ≡ numbers self.now }
        ensures stands { StandsAt ahead self.now result };

    /// The number at a place.
    fn number(&self, place: Self::Place) -> u32
        requires { 0 < length (ahead self.now place) }
        ensures { result ≡ slice_index (ahead self.now place) 0 };

    /// The place of the next number, `None` at the last one.
    fn next(&self, place: Self::Place) -> Option<Self::Place>
        requires { 0 < length (ahead self.now place) }
        ensures rest { left ahead self.now result ≡ drop 1 (ahead self.now place) }
        ensures stands { StandsAt ahead self.now result };
}
