//! Places in an index, found once and passed on.

/// A place in an index, as a hint: each call that takes one tests it, and searches if it is not the
/// place of the call's key.
#[derive(Clone, Copy, PartialEq, Eq)]
pub struct KeyPlace {
    pub(crate) leaf: usize,
    pub(crate) entry: usize,
}

impl KeyPlace {
    /// The place of no key, to begin with.
    pub const UNKNOWN: KeyPlace = KeyPlace {
        leaf: usize::MAX,
        entry: 0,
    };

    /// The place behind the entry at this place.
    pub fn next(self) -> KeyPlace {
        KeyPlace {
            leaf: self.leaf,
            entry: self.entry.saturating_add(1),
        }
    }

    /// This place, or the other if this one is not known.
    pub fn known_or(self, other: KeyPlace) -> KeyPlace {
        if self == KeyPlace::UNKNOWN {
            other
        } else {
            self
        }
    }

    /// This place after an entry was put in at another one, if no leaf was split by it.
    pub fn moved_by(self, put: KeyPlace) -> KeyPlace {
        if self.leaf == put.leaf && put.entry <= self.entry {
            return self.next();
        }
        self
    }
}
