//! What an index keeps under a key: a value, and marks.
ghost use Rattle.std.specs.Prelude.{◌≡◌};
ghost use Rattle.key_index.specs.Marks.{has_mark};

/// The marks of an entry. What they mean is its owner's choice.
#[derive(Clone, Copy, PartialEq, Eq)]
pub struct Marks {
    /// The entry counts.
    pub live: bool,
    /// It counts, and has an import.
    pub imports: bool,
    /// It counts, and has an export.
    pub exports: bool,
    /// It counts, and names a place.
    pub names: bool,
}

/// One of the marks that an entry may have.
#[derive(Clone, Copy)]
pub enum Mark {
    /// `Marks::live`.
    Live,
    /// `Marks::imports`.
    Imports,
    /// `Marks::exports`.
    Exports,
    /// `Marks::names`.
    Names,
}

/// What is filed under a key.
#[derive(Clone, Copy, PartialEq, Eq)]
pub struct Filed<V> {
    /// The value.
    pub value: V,
    /// The marks.
    pub marks: Marks,
}

impl Marks {
    /// No mark.
    pub const NONE: Marks = Marks {
        live: false,
        imports: false,
        exports: false,
        names: false,
    };

    /// Returns whether the mark is set.
    pub fn has(self, mark: Mark) -> bool
        ensures { result ≡ has_mark mark self }
    {
        match mark {
            Mark::Live => self.live,
            Mark::Imports => self.imports,
            Mark::Exports => self.exports,
            Mark::Names => self.names,
        }
    }
}
