//! How many entries of a leaf have each mark.
ghost use Rattle.std.specs.Prelude.{◌≡◌, ◌+◌, ◌<◌, ◌≤◌, take, length};
ghost use Rattle.key_index.{specs.declared.filed.Mark.Mark, specs.Marks.{has_mark, weigh, count_of, AreCounts}};

use crate::entry::Entry;
use crate::filed::{Mark, Marks};
use crate::key::Ranked;

/// How many of at most 128 entries have each mark.
#[derive(Clone, Copy)]
pub struct Counts {
    live: u8,
    imports: u8,
    exports: u8,
    names: u8,
}

// One for a mark that is set.
fn weight(is_set: bool) -> u8
    ensures { result ≡ weigh is_set }
{
    if is_set { 1 } else { 0 }
}

impl Counts {
    // The counts of no entries.
    pub(crate) fn none() -> Self
        ensures { (m : Mark) → count_of m result ≡ 0 }
    {
        Counts {
            live: 0,
            imports: 0,
            exports: 0,
            names: 0,
        }
    }

    // How many entries have a mark.
    pub(crate) fn of(self, mark: Mark) -> u8
        ensures { result ≡ count_of mark self }
    {
        match mark {
            Mark::Live => self.live,
            Mark::Imports => self.imports,
            Mark::Exports => self.exports,
            Mark::Names => self.names,
        }
    }

    // The counts with one more entry, of these marks.
    pub(crate) fn more(self, marks: Marks) -> Self
        requires { (m : Mark) → count_of m self < 255 }
        ensures { (m : Mark) → count_of m result ≡ count_of m self + weigh (has_mark m marks) }
    {
        Counts {
            live: self.live + weight(marks.live),
            imports: self.imports + weight(marks.imports),
            exports: self.exports + weight(marks.exports),
            names: self.names + weight(marks.names),
        }
    }

    // The counts with one entry fewer, of these marks.
    pub(crate) fn less(self, marks: Marks) -> Self
        requires { (m : Mark) → weigh (has_mark m marks) ≤ count_of m self }
        ensures { (m : Mark) → count_of m result + weigh (has_mark m marks) ≡ count_of m self }
    {
        Counts {
            live: self.live - weight(marks.live),
            imports: self.imports - weight(marks.imports),
            exports: self.exports - weight(marks.exports),
            names: self.names - weight(marks.names),
        }
    }

    // The counts with those of other entries added.
    pub(crate) fn plus(self, other: Counts) -> Self
        requires { (m : Mark) → count_of m self + count_of m other ≤ 255 }
        ensures { (m : Mark) → count_of m result ≡ count_of m self + count_of m other }
    {
        Counts {
            live: self.live + other.live,
            imports: self.imports + other.imports,
            exports: self.exports + other.exports,
            names: self.names + other.names,
        }
    }

    // The counts without those of some of the entries.
    pub(crate) fn minus(self, other: Counts) -> Self
        requires { (m : Mark) → count_of m other ≤ count_of m self }
        ensures { (m : Mark) → count_of m result + count_of m other ≡ count_of m self }
    {
        Counts {
            live: self.live - other.live,
            imports: self.imports - other.imports,
            exports: self.exports - other.exports,
            names: self.names - other.names,
        }
    }
}

// The counts of at most 128 entries.
pub(crate) fn counts_over<K: Ranked, V: Copy>(entries: &[Entry<K, V>]) -> Counts
    requires { length entries.now ≤ 128 }
    ensures { AreCounts result entries.now }
{
    let mut counts = Counts::none();
    for entry in entries {
        counts = counts.more(entry.filed().marks);
    }
    counts
}
