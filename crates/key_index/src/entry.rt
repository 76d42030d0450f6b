//! An entry of an index.
ghost use Rattle.std.specs.Prelude.{◌≡◌, nat_lt, ⊤};
ghost use Rattle.key_index.specs.Marks.{with_marks};

use crate::filed::{Filed, Marks};
use crate::key::Ranked;
use std::alloc::AllocError;
use std::marker::Model;

/// A key, and what is filed under it. Contracts see the key's rank.
#[derive(Copy)]
pub struct Entry<K: Ranked, V: Copy> {
    key: K,
    filed: Filed<V>,
}

impl<K: Ranked, V: Copy> Model for Entry<K, V> {
    ghost use Rattle.std.specs.Prelude.{ℕ};
    ghost use Rattle.key_index.specs.declared.filed.Filed.{Filed};

    ghost Value = { ℕ × Filed V };

    ghost view = { λ e. (K.rank e.key, e.filed) };

    ghost inverse = { λ e. record { key = K.key_of e.0; filed = e.1 } };

    ghost inverse_ok = { λ e h i. record { key = K.back e.key i; filed = e.filed } };
}

impl<K: Ranked, V: Copy> Clone for Entry<K, V> {
    ghost is_clone = { λ x y. y ≡ x };

    ghost is_infallible = { λ _. ⊤ };

    fn clone(&self) -> Result<Self, AllocError> {
        Ok(*self)
    }
}

impl<K: Ranked, V: Copy> Entry<K, V> {
    /// An entry of this key and what is filed under it.
    pub fn new(key: K, filed: Filed<V>) -> Self
        ensures { result ≡ (K.rank key, filed) }
    {
        Entry { key, filed }
    }

    /// The key.
    pub fn key(self) -> K
        ensures { K.rank result ≡ self.0 }
    {
        self.key
    }

    /// What is filed under the key.
    pub fn filed(self) -> Filed<V>
        ensures { result ≡ self.1 }
    {
        self.filed
    }

    // The same entry with other marks.
    pub(crate) fn marked_as(self, marks: Marks) -> Self
        ensures { result ≡ with_marks marks self }
    {
        let Filed { value, .. } = self.filed;
        Entry {
            key: self.key,
            filed: Filed { value, marks },
        }
    }

    // Returns whether its key is before another.
    pub(crate) fn is_before(self, key: K) -> bool
        ensures { result ≡ nat_lt self.0 (K.rank key) }
    {
        self.key.is_before(key)
    }

    // Returns whether another key is before its own.
    pub(crate) fn is_after(self, key: K) -> bool
        ensures { result ≡ nat_lt (K.rank key) self.0 }
    {
        key.is_before(self.key)
    }
}
