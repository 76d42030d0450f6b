ghost use Rattle.std.specs.Prelude.{◌≡◌, ◌↔◌, IsTrue};
ghost use Rattle.transaction_map.specs.Map.{id_cmp};

use ledger_model::TxId;
use std::cmp::Ordering;
use std::marker::Model;

/// A transaction's id, and its value.
#[derive(Drop)]
pub struct NamedValue<V> {
    id: TxId,
    value: V,
}

impl<V> Model for NamedValue<V> {
    ghost use Rattle.std.specs.Prelude.{ℕ, List};

    ghost Value = { List ℕ × V };

    ghost view = { λ r. (r.id, r.value) };
}

impl<V: Copy> NamedValue<V> {
    // The value of this transaction.
    pub(crate) fn new(id: TxId, value: V) -> Self
        ensures { result ≡ (id, value) }
    {
        NamedValue { id, value }
    }

    pub(crate) fn id(&self) -> &TxId
        ensures { result.now ≡ self.now.0 }
    {
        &self.id
    }

    pub(crate) fn value(&self) -> V
        ensures { result ≡ self.now.1 }
    {
        self.value
    }

    // Returns whether it is the row of this transaction.
    pub(crate) fn is_of(&self, id: &TxId) -> bool
        ensures { IsTrue result ↔ (self.now.0 ≡ id.now) }
    {
        self.id == *id
    }

    // Compares the id with another.
    pub(crate) fn cmp_id(&self, id: &TxId) -> Ordering
        ensures { result ≡ id_cmp self.now.0 id.now }
    {
        self.id.cmp(id)
    }

    // Changes the value.
    pub(crate) fn set(&mut self, value: V)
        ensures { self.new ≡ (self.old.0, value) }
    {
        self.value = value;
    }
}
