ghost use Rattle.std.specs.Prelude.{◌≡◌, ◌<◌, ◌↔◌, IsSome, IfSome};
ghost use Rattle.ledger_model.{specs.Key.IsKeyName, specs.Ranges.sequence_end};

use crate::TxId;
use std::marker::Model;

/// The first number above all sequence numbers: 2^31 (this product's profile).
pub const SEQUENCE_END: u32 = 1 << 31;

/// What identifies an event of a station: its transaction and its sequence number, 0 to
/// 2,147,483,647 (`transactionId` and `seqNo` of TransactionEventRequest, OCPP 2.0.1 Part 2, block
/// E). Keys are ordered by the bytes of the transaction id, then by the number.
#[derive(PartialEq, Eq, Drop)]
pub struct Key {
    tx: TxId,
    seq: u32,
}

impl Model for Key {
    ghost use Rattle.std.specs.Prelude.{◌<◌};
    ghost use Rattle.ledger_model.{specs.Ranges.sequence_end, specs.Key.{KeyName, key_code}};

    ghost Value = { KeyName };

    ghost coded = { key_code };

    ghost view = { λ k. record { tx = k.tx; seq = k.seq } };

    ghost invariant = { λ k. k.seq < sequence_end };

    ghost inverse = { λ n. record { tx = n.tx; seq = n.seq } };
}

impl Key {
    /// The key of this transaction and number; `None` above 2,147,483,647.
    pub fn new(tx: TxId, seq: u32) -> Option<Self>
        ensures valid { IsSome result ↔ (seq < sequence_end) }
        ensures tx { IfSome result (λ k. k.tx ≡ tx) }
        ensures seq { IfSome result (λ k. k.seq ≡ seq) }
    {
        if seq < SEQUENCE_END {
            Some(Key { tx, seq })
        } else {
            None
        }
    }

    /// The transaction's id.
    pub fn tx(&self) -> &TxId
        ensures { result.now ≡ self.now.tx }
    {
        &self.tx
    }

    /// The sequence number, 0 to 2,147,483,647.
    pub fn seq(&self) -> u32
        ensures value { result ≡ self.now.seq }
        ensures range { result < sequence_end }
    {
        self.seq
    }

    // Its parts are in range, as their types guarantee. The call does nothing; callers cite it for that
    // fact.
    pub(crate) fn keeps_ranges(&self)
        ensures { IsKeyName self.now }
    {
        let _ = self.tx.text();
    }

    /// A copy of the key. It takes no memory.
    pub fn copied(&self) -> Self
        ensures { result ≡ self.now }
    {
        Key {
            tx: self.tx.copied(),
            seq: self.seq,
        }
    }
}
