ghost use Rattle.std.{specs.Prelude.{◌≡◌, ◌≤◌, ◌<◌, ◌↔◌, true, length, IsSome, IfSome, Some, nat_eq, refl}, specs.List.list_all, specs.Ordering.nat_cmp, specs.Cmp.partial_equiv_from_equiv, specs.Cmp.Lexicographic.{pointwise, slice_cmp, nat_list_eq_equiv, nat_list_cmp_total, texts_po, texts_ties}};
ghost use Rattle.ledger_model.{specs.Ranges.most_id_characters, specs.TxId.{is_tx_id, is_visible, folded, IsFoldedId}};

use arrayvec::ArrayString;
use std::cmp::Ordering;
use std::marker::Model;

/// How many characters a transaction's id may have (transactionId of TransactionType, OCPP 2.0.1
/// Part 2, block E).
pub const MAX_TX_ID: usize = 36;

/// The id of a transaction: 1 to 36 visible ASCII characters, compared and printed with A to Z turned
/// into a to z (transactionInfo of TransactionEventRequest, OCPP 2.0.1 Part 2, block E; the folding is
/// this product's profile).
#[derive(Drop)]
pub struct TxId {
    text: ArrayString<MAX_TX_ID>,
}

impl Model for TxId {
    ghost use Rattle.std.specs.Prelude.{List, ℕ};
    ghost use Rattle.ledger_model.specs.TxId.{IsFoldedId};

    ghost Value = { List ℕ };

    ghost view = { λ t. t.text.bytes };

    ghost invariant = { λ t. IsFoldedId t.text.bytes };
}

// Returns whether each byte is a visible character.
fn are_visible(bytes: &[u8]) -> bool
    ensures { result ≡ list_all is_visible bytes.now }
{
    bytes.iter().all(|byte| 0x21 <= *byte && *byte <= 0x7E)
}

// The text in lower case.
fn folded_text(bytes: &[u8]) -> ArrayString<MAX_TX_ID>
    requires few { length bytes.now ≤ most_id_characters }
    requires visible { list_all is_visible bytes.now ≡ true }
    ensures { result.bytes ≡ folded bytes.now }
{
    let mut room = [0; MAX_TX_ID];
    let lower = &mut room[..bytes.len()];
    lower.copy_from_slice(bytes);
    lower.make_ascii_lowercase();
    let mut text = ArrayString::<MAX_TX_ID>::new();
    // Visible characters are ASCII, so they are UTF-8.
    text.push_str(unsafe { str::from_utf8_unchecked(lower) });
    text
}

impl TxId {
    /// The id of this text, folded to lower case; `None` if it is empty, longer than 36 characters, or
    /// has a character outside 0x21 to 0x7E.
    pub fn new(text: &str) -> Option<Self>
        ensures valid { IsSome result ↔ (is_tx_id text.now ≡ true) }
        ensures value { IfSome result (λ t. t ≡ folded text.now) }
    {
        let bytes = text.as_bytes();
        if bytes.is_empty() || bytes.len() > MAX_TX_ID || !are_visible(bytes) {
            return None;
        }
        Some(TxId {
            text: folded_text(bytes),
        })
    }

    /// The text, in lower case.
    pub fn text(&self) -> &str
        ensures value { result.now ≡ self.now }
        ensures folded { IsFoldedId result.now }
    {
        self.text.as_str()
    }

    /// A copy of the id. It takes no memory.
    pub fn copied(&self) -> Self
        ensures { result ≡ self.now }
    {
        TxId { text: self.text }
    }
}

impl PartialEq for TxId {
    ghost eq = { pointwise nat_eq };

    ghost laws = { partial_equiv_from_equiv nat_list_eq_equiv };

    fn eq(&self, other: &Self) -> bool {
        self.text.as_str() == other.text.as_str()
    }
}

impl Eq for TxId {
    ghost laws = { nat_list_eq_equiv };
}

impl PartialOrd for TxId {
    ghost partial_cmp = { λ s t. Some (slice_cmp nat_cmp s t) };

    ghost laws = { texts_po };

    fn partial_cmp(&self, other: &Self) -> Option<Ordering> {
        Some(self.cmp(other))
    }
}

impl Ord for TxId {
    ghost cmp = { slice_cmp nat_cmp };

    ghost total = { nat_list_cmp_total };

    ghost matches_partial_cmp = { λ s t. refl };

    ghost matches_eq = { texts_ties };

    fn cmp(&self, other: &Self) -> Ordering {
        self.text.as_str().cmp(other.text.as_str())
    }
}
