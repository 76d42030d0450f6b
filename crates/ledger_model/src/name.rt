ghost use Rattle.std.{specs.Prelude.{◌≡◌, ◌↔◌, true, IsSome, IfSome, Some, nat_eq, refl}, specs.List.list_all, specs.Ordering.nat_cmp, specs.Cmp.partial_equiv_from_equiv, specs.Cmp.Lexicographic.{pointwise, slice_cmp, nat_list_eq_equiv, nat_list_cmp_total, texts_po, texts_ties}};
ghost use Rattle.ledger_model.specs.Name.{is_name, is_name_character};

use arrayvec::ArrayString;
use std::cmp::Ordering;
use std::marker::Model;

/// How many characters the name of a site or a station may have (this product's profile).
pub const MAX_NAME: usize = 48;

/// The name of a site or a station: 1 to 48 characters of `A-Z a-z 0-9 * - _ = : + | @ .`, compared
/// exactly (this product's profile).
#[derive(Drop)]
pub struct Name {
    text: ArrayString<MAX_NAME>,
}

impl Model for Name {
    ghost use Rattle.std.specs.Prelude.{◌≡◌, true, List, ℕ};
    ghost use Rattle.ledger_model.specs.Name.{is_name};

    ghost Value = { List ℕ };

    ghost view = { λ n. n.text.bytes };

    ghost invariant = { λ n. is_name n.text.bytes ≡ true };
}

// Returns whether a name may have this byte.
fn is_name_byte(byte: u8) -> bool
    ensures { result ≡ is_name_character byte }
{
    byte.is_ascii_uppercase()
        || byte.is_ascii_lowercase()
        || byte.is_ascii_digit()
        || b"*-_=:+|@.".contains(&byte)
}

// Returns whether a name may have each byte.
fn are_name_bytes(bytes: &[u8]) -> bool
    ensures { result ≡ list_all is_name_character bytes.now }
{
    bytes.iter().all(|byte| is_name_byte(*byte))
}

impl Name {
    /// The name of this text; `None` if it is empty, longer than 48 characters, or has another
    /// character.
    pub fn new(text: &str) -> Option<Self>
        ensures valid { IsSome result ↔ (is_name text.now ≡ true) }
        ensures value { IfSome result (λ n. n ≡ text.now) }
    {
        if text.is_empty() || text.len() > MAX_NAME || !are_name_bytes(text.as_bytes()) {
            return None;
        }
        match ArrayString::from(text) {
            Ok(text) => Some(Name { text }),
            Err(_) => None,
        }
    }

    /// The text.
    pub fn text(&self) -> &str
        ensures value { result.now ≡ self.now }
        ensures named { is_name result.now ≡ true }
    {
        self.text.as_str()
    }

    /// A copy of the name. It takes no memory.
    pub fn copied(&self) -> Self
        ensures { result ≡ self.now }
    {
        Name { text: self.text }
    }
}

impl PartialEq for Name {
    ghost eq = { pointwise nat_eq };

    ghost laws = { partial_equiv_from_equiv nat_list_eq_equiv };

    fn eq(&self, other: &Self) -> bool {
        self.text.as_str() == other.text.as_str()
    }
}

impl Eq for Name {
    ghost laws = { nat_list_eq_equiv };
}

impl PartialOrd for Name {
    ghost partial_cmp = { λ s t. Some (slice_cmp nat_cmp s t) };

    ghost laws = { texts_po };

    fn partial_cmp(&self, other: &Self) -> Option<Ordering> {
        Some(self.cmp(other))
    }
}

impl Ord for Name {
    ghost cmp = { slice_cmp nat_cmp };

    ghost total = { nat_list_cmp_total };

    ghost matches_partial_cmp = { λ s t. refl };

    ghost matches_eq = { texts_ties };

    fn cmp(&self, other: &Self) -> Ordering {
        self.text.as_str().cmp(other.text.as_str())
    }
}
