//! Places in a marked text, with the marks taken off.
ghost use Rattle.std.{specs.Prelude.{◌≡◌, ◌≤◌, ◌↔◌, ◌∷◌, length, option_map, IsTrue}, specs.Iterator.{YieldsFirstBy, item_count}};
ghost use Rattle.serde_json.{specs.Find.get_member, specs.View.{view, members_view}};
ghost use Rattle.marked_json.specs.Reading as spec;

use serde_json::{Map, Value};

/// One value of a text that was read.
#[derive(Clone, Copy)]
pub struct Node<'a> {
    pub(crate) value: &'a Value,
}

impl<'a> Node<'a> {
    /// The content of a string, its escapes resolved.
    pub fn text(self) -> Option<&'a str>
        ensures { option_map (λ s. s.now) result ≡ spec.text_of (spec.node self.entry) }
    {
        self.value.as_str()?.strip_prefix('$')
    }

    /// The token of a number, as it was written.
    pub fn number(self) -> Option<&'a str>
        ensures { option_map (λ s. s.now) result ≡ spec.number_of (spec.node self.entry) }
    {
        self.value.as_str()?.strip_prefix('#')
    }

    /// The items of an array, in order.
    pub fn items(self) -> Option<Items<'a>>
        ensures { option_map spec.left_of result ≡ spec.items_of (spec.node self.entry) }
    {
        let items = self.value.as_array()?;
        Some(Items {
            rest: items.as_slice(),
        })
    }

    /// Whether it is an object.
    pub fn is_object(self) -> bool
        ensures { result ≡ spec.is_object (spec.node self.entry) }
    {
        self.value.is_object()
    }

    /// The member of an object by its name; one that is null counts as absent.
    pub fn field(self, name: &str) -> Option<Node<'a>>
        requires { length name.now ≤ 63 }
        ensures { option_map spec.node result ≡ spec.field_of name.now (spec.node self.entry) }
    {
        match member_named(self.value.as_object()?, name) {
            Some(value) if !value.is_null() => Some(Node { value }),
            _ => None,
        }
    }
}

// The member of this name, kept under `$` and the name.
fn member_named<'a>(members: &'a Map<String, Value>, name: &str) -> Option<&'a Value>
    ensures { option_map (λ v. view v.now) result ≡ get_member (36 ∷ name.now) (members_view members.now.entries) }
{
    for (key, value) in members.iter() {
        if is_marked(key.as_str(), name) {
            return Some(value);
        }
    }
    None
}

// Whether a key is `$` and the name.
pub(crate) fn is_marked(key: &str, name: &str) -> bool
    ensures { IsTrue result ↔ (key.now ≡ 36 ∷ name.now) }
{
    // Most keys have another length, and then their bytes are not looked at.
    if key.len() != name.len() + 1 {
        return false;
    }
    match key.as_bytes() {
        [b'$', rest @ ..] => rest == name.as_bytes(),
        _ => false,
    }
}

/// The items of an array that are still to come.
#[derive(Drop)]
pub struct Items<'a> {
    pub(crate) rest: &'a [Value],
}

impl<'a> Iterator for Items<'a> {
    type Item = Node<'a>;

    ghost next_gives = { YieldsFirstBy spec.node spec.left_of };

    ghost remaining = { item_count spec.left_of };

    fn next(&mut self) -> Option<Node<'a>> {
        let (value, rest) = self.rest.split_first()?;
        self.rest = rest;
        Some(Node { value })
    }
}
