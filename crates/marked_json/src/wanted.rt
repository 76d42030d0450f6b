//! Members of an object, found by their names in one walk.
ghost use Rattle.std.specs.Prelude.{◌≡◌, [], map, option_map, None, All};
ghost use Rattle.serde_json.specs.View.{members_view};
ghost use Rattle.marked_json.specs.Reading.{node, field_of};
ghost use Rattle.marked_json.specs.Wanted as spec;

use crate::node::{Node, is_marked};
use serde_json::{Map, Value};

/// A member that is looked for by its name.
#[derive(Clone, Copy)]
pub struct Wanted<'n, 'a> {
    pub(crate) name: &'n str,
    pub(crate) first: Option<Node<'a>>,
}

impl<'n, 'a> Wanted<'n, 'a> {
    /// Looks for a member of that name; none is found so far.
    pub fn new(name: &'n str) -> Wanted<'n, 'a>
        ensures name { spec.name_of result ≡ name.now }
        ensures first { spec.first_of result ≡ None }
    {
        Wanted { name, first: None }
    }

    /// The member that was found; one that is null counts as absent.
    pub fn found(self) -> Option<Node<'a>>
        ensures { option_map node result ≡ spec.found self.entry }
    {
        match self.first {
            Some(member) if !member.value.is_null() => Some(member),
            _ => None,
        }
    }

    // Takes a member that has the name, if none was taken before.
    fn offer(&mut self, key: &str, member: Node<'a>)
        ensures { self.new ≡ spec.offered key.now member.entry self.old }
    {
        if is_marked(key, self.name) && self.first.is_none() {
            self.first = Some(member);
        }
    }
}

// Offers a member to each of the wanted names.
fn offer_each<'a>(wanted: &mut [Wanted<'_, 'a>], key: &str, member: Node<'a>)
    ensures { wanted.new ≡ map (spec.offered key.now member.entry) wanted.old }
{
    for one in wanted.iter_mut() {
        one.offer(key, member);
    }
}

// Finds the members in one walk.
fn find_among<'a>(wanted: &mut [Wanted<'_, 'a>], members: &'a Map<String, Value>)
    ensures { map (spec.within []) wanted.new ≡ map (spec.within members.now.entries) wanted.old }
{
    for (key, value) in members.iter() {
        offer_each(wanted, key.as_str(), Node { value });
    }
}

impl<'a> Node<'a> {
    /// Finds members of an object by their names, all in one walk. Each is then as [`Node::field`] gives it.
    ///
    /// None of them may have been found before.
    pub fn find(self, wanted: &mut [Wanted<'_, 'a>])
        requires { All (λ w. spec.first_of w ≡ None) wanted.old }
        ensures { map spec.found wanted.new ≡ map (λ w. field_of (spec.name_of w) (node self.entry)) wanted.old }
    {
        if let Some(members) = self.value.as_object() {
            find_among(wanted, members);
        }
    }
}
