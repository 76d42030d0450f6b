ghost use Rattle.std.specs.Prelude.{◌≡◌, ◌≤◌, true, length};
ghost use Rattle.marked_json.specs.Reading.{tree, node, is_object};
ghost use Rattle.ocppj_frame.{specs.Reply.character_count, specs.Frame.{elements_of, payload_in}, specs.Ranges.longest_message_id};

use crate::action::Action;
use crate::message_id::MessageId;
use marked_json::{Marked, Node};

/// A CALL (OCPP 2.0.1 Part 4) of a known action, with the JSON tree that was read.
#[derive(Drop)]
pub struct Call {
    pub(crate) id: MessageId,
    pub(crate) action: Action,
    pub(crate) frame: Marked,
    ghost short: { character_count id ≤ longest_message_id },
    ghost four: { length (elements_of (tree frame)) ≡ 4 },
    ghost object: { is_object (payload_in (elements_of (tree frame))) ≡ true },
}

impl Call {
    ghost use Rattle.ocppj_frame.specs.Call.{id_of, action_of, payload_of};

    /// The id of the message, of at most 36 characters, which are Unicode scalar values.
    pub fn id(&self) -> &str
        ensures value { result.now ≡ id_of self.now }
        ensures short { character_count result.now ≤ longest_message_id }
    {
        self.id.as_str()
    }

    /// The action that the station asks for.
    pub fn action(&self) -> Action
        ensures { result ≡ action_of self.now }
    {
        self.action
    }

    /// The payload, which is an object.
    pub fn payload(&self) -> Node<'_>
        ensures value { node result ≡ payload_of self.now }
        ensures object { is_object (node result) ≡ true }
    {
        payload_in(self.frame.root())
    }
}

// The fourth element.
fn payload_in(root: Node<'_>) -> Node<'_>
    requires { length (elements_of (node root)) ≡ 4 }
    ensures { node result ≡ payload_in (elements_of (node root.entry)) }
{
    let mut elements = root.items().unwrap();
    elements.next();
    elements.next();
    elements.next();
    elements.next().unwrap()
}
