ghost use Rattle.std.specs.Prelude.{◌≡◌, ◌≤◌, ◌*◌, ◌↔◌, IsTrue, codes, length};
ghost use Rattle.ocppj_frame.{specs.Reply.character_count as count_of, specs.Id.message_id, specs.Ranges.longest_message_id};

use arrayvec::ArrayString;
use std::marker::Model;

/// How many characters, counted as Unicode scalar values, the id of a message may have (OCPP 2.0.1 Part
/// 4).
pub const MAX_MESSAGE_ID: usize = 36;

/// Whether a text can be the id of a message: it has at most 36 characters, counted as Unicode scalar
/// values (OCPP 2.0.1 Part 4).
pub fn is_message_id(text: &str) -> bool
    ensures { IsTrue result ↔ (count_of text.now ≤ longest_message_id) }
{
    character_count(text) <= MAX_MESSAGE_ID
}

// How many characters a text has.
fn character_count(text: &str) -> usize
    ensures count { result ≡ count_of text.now }
    ensures bytes { length text.now ≤ 4 * result }
{
    text.chars().count()
}

// The id of a message, borrowed from its frame: a text of at most 36 characters.
#[derive(Drop)]
pub(crate) struct FrameId<'a> {
    text: &'a str,
}

impl<'a> Model for FrameId<'a> {
    ghost use Rattle.std.specs.Prelude.{List, ℕ, ◌≤◌};
    ghost use Rattle.ocppj_frame.{specs.Ranges.longest_message_id, specs.Reply.character_count};

    ghost Value = { List ℕ };

    ghost view = { λ id. id.text.now };

    ghost invariant = { λ id. character_count id.text.now ≤ longest_message_id };
}

impl<'a> FrameId<'a> {
    // The id of this text; `None` if it has more than 36 characters.
    pub(crate) fn new(text: &'a str) -> Option<Self>
        ensures { result ≡ message_id text.now }
    {
        if character_count(text) > MAX_MESSAGE_ID {
            return None;
        }
        Some(FrameId { text })
    }

    // The id of a reply to a text that names none.
    pub(crate) fn unknown() -> Self
        ensures { result ≡ codes "-1" }
    {
        FrameId { text: "-1" }
    }

    // The text.
    pub(crate) fn as_str(&self) -> &'a str
        ensures value { result.now ≡ self.now }
        ensures short { count_of result.now ≤ longest_message_id }
    {
        self.text
    }
}

// The id of a message: a text of at most 36 characters, each of at most four bytes.
#[derive(Drop)]
pub(crate) struct MessageId {
    text: ArrayString<144>,
}

impl Model for MessageId {
    ghost use Rattle.std.specs.Prelude.{List, ℕ, ◌≤◌};
    ghost use Rattle.ocppj_frame.{specs.Ranges.longest_message_id, specs.Reply.character_count};

    ghost Value = { List ℕ };

    ghost view = { λ id. id.text.bytes };

    ghost invariant = { λ id. character_count id.text.bytes ≤ longest_message_id };
}

impl MessageId {
    // A copy of this text.
    pub(crate) fn new(text: &str) -> Self
        requires { count_of text.now ≤ longest_message_id }
        ensures { result ≡ text.now }
    {
        let mut kept = ArrayString::new();
        kept.push_str(text);
        MessageId { text: kept }
    }

    // The text.
    pub(crate) fn as_str(&self) -> &str
        ensures value { result.now ≡ self.now }
        ensures short { count_of result.now ≤ longest_message_id }
    {
        self.text.as_str()
    }
}
