ghost use Rattle.std.specs.Prelude.{◌≡◌, Some};
ghost use Rattle.marked_json.specs.Reading.{node, left_of};
ghost use Rattle.ocppj_frame.{specs.Frame.{frame_of, with_type, with_id, with_name, elements_of, id_of}, specs.Verdict.Says};

use crate::action::Action;
use crate::frame_fault::FrameFault;
use crate::message_id::FrameId;
use marked_json::{Items, Node};

// What the elements of a frame ask for.
#[derive(Drop)]
pub(crate) enum Verdict<'a> {
    // A call of this id asks for an action.
    Call {
        id: FrameId<'a>,
        action: Action,
    },
    // An answer, which gets no reply.
    Silent,
    // The first check that failed, and the id, if there is one.
    Refused {
        id: Option<FrameId<'a>>,
        fault: FrameFault,
    },
}

// What the tree of a frame asks for.
pub(crate) fn verdict_on<'a>(root: Node<'a>) -> Verdict<'a>
    ensures { Says (frame_of (elements_of (node root.entry))) result }
{
    let Some(mut elements) = root.items() else {
        return not_a_call(None);
    };
    let Some(kind) = elements.next() else {
        return not_a_call(None);
    };
    let id = match elements.next() {
        Some(element) => message_id(element),
        None => None,
    };
    match kind.number() {
        Some(token) => by_type(token, id, elements),
        None => not_a_call(id),
    }
}

// The verdict on a text that is no call.
fn not_a_call<'a>(id: Option<FrameId<'a>>) -> Verdict<'a>
    ensures { result ≡ Verdict.Refused id.entry FrameFault.NotACall }
{
    Verdict::Refused {
        id,
        fault: FrameFault::NotACall,
    }
}

// An element as an id.
fn message_id<'a>(element: Node<'a>) -> Option<FrameId<'a>>
    ensures { result ≡ id_of (node element.entry) }
{
    match element.text() {
        Some(text) => FrameId::new(text),
        None => None,
    }
}

// The verdict by the type of a frame; 3 and 4 are answers, 2 is a call.
fn by_type<'a>(token: &str, id: Option<FrameId<'a>>, rest: Items<'a>) -> Verdict<'a>
    ensures { Says (with_type (Some token.now) id.entry (left_of rest.entry)) result }
{
    match token {
        "3" | "4" => Verdict::Silent,
        "2" => by_rest(id, rest),
        _ => Verdict::Refused {
            id,
            fault: FrameFault::MessageType,
        },
    }
}

// The verdict on a call, by its id and the elements behind it.
fn by_rest<'a>(id: Option<FrameId<'a>>, mut rest: Items<'a>) -> Verdict<'a>
    ensures { Says (with_id id.entry (left_of rest.entry)) result }
{
    let Some(id) = id else {
        return not_a_call(None);
    };
    let Some(action) = rest.next() else {
        return not_a_call(Some(id));
    };
    let Some(payload) = rest.next() else {
        return not_a_call(Some(id));
    };
    if rest.next().is_some() {
        return not_a_call(Some(id));
    }
    match action.text() {
        Some(name) => by_action(id, name, payload),
        None => not_a_call(Some(id)),
    }
}

// The verdict on a call, by its action and its payload.
fn by_action<'a>(id: FrameId<'a>, name: &str, payload: Node<'a>) -> Verdict<'a>
    ensures { Says (with_name id.entry (Some name.now) (node payload.entry)) result }
{
    let Some(action) = Action::of(name) else {
        return Verdict::Refused {
            id: Some(id),
            fault: FrameFault::UnknownAction,
        };
    };
    if !payload.is_object() {
        return Verdict::Refused {
            id: Some(id),
            fault: FrameFault::Format,
        };
    }
    Verdict::Call { id, action }
}
