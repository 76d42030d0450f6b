//! The members of an object, each of the expected JSON kind.
ghost use Rattle.std.specs.Prelude.{◌≡◌, ◌≤◌, length, option_map, ◌≢◌, IfErr};
ghost use Rattle.marked_json.specs.Reading.{node, left_of, text_of, items_of, number_of};
ghost use Rattle.transaction_event.{specs.Steps.checked_map, specs.Member.{required, required_of, optional, if_there, object_of}, specs.declared.fault.PayloadFault.TheVariants.OutOfMemory};

use crate::PayloadFault;
use marked_json::{Items, Node};

/// A text that must be there. Faults: `Missing`, `WrongType`.
pub fn required_text_of<'a>(member: Option<Node<'a>>) -> Result<&'a str, PayloadFault>
    ensures value { checked_map (λ s. s.now) result ≡ required_of text_of (option_map node member.entry) }
    ensures memory { IfErr result (λ f. f ≢ OutOfMemory) }
{
    match member {
        Some(member) => member.text().ok_or(PayloadFault::WrongType),
        None => Err(PayloadFault::Missing),
    }
}

/// [`required_text_of`] of the member of this name.
pub fn required_text<'a>(object: Node<'a>, name: &str) -> Result<&'a str, PayloadFault>
    requires { length name.now ≤ 63 }
    ensures value { checked_map (λ s. s.now) result ≡ required text_of name.now (node object.entry) }
    ensures memory { IfErr result (λ f. f ≢ OutOfMemory) }
{
    required_text_of(object.field(name))
}

/// A text, or none if the member is absent. Fault: `WrongType`.
pub fn optional_text<'a>(object: Node<'a>, name: &str) -> Result<Option<&'a str>, PayloadFault>
    requires { length name.now ≤ 63 }
    ensures value { checked_map (option_map (λ s. s.now)) result
        ≡ optional text_of name.now (node object.entry) }
    ensures memory { IfErr result (λ f. f ≢ OutOfMemory) }
{
    match object.field(name) {
        Some(member) => match member.text() {
            Some(text) => Ok(Some(text)),
            None => Err(PayloadFault::WrongType),
        },
        None => Ok(None),
    }
}

/// An object that must be there. Faults: `Missing`, `WrongType`.
pub fn required_object_of<'a>(member: Option<Node<'a>>) -> Result<Node<'a>, PayloadFault>
    ensures value { checked_map node result ≡ required_of object_of (option_map node member.entry) }
    ensures memory { IfErr result (λ f. f ≢ OutOfMemory) }
{
    match member {
        Some(member) if member.is_object() => Ok(member),
        Some(_) => Err(PayloadFault::WrongType),
        None => Err(PayloadFault::Missing),
    }
}

/// An object, or none if the member is absent. Fault: `WrongType`.
pub fn optional_object_of<'a>(member: Option<Node<'a>>) -> Result<Option<Node<'a>>, PayloadFault>
    ensures value { checked_map (option_map node) result ≡ if_there object_of (option_map node member.entry) }
    ensures memory { IfErr result (λ f. f ≢ OutOfMemory) }
{
    match member {
        Some(member) if member.is_object() => Ok(Some(member)),
        Some(_) => Err(PayloadFault::WrongType),
        None => Ok(None),
    }
}

/// [`optional_object_of`] of the member of this name.
pub fn optional_object<'a>(object: Node<'a>, name: &str) -> Result<Option<Node<'a>>, PayloadFault>
    requires { length name.now ≤ 63 }
    ensures value { checked_map (option_map node) result
        ≡ optional object_of name.now (node object.entry) }
    ensures memory { IfErr result (λ f. f ≢ OutOfMemory) }
{
    optional_object_of(object.field(name))
}

/// The items of an array that must be there. Faults: `Missing`, `WrongType`.
pub fn required_items<'a>(object: Node<'a>, name: &str) -> Result<Items<'a>, PayloadFault>
    requires { length name.now ≤ 63 }
    ensures value { checked_map left_of result ≡ required items_of name.now (node object.entry) }
    ensures memory { IfErr result (λ f. f ≢ OutOfMemory) }
{
    match object.field(name) {
        Some(member) => member.items().ok_or(PayloadFault::WrongType),
        None => Err(PayloadFault::Missing),
    }
}

/// The items of an array, or none if the member is absent. Fault: `WrongType`.
pub fn optional_items_of<'a>(member: Option<Node<'a>>) -> Result<Option<Items<'a>>, PayloadFault>
    ensures value { checked_map (option_map left_of) result ≡ if_there items_of (option_map node member.entry) }
    ensures memory { IfErr result (λ f. f ≢ OutOfMemory) }
{
    match member {
        Some(member) => match member.items() {
            Some(items) => Ok(Some(items)),
            None => Err(PayloadFault::WrongType),
        },
        None => Ok(None),
    }
}

/// The token of a number that must be there. Faults: `Missing`, `WrongType`.
pub fn required_number<'a>(object: Node<'a>, name: &str) -> Result<&'a str, PayloadFault>
    requires { length name.now ≤ 63 }
    ensures value { checked_map (λ s. s.now) result ≡ required number_of name.now (node object.entry) }
    ensures memory { IfErr result (λ f. f ≢ OutOfMemory) }
{
    match object.field(name) {
        Some(member) => member.number().ok_or(PayloadFault::WrongType),
        None => Err(PayloadFault::Missing),
    }
}
