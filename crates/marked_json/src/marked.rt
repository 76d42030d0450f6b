//! A text that was read, and the reading.
ghost use Rattle.std.specs.Prelude.{◌≡◌, ◌≢◌, Ok, Err, IfOk, IfErr};
ghost use Rattle.marked_json.specs.declared.fault.JsonFault.TheVariants.{OutOfMemory};
ghost use Rattle.marked_json.specs.Reading as spec;

use crate::fault::JsonFault;
use crate::marking::marked_text;
use crate::node::Node;
use serde_json::Value;
use std::alloc::Global;

/// JSON that was read, with each number kept as its text.
#[derive(Drop)]
pub struct Marked {
    pub(crate) value: Value,
}

impl Marked {
    /// The whole text's value.
    pub fn root(&self) -> Node<'_>
        ensures { spec.node result ≡ spec.tree self.now }
    {
        Node { value: &self.value }
    }
}

/// Reads JSON (RFC 8259), each number as its text. `BadNumber` and `NumberAsKey` report the first such number in
/// the text; `NotJson` says that the text is otherwise no JSON or nests deeper than 127; `OutOfMemory` says that
/// the allocator refused memory.
pub fn read_marked(alloc: Global, text: &str) -> Result<Marked, JsonFault>
    ensures ok { IfOk result (λ marked. spec.marked_reading text.now ≡ Ok (spec.tree marked)) }
    ensures err { IfErr result (λ fault. fault ≢ OutOfMemory → spec.marked_reading text.now ≡ Err fault) }
{
    let marks = marked_text(alloc, text)?;
    match Value::from_str(alloc, marks.as_str()) {
        Ok(value) => Ok(Marked { value }),
        Err(error) if error.is_memory() => Err(JsonFault::OutOfMemory),
        Err(_) => Err(JsonFault::NotJson),
    }
}
