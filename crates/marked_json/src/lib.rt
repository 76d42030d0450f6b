//! JSON (RFC 8259) read with every number kept as the text that was sent.
//!
//! A decimal loses digits in a float, so no float is made. The text is marked first: `$` is put after the
//! opening quote of each string, and each number becomes a string that begins with `#`. Then `serde_json` reads
//! the marked text, which has no number. So `{"seqNo":1}` is read as `{"$seqNo":"#1"}`, and a [`Node`] shows
//! its values without the marks.
//!
//! The contract of [`read_marked`] is the marked reading: the tree that `serde_json`'s own definition gives for the
//! marked text, or exactly the fault that the marked reading names. Only a lack of memory is not part of it.
//!
//! ```text
//! let marked = read_marked(alloc, r#"{"seqNo":1,"value":2.50}"#)?;
//! let root = marked.root();
//! root.field("seqNo").and_then(|node| node.number())   // Some("1")
//! root.field("value").and_then(|node| node.number())   // Some("2.50")
//! root.field("value").and_then(|node| node.text())     // None
//! ```
#![tactic(auto)]

mod fault;
pub mod laws;
mod marked;
mod marking;
mod node;
mod number;
mod wanted;

pub use fault::JsonFault;
pub use marked::{Marked, read_marked};
pub use node::{Items, Node};
pub use wanted::Wanted;
