//! No clause says that calls are read while there is memory; these tests show it. Stored rows of the program
//! test the texts of OCPP 2.0.1 Part 4 and of this product's profile.

use ocppj_frame::{Action, Incoming, read_frame};
use std::alloc::Global;

const ANSWERS: [(&str, &str); 4] = [
    (r#"[2,"a","Heartbeat",{"b":[1,"c"]}]"#, "call"),
    (r#"[4,"a",{}]"#, "silent"),
    (
        r#"[2,"a","Nope",{"b":[1,"c"]}]"#,
        r#"[4,"a","NotImplemented","UnknownAction",{}]"#,
    ),
    ("[2,", r#"[4,"-1","RpcFrameworkError","NotJson",{}]"#),
];

const OUT_OF_MEMORY: &str = r#"[4,"-1","InternalError","OutOfMemory",{}]"#;

// Returns whether a text gets its answer, or the reply that reports a lack of memory.
fn is_answered(alloc: Global, text: &str, answer: &str) -> bool {
    match read_frame(alloc, text) {
        Incoming::Call(_) => answer == "call",
        Incoming::Silent => answer == "silent",
        Incoming::Reply { text, memory } => {
            text.as_str() == if memory { OUT_OF_MEMORY } else { answer }
        }
    }
}

// Run by hand with each allocation refused in turn: each text gets its answer, or the reply that reports
// OutOfMemory.
#[test]
fn refused_memory(rt: HostRuntime) {
    for (text, answer) in &ANSWERS {
        assert!(rt; is_answered(rt.alloc(), text, answer), "at {text}");
    }
}

const CALLS: [(&str, Action); 5] = [
    (
        r#"[2,"a","BootNotification",{"b":1}]"#,
        Action::BootNotification,
    ),
    (r#"[2,"a","Heartbeat",{"b":1}]"#, Action::Heartbeat),
    (
        r#"[2,"a","StatusNotification",{"b":1}]"#,
        Action::StatusNotification,
    ),
    (r#"[2,"a","MeterValues",{"b":1}]"#, Action::MeterValues),
    (
        r#"[2,"a","TransactionEvent",{"b":1}]"#,
        Action::TransactionEvent,
    ),
];

// Returns whether a text is a call of this action with id `a`, and a payload with 1 under `b`.
fn is_call(alloc: Global, text: &str, action: Action) -> bool {
    match read_frame(alloc, text) {
        Incoming::Call(call) => {
            let number = call.payload().field("b").and_then(|node| node.number());
            call.id() == "a" && call.action() == action && number == Some("1")
        }
        _ => false,
    }
}

#[test]
fn always_out_of_memory(rt: HostRuntime) {
    for (text, action) in &CALLS {
        assert!(rt; is_call(rt.alloc(), text, *action), "at {text}");
    }
}
