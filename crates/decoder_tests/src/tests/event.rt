//! What each text of a station means while there is memory, and when there is none. Stored rows of the program test
//! readings, replies and ids.

use arrayvec::ArrayString;
use ledger_model::{Answer, Moment};
use marked_json::{Marked, read_marked};
use std::alloc::Global;
use std::test::Fail;
use transaction_event::{
    Message, PayloadFault, deliveries_are_admissible, deliveries_are_answered, event_of,
    event_reply, message_of,
};

// An event with one reading of 1,000 watt-hours.
const EVENT: &str =
    r#"[2,"a","TransactionEvent",{"eventType":"Started","timestamp":"2026-03-01T10:00:00Z","triggerReason":"MeterValuePeriodic","seqNo":0,"transactionInfo":{"transactionId":"T1"},"meterValue":[{"timestamp":"2026-03-01T10:00:00Z","sampledValue":[{"value":1000}]}]}]"#;

const TAKEN: &str = r#"[3,"a",{}]"#;

const MISSING: &str = r#"[4,"a","OccurrenceConstraintViolation","Missing",{}]"#;

// 2026-03-01T10:00:00Z.
fn ten() -> Result<Moment, Fail> {
    Ok(Moment::new(1_772_359_200_000_000_000).ok_or("ten o'clock")?)
}

// Returns whether the payload of a call is an event of number 0 with one reading and no token, and
// the call itself is no such payload.
fn has_event(alloc: Global, marked: &Marked) -> Option<bool> {
    let payload = marked.root().items()?.nth(3)?;
    let (key, event, token) = event_of(alloc, payload).ok()?;
    let is_first = key.seq() == 0 && event.readings().len() == 1 && !token;
    Some(is_first && event_of(alloc, marked.root()).err() == Some(PayloadFault::Format))
}

const REPLIED: [&str; 3] = [
    "",
    r#"[2,"a","Heartbeat",{}]"#,
    r#"[2,"a","TransactionEvent",{}]"#,
];

// Returns whether a text gets a reply that does not report a lack of memory.
fn is_replied(alloc: Global, text: &str) -> Result<bool, Fail> {
    let message = message_of(alloc, text, ten()?);
    Ok(matches!(message, Message::Reply { memory: false, .. }))
}

fn is_silent(alloc: Global, text: &str) -> Result<bool, Fail> {
    Ok(matches!(message_of(alloc, text, ten()?), Message::Silent))
}

// With ample memory nothing reports a lack of it.
#[test]
fn always_out_of_memory(rt: HostRuntime) -> Result<(), Fail> {
    let marked = read_marked(rt.alloc(), EVENT)?;
    assert_eq!(rt; has_event(rt.alloc(), &marked), Some(true));
    for text in REPLIED {
        assert!(rt; is_replied(rt.alloc(), text)?, "at {text}");
    }
    assert!(rt; is_silent(rt.alloc(), "[4]")?);
    deliveries_are_admissible();
    deliveries_are_answered();
    Ok(())
}

// What is sent back, and whether it reports OutOfMemory; the empty text for silence.
fn told(alloc: Global, text: &str) -> Result<(ArrayString<512>, bool), Fail> {
    Ok(match message_of(alloc, text, ten()?) {
        Message::Event { id, token, .. } => (
            event_reply(id.as_str(), token, &Answer::Accepted(1)),
            false,
        ),
        Message::Reply { text, memory } => (text, memory),
        Message::Silent => (ArrayString::new(), false),
    })
}

// Returns whether what is sent back is this text, or reports a lack of memory.
fn is_right_or_out(alloc: Global, text: &str, want: &str) -> Result<bool, Fail> {
    let (reply, memory) = told(alloc, text)?;
    let unread = reply.as_str() == r#"[4,"-1","InternalError","OutOfMemory",{}]"#;
    let unkept = reply.as_str() == r#"[4,"a","InternalError","OutOfMemory",{}]"#;
    Ok(if memory {
        unread || unkept
    } else {
        reply.as_str() == want
    })
}

const RIGHT: [(&str, &str); 4] = [
    ("{", r#"[4,"-1","RpcFrameworkError","NotJson",{}]"#),
    (r#"[2,"a","MeterValues",{}]"#, TAKEN),
    (r#"[2,"a","TransactionEvent",{}]"#, MISSING),
    (EVENT, TAKEN),
];

// If the allocator refuses memory (`rt try --test --fail-alloc N`), the reply is right or reports
// OutOfMemory.
#[test]
fn right_or_out_of_memory(rt: HostRuntime) -> Result<(), Fail> {
    for (text, want) in &RIGHT {
        assert!(rt; is_right_or_out(rt.alloc(), text, want)?, "at {text}");
    }
    Ok(())
}

const FAULTS: [(u8, &str, PayloadFault); 8] = [
    (1, "Format", PayloadFault::Format),
    (2, "Missing", PayloadFault::Missing),
    (3, "WrongType", PayloadFault::WrongType),
    (4, "Range", PayloadFault::Range),
    (5, "TooManyReadings", PayloadFault::TooManyReadings),
    (6, "Decimal", PayloadFault::Decimal),
    (7, "Moment", PayloadFault::Moment),
    (8, "OutOfMemory", PayloadFault::OutOfMemory),
];

#[test]
fn faults_have_numbers_and_names(rt: HostRuntime) {
    for (number, name, fault) in &FAULTS {
        assert!(rt;
            fault.number() == *number && fault.name() == *name,
            "{name}"
        );
    }
}
