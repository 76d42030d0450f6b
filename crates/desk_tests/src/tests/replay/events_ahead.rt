// No clause says which events are found ahead of their lines, and that threads find them; these
// tests show it.
use ledger_model::Moment;
use message_ahead::{Chunk, Lookahead, Pieces, SentEvent};
use std::alloc::Global;
use std::sync::Arc;
use std::test::Fail;
use std::thread;
use std::thread::Threads;
use std::time::{Clock, Duration};
use transaction_event::{Message, message_of};

const FIRST: &str =
    r#"msg A [2,"a","TransactionEvent",{"eventType":"Started","timestamp":"2026-03-01T10:00:00Z","triggerReason":"CablePluggedIn","seqNo":0,"transactionInfo":{"transactionId":"T1"}}]"#;

const HEARTBEAT: &str = r#"msg A [2,"b","Heartbeat",{}]"#;

const FAULT: &str = r#"msg A [2,"c","TransactionEvent",{}]"#;

const LAST: &str =
    r#"msg A [2,"d","TransactionEvent",{"eventType":"Ended","timestamp":"2026-03-01T10:05:00Z","triggerReason":"EVDeparted","seqNo":1,"transactionInfo":{"transactionId":"T1"},"idToken":{"idToken":"A","type":"Local"}}]"#;

// Whether station A sends the event, under this id.
fn is_of(sent: Option<SentEvent>, id: &str) -> bool {
    match sent {
        Some(sent) => sent.station.text() == "A" && sent.delivery.id.as_str() == id,
        None => false,
    }
}

// The lines, and the room before each; 100,000 bytes may be read before the first.
fn lines(alloc: Global) -> Result<(Vec<u8>, Vec<usize>), Fail> {
    let mut bytes = Vec::new(alloc);
    let mut rooms = Vec::new(alloc);
    for (mark, line, end) in [
        ("", FIRST, "\n"),
        ("# ", FIRST, "\n"),
        ("", HEARTBEAT, "\n"),
        ("", FAULT, "\n"),
        ("", LAST, "\r\n"),
        ("", "", "\n"),
    ] {
        rooms.push(100_000usize.saturating_sub(bytes.len()))?;
        bytes.extend_from_slice(mark.as_bytes())?;
        bytes.extend_from_slice(line.as_bytes())?;
        bytes.extend_from_slice(end.as_bytes())?;
    }
    Ok((bytes, rooms))
}

// The chunk of these lines, read as one piece.
fn chunk_of(alloc: Global, bytes: &[u8]) -> Result<Chunk, Fail> {
    let pieces = Arc::new(alloc, Pieces::cut(alloc, Vec::new(alloc), bytes, 65_536)?)?;
    Ok(Chunk::read(alloc, pieces, 0, 100_000))
}

// Whether the events of the first line and the fifth are given, each once, and none of the others.
fn gives_events(chunk: &mut Chunk, rooms: &[usize]) -> bool {
    let [first, comment, heartbeat, fault, last, empty] = rooms else {
        return false;
    };
    let is_first = is_of(chunk.take(*first, FIRST.as_bytes()), "a")
        && chunk.take(*first, FIRST.as_bytes()).is_none();
    let is_none = chunk.take(*comment, FIRST.as_bytes()).is_none()
        && chunk.take(*heartbeat, HEARTBEAT.as_bytes()).is_none()
        && chunk.take(*fault, FAULT.as_bytes()).is_none();
    let is_last = is_of(chunk.take(*last, LAST.as_bytes()), "d");
    is_first && is_none && is_last && chunk.take(*empty, b"").is_none()
}

#[test]
fn events_are_found_at_their_lines(rt: HostRuntime) -> Result<(), Fail> {
    let (bytes, rooms) = lines(rt.alloc())?;
    let mut chunk = chunk_of(rt.alloc(), &bytes)?;
    assert!(rt; gives_events(&mut chunk, &rooms));
    assert!(rt; !chunk.is_short());
    Ok(())
}

// Whether there is a piece for each of these lines, one behind the other, and each is claimed once.
fn are_claimed(pieces: &Pieces, rooms: &[usize], end: usize) -> bool {
    let mut begin = 0;
    for line in 0..rooms.len() {
        let bounds = pieces.bounds(line);
        if pieces.claim() != Some(line) || bounds.0 != begin || bounds.1 <= begin {
            return false;
        }
        begin = bounds.1;
    }
    begin == end && pieces.claim().is_none()
}

#[test]
fn each_piece_is_claimed_once(rt: HostRuntime) -> Result<(), Fail> {
    let (bytes, rooms) = lines(rt.alloc())?;
    let pieces = Pieces::cut(rt.alloc(), Vec::new(rt.alloc()), &bytes, 1)?;
    assert!(rt; pieces.count() == rooms.len());
    assert!(rt; are_claimed(&pieces, &rooms, bytes.len()));
    Ok(())
}

// Whether nothing comes for a line before all, for another line at the fifth line's place, for the fifth
// line after its event was dropped, and for the lines before it.
fn gives_no_other(chunk: &mut Chunk, rooms: &[usize]) -> bool {
    let [first, .., last, _] = rooms else {
        return false;
    };
    let is_before = chunk.take(100_001, FIRST.as_bytes()).is_none();
    let is_dropped = chunk.take(*last, FIRST.as_bytes()).is_none()
        && chunk.take(*last, LAST.as_bytes()).is_none();
    is_before && is_dropped && chunk.take(*first, FIRST.as_bytes()).is_none()
}

#[test]
fn events_of_other_lines_are_not_given(rt: HostRuntime) -> Result<(), Fail> {
    let (bytes, rooms) = lines(rt.alloc())?;
    let mut chunk = chunk_of(rt.alloc(), &bytes)?;
    assert!(rt; gives_no_other(&mut chunk, &rooms));
    Ok(())
}

// The text of a line of station A.
fn text_of(line: &[u8]) -> Option<&str> {
    str::from_utf8(line).ok()?.strip_prefix("msg A ")
}

// Whether an event that was read ahead is the same when its line is read now.
fn is_read_now(alloc: Global, sent: &SentEvent, line: &[u8], moment: Moment) -> bool {
    let Some(text) = text_of(line) else {
        return false;
    };
    let delivery = &sent.delivery;
    match message_of(alloc, text, moment) {
        Message::Event {
            id,
            key,
            event,
            token,
        } => {
            let is_key = delivery.id.as_str() == id.as_str() && delivery.key == key;
            let is_sent = is_key && sent.station.text() == "A";
            is_sent && delivery.event.is_same(&event) && delivery.token == token
        }
        _ => false,
    }
}

// How many events were read ahead.
#[derive(Drop)]
struct Count {
    right: u64,
    wrong: u64,
}

// Takes the event of a line, if it has one that was read ahead.
fn count_event(
    alloc: Global,
    ahead: &mut Lookahead,
    line: &[u8],
    moment: Moment,
    counted: &mut Count,
) {
    if let Some(sent) = ahead.take(line) {
        if is_read_now(alloc, &sent, line, moment) {
            counted.right = counted.right.saturating_add(1);
        } else {
            counted.wrong = counted.wrong.saturating_add(1);
        }
    }
}

// Walks over the lines as a caller does; returns how many events were read ahead, or `None` if one was not
// the same when read now, or memory ran out.
fn walk<X: Threads + Clock>(rt: &X, alloc: Global, bytes: &[u8], moment: Moment) -> Option<u64> {
    let mut ahead = Lookahead::new(alloc);
    let mut counted = Count { right: 0, wrong: 0 };
    let mut from = 0usize;
    for (number, line) in bytes.split(|byte| *byte == b'\n').enumerate() {
        let rest = bytes.get(from..)?;
        if number % 100 == 99 {
            thread::sleep(rt, Duration::from_millis(5));
        }
        if ahead.is_due(rest.len()) {
            ahead.look(rt, rest);
        }
        count_event(alloc, &mut ahead, line, moment, &mut counted);
        from = from.saturating_add(line.len()).saturating_add(1);
    }
    if counted.wrong == 0 && !ahead.is_short() {
        Some(counted.right)
    } else {
        None
    }
}

#[test]
fn threads_read_events_ahead(rt: HostRuntime) -> Result<(), Fail> {
    let alloc = rt.alloc();
    let moment = Moment::new(1_772_359_200_000_000_000).ok_or("ten o'clock")?;
    let mut bytes = Vec::new(alloc);
    for number in 0..1_200u32 {
        let line = format!(in alloc;
            "msg A [2,\"{number}\",\"TransactionEvent\",{{\"eventType\":\"Updated\",\"timestamp\":\"2026-03-01T10:00:00Z\",\"triggerReason\":\"MeterValuePeriodic\",\"seqNo\":{number},\"transactionInfo\":{{\"transactionId\":\"T1\"}}}}]\n"
        )?;
        bytes.extend_from_slice(line.as_bytes())?;
    }
    // One processor reads nothing ahead; with more, a thread has its turn at last.
    let can_read = thread::available_parallelism(&rt)?.get() > 1;
    for _ in 0..100 {
        let read = walk(&rt, alloc, &bytes, moment).ok_or("another event, or no memory")?;
        if read > 0 || !can_read {
            return Ok(());
        }
    }
    Err("no event was read ahead")?
}
