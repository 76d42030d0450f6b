// A long script; threads read its events ahead if its reader shows them.
use script_replay::replay_stream;
use std::alloc::Global;
use std::io::BufReader;
use std::test::Fail;
use std::thread::Threads;

// Lines of all kinds. A thread can read some of them before the lines in front are answered, and
// others not.
fn long_script(alloc: Global) -> Result<Vec<u8>, Fail> {
    let mut script = Vec::new(alloc);
    script.extend_from_slice(b"station north A\nstation north B\n")?;
    for at in 0..2_400u32 {
        put_event(alloc, &mut script, at)?;
        put_other(alloc, &mut script, at)?;
    }
    script.extend_from_slice(b"board north\n")?;
    Ok(script)
}

// The station of the step of this number.
fn station_of(at: u32) -> &'static str {
    if at % 3 == 0 { "B" } else { "A" }
}

// The sequence number of a step: some events come again, and some come before an event of a lower
// number.
fn number_of(at: u32) -> u32 {
    if at % 7 == 6 { at / 2 } else { at ^ 1 }
}

// An event; some come again with another value.
fn put_event(alloc: Global, script: &mut Vec<u8>, at: u32) -> Result<(), Fail> {
    let station = station_of(at);
    let number = number_of(at);
    let value = if at % 23 == 0 { 7 } else { number };
    let minute = number % 60;
    let end = if at % 5 == 0 { "\r\n" } else { "\n" };
    let event = format!(in alloc;
        "msg {station} [2,\"{at}\",\"TransactionEvent\",{{\"eventType\":\"Updated\",\"timestamp\":\"2026-03-01T10:{minute:02}:00Z\",\"triggerReason\":\"MeterValuePeriodic\",\"seqNo\":{number},\"transactionInfo\":{{\"transactionId\":\"T1\"}},\"meterValue\":[{{\"timestamp\":\"2026-03-01T10:{minute:02}:00Z\",\"sampledValue\":[{{\"value\":{value}}}]}}]}}]{end}"
    )?;
    script.extend_from_slice(event.as_bytes())?;
    Ok(())
}

// Lines of other kinds, by turns: moments, an operator's commands, questions, and lines with a fault.
const OTHERS: [(&str, &str); 8] = [
    ("now 2026-03-01T11:00:00Z\n", ""),
    ("msg A [2,\"h\",\"Heartbeat\",{}]\n", ""),
    ("void ", " T1 "),
    ("restore ", " T1 "),
    ("msg C [2,\"c\",\"Heartbeat\",{}]\n", ""),
    ("msg A [2,\"f\",\"TransactionEvent\",{}]\n", ""),
    ("energy A\n", ""),
    ("# a comment\n\nno line\n", ""),
];

fn put_other(alloc: Global, script: &mut Vec<u8>, at: u32) -> Result<(), Fail> {
    let Some((start, middle)) = OTHERS.get((at % 19) as usize) else {
        return Ok(());
    };
    script.extend_from_slice(start.as_bytes())?;
    if !middle.is_empty() {
        let key = format!(in alloc; "{}{middle}{}\n", station_of(at), number_of(at))?;
        script.extend_from_slice(key.as_bytes())?;
    }
    Ok(())
}

// Whether a script, shown so many bytes at a time, is replayed to its end; its output is appended to the text.
fn is_replayed<X: AllocGlobal + Threads>(
    rt: &X,
    script: &[u8],
    capacity: usize,
    text: &mut Vec<u8>,
) -> Result<bool, Fail> {
    let mut shown = BufReader::with_capacity(rt.alloc(), capacity, script)?;
    Ok(replay_stream(rt, &mut shown, text).is_ok())
}

// Whether it writes this text if so much is shown at a time that threads read ahead.
fn writes<X: AllocGlobal + Threads>(
    rt: &X,
    script: &[u8],
    capacity: usize,
    text: &[u8],
) -> Result<bool, Fail> {
    let mut written = Vec::new(rt.alloc());
    let is_replayed = is_replayed(rt, script, capacity, &mut written)?;
    Ok(is_replayed && written.as_slice() == text)
}

// Whether a script that ends so many bytes earlier gives the same text with threads that read ahead and without.
fn is_same_without<X: AllocGlobal + Threads>(
    rt: &X,
    script: &[u8],
    bytes: usize,
) -> Result<bool, Fail> {
    let part = script
        .get(..script.len().saturating_sub(bytes))
        .unwrap_or(script);
    let mut text = Vec::new(rt.alloc());
    let is_replayed = is_replayed(rt, part, 4_096, &mut text)?;
    Ok(is_replayed && writes(rt, part, 1_048_576, &text)?)
}

#[test]
fn threads_that_read_ahead_change_nothing(rt: HostRuntime) -> Result<(), Fail> {
    let script = long_script(rt.alloc())?;
    let mut text = Vec::new(rt.alloc());
    // So little is shown at once that no thread is started.
    assert!(rt; is_replayed(&rt, &script, 4_096, &mut text)? && text.len() > 20_000);
    for _ in 0..10 {
        // Windows of the shortest pieces, of some, and one of all lines.
        assert!(rt; writes(&rt, &script, 20_000, &text)?);
        assert!(rt; writes(&rt, &script, 100_000, &text)?);
        assert!(rt; writes(&rt, &script, 1_048_576, &text)?);
    }
    for bytes in [1, 13, 200, 5_000] {
        assert!(rt; is_same_without(&rt, &script, bytes)?);
    }
    Ok(())
}
