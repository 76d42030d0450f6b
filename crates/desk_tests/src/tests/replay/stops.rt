// A whole script, its board included, with a reader and a writer that fail at each byte.
use crate::tests::replay::streams::{FailingReader, FailingWriter, FlakyReader};
use script_replay::{ReplayFault, replay_buffered, replay_stream};
use std::alloc::Global;
use std::io::BufWriter;
use std::test::Fail;
use std::thread::Threads;

// Each line with its text. The last has no line feed.
const LINES: [(&str, &str); 7] = [
    ("station north A\n", ""),
    ("frob\n", "fault BadLine\n"),
    (
        "msg A [2,\"1\",\"TransactionEvent\",{\"eventType\":\"Started\",\"timestamp\":\"2026-03-01T10:00:00Z\",\"triggerReason\":\"MeterValuePeriodic\",\"seqNo\":0,\"transactionInfo\":{\"transactionId\":\"T1\"},\"meterValue\":[{\"timestamp\":\"2026-03-01T10:00:00Z\",\"sampledValue\":[{\"value\":1000}]}]}]\n",
        "[3,\"1\",{}]\n",
    ),
    (
        "msg A [2,\"2\",\"TransactionEvent\",{\"eventType\":\"Updated\",\"timestamp\":\"2026-03-01T10:31:00Z\",\"triggerReason\":\"MeterValuePeriodic\",\"seqNo\":2,\"transactionInfo\":{\"transactionId\":\"T1\"},\"meterValue\":[{\"timestamp\":\"2026-03-01T10:31:00Z\",\"sampledValue\":[{\"value\":1600}]}]}]\n",
        "[3,\"2\",{}]\n",
    ),
    ("energy A\n", "energy up=600000 down=0\n"),
    (
        "board north\n",
        "board north period=900\ntotal events=2 voided=0 transactions=1 complete=0 missing=1 up=600000 down=0 export_up=0 export_down=0\nperiod 2026-03-01T10:30:00Z up=600000 down=0 export_up=0 export_down=0\nstation A\ntotal events=2 voided=0 transactions=1 complete=0 missing=1 up=600000 down=0 export_up=0 export_down=0\nevse 0 up=600000 down=0 export_up=0 export_down=0\nperiod 2026-03-01T10:30:00Z up=600000 down=0 export_up=0 export_down=0\ntx t1 evse=0 events=2 first=0 last=2 complete=no missing=1 up=600000 down=0 export_up=0 export_down=0\ngap 1..1\nend\n",
    ),
    ("energy Z", "fault UnknownStation\n"),
];

// The script and its text.
fn script_and_text(alloc: Global) -> Result<(Vec<u8>, Vec<u8>), Fail> {
    let mut script = Vec::new(alloc);
    let mut text = Vec::new(alloc);
    for (line, answer) in LINES.iter() {
        script.extend_from_slice(line.as_bytes())?;
        text.extend_from_slice(answer.as_bytes())?;
    }
    Ok((script, text))
}

// How many bytes the complete lines among the first `count` bytes of the script write.
fn written_by_complete(count: usize) -> usize {
    let mut read: usize = 0;
    let mut written: usize = 0;
    for (line, answer) in LINES.iter() {
        read = read.saturating_add(line.len());
        if read <= count && line.ends_with('\n') {
            written = written.saturating_add(answer.len());
        }
    }
    written
}

// The first `count` bytes, or all if there are fewer.
fn front(bytes: &[u8], count: usize) -> &[u8] {
    &bytes[..bytes.len().min(count)]
}

#[test]
fn stream_gives_up(rt: HostRuntime) -> Result<(), Fail> {
    let (script, text) = script_and_text(rt.alloc())?;
    let mut reader = script.as_slice();
    let mut written = Vec::new(rt.alloc());
    let result = replay_stream(&rt, &mut reader, &mut written);
    assert!(rt; result == Ok(()) && reader.is_empty());
    assert!(rt; written.as_slice() == text.as_slice());
    Ok(())
}

// A reader that shows `step` bytes at a time and fails after `count`: the text of the complete lines is
// written.
fn stops_reading<X: AllocGlobal + Threads>(
    rt: &X,
    script: &[u8],
    text: &[u8],
    count: usize,
    step: usize,
) -> bool {
    let mut reader = FailingReader {
        rest: front(script, count),
        step,
    };
    let mut written = Vec::new(rt.alloc());
    let result = replay_stream(rt, &mut reader, &mut written);
    let stands = front(text, written_by_complete(count));
    result == Err(ReplayFault::ReadFault) && written.as_slice() == stands
}

// A writer that takes `room` bytes, and then fails or takes none: just those bytes are written.
fn stops_writing<X: AllocGlobal + Threads>(
    rt: &X,
    script: &[u8],
    text: &[u8],
    room: usize,
    takes_none: bool,
) -> bool {
    let mut reader = script;
    let mut writer = FailingWriter {
        taken: Vec::new(rt.alloc()),
        room,
        takes_none,
    };
    let result = replay_stream(rt, &mut reader, &mut writer);
    result == Err(ReplayFault::WriteFault) && writer.taken.as_slice() == front(text, room)
}

#[test]
fn script_stops_at_each_byte(rt: HostRuntime) -> Result<(), Fail> {
    let (script, text) = script_and_text(rt.alloc())?;
    for count in 0..=script.len() {
        let step = 1 + count % 9;
        assert!(rt;
            stops_reading(&rt, &script, &text, count, step),
            "read {count}"
        );
    }
    Ok(())
}

#[test]
fn text_stops_at_each_byte(rt: HostRuntime) -> Result<(), Fail> {
    let (script, text) = script_and_text(rt.alloc())?;
    for room in 0..text.len() {
        assert!(rt;
            stops_writing(&rt, &script, &text, room, false),
            "after {room}"
        );
        assert!(rt;
            stops_writing(&rt, &script, &text, room, true),
            "after {room}"
        );
    }
    Ok(())
}

// A reader that fails once, after it was asked so many times, and would then go on: the text of the complete
// lines is written. It shows all of the script at once, so the replay looks at the bytes to come after each
// line.
fn fails_once<X: AllocGlobal + Threads>(rt: &X, script: &[u8], text: &[u8], asked: usize) -> bool {
    let mut reader = FlakyReader {
        rest: script,
        step: script.len(),
        asked,
        has_failed: false,
    };
    let mut written = Vec::new(rt.alloc());
    let result = replay_stream(rt, &mut reader, &mut written);
    let stands = if reader.has_failed {
        let read = script.len().saturating_sub(reader.rest.len());
        front(text, written_by_complete(read))
    } else {
        text
    };
    result.is_err() == reader.has_failed && written.as_slice() == stands
}

#[test]
fn failed_look_is_told(rt: HostRuntime) -> Result<(), Fail> {
    let (script, text) = script_and_text(rt.alloc())?;
    for asked in 0..24 {
        assert!(rt; fails_once(&rt, &script, &text, asked), "asked {asked}");
    }
    Ok(())
}

// A full disk behind a buffer: if the buffer can't hand its bytes on, that is a WriteFault, at any
// byte.
fn stops_behind_buffer<X: AllocGlobal + Threads>(
    rt: &X,
    script: &[u8],
    text: &[u8],
    room: usize,
) -> Result<bool, Fail> {
    let mut reader = script;
    let behind = FailingWriter {
        taken: Vec::new(rt.alloc()),
        room,
        takes_none: room % 2 == 0,
    };
    let mut writer = BufWriter::with_capacity(rt.alloc(), 4_096, behind)?;
    let result = replay_buffered(rt, &mut reader, &mut writer);
    let taken = writer.get_ref().taken.as_slice();
    Ok(result == Err(ReplayFault::WriteFault) && taken == front(text, room))
}

#[test]
fn buffer_is_handed_on(rt: HostRuntime) -> Result<(), Fail> {
    let (script, text) = script_and_text(rt.alloc())?;
    for room in 0..text.len() {
        assert!(rt;
            stops_behind_buffer(&rt, &script, &text, room)?,
            "after {room}"
        );
    }
    Ok(())
}

// With room for the whole text nothing is left in the buffer.
#[test]
fn buffer_is_emptied(rt: HostRuntime) -> Result<(), Fail> {
    let (script, text) = script_and_text(rt.alloc())?;
    let mut reader = script.as_slice();
    let mut writer = BufWriter::with_capacity(rt.alloc(), 4_096, Vec::new(rt.alloc()))?;
    let result = replay_buffered(&rt, &mut reader, &mut writer);
    assert!(rt; result == Ok(()));
    assert!(rt; writer.get_ref().as_slice() == text.as_slice());
    Ok(())
}
