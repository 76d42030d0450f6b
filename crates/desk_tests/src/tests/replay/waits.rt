// Flushes: answers are out before the replay waits for its reader, and a failed flush is reported.
use crate::tests::replay::streams::{CountingWriter, FailingFlush, WaitingReader};
use board_report::write_out;
use script_replay::{ReplayFault, replay_stream};
use std::cell::Cell;
use std::test::Fail;
use std::thread::Threads;

const SCRIPT: &[u8] = b"station north A\nfrob\nenergy A\nenergy Z";

// The flushes of the script shown `step` bytes at a time by a reader that refuses to wait while an answer is not
// flushed; `None` if the run failed or left something unflushed.
fn flushes_of<X: AllocGlobal + Threads>(rt: &X, step: usize) -> Option<u32> {
    let unflushed = Cell::new(0);
    let mut reader = WaitingReader {
        rest: SCRIPT,
        step,
        shown: 0,
        unflushed: &unflushed,
    };
    let mut writer = CountingWriter {
        unflushed: &unflushed,
        flushes: 0,
    };
    let result = replay_stream(rt, &mut reader, &mut writer);
    if result == Ok(()) && unflushed.get() == 0 {
        Some(writer.flushes)
    } else {
        None
    }
}

#[test]
fn answers_are_out_before_a_wait(rt: HostRuntime) -> Result<(), Fail> {
    // The script has 38 bytes: there is a flush each time all that was shown is consumed, and at the
    // end.
    assert!(rt; flushes_of(&rt, 38) == Some(2));
    assert!(rt; flushes_of(&rt, 19) == Some(3));
    assert!(rt; flushes_of(&rt, 2) == Some(20));
    assert!(rt; flushes_of(&rt, 1) == Some(39));
    Ok(())
}

// How the script ends, shown `step` bytes at a time, if a flush fails after so many bytes passed.
fn end_after_flushes<X: AllocGlobal + Threads>(
    rt: &X,
    step: usize,
    passes: u32,
) -> Result<(), ReplayFault> {
    let unflushed = Cell::new(0);
    let mut reader = WaitingReader {
        rest: SCRIPT,
        step,
        shown: 0,
        unflushed: &unflushed,
    };
    let mut writer = FailingFlush { passes };
    replay_stream(rt, &mut reader, &mut writer)
}

// A flush that fails in the middle of a run, or at its end, is reported; a replay that ignored it would
// end with Ok.
#[test]
fn flush_fails(rt: HostRuntime) -> Result<(), Fail> {
    for passes in 0..20 {
        let end = end_after_flushes(&rt, 2, passes);
        assert!(rt; end == Err(ReplayFault::WriteFault), "after {passes}");
    }
    assert!(rt; end_after_flushes(&rt, SCRIPT.len(), 2) == Ok(()));
    Ok(())
}

#[test]
fn written_out_is_flushed(rt: HostRuntime) -> Result<(), Fail> {
    let unflushed = Cell::new(0);
    let mut writer = CountingWriter {
        unflushed: &unflushed,
        flushes: 0,
    };
    assert!(rt; write_out(&mut writer, b"board").is_ok());
    assert!(rt; writer.flushes == 1 && unflushed.get() == 0);
    let mut failing = FailingFlush { passes: 0 };
    assert!(rt; write_out(&mut failing, b"board").is_err());
    Ok(())
}
