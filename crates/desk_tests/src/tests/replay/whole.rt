// A whole run of a program that replays: its output, its exit status, and its report.
use crate::tests::replay::streams::{FailingReader, FailingWriter};
use script_replay::{MISTAKEN, refuse, run_replay, show};
use std::test::Fail;

const SCRIPT: &[u8] = b"station north A\nenergy A\n";

const TEXT: &[u8] = b"energy up=0 down=0\n";

// Whether an output is there and took just this text.
fn took(output: &Option<Vec<u8>>, text: &[u8]) -> bool {
    match output {
        Some(output) => output.as_slice() == text,
        None => false,
    }
}

// Whether a failing output is there and took just this text.
fn took_front(output: &Option<FailingWriter>, text: &[u8]) -> bool {
    match output {
        Some(output) => output.taken.as_slice() == text,
        None => false,
    }
}

#[test]
fn a_run_replays_and_reports_nothing(rt: HostRuntime) -> Result<(), Fail> {
    let ended = run_replay(&rt, SCRIPT, Vec::new(rt.alloc()), Vec::new(rt.alloc()));
    assert!(rt; took(&ended.output, TEXT));
    assert!(rt; ended.errors.is_empty() && ended.reported.is_ok());
    assert_eq!(rt; ended.status, 0);
    Ok(())
}

#[test]
fn a_run_reports_a_read_that_failed(rt: HostRuntime) -> Result<(), Fail> {
    let input = FailingReader { rest: b"", step: 1 };
    let ended = run_replay(&rt, input, Vec::new(rt.alloc()), Vec::new(rt.alloc()));
    assert!(rt;
        ended.errors.as_slice() == b"fault ReadFault\n".as_slice() && ended.reported.is_ok()
    );
    assert_eq!(rt; ended.status, 1);
    Ok(())
}

#[test]
fn a_run_reports_a_write_that_failed(rt: HostRuntime) -> Result<(), Fail> {
    let output = FailingWriter {
        taken: Vec::new(rt.alloc()),
        room: 6,
        takes_none: false,
    };
    let ended = run_replay(&rt, SCRIPT, output, Vec::new(rt.alloc()));
    assert!(rt; took_front(&ended.output, &TEXT[..6]));
    assert!(rt; ended.errors.as_slice() == b"fault WriteFault\n".as_slice());
    assert_eq!(rt; ended.status, 1);
    Ok(())
}

#[test]
fn texts_are_shown_and_mistakes_reported(rt: HostRuntime) -> Result<(), Fail> {
    let shown = show(Vec::new(rt.alloc()), Vec::new(rt.alloc()), TEXT);
    assert!(rt; took(&shown.output, TEXT) && shown.errors.is_empty());
    assert_eq!(rt; shown.status, 0);
    let refused = refuse(Vec::new(rt.alloc()), Vec::new(rt.alloc()), TEXT);
    assert!(rt; refused.status == MISTAKEN && refused.errors.as_slice() == TEXT);
    assert!(rt; took(&refused.output, b""));
    Ok(())
}
