//! No clause says that reads succeed while there is memory; these tests show it. They have examples of the marked
//! reading, with answers from RFC 8259 and from this product's profile.

ghost use Rattle.std.specs.Prelude.{◌≤◌, length};

use marked_json::{JsonFault, Marked, read_marked};
use std::alloc::Global;
use std::process::Abort;
use std::test::Fail;

// Returns whether a text is refused with this fault.
fn is_refused(alloc: Global, text: &str, fault: JsonFault) -> bool {
    matches!(read_marked(alloc, text), Err(told) if told == fault)
}

// The numbers and the text of the first three items of field `a`, and whether there is no other.
fn three_items(marked: &Marked) -> Option<bool> {
    let mut items = marked.root().field("a")?.items()?;
    Some(
        items.next()?.number() == Some("1")
            && items.next()?.number() == Some("-2.5e3")
            && items.next()?.text() == Some("#1")
            && items.next().is_none(),
    )
}

#[test]
fn marked_texts(rt: HostRuntime) -> Result<(), Fail> {
    let marked = read_marked(rt.alloc(), r##"{"a":[1,-2.5e3,"#1"]}"##)?;
    assert_eq!(rt; three_items(&marked), Some(true));
    assert!(rt; is_refused(rt.alloc(), "{1:2}", JsonFault::NumberAsKey));
    assert!(rt; is_refused(rt.alloc(), "[01]", JsonFault::BadNumber));
    assert!(rt; is_refused(rt.alloc(), "[1", JsonFault::NotJson));
    assert!(rt; is_refused(rt.alloc(), "", JsonFault::NotJson));
    Ok(())
}

const FAULTS: [(&str, JsonFault); 25] = [
    ("-", JsonFault::BadNumber),
    ("1.", JsonFault::BadNumber),
    ("1e", JsonFault::BadNumber),
    ("1e+", JsonFault::BadNumber),
    ("--1", JsonFault::BadNumber),
    ("0123", JsonFault::BadNumber),
    ("1-2", JsonFault::BadNumber),
    (".5", JsonFault::NotJson),
    ("+1", JsonFault::NotJson),
    ("{1 \t\r\n:2}", JsonFault::NumberAsKey),
    ("[1:2]", JsonFault::NumberAsKey),
    ("{01:2}", JsonFault::BadNumber),
    ("{1:02}", JsonFault::NumberAsKey),
    ("[02,{1:2}]", JsonFault::BadNumber),
    ("[1,02", JsonFault::BadNumber),
    ("1 2", JsonFault::NotJson),
    ("[1,]", JsonFault::NotJson),
    ("\"", JsonFault::NotJson),
    ("\"a\\", JsonFault::NotJson),
    ("\"a\\\"", JsonFault::NotJson),
    ("\"\\ud800\"", JsonFault::NotJson),
    ("\"\\udc00\"", JsonFault::NotJson),
    ("\"\\ud800\\u0041\"", JsonFault::NotJson),
    ("\"\u{1}\"", JsonFault::NotJson),
    ("\"\n\"", JsonFault::NotJson),
];

#[test]
fn faults(rt: HostRuntime) {
    for (text, fault) in &FAULTS {
        assert!(rt; is_refused(rt.alloc(), text, *fault), "at {text:?}");
    }
}

// Returns whether a text is read as this number, and as nothing else.
fn is_number(alloc: Global, text: &str, token: &str) -> Result<bool, JsonFault> {
    let marked = read_marked(alloc, text)?;
    let root = marked.root();
    Ok(root.number() == Some(token) && root.text() == None && !root.is_object())
}

const NUMBERS: [(&str, &str); 5] = [
    ("0", "0"),
    (" -0 ", "-0"),
    ("10.050E+07", "10.050E+07"),
    ("1e00", "1e00"),
    ("99999999999999999999.9", "99999999999999999999.9"),
];

#[test]
fn numbers(rt: HostRuntime) {
    for (text, token) in &NUMBERS {
        assert!(rt; is_number(rt.alloc(), text, token) == Ok(true), "at {text}");
    }
}

// Returns whether a text is read as this text, and as nothing else.
fn is_string(alloc: Global, text: &str, content: &str) -> Result<bool, JsonFault> {
    let marked = read_marked(alloc, text)?;
    let root = marked.root();
    Ok(root.text() == Some(content) && root.number() == None && root.items().is_none())
}

const STRINGS: [(&str, &str); 8] = [
    ("\"\"", ""),
    ("\"1.5\"", "1.5"),
    ("\"#1\"", "#1"),
    ("\"$x\"", "$x"),
    ("\"\\u00231\"", "#1"),
    ("\"a\\\"1\\\\\"", "a\"1\\"),
    ("\"\\ud83d\\ude00\"", "\u{1F600}"),
    ("\"\u{20ac} 1\"", "\u{20ac} 1"),
];

#[test]
fn strings(rt: HostRuntime) {
    for (text, content) in &STRINGS {
        assert!(rt;
            is_string(rt.alloc(), text, content) == Ok(true),
            "at {text}"
        );
    }
}

const FIELDS: &str = r#"{"a":null,"b":7,"c":1,"c":null,"d":{},"e":[null]}"#;

// Returns whether the field is there.
fn has(marked: &Marked, name: &str) -> bool
    requires { length name.now ≤ 63 }
{
    marked.root().field(name).is_some()
}

// Returns whether `b` is 7 and no object, `d` is an object, and `e` is a list of one.
fn have_kinds(marked: &Marked) -> Option<bool> {
    let root = marked.root();
    let (number, list) = (root.field("b")?, root.field("e")?);
    Some(
        number.number() == Some("7")
            && number.field("b").is_none()
            && root.field("d")?.is_object()
            && list.items()?.count() == 1,
    )
}

#[test]
fn fields(rt: HostRuntime) -> Result<(), Fail> {
    let marked = read_marked(rt.alloc(), FIELDS)?;
    assert!(rt; marked.root().is_object() && marked.root().items().is_none());
    for absent in ["a", "c", "$b", "B", ""] {
        assert!(rt; !has(&marked, absent), "at {absent}");
    }
    assert_eq!(rt; have_kinds(&marked), Some(true));
    Ok(())
}

// The character `count` times.
fn repeated(alloc: Global, c: char, count: usize) -> Result<String, Fail> {
    let mut text = String::new(alloc);
    for _ in 0..count {
        text.push(c)?;
    }
    Ok(text)
}

// `depth` lists, each in the next.
fn nested(alloc: Global, depth: usize) -> Result<String, Fail> {
    let opened = repeated(alloc, '[', depth)?;
    let closed = repeated(alloc, ']', depth)?;
    Ok(format!(in alloc; "{opened}{closed}")?)
}

#[test]
fn deep_and_long_texts(rt: HostRuntime) -> Result<(), Fail> {
    let deepest = nested(rt.alloc(), 127)?;
    assert!(rt; read_marked(rt.alloc(), deepest.as_str()).is_ok());
    let deeper = nested(rt.alloc(), 128)?;
    assert!(rt; is_refused(rt.alloc(), deeper.as_str(), JsonFault::NotJson));
    long_text(&rt, rt.alloc())
}

// A text of 262,144 letters, without and with its quotes.
fn long_text(rt: &impl Abort, alloc: Global) -> Result<(), Fail> {
    let long = repeated(alloc, 'a', 262_144)?;
    assert!(rt; is_refused(alloc, long.as_str(), JsonFault::NotJson));
    let quoted = format!(in alloc; "\"{long}\"")?;
    assert!(rt; is_string(alloc, quoted.as_str(), long.as_str()) == Ok(true));
    Ok(())
}
