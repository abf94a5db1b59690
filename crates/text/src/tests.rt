//! A few texts that are close to a number or a label, and one of each that is.

use crate::end::End;
use crate::read::{label, number};
use crate::write::write_field;
use std::test::Fail;

/// Each text ends with a blank unless the missing end is the fault.
const NO_NUMBERS: [&[u8]; 9] = [
    b"-0 ",
    b"007 ",
    b"-01 ",
    b"123456789012 ",
    b"12\r",
    b"12\n",
    b"12",
    b"- ",
    b"+1 ",
];

/// Each text ends with the line unless the missing end is the fault.
const NO_LABELS: [&[u8]; 6] = [
    b"\n",
    b"abcdefghijklmnopqrstuvwxy\n",
    b"two words\n",
    b"return\r\n",
    b"open",
    b"\x7f\n",
];

#[test]
fn refused(rt: HostRuntime) {
    for text in NO_NUMBERS {
        assert!(rt; number(text, End::Blank).is_none());
    }
    for text in NO_LABELS {
        assert!(rt; label(text).is_none());
    }
}

#[test]
fn read(rt: HostRuntime) -> Result<(), Fail> {
    let (z, rest) = number(b"-10000000000 7\n", End::Blank).ok_or("the least of its length")?;
    assert_eq!(rt; z, -10_000_000_000);
    assert_eq!(rt; rest.len(), 2);
    let (name, rest) = label(b"abcdefghijklmnopqrstuvwx\n").ok_or("the longest label")?;
    assert_eq!(rt; name.len(), 24);
    assert!(rt; rest.is_empty());
    Ok(())
}

#[test]
fn written(rt: HostRuntime) {
    let mut out = *b"........";
    let end = write_field(&mut out, 2, -105, End::Line);
    assert_eq!(rt; end, Some(7));
    assert!(rt; out == *b"..-105\n.");
    assert_eq!(rt; write_field(&mut out, 4, -105, End::Line), None);
}
