//! Lines, words, numbers and names that were worked out by hand.

use crate::tests::check::check;
use script_words::{
    FileName, integer_in, is_text, natural_in, next_line, push_integer, push_natural, push_word,
    split_words,
};

/// Texts, each before its first line and the text after that.
const LINES: [(&[u8], Option<(&[u8], &[u8])>); 7] = [
    (b"", None),
    (b"a\r\nb", Some((b"a", b"b"))),
    (b"b", Some((b"b", b""))),
    (b"b\r", Some((b"b\r", b""))),
    (b"\n\n", Some((b"", b"\n"))),
    (b"\n", Some((b"", b""))),
    (b"a\rb\r\r\nc", Some((b"a\rb\r", b"c"))),
];

#[test]
fn lines(rt: HostRuntime) {
    for (row, (text, wanted)) in LINES.iter().enumerate() {
        check(&rt, row, next_line(text), *wanted);
    }
}

/// Bytes, and whether they may be in a line.
const BYTES: [(&[u8], bool); 6] = [
    (b"", true),
    (b"\t ~#!", true),
    (b"a\r", false),
    (b"\x7f", false),
    (b"\x80", false),
    (b"\x1f", false),
];

#[test]
fn bytes_of_text(rt: HostRuntime) {
    for (row, (bytes, wanted)) in BYTES.iter().enumerate() {
        check(&rt, row, is_text(bytes), *wanted);
    }
}

#[test]
fn words(rt: HostRuntime) {
    let mut words = Vec::new(rt.alloc());
    let wanted = ["node".as_bytes(), "x".as_bytes(), "1".as_bytes()];
    split_words(b"\tnode  x\t 1 ", &mut words).expect(&rt, "memory");
    check(&rt, "three", words.as_slice(), wanted.as_slice());
    split_words(b" \t ", &mut words).expect(&rt, "memory");
    assert!(rt; words.is_empty());
}

/// The least and the greatest number, and a word, before the number between these that it spells.
const NATURALS: [(u32, u32, &[u8], Option<u32>); 12] = [
    (0, 65_535, b"007", Some(7)),
    (0, 65_535, b"65535", Some(65_535)),
    (0, 65_535, b"65536", None),
    (1, 64, b"0", None),
    (0, u32::MAX, b"4294967296", None),
    (0, 64, b"0000000064", Some(64)),
    (0, 64, b"00000000064", None),
    (0, 64, b"", None),
    (0, 64, b"+1", None),
    (0, 64, b"-5", None),
    (0, 64, b"-0", None),
    (0, 64, b"1a", None),
];

#[test]
fn numbers(rt: HostRuntime) {
    for (row, (low, high, word, wanted)) in NATURALS.iter().enumerate() {
        check(&rt, row, natural_in(*low, *high, word), *wanted);
    }
}

/// The same of integers.
const INTEGERS: [(i64, i64, &[u8], Option<i64>); 11] = [
    (-8, 7, b"-8", Some(-8)),
    (-8, 7, b"-9", None),
    (-8, 7, b"7", Some(7)),
    (-8, 7, b"8", None),
    (-8, 7, b"-0", Some(0)),
    (-8, 7, b"-0000000001", Some(-1)),
    (-8, 7, b"-00000000001", None),
    (-8, 7, b"-", None),
    (-8, 7, b"--1", None),
    (-8, 7, b"+1", None),
    (0, 7, b"-0", None),
];

#[test]
fn integers(rt: HostRuntime) {
    for (row, (low, high, word, wanted)) in INTEGERS.iter().enumerate() {
        check(&rt, row, integer_in(*low, *high, word), *wanted);
    }
}

/// Words, and whether they name files.
const NAMES: [(&[u8], bool); 7] = [
    (&[b'z'; 64], true),
    (&[b'z'; 65], false),
    (b"", false),
    (b".a", false),
    (b"-a", false),
    (b"a/b", false),
    (b"_Z.9-", true),
];

#[test]
fn names(rt: HostRuntime) {
    for (row, (word, is_name)) in NAMES.iter().enumerate() {
        let name = FileName::parse(word);
        check(&rt, row, name.is_some(), *is_name);
        if let Some(name) = name {
            check(&rt, row, name.as_bytes(), *word);
            check(&rt, row, name.as_str().as_bytes(), *word);
        }
    }
}

#[test]
fn spellings(rt: HostRuntime) {
    let mut text = Vec::new(rt.alloc());
    push_word(&mut text, b"copy").expect(&rt, "memory");
    push_natural(&mut text, 0).expect(&rt, "memory");
    push_natural(&mut text, u32::MAX).expect(&rt, "memory");
    push_integer(&mut text, -12).expect(&rt, "memory");
    push_integer(&mut text, 30).expect(&rt, "memory");
    check(
        &rt,
        "text",
        text.as_slice(),
        " copy 0 4294967295 -12 30".as_bytes(),
    );
}
