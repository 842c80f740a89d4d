//! Strings, XML elements and byte strings: bytes and what they spell.

use std::alloc::Global;
use ua_test_shared::spelling::{Any, Shown, is_refused, is_whole, spells};
use ua_value::{Array, UaBytes, UaString, XmlElement};

const NULL: &[u8] = &[0xff, 0xff, 0xff, 0xff];

const EMPTY: &[u8] = &[0x00, 0x00, 0x00, 0x00];

const LETTER: &[u8] = &[0x01, 0x00, 0x00, 0x00, 0x41];

const WATER: &[u8] = &[0x03, 0x00, 0x00, 0x00, 0xe6, 0xb0, 0xb4];

const CUT_WATER: &[u8] = &[0x02, 0x00, 0x00, 0x00, 0xe6, 0xb0];

/// The text of a value, or none.
#[derive(Clone, Copy)]
pub(crate) struct Text<'a>(pub(crate) Option<&'a str>);

impl Shown<UaString> for Text<'_> {
    fn is_shown(&self, value: &UaString) -> bool {
        value.get() == self.0
    }
}

impl Shown<XmlElement> for Text<'_> {
    fn is_shown(&self, value: &XmlElement) -> bool {
        value.get() == self.0
    }
}

/// The bytes of a value, or none.
#[derive(Clone, Copy)]
pub(crate) struct Content<'a>(pub(crate) Option<&'a [u8]>);

impl Shown<UaBytes> for Content<'_> {
    fn is_shown(&self, value: &UaBytes) -> bool {
        value.get() == self.0
    }
}

/// A hundred letters.
const LONG: &[u8] =
    b"\x64\0\0\0abcdefghijabcdefghijabcdefghijabcdefghijabcdefghijabcdefghijabcdefghijabcdefghijabcdefghijabcdefghij";

const LONG_TEXT: &str =
    "abcdefghijabcdefghijabcdefghijabcdefghijabcdefghijabcdefghijabcdefghijabcdefghijabcdefghijabcdefghij";

const TEXTS: [(&[u8], Option<&str>); 5] = [
    (NULL, None),
    (EMPTY, Some("")),
    (LETTER, Some("A")),
    (WATER, Some("水")),
    (LONG, Some(LONG_TEXT)),
];

/// Both kinds of text are spelled alike.
fn is_text_of(alloc: Global, bytes: &[u8], text: Option<&str>) -> bool {
    is_whole::<UaString, Text>(alloc, bytes, &Text(text))
        && is_whole::<XmlElement, Text>(alloc, bytes, &Text(text))
}

/// Not whole letters, and a letter with something behind it.
fn are_cut_and_followed(alloc: Global) -> bool {
    is_refused::<UaString>(alloc, CUT_WATER)
        && is_refused::<XmlElement>(alloc, CUT_WATER)
        && spells::<UaString, Any>(
            alloc,
            &[0x01, 0x00, 0x00, 0x00, 0x41, 0xff],
            5,
            LETTER,
            &Any,
        )
}

#[test]
fn strings_and_xml_elements_are_null_or_empty_or_utf8(rt: HostRuntime) {
    for (bytes, text) in &TEXTS {
        assert!(rt; is_text_of(rt.alloc(), bytes, *text), "{bytes:?}");
    }
    assert!(rt; are_cut_and_followed(rt.alloc()));
}

const CONTENTS: [(&[u8], Option<&[u8]>); 4] = [
    (NULL, None),
    (EMPTY, Some(&[])),
    (LETTER, Some(&[0x41])),
    (CUT_WATER, Some(&[0xe6, 0xb0])),
];

#[test]
fn byte_strings_are_null_or_empty_or_any_bytes(rt: HostRuntime) {
    for (bytes, content) in &CONTENTS {
        let want = Content(*content);
        assert!(rt;
            is_whole::<UaBytes, Content>(rt.alloc(), bytes, &want),
            "{bytes:?}"
        );
    }
}

/// Lengths that are negative, or greater than the two bytes behind them.
const LENGTHS: [&[u8]; 4] = [
    &[0xfe, 0xff, 0xff, 0xff, 0x41, 0x41],
    &[0x00, 0x00, 0x00, 0x80, 0x41, 0x41],
    &[0xff, 0xff, 0xff, 0x7f, 0x41, 0x41],
    &[0x03, 0x00, 0x00, 0x00, 0x41, 0x41],
];

fn is_no_length(alloc: Global, bytes: &[u8]) -> bool {
    is_refused::<UaString>(alloc, bytes)
        && is_refused::<XmlElement>(alloc, bytes)
        && is_refused::<UaBytes>(alloc, bytes)
        && is_refused::<Array<u8>>(alloc, bytes)
        && is_refused::<Array<UaString>>(alloc, bytes)
}

#[test]
fn other_negative_and_great_lengths_are_refused(rt: HostRuntime) {
    for bytes in &LENGTHS {
        assert!(rt; is_no_length(rt.alloc(), bytes), "{bytes:?}");
    }
}
