//! Arrays: bytes and what they spell.

use crate::texts::Text;
use std::alloc::Global;
use ua_test_shared::spelling::{Shown, are_texts, is_made, is_whole};
use ua_value::{Array, UaString};

/// The items of an array of numbers, or none.
#[derive(Clone, Copy)]
struct Numbers<'a>(Option<&'a [u16]>);

impl Shown<Array<u16>> for Numbers<'_> {
    fn is_shown(&self, array: &Array<u16>) -> bool {
        array.get() == self.0
    }
}

const NUMBERS: [(&[u8], Option<&[u16]>); 3] = [
    (&[0xff, 0xff, 0xff, 0xff], None),
    (&[0x00, 0x00, 0x00, 0x00], Some(&[])),
    (
        &[0x02, 0x00, 0x00, 0x00, 0x01, 0x00, 0x02, 0x01],
        Some(&[1, 0x0102]),
    ),
];

/// Two texts, the second of them null.
struct Texts;

impl Shown<Array<UaString>> for Texts {
    fn is_shown(&self, array: &Array<UaString>) -> bool {
        match array.get() {
            Some([first, second]) => first.get() == Some("a") && second.get().is_none(),
            _ => false,
        }
    }
}

const TEXTS: &[u8] = &[
    0x02, 0x00, 0x00, 0x00, 0x01, 0x00, 0x00, 0x00, 0x61, 0xff, 0xff, 0xff, 0xff,
];

#[test]
fn arrays_of_numbers(rt: HostRuntime) {
    for (bytes, items) in &NUMBERS {
        assert!(rt;
            is_whole::<Array<u16>, Numbers>(rt.alloc(), bytes, &Numbers(*items)),
            "{bytes:?}"
        );
    }
}

#[test]
fn arrays_of_texts(rt: HostRuntime) {
    assert!(rt; is_whole::<Array<UaString>, Texts>(rt.alloc(), TEXTS, &Texts));
}

/// These texts, all of them.
#[derive(Drop)]
struct AreTexts<'a>(&'a [&'a str]);

impl Shown<Array<UaString>> for AreTexts<'_> {
    fn is_shown(&self, array: &Array<UaString>) -> bool {
        are_texts(array, self.0)
    }
}

fn texts_are_copied(alloc: Global) -> bool {
    let copied = Array::of_texts(alloc, &["en", "", "水"]);
    is_made(copied, &AreTexts(&["en", "", "水"]))
}

fn no_texts_are_an_empty_array(alloc: Global) -> bool {
    is_made(Array::of_texts(alloc, &[]), &AreTexts(&[]))
}

#[test]
fn lent_texts_are_copied(rt: HostRuntime) {
    let alloc = rt.alloc();
    assert!(rt; texts_are_copied(alloc));
    assert!(rt; no_texts_are_an_empty_array(alloc));
    assert!(rt; is_made(UaString::of_text(alloc, "水"), &Text(Some("水"))));
}
