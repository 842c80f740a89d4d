//! What is given back as it was taken, and what is made of plain values.

use crate::making::is_made_as;
use std::alloc::Global;
use ua_test_shared::spelling::is_printed;
use ua_value::{StatusCode, UaString, XmlElement};
use ua_variant::{Element, Kind, Variant};

/// What is made of a text and gives it back.
trait OfText: Drop + Sized {
    fn made(text: String) -> Option<Self>;

    fn text(self) -> Option<String>;
}

impl OfText for UaString {
    fn made(text: String) -> Option<UaString> {
        UaString::from_string(text).ok()
    }

    fn text(self) -> Option<String> {
        self.into_string()
    }
}

impl OfText for XmlElement {
    fn made(text: String) -> Option<XmlElement> {
        XmlElement::from_string(text).ok()
    }

    fn text(self) -> Option<String> {
        self.into_string()
    }
}

fn gives_back<T: OfText>(value: Option<T>, text: &str) -> bool {
    match value {
        Some(value) => is_same(value.text(), text),
        None => false,
    }
}

fn is_same(found: Option<String>, text: &str) -> bool {
    match found {
        Some(found) => found.as_str() == text,
        None => false,
    }
}

fn goes_both_ways<T: OfText>(alloc: Global, text: &str) -> bool {
    match String::from_str(alloc, text) {
        Ok(owned) => gives_back(T::made(owned), text),
        Err(_) => false,
    }
}

#[test]
fn texts_are_given_back(rt: HostRuntime) {
    for text in ["", "abc", "<a>water</a>"] {
        assert!(rt; goes_both_ways::<UaString>(rt.alloc(), text), "{text}");
        assert!(rt; goes_both_ways::<XmlElement>(rt.alloc(), text), "{text}");
    }
}

const STATUSES: [(u32, &str); 4] = [
    (0, "00000000 Good"),
    (0x8007_0000, "80070000 BadDecodingError"),
    (0x80b9_0000, "80B90000 BadResponseTooLarge"),
    (0x400a_0001, "400A0001"),
];

#[test]
fn statuses_have_digits_and_names(rt: HostRuntime) {
    for (code, text) in &STATUSES {
        assert!(rt; is_printed(rt.alloc(), StatusCode(*code), text), "{text}");
    }
}

fn copy_is_scalar(alloc: Global) -> bool {
    match Element::from(7u32).copy() {
        Ok(copy) => is_made_as(alloc, Variant::scalar(copy), &[7, 7, 0, 0, 0]),
        Err(_) => false,
    }
}

fn is_kind_of_contents(value: Variant, kind: Kind) -> bool {
    match value.into_value() {
        Some(value) => value.kind() == kind,
        None => false,
    }
}

fn scalar_gives_its_value() -> bool {
    match Variant::scalar(Element::from(StatusCode(0))) {
        Ok(value) => is_kind_of_contents(value, Kind::StatusCode),
        Err(_) => false,
    }
}

#[test]
fn elements_are_made_of_plain_values(rt: HostRuntime) {
    assert!(rt; copy_is_scalar(rt.alloc()));
    assert!(rt; scalar_gives_its_value());
    assert!(rt; Kind::LocalizedText.name() == "LocalizedText");
}
