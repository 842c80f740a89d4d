//! The other public calls of values: constructors, what looks at a front, fields in order, the laws, and the texts of faults.

use crate::texts::{Content, Text};
use std::alloc::Global;
use ua_test_shared::spelling::{is_made, is_printed, is_written};
use ua_value::plumbing::{Fields, Parts, Raw, read_part, read_whole};
use ua_value::{
    Array, NodeId, ReadFault, Sink, UaBytes, UaString, ValueFault, XmlElement, laws, peek_string,
    peek_u32,
};

/// Whether a string and an XML element that are made of a text keep it.
fn are_texts_made(alloc: Global, text: &str) -> bool {
    let want = Text(Some(text));
    is_made(UaString::new(alloc, text), &want) && is_made(XmlElement::new(alloc, text), &want)
}

/// Whether bytes that are made of two keep them.
fn are_bytes_made(alloc: Global) -> bool {
    is_made(UaBytes::new(alloc, &[1, 2]), &Content(Some(&[1, 2])))
}

fn are_null() -> bool {
    UaString::null().get().is_none()
        && XmlElement::null().get().is_none()
        && UaBytes::null().get().is_none()
}

#[tactic(auto, unfolding(ua_value::specs::Number::unsigned))]
fn are_arrays_made(alloc: Global) -> bool {
    let Ok(items) = [1u16, 2].to_vec(alloc) else {
        return false;
    };
    match Array::new(items) {
        Ok(array) => {
            array.get() == Some([1, 2].as_slice())
                && is_written(alloc, &array, &[2, 0, 0, 0, 1, 0, 2, 0])
                && is_written(alloc, &Array::<NodeId>::null(), &[0xff, 0xff, 0xff, 0xff])
        }
        Err(_) => false,
    }
}

#[test]
fn constructors_keep_what_they_are_given(rt: HostRuntime) {
    let alloc = rt.alloc();
    for text in ["a", "", "<a/>"] {
        assert!(rt; are_texts_made(alloc, text), "{text}");
    }
    assert!(rt; are_bytes_made(alloc));
    assert!(rt; are_null());
    assert!(rt; are_arrays_made(alloc));
}

fn peeks_at_fronts() -> bool {
    peek_u32(&[1, 2, 3, 4, 5]) == Some(0x0403_0201)
        && peek_u32(&[1, 2, 3]).is_none()
        && peek_string(&[1, 0, 0, 0, 0x41, 0x42]) == Some((Some("A"), 5))
        && peek_string(&[0xff, 0xff, 0xff, 0xff]) == Some((None, 4))
        && peek_string(&[1, 0, 0, 0]).is_none()
        && peek_string(&[1, 0, 0, 0, 0xff]).is_none()
}

#[test]
fn peeks_at_the_front(rt: HostRuntime) {
    assert!(rt; peeks_at_fronts());
}

const FIELDS: &[u8] = &[7, 1, 0, 0, 0, 0x61, 9];

/// Whether a number and a text are read in front of the last byte.
fn fields_are_read(alloc: Global) -> bool {
    match <(u8, UaString)>::read_fields(alloc, FIELDS) {
        Ok(((number, text), rest)) => {
            number == 7 && text.get() == Some("a") && rest == [9].as_slice()
        }
        Err(_) => false,
    }
}

/// Whether they are written again, with raw bytes behind them.
fn fields_are_put(alloc: Global, number: u8, text: &UaString) -> bool {
    let mut out = Vec::new(alloc);
    (&number, (text, Raw { bytes: &[3, 4] }))
        .emit_parts(&mut out)
        .is_ok()
        && out.put(&[5]).is_ok()
        && out.as_slice() == [7, 1, 0, 0, 0, 0x61, 3, 4, 5].as_slice()
}

fn fields_are_whole(alloc: Global) -> bool {
    match read_whole::<(u8, UaString)>(alloc, &FIELDS[..6]) {
        Ok((number, text)) => fields_are_put(alloc, number, &text),
        Err(_) => false,
    }
}

/// Whether one more byte is refused, and a part is read only where it is there.
fn parts_are_read(alloc: Global) -> bool {
    read_whole::<u8>(alloc, &[7, 9]) == Err(ReadFault::Refused)
        && read_part::<u8>(alloc, true, 5, &[7, 9]) == Ok((7, [9].as_slice()))
        && read_part::<u8>(alloc, false, 5, &[7, 9]) == Ok((5, [7, 9].as_slice()))
}

#[test]
fn fields_in_order(rt: HostRuntime) {
    let alloc = rt.alloc();
    assert!(rt; fields_are_read(alloc));
    assert!(rt; fields_are_whole(alloc));
    assert!(rt; parts_are_read(alloc));
}

fn is_kept(kept: Option<Vec<u8>>, bytes: &[u8]) -> bool {
    match kept {
        Some(kept) => kept.as_slice() == bytes,
        None => false,
    }
}

fn bytes_are_given_back(alloc: Global) -> bool {
    let Ok(two) = [1, 2].to_vec(alloc) else {
        return false;
    };
    match UaBytes::from_vec(two) {
        Ok(bytes) => {
            bytes.get() == Some([1, 2].as_slice()) && is_kept(bytes.into_vec(), &[1, 2])
        }
        Err(_) => false,
    }
}

#[tactic(auto, unfolding(ua_value::specs::Number::unsigned))]
fn items_are_given_back(alloc: Global) -> bool {
    let Ok(two) = [3u16, 4].to_vec(alloc) else {
        return false;
    };
    let Ok(items) = Array::new(two) else {
        return false;
    };
    match items.into_vec() {
        Some(items) => items.as_slice() == [3, 4].as_slice(),
        None => false,
    }
}

#[test]
fn vectors_are_kept_and_given_back(rt: HostRuntime) {
    let alloc = rt.alloc();
    assert!(rt; bytes_are_given_back(alloc));
    assert!(rt; items_are_given_back(alloc));
    assert!(rt; UaBytes::null().into_vec().is_none());
}

#[test]
fn laws_at_two_types() {
    laws::spellings_are_distinct::<NodeId>();
    laws::spellings_are_distinct::<Array<UaString>>();
    laws::no_spelling_begins_another::<NodeId>();
    laws::no_spelling_begins_another::<Array<UaString>>();
    laws::a_spelling_has_one_value::<NodeId>();
    laws::a_spelling_has_one_value::<Array<UaString>>();
    laws::every_spelling_has_bytes::<NodeId>();
    laws::every_spelling_has_bytes::<Array<UaString>>();
    laws::the_canonical_spelling_is_one::<NodeId>();
    laws::the_canonical_spelling_is_one::<Array<UaString>>();
    laws::what_is_written_reads_back::<NodeId>();
    laws::what_is_written_reads_back::<Array<UaString>>();
}

const LONG: &str = "more than 2147483647 bytes or items";

#[test]
fn faults_have_texts_and_numbers(rt: HostRuntime) {
    let alloc = rt.alloc();
    assert!(rt; is_printed(alloc, ReadFault::Refused, "the bytes spell no value"));
    assert!(rt; is_printed(alloc, ReadFault::NoMemory, "out of memory"));
    assert!(rt; is_printed(alloc, ValueFault::TooLong, LONG));
    assert!(rt; is_printed(alloc, ValueFault::NoMemory, "out of memory"));
    assert!(rt; ValueFault::TooLong as u8 == 1 && ValueFault::NoMemory as u8 == 2);
}
