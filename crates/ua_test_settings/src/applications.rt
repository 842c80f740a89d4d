//! Settings of version 2: a list of applications, and what they answer.

use crate::answers::{answers_at, asking};
use crate::memory::{answers_or_no_memory, is_bad_or_no_memory};
use std::alloc::Global;
use ua_test_shared::applications::{BOTH_FOUND, PRESS_AND_OVEN};
use ua_test_shared::bytes::joined;
use ua_test_shared::vectors::{ASKED, FIND, FIND_BODY, NULL, SERVERS_FOUND};

fn finds_both_or_no_memory(alloc: Global) -> bool {
    match joined(alloc, &BOTH_FOUND) {
        Ok(both) => answers_or_no_memory(alloc, PRESS_AND_OVEN, FIND_BODY, both.as_slice()),
        Err(_) => true,
    }
}

#[test]
fn several_applications_or_no_memory(rt: HostRuntime) {
    assert!(rt; finds_both_or_no_memory(rt.alloc()));
}

/// Applications, of which the second has a type that there is not.
const REFUSED: &str =
    "version = 2\n[[application]]\nuri = \"a\"\nnames = [{ text = \"n\" }]\n[[application]]\nuri = \"b\"\ntype = 4\nnames = [{ text = \"n\" }]\n";

#[test]
fn a_refused_application_or_no_memory(rt: HostRuntime) {
    assert!(rt; is_bad_or_no_memory(rt.alloc(), REFUSED, "application.1.type"));
}

/// Four applications, of which the first and the third have one URI, and each names of its own.
const LINE: &str = "version = 2
[[application]]
uri = \"a\"
names = [{ locale = \"en\", text = \"1\" }, { locale = \"de\", text = \"2\" }]
[[application]]
uri = \"b\"
type = 3
names = [{ locale = \"fr\", text = \"3\" }]
[[application]]
uri = \"a\"
names = [{ text = \"4\" }, { locale = \"de\", text = \"5\" }]
[[application]]
uri = \"\"
names = [{ locale = \"de\", text = \"6\" }]
";

/// They under the names for a reader of German.
const FIRST: &[u8] =
    b"\x01\0\0\0a\xFF\xFF\xFF\xFF\x03\x02\0\0\0de\x01\0\0\x002\0\0\0\0\xFF\xFF\xFF\xFF\xFF\xFF\xFF\xFF\0\0\0\0";

const SECOND: &[u8] =
    b"\x01\0\0\0b\xFF\xFF\xFF\xFF\x03\x02\0\0\0fr\x01\0\0\x003\x03\0\0\0\xFF\xFF\xFF\xFF\xFF\xFF\xFF\xFF\0\0\0\0";

const THIRD: &[u8] =
    b"\x01\0\0\0a\xFF\xFF\xFF\xFF\x03\x02\0\0\0de\x01\0\0\x005\0\0\0\0\xFF\xFF\xFF\xFF\xFF\xFF\xFF\xFF\0\0\0\0";

const FOURTH: &[u8] =
    b"\0\0\0\0\xFF\xFF\xFF\xFF\x03\x02\0\0\0de\x01\0\0\x006\0\0\0\0\xFF\xFF\xFF\xFF\xFF\xFF\xFF\xFF\0\0\0\0";

const GERMAN: &[u8] = b"\x01\0\0\0\x02\0\0\0de";

/// Whether these settings find so many applications, and these, by the filter.
fn finds(alloc: Global, filter: &[u8], count: &[u8], found: &[&[u8]]) -> bool {
    let Ok(servers) = joined(alloc, found) else {
        return false;
    };
    match (
        asking(alloc, FIND, GERMAN, filter),
        joined(alloc, &[SERVERS_FOUND, count, servers.as_slice()]),
    ) {
        (Ok(request), Ok(answer)) => {
            answers_at(alloc, LINE, 0, request.as_slice(), answer.as_slice())
        }
        _ => false,
    }
}

/// Sixteen texts that no application has, the most of a filter that is walked through.
const OTHERS: &[u8] =
    b"\x01\0\0\0c\x01\0\0\0d\x01\0\0\0e\x01\0\0\0f\x01\0\0\0g\x01\0\0\0h\x01\0\0\0i\x01\0\0\0j\x01\0\0\0k\x01\0\0\0l\x01\0\0\0m\x01\0\0\0n\x01\0\0\0o\x01\0\0\0p\x01\0\0\0q\x02\0\0\0ab";

/// Whether a short filter of the texts and a long one of these and others find the same.
fn finds_by(
    alloc: Global,
    counts: [&[u8]; 2],
    texts: &[u8],
    count: &[u8],
    found: &[&[u8]],
) -> bool {
    match (
        joined(alloc, &[counts[0], texts]),
        joined(alloc, &[counts[1], OTHERS, texts]),
    ) {
        (Ok(short), Ok(long)) => {
            finds(alloc, short.as_slice(), count, found)
                && finds(alloc, long.as_slice(), count, found)
        }
        _ => false,
    }
}

/// Whether a filter that is indexed finds the second application, where memory is there.
fn finds_by_index_or_no_memory(alloc: Global) -> bool {
    match (
        joined(
            alloc,
            &[FIND, ASKED, GERMAN, b"\x11\0\0\0", OTHERS, b"\x01\0\0\0b"],
        ),
        joined(alloc, &[SERVERS_FOUND, b"\x01\0\0\0", SECOND]),
    ) {
        (Ok(request), Ok(answer)) => {
            answers_or_no_memory(alloc, LINE, request.as_slice(), answer.as_slice())
        }
        _ => true,
    }
}

#[test]
fn a_long_filter_over_several_applications_or_no_memory(rt: HostRuntime) {
    assert!(rt; finds_by_index_or_no_memory(rt.alloc()));
}

#[test]
fn servers_are_found_by_short_and_long_filters(rt: HostRuntime) {
    let alloc = rt.alloc();
    let all: [&[u8]; 4] = [FIRST, SECOND, THIRD, FOURTH];
    assert!(rt; finds(alloc, NULL, b"\x04\0\0\0", &all));
    assert!(rt; finds(alloc, b"\0\0\0\0", b"\x04\0\0\0", &all));
    assert!(rt;
        finds_by(
            alloc,
            [b"\x01\0\0\0", b"\x11\0\0\0"],
            b"\x01\0\0\0b",
            b"\x01\0\0\0",
            &[SECOND]
        )
    );
    assert!(rt;
        finds_by(
            alloc,
            [b"\x01\0\0\0", b"\x11\0\0\0"],
            b"\x01\0\0\0a",
            b"\x02\0\0\0",
            &[FIRST, THIRD]
        )
    );
    assert!(rt;
        finds_by(
            alloc,
            [b"\x01\0\0\0", b"\x11\0\0\0"],
            NULL,
            b"\0\0\0\0",
            &[]
        )
    );
    assert!(rt;
        finds_by(
            alloc,
            [b"\x01\0\0\0", b"\x11\0\0\0"],
            b"\0\0\0\0",
            b"\x01\0\0\0",
            &[FOURTH]
        )
    );
    assert!(rt;
        finds_by(
            alloc,
            [b"\x03\0\0\0", b"\x13\0\0\0"],
            b"\x01\0\0\0b\x01\0\0\0a\x01\0\0\0b",
            b"\x03\0\0\0",
            &[FIRST, SECOND, THIRD]
        )
    );
}
