//! Under which names several applications are answered to readers of few languages, and of many.

use crate::answers::{answers_at, asking};
use crate::memory::answers_or_no_memory;
use std::alloc::{AllocError, Global};
use ua_test_shared::bytes::joined;
use ua_test_shared::vectors::{FIND, NULL, SERVERS_FOUND};

/// Four applications. Two have names in English and German, one in French alone, one in German and in no language, and
/// the last has two in German.
const LINE: &str = "version = 2
[[application]]
uri = \"a\"
names = [{ locale = \"en\", text = \"1\" }, { locale = \"de\", text = \"2\" }]
[[application]]
uri = \"b\"
names = [{ locale = \"fr\", text = \"3\" }]
[[application]]
uri = \"c\"
names = [{ locale = \"de\", text = \"4\" }, { text = \"5\" }]
[[application]]
uri = \"d\"
names = [{ locale = \"de\", text = \"6\" }, { locale = \"de\", text = \"7\" }, { locale = \"en\", text = \"8\" }]
";

/// Their names.
const N1: &[u8] = b"\x03\x02\0\0\0en\x01\0\0\x001";

const N2: &[u8] = b"\x03\x02\0\0\0de\x01\0\0\x002";

const N3: &[u8] = b"\x03\x02\0\0\0fr\x01\0\0\x003";

const N4: &[u8] = b"\x03\x02\0\0\0de\x01\0\0\x004";

const N5: &[u8] = b"\x02\x01\0\0\x005";

const N6: &[u8] = b"\x03\x02\0\0\0de\x01\0\0\x006";

const N8: &[u8] = b"\x03\x02\0\0\0en\x01\0\0\x008";

/// What stands before and behind the name of each.
const A: &[u8] = b"\x01\0\0\0a\xFF\xFF\xFF\xFF";

const B: &[u8] = b"\x01\0\0\0b\xFF\xFF\xFF\xFF";

const C: &[u8] = b"\x01\0\0\0c\xFF\xFF\xFF\xFF";

const D: &[u8] = b"\x01\0\0\0d\xFF\xFF\xFF\xFF";

const BEHIND: &[u8] = b"\0\0\0\0\xFF\xFF\xFF\xFF\xFF\xFF\xFF\xFF\0\0\0\0";

/// Sixteen locales in which there is no name, the most that are walked through for each application.
const OTHERS: &[u8] =
    b"\x01\0\0\0c\x01\0\0\0d\x01\0\0\0e\x01\0\0\0f\x01\0\0\0g\x01\0\0\0h\x01\0\0\0i\x01\0\0\0j\x01\0\0\0k\x01\0\0\0l\x01\0\0\0m\x01\0\0\0n\x01\0\0\0o\x01\0\0\0p\x01\0\0\0q\x02\0\0\0ab";

const EN: &[u8] = b"\x02\0\0\0en";

const DE: &[u8] = b"\x02\0\0\0de";

const FR: &[u8] = b"\x02\0\0\0fr";

const IT: &[u8] = b"\x02\0\0\0it";

const NO_TEXT: &[u8] = b"\0\0\0\0";

/// What is wanted: how many locales, these, and how many they are with the sixteen others before the last two; then the
/// names of the four applications.
const WANTED: [(&[u8], [&[u8]; 3], &[u8], [&[u8]; 4]); 9] = [
    (
        b"\x01\0\0\0",
        [b"", DE, b""],
        b"\x11\0\0\0",
        [N2, N3, N4, N6],
    ),
    (
        b"\x01\0\0\0",
        [DE, b"", b""],
        b"\x11\0\0\0",
        [N2, N3, N4, N6],
    ),
    (
        b"\x02\0\0\0",
        [b"", EN, DE],
        b"\x12\0\0\0",
        [N1, N3, N4, N8],
    ),
    (
        b"\x02\0\0\0",
        [FR, EN, b""],
        b"\x12\0\0\0",
        [N1, N3, N4, N8],
    ),
    // a locale that comes again counts where it came first
    (b"\x03\0\0\0", [DE, EN, DE], b"\x13\0\0\0", [N2, N3, N4, N6]),
    // no locale is that of a name without one, and the empty text is not
    (
        b"\x02\0\0\0",
        [b"", NULL, DE],
        b"\x12\0\0\0",
        [N2, N3, N5, N6],
    ),
    (
        b"\x02\0\0\0",
        [NULL, EN, b""],
        b"\x12\0\0\0",
        [N1, N3, N5, N8],
    ),
    (
        b"\x02\0\0\0",
        [b"", NO_TEXT, EN],
        b"\x12\0\0\0",
        [N1, N3, N4, N8],
    ),
    (
        b"\x01\0\0\0",
        [b"", IT, b""],
        b"\x11\0\0\0",
        [N1, N3, N4, N6],
    ),
];

/// The answer under these names.
fn found(alloc: Global, names: [&[u8]; 4]) -> Result<Vec<u8>, AllocError> {
    let [a, b, c, d] = names;
    joined(
        alloc,
        &[
            SERVERS_FOUND,
            b"\x04\0\0\0",
            A,
            a,
            BEHIND,
            B,
            b,
            BEHIND,
            C,
            c,
            BEHIND,
            D,
            d,
            BEHIND,
        ],
    )
}

/// Whether a request with these locales is answered under these names.
fn is_named(alloc: Global, locales: &[&[u8]], names: [&[u8]; 4]) -> bool {
    let Ok(locales) = joined(alloc, locales) else {
        return false;
    };
    match (
        asking(alloc, FIND, locales.as_slice(), NULL),
        found(alloc, names),
    ) {
        (Ok(request), Ok(answer)) => {
            answers_at(alloc, LINE, 0, request.as_slice(), answer.as_slice())
        }
        _ => false,
    }
}

#[test]
fn many_locales_name_what_few_name(rt: HostRuntime) {
    let alloc = rt.alloc();
    for (few, [first, second, last], many, names) in WANTED {
        assert!(rt;
            is_named(alloc, &[few, first, second, last], names),
            "{names:?}"
        );
        assert!(rt;
            is_named(alloc, &[many, first, OTHERS, second, last], names),
            "{names:?}"
        );
    }
}

/// Whether readers of many languages get the same names where memory is there.
fn is_named_or_no_memory(alloc: Global, locales: &[&[u8]], names: [&[u8]; 4]) -> bool {
    let Ok(locales) = joined(alloc, locales) else {
        return true;
    };
    match (
        asking(alloc, FIND, locales.as_slice(), NULL),
        found(alloc, names),
    ) {
        (Ok(request), Ok(answer)) => {
            answers_or_no_memory(alloc, LINE, request.as_slice(), answer.as_slice())
        }
        _ => true,
    }
}

#[test]
fn many_locales_over_several_applications_or_no_memory(rt: HostRuntime) {
    let alloc = rt.alloc();
    assert!(rt;
        is_named_or_no_memory(
            alloc,
            &[b"\x13\0\0\0", OTHERS, NULL, DE, EN],
            [N2, N3, N5, N6]
        )
    );
}
