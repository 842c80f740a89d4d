//! The lines of `show` for messages in parts: what of their parts tells their encoding id, parts of no bytes, and many parts.

use std::alloc::{AllocError, Global};
use std::net::Net;
use std::rt::{Clock, Files};
use ua_command::run::run;
use ua_test_runs::pages::{Page, are_written, ends_so};

/// Messages whose first part has the whole encoding id, of each form.
const FIRST: &[u8] =
    b"MSGC\x1F\0\0\0\x01\0\0\0\x01\0\0\0\x02\0\0\0\x02\0\0\0\x01\0\xA6\x01abcMSGF\x1C\0\0\0\x01\0\0\0\x01\0\0\0\x03\0\0\0\x02\0\0\0defgMSGC\x1A\0\0\0\x01\0\0\0\x01\0\0\0\x04\0\0\0\x03\0\0\0\0*MSGF\x1B\0\0\0\x01\0\0\0\x01\0\0\0\x05\0\0\0\x03\0\0\0xyzMSGC!\0\0\0\x01\0\0\0\x01\0\0\0\x06\0\0\0\x04\0\0\0\x03\x01\0\x02\0\0\0HiMSGC\x19\0\0\0\x01\0\0\0\x01\0\0\0\x07\0\0\0\x04\0\0\0!MSGF\x19\0\0\0\x01\0\0\0\x01\0\0\0\x08\0\0\0\x04\0\0\0?";

const FIRST_LINES: &str =
    "0 MSG C 31 channel=1 token=1 sequence=2 request=2 body=7\n31 MSG F 28 channel=1 token=1 sequence=3 request=2 body=4\n  message request=2 type=i=422 size=11\n59 MSG C 26 channel=1 token=1 sequence=4 request=3 body=2\n85 MSG F 27 channel=1 token=1 sequence=5 request=3 body=3\n  message request=3 type=i=42 size=5\n112 MSG C 33 channel=1 token=1 sequence=6 request=4 body=9\n145 MSG C 25 channel=1 token=1 sequence=7 request=4 body=1\n170 MSG F 25 channel=1 token=1 sequence=8 request=4 body=1\n  message request=4 type=ns=1;s=\"Hi\" size=11\n";

/// Messages whose first part tells that there is no encoding id, as where bodies are encrypted.
const NONE: &[u8] =
    b"MSGC\x1A\0\0\0\x01\0\0\0\x01\0\0\0\x02\0\0\0\x02\0\0\0\xFF\x01MSGF\x1A\0\0\0\x01\0\0\0\x01\0\0\0\x03\0\0\0\x02\0\0\0abMSGC\x19\0\0\0\x01\0\0\0\x01\0\0\0\x04\0\0\0\x03\0\0\0\x06MSGF\x19\0\0\0\x01\0\0\0\x01\0\0\0\x05\0\0\0\x03\0\0\0cMSGC\x1A\0\0\0\x01\0\0\0\x01\0\0\0\x06\0\0\0\x04\0\0\0zzMSGF\x1C\0\0\0\x01\0\0\0\x01\0\0\0\x07\0\0\0\x04\0\0\0\x01\0\xA6\x01";

const NONE_LINES: &str =
    "0 MSG C 26 channel=1 token=1 sequence=2 request=2 body=2\n26 MSG F 26 channel=1 token=1 sequence=3 request=2 body=2\n  message request=2 type=? size=4\n52 MSG C 25 channel=1 token=1 sequence=4 request=3 body=1\n77 MSG F 25 channel=1 token=1 sequence=5 request=3 body=1\n  message request=3 type=? size=2\n102 MSG C 26 channel=1 token=1 sequence=6 request=4 body=2\n128 MSG F 28 channel=1 token=1 sequence=7 request=4 body=4\n  message request=4 type=? size=6\n";

/// Messages with parts of no bytes: first, in the middle, and last; and one of such parts alone.
const EMPTY: &[u8] =
    b"MSGC\x18\0\0\0\x01\0\0\0\x01\0\0\0\x02\0\0\0\x02\0\0\0MSGF\x1C\0\0\0\x01\0\0\0\x01\0\0\0\x03\0\0\0\x02\0\0\0\x01\0\xA6\x01MSGC\x1A\0\0\0\x01\0\0\0\x01\0\0\0\x04\0\0\0\x03\0\0\0\x01\0MSGC\x18\0\0\0\x01\0\0\0\x01\0\0\0\x05\0\0\0\x03\0\0\0MSGC\x18\0\0\0\x01\0\0\0\x01\0\0\0\x06\0\0\0\x03\0\0\0MSGF\x1A\0\0\0\x01\0\0\0\x01\0\0\0\x07\0\0\0\x03\0\0\0\xA6\x01MSGC\x1B\0\0\0\x01\0\0\0\x01\0\0\0\x08\0\0\0\x04\0\0\0\x01\0\xA6MSGC\x19\0\0\0\x01\0\0\0\x01\0\0\0\x09\0\0\0\x04\0\0\0\x01MSGF\x18\0\0\0\x01\0\0\0\x01\0\0\0\x0A\0\0\0\x04\0\0\0MSGC\x18\0\0\0\x01\0\0\0\x01\0\0\0\x0B\0\0\0\x05\0\0\0MSGC\x18\0\0\0\x01\0\0\0\x01\0\0\0\x0C\0\0\0\x05\0\0\0MSGF\x18\0\0\0\x01\0\0\0\x01\0\0\0\x0D\0\0\0\x05\0\0\0MSGC\x18\0\0\0\x01\0\0\0\x01\0\0\0\x0E\0\0\0\x06\0\0\0MSGC\x1C\0\0\0\x01\0\0\0\x01\0\0\0\x0F\0\0\0\x06\0\0\0\x01\0\xA7\x01MSGC\x18\0\0\0\x01\0\0\0\x01\0\0\0\x10\0\0\0\x06\0\0\0MSGF\x19\0\0\0\x01\0\0\0\x01\0\0\0\x11\0\0\0\x06\0\0\0a";

const EMPTY_LINES: &str =
    "0 MSG C 24 channel=1 token=1 sequence=2 request=2 body=0\n24 MSG F 28 channel=1 token=1 sequence=3 request=2 body=4\n  message request=2 type=i=422 size=4\n52 MSG C 26 channel=1 token=1 sequence=4 request=3 body=2\n78 MSG C 24 channel=1 token=1 sequence=5 request=3 body=0\n102 MSG C 24 channel=1 token=1 sequence=6 request=3 body=0\n126 MSG F 26 channel=1 token=1 sequence=7 request=3 body=2\n  message request=3 type=i=422 size=4\n152 MSG C 27 channel=1 token=1 sequence=8 request=4 body=3\n179 MSG C 25 channel=1 token=1 sequence=9 request=4 body=1\n204 MSG F 24 channel=1 token=1 sequence=10 request=4 body=0\n  message request=4 type=i=422 size=4\n228 MSG C 24 channel=1 token=1 sequence=11 request=5 body=0\n252 MSG C 24 channel=1 token=1 sequence=12 request=5 body=0\n276 MSG F 24 channel=1 token=1 sequence=13 request=5 body=0\n  message request=5 type=? size=0\n300 MSG C 24 channel=1 token=1 sequence=14 request=6 body=0\n324 MSG C 28 channel=1 token=1 sequence=15 request=6 body=4\n352 MSG C 24 channel=1 token=1 sequence=16 request=6 body=0\n376 MSG F 25 channel=1 token=1 sequence=17 request=6 body=1\n  message request=6 type=i=423 size=5\n";

/// Messages of four, five and seven parts, whose encoding id is in several of them.
const MANY: &[u8] =
    b"MSGC\x19\0\0\0\x01\0\0\0\x01\0\0\0\x02\0\0\0\x02\0\0\0\x01MSGC\x19\0\0\0\x01\0\0\0\x01\0\0\0\x03\0\0\0\x02\0\0\0\0MSGC\x19\0\0\0\x01\0\0\0\x01\0\0\0\x04\0\0\0\x02\0\0\0\xA6MSGF\x19\0\0\0\x01\0\0\0\x01\0\0\0\x05\0\0\0\x02\0\0\0\x01MSGC\x1B\0\0\0\x01\0\0\0\x01\0\0\0\x06\0\0\0\x03\0\0\0\x03\x0A\0MSGC\x1A\0\0\0\x01\0\0\0\x01\0\0\0\x07\0\0\0\x03\0\0\0\x02\0MSGC\x1A\0\0\0\x01\0\0\0\x01\0\0\0\x08\0\0\0\x03\0\0\0\0\0MSGC\x19\0\0\0\x01\0\0\0\x01\0\0\0\x09\0\0\0\x03\0\0\0HMSGF\x19\0\0\0\x01\0\0\0\x01\0\0\0\x0A\0\0\0\x03\0\0\0iMSGC\x19\0\0\0\x01\0\0\0\x01\0\0\0\x0B\0\0\0\x04\0\0\0\x02MSGC\x19\0\0\0\x01\0\0\0\x01\0\0\0\x0C\0\0\0\x04\0\0\0\x07MSGC\x19\0\0\0\x01\0\0\0\x01\0\0\0\x0D\0\0\0\x04\0\0\0\0MSGC\x1A\0\0\0\x01\0\0\0\x01\0\0\0\x0E\0\0\0\x04\0\0\0@BMSGC\x19\0\0\0\x01\0\0\0\x01\0\0\0\x0F\0\0\0\x04\0\0\0\x0FMSGC\x19\0\0\0\x01\0\0\0\x01\0\0\0\x10\0\0\0\x04\0\0\0\0MSGF\x1C\0\0\0\x01\0\0\0\x01\0\0\0\x11\0\0\0\x04\0\0\0moreMSGC\x19\0\0\0\x01\0\0\0\x01\0\0\0\x12\0\0\0\x05\0\0\0\x03MSGC\x19\0\0\0\x01\0\0\0\x01\0\0\0\x13\0\0\0\x05\0\0\0\0MSGC\x19\0\0\0\x01\0\0\0\x01\0\0\0\x14\0\0\0\x05\0\0\0\0MSGF\x19\0\0\0\x01\0\0\0\x01\0\0\0\x15\0\0\0\x05\0\0\0\x09";

const MANY_LINES: &str =
    "0 MSG C 25 channel=1 token=1 sequence=2 request=2 body=1\n25 MSG C 25 channel=1 token=1 sequence=3 request=2 body=1\n50 MSG C 25 channel=1 token=1 sequence=4 request=2 body=1\n75 MSG F 25 channel=1 token=1 sequence=5 request=2 body=1\n  message request=2 type=i=422 size=4\n100 MSG C 27 channel=1 token=1 sequence=6 request=3 body=3\n127 MSG C 26 channel=1 token=1 sequence=7 request=3 body=2\n153 MSG C 26 channel=1 token=1 sequence=8 request=3 body=2\n179 MSG C 25 channel=1 token=1 sequence=9 request=3 body=1\n204 MSG F 25 channel=1 token=1 sequence=10 request=3 body=1\n  message request=3 type=ns=10;s=\"Hi\" size=9\n229 MSG C 25 channel=1 token=1 sequence=11 request=4 body=1\n254 MSG C 25 channel=1 token=1 sequence=12 request=4 body=1\n279 MSG C 25 channel=1 token=1 sequence=13 request=4 body=1\n304 MSG C 26 channel=1 token=1 sequence=14 request=4 body=2\n330 MSG C 25 channel=1 token=1 sequence=15 request=4 body=1\n355 MSG C 25 channel=1 token=1 sequence=16 request=4 body=1\n380 MSG F 28 channel=1 token=1 sequence=17 request=4 body=4\n  message request=4 type=ns=7;i=1000000 size=11\n408 MSG C 25 channel=1 token=1 sequence=18 request=5 body=1\n433 MSG C 25 channel=1 token=1 sequence=19 request=5 body=1\n458 MSG C 25 channel=1 token=1 sequence=20 request=5 body=1\n483 MSG F 25 channel=1 token=1 sequence=21 request=5 body=1\n  message request=5 type=? size=4\n";

/// Messages whose encoding id is in a namespace above 9.
const SPACES: &[u8] =
    b"MSGF\x1C\0\0\0\x01\0\0\0\x01\0\0\0\x02\0\0\0\x02\0\0\0\x01\x0A*\0MSGF\x1C\0\0\0\x01\0\0\0\x01\0\0\0\x03\0\0\0\x03\0\0\0\x01\xFF*\0MSGF\x1F\0\0\0\x01\0\0\0\x01\0\0\0\x04\0\0\0\x04\0\0\0\x02\xFF\xFF\x07\0\0\0MSGF!\0\0\0\x01\0\0\0\x01\0\0\0\x05\0\0\0\x05\0\0\0\x03\x0C\0\x02\0\0\0HiMSGF!\0\0\0\x01\0\0\0\x01\0\0\0\x06\0\0\0\x06\0\0\0\x05,\x01\x02\0\0\0abMSGF+\0\0\0\x01\0\0\0\x01\0\0\0\x07\0\0\0\x07\0\0\0\x04c\0\x91+\x96ru\xFA\xE6J\x8D(\xB4\x04\xDC}\xAFc";

const SPACES_LINES: &str =
    "0 MSG F 28 channel=1 token=1 sequence=2 request=2 body=4\n  message request=2 type=ns=10;i=42 size=4\n28 MSG F 28 channel=1 token=1 sequence=3 request=3 body=4\n  message request=3 type=ns=255;i=42 size=4\n56 MSG F 31 channel=1 token=1 sequence=4 request=4 body=7\n  message request=4 type=ns=65535;i=7 size=7\n87 MSG F 33 channel=1 token=1 sequence=5 request=5 body=9\n  message request=5 type=ns=12;s=\"Hi\" size=9\n120 MSG F 33 channel=1 token=1 sequence=6 request=6 body=9\n  message request=6 type=ns=300;b=6162 size=9\n153 MSG F 43 channel=1 token=1 sequence=7 request=7 body=19\n  message request=7 type=ns=99;g=72962b91-fa75-4ae6-8d28-b404dc7daf63 size=19\n";

/// The header of a message of 1000 bytes.
const LONG: &[u8] = b"MSGF\0\x04\0\0\x01\0\0\0\x01\0\0\0\x02\0\0\0\x02\0\0\0";

/// Messages behind it.
const BEHIND: &[u8] =
    b"MSGF\x1C\0\0\0\x01\0\0\0\x01\0\0\0\x03\0\0\0\x03\0\0\0\x01\0\xA6\x01MSGC\x1A\0\0\0\x01\0\0\0\x01\0\0\0\x04\0\0\0\x04\0\0\0\x01\0MSGF\x1A\0\0\0\x01\0\0\0\x01\0\0\0\x05\0\0\0\x04\0\0\0\xA6\x01";

const BEHIND_LINES: &str =
    "0 MSG F 1024 channel=1 token=1 sequence=2 request=2 body=1000\n  message request=2 type=? size=1000\n1024 MSG F 28 channel=1 token=1 sequence=3 request=3 body=4\n  message request=3 type=i=422 size=4\n1052 MSG C 26 channel=1 token=1 sequence=4 request=4 body=2\n1078 MSG F 26 channel=1 token=1 sequence=5 request=4 body=2\n  message request=4 type=i=422 size=4\n";

/// Whether a capture is shown so.
fn is_shown<R: Files + Net + Clock + AllocGlobal>(rt: &R, bytes: &[u8], output: &str) -> bool {
    let mut input = bytes;
    ends_so(rt, &["show", "-"], &mut input, 0, output, "")
}

#[test]
fn shows_ids_that_the_first_part_has(rt: HostRuntime) {
    assert!(rt; is_shown(&rt, FIRST, FIRST_LINES));
}

#[test]
fn shows_parts_that_begin_with_no_id(rt: HostRuntime) {
    assert!(rt; is_shown(&rt, NONE, NONE_LINES));
}

#[test]
fn shows_parts_of_no_bytes(rt: HostRuntime) {
    assert!(rt; is_shown(&rt, EMPTY, EMPTY_LINES));
}

#[test]
fn shows_messages_of_many_parts(rt: HostRuntime) {
    assert!(rt; is_shown(&rt, MANY, MANY_LINES));
}

#[test]
fn shows_namespaces_above_9(rt: HostRuntime) {
    assert!(rt; is_shown(&rt, SPACES, SPACES_LINES));
}

/// A message of 1000 bytes, and those behind it.
fn far_messages(alloc: Global) -> Result<Vec<u8>, AllocError> {
    let mut bytes = Vec::new(alloc);
    bytes.extend_from_slice(LONG)?;
    bytes.extend_from_slice(&[b'z'; 1000])?;
    bytes.extend_from_slice(BEHIND)?;
    Ok(bytes)
}

fn shows_far_messages<R: Files + Net + Clock + AllocGlobal>(rt: &R) -> bool {
    match far_messages(rt.alloc()) {
        Ok(bytes) => is_shown(rt, bytes.as_slice(), BEHIND_LINES),
        Err(_) => false,
    }
}

#[test]
fn shows_messages_at_far_offsets(rt: HostRuntime) {
    assert!(rt; shows_far_messages(&rt));
}

/// Whether messages of many parts are shown, or memory runs out with nothing printed.
fn shows_parts_or_nothing(rt: &HostRuntime) -> bool {
    let mut input = MANY;
    let mut printed = Page::new(4096);
    let mut told = Page::new(4096);
    match run(rt, &["show", "-"], &mut input, &mut printed, &mut told) {
        0 => are_written(&printed, &told, MANY_LINES, ""),
        status => status == 4 && are_written(&printed, &told, "", "memory\n"),
    }
}

#[test]
fn shows_messages_of_many_parts_or_no_memory(rt: HostRuntime) {
    assert!(rt; shows_parts_or_nothing(&rt));
}
