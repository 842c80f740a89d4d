//! Runs whose growths may be refused.

use crate::answering::{ACKNOWLEDGED, HELLO};
use crate::reversing::GREETED_AND_ACKNOWLEDGED;
use std::net::Net;
use std::rt::{Clock, Files};
use ua_command::run::run;
use ua_test_runs::pages::{Page, are_written};

/// Whether a run of the words ends with its full answer, or for want of memory with nothing printed.
fn ends_so_or_no_memory<R: Files + Net + Clock + AllocGlobal>(
    rt: &R,
    words: &[&str],
    input: &str,
    status: u8,
    output: &str,
    errors: &str,
) -> bool {
    let mut input = input.as_bytes();
    let mut printed = Page::new(4096);
    let mut told = Page::new(4096);
    match run(rt, words, &mut input, &mut printed, &mut told) {
        4 => are_written(&printed, &told, "", "memory\n"),
        came => came == status && are_written(&printed, &told, output, errors),
    }
}

#[test]
fn answers_or_no_memory(rt: HostRuntime) {
    assert!(rt; ends_so_or_no_memory(&rt, &["answer", "default"], HELLO, 0, ACKNOWLEDGED, ""));
}

#[test]
fn answers_in_reverse_or_no_memory(rt: HostRuntime) {
    let words = ["answer", "default", "--reverse"];
    assert!(rt; ends_so_or_no_memory(&rt, &words, HELLO, 0, GREETED_AND_ACKNOWLEDGED, ""));
}

#[test]
fn stops_at_a_bad_line_or_no_memory(rt: HostRuntime) {
    assert!(rt; ends_so_or_no_memory(&rt, &["answer", "default"], "@7\n48\n4g", 1, "", "line 3\n"));
}

#[test]
fn prints_a_node_id_or_no_memory(rt: HostRuntime) {
    let output = "used 7 of 7\ncanon 03000000000000\ntext s=\"\"\n";
    assert!(rt;
        ends_so_or_no_memory(
            &rt,
            &["value", "NodeId", "03000000000000"],
            "",
            0,
            output,
            "",
        )
    );
}

#[test]
fn prints_a_guid_or_no_memory(rt: HostRuntime) {
    let output =
        "used 16 of 16\ncanon 912b967275fae64a8d28b404dc7daf63\ntext 72962b91-fa75-4ae6-8d28-b404dc7daf63\n";
    let words = ["value", "Guid", "912B967275FAE64A8D28B404DC7DAF63"];
    assert!(rt; ends_so_or_no_memory(&rt, &words, "", 0, output, ""));
}

#[test]
fn shows_a_value_or_no_memory(rt: HostRuntime) {
    let output = "used 4 of 4\ncanon 2a000000\nvalue 42\n";
    let words = ["value", "Int32", "2A000000", "--show"];
    assert!(rt; ends_so_or_no_memory(&rt, &words, "", 0, output, ""));
}

#[test]
fn prints_a_value_in_json_or_no_memory(rt: HostRuntime) {
    let output =
        "{\"Type\":\"Int32\",\"Used\":4,\"Size\":4,\"Canonical\":\"2a000000\",\"Value\":42}\n";
    let words = ["value", "Int32", "2A000000", "--json"];
    assert!(rt; ends_so_or_no_memory(&rt, &words, "", 0, output, ""));
}

#[test]
fn shows_frames_in_json_or_no_memory(rt: HostRuntime) {
    let output =
        "{\"Offset\":0,\"Refused\":{\"Code\":2155741184,\"Symbol\":\"BadTcpMessageTypeInvalid\"}}\n";
    assert!(rt; ends_so_or_no_memory(&rt, &["show", "-", "--json"], "HTTP/1.1 400", 1, output, ""));
}

#[test]
fn tells_an_absent_file_or_no_memory(rt: HostRuntime) {
    assert!(rt; ends_so_or_no_memory(&rt, &["answer", "absent.toml"], "", 3, "", "file\n"));
}

#[test]
fn refuses_words_or_no_memory(rt: HostRuntime) {
    assert!(rt; ends_so_or_no_memory(&rt, &["value", "Boolean", "0"], "", 2, "", "words\n"));
}

/// Whether the answer stands in memory, or nothing does, since memory ran out for it or for the run.
fn prints_into_memory(rt: &HostRuntime) -> bool {
    let mut input = HELLO.as_bytes();
    let mut printed = Vec::new(rt.alloc());
    let mut told = Page::new(4096);
    let words = ["answer", "default"];
    let status = run(rt, &words, &mut input, &mut printed, &mut told);
    let printed = printed.as_slice();
    match status {
        0 => printed == ACKNOWLEDGED.as_bytes(),
        3 => printed.is_empty() && told.text() == b"file\n".as_slice(),
        _ => status == 4 && printed.is_empty() && told.text() == b"memory\n".as_slice(),
    }
}

/// A writer over memory whose growth is refused is a failed write, with nothing written.
#[test]
fn prints_into_memory_or_no_memory(rt: HostRuntime) {
    assert!(rt; prints_into_memory(&rt));
}
