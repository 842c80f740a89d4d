//! Servers that open the connection: what `ask` makes of them over links of memory.

use crate::asking::{ENDPOINT, ERROR, PRESS, answer_over};
use std::alloc::Global;
use ua_command::Question;
use ua_link::MemoryLink;
use ua_test_runs::vectors::{
    ACKNOWLEDGE, CLOSE_REQUEST, ENDPOINTS_RESPONSE, FIND_REQUEST_WITHOUT_URL, FIND_RESPONSE,
    OPEN_RESPONSE, REVERSE_HELLO,
};

/// Whether the question to a server that opens the connection and says these pieces has this status, and what is printed
/// and told then.
fn asks(
    alloc: Global,
    question: Question,
    pieces: &[&[u8]],
    status: u8,
    output: &str,
    errors: &str,
) -> bool {
    let mut link = MemoryLink::new(alloc, pieces, 100);
    let (came, printed, told) = answer_over(alloc, &mut link, question, None, 4096);
    came == status && printed.text() == output.as_bytes() && told.text() == errors.as_bytes()
}

#[test]
fn a_server_that_opens_answers(rt: HostRuntime) {
    for (question, said, output) in [
        (Question::Find, FIND_RESPONSE, PRESS),
        (Question::Endpoints, ENDPOINTS_RESPONSE, ENDPOINT),
    ] {
        let pieces = [REVERSE_HELLO, ACKNOWLEDGE, OPEN_RESPONSE, said];
        assert!(rt; asks(rt.alloc(), question, &pieces, 0, output, ""));
    }
}

/// What comes of servers that do not open the connection as they should.
const OTHERWISE: [(&[&[u8]], &str); 8] = [
    (&[ACKNOWLEDGE, OPEN_RESPONSE], "broken 807E0000\n"),
    (&[REVERSE_HELLO, REVERSE_HELLO], "broken 807E0000\n"),
    (&[REVERSE_HELLO, OPEN_RESPONSE], "broken 807E0000\n"),
    (&[b"RHEF\x08\0\0\0"], "broken 80070000\n"),
    (&[b"RHEF\x01\x20\0\0"], "broken 80800000\n"),
    (&[b"RHEC\x08\0\0\0"], "broken 807E0000\n"),
    (&[b"GET / HTTP/1.1\r\n"], "broken 807E0000\n"),
    (&[ERROR], "server said 807E0000 null\n"),
];

#[test]
fn a_server_does_not_open_as_it_should(rt: HostRuntime) {
    for (pieces, output) in OTHERWISE {
        assert!(rt;
            asks(rt.alloc(), Question::Find, pieces, 1, output, ""),
            "{output}"
        );
    }
}

/// One that leaves before its first byte, within its ReverseHello, or behind it.
#[test]
fn a_server_leaves(rt: HostRuntime) {
    let alloc = rt.alloc();
    let cut = &REVERSE_HELLO[..44];
    assert!(rt; asks(alloc, Question::Find, &[], 3, "", "link\n"));
    assert!(rt; asks(alloc, Question::Find, &[cut], 3, "", "link\n"));
    assert!(rt; asks(alloc, Question::Find, &[REVERSE_HELLO], 3, "", "link\n"));
}

/// Whether a ReverseHello with a null URI and a url of 4096 bytes is refused.
fn refuses_long_url(alloc: Global) -> bool {
    let mut frame = [b'u'; 4112];
    frame[..16].copy_from_slice(b"RHEF\x10\x10\0\0\xFF\xFF\xFF\xFF\0\x10\0\0");
    let pieces = [frame.as_slice()];
    asks(alloc, Question::Find, &pieces, 1, "broken 80830000\n", "")
}

#[test]
fn a_server_names_a_url_that_is_too_long(rt: HostRuntime) {
    assert!(rt; refuses_long_url(rt.alloc()));
}

/// A Hello, an open request, a question without a url and a close request, or nothing where no ReverseHello comes.
fn says_all(alloc: Global, pieces: &[&[u8]]) -> bool {
    let mut link = MemoryLink::new(alloc, pieces, 100);
    let (status, _, _) = answer_over(alloc, &mut link, Question::Find, None, 4096);
    let sent = link.sent();
    if pieces.is_empty() {
        return status == 3 && sent.is_empty();
    }
    status == 0
        && sent.len() == 314
        && sent[188.min(sent.len())..].starts_with(FIND_REQUEST_WITHOUT_URL)
        && sent.ends_with(CLOSE_REQUEST)
}

#[test]
fn a_client_that_waits_says_nothing_first(rt: HostRuntime) {
    let pieces = [REVERSE_HELLO, ACKNOWLEDGE, OPEN_RESPONSE, FIND_RESPONSE];
    assert!(rt; says_all(rt.alloc(), &pieces));
    assert!(rt; says_all(rt.alloc(), &[]));
}

fn refuses_reverse_hello(alloc: Global) -> bool {
    let pieces = [REVERSE_HELLO];
    let mut link = MemoryLink::new(alloc, &pieces, 100);
    let url = Some("opc.tcp://localhost:4840");
    let (status, printed, told) = answer_over(alloc, &mut link, Question::Find, url, 4096);
    status == 1
        && printed.text() == b"broken 807E0000\n".as_slice()
        && told.text().is_empty()
        && link.sent().len() == 56
}

#[test]
fn a_client_that_calls_waits_for_no_server(rt: HostRuntime) {
    assert!(rt; refuses_reverse_hello(rt.alloc()));
}
