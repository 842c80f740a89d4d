//! Questions over links of memory, which say what a server says.

ghost use Rattle.std.specs.Prelude.{◌≡◌, ◌<◌, ◌≤◌, ◌-◌, ◌^◌, IfSome, length};

use std::alloc::Global;
use ua_command::{Question, Why, ask_over};
use ua_link::{Clock, Link, LinkFault, MemoryLink};
use ua_test_runs::pages::{Page, is_output};
use ua_test_runs::vectors::{
    ABORT_TOO_LARGE, ACKNOWLEDGE, BOTH_FOUND, CLOSE_REQUEST, ENDPOINTS_RESPONSE, FAULT_RESPONSE,
    FIND_REQUEST, FIND_RESPONSE, OPEN_RESPONSE, REVERSE_HELLO,
};

const URL: &str = "opc.tcp://localhost:4840";

pub(crate) const PRESS: &str =
    "application \"urn:a\" type=0 name=\"Press\"\n  url \"opc.tcp://localhost:4840\"\n";

const PRESS_AND_OVEN: &str =
    "application \"urn:a\" type=0 name=\"Press\"\n  url \"opc.tcp://localhost:4840\"\napplication \"urn:b\" type=0 name=\"Oven\"\n";

pub(crate) const ENDPOINT: &str =
    "endpoint \"opc.tcp://localhost:4840\" mode=1 policy=\"http://opcfoundation.org/UA/SecurityPolicy#None\" transport=\"http://opcfoundation.org/UA-Profile/Transport/uatcp-uasc-uabinary\" level=0\n";

/// The Acknowledge of a server that takes requests of one byte.
const SMALL_ACKNOWLEDGE: &[u8] =
    b"ACKF\x1C\0\0\0\0\0\0\0\xFF\xFF\0\0\xFF\xFF\0\0\x01\0\0\0\x40\0\0\0";

pub(crate) const ERROR: &[u8] = b"ERRF\x10\0\0\0\0\0\x7E\x80\xFF\xFF\xFF\xFF";

const ERROR_WITH_REASON: &[u8] = b"ERRF\x12\0\0\0\0\0\x7E\x80\x02\0\0\0no";

/// A clock that stands still.
#[derive(Clone, Copy)]
struct StillClock;

impl Clock for StillClock {
    fn now(&mut self) -> i64 {
        0
    }
}

/// The exit status of a question over a link to a server that is called by this url, or opens the connection, what is
/// printed, which finds so much room, and what is told.
pub(crate) fn answer_over<L: Link>(
    alloc: Global,
    link: &mut L,
    question: Question,
    url: Option<&str>,
    room: usize,
) -> (u8, Page, Page)
    requires url { IfSome url (λ url. length url.now ≤ 4095) }
    requires countable { L.fault_count link.old < 2 ^ 64 - 1 }
{
    let mut why = Why::Unknown;
    answer_and_why(alloc, link, question, url, room, &mut why)
}

/// The same, and what is known of why it came to nothing.
fn answer_and_why<L: Link>(
    alloc: Global,
    link: &mut L,
    question: Question,
    url: Option<&str>,
    room: usize,
    why: &mut Why,
) -> (u8, Page, Page)
    requires url { IfSome url (λ url. length url.now ≤ 4095) }
    requires countable { L.fault_count link.old < 2 ^ 64 - 1 }
{
    let mut printed = Page::new(room);
    let mut told = Page::new(4096);
    let status = ask_over(
        alloc,
        link,
        &mut StillClock,
        question,
        url,
        &mut printed,
        &mut told,
        why,
    );
    (status, printed, told)
}

/// Whether the question to a server that says these pieces has this status, and what is printed and told then.
fn asks(
    alloc: Global,
    question: Question,
    pieces: &[&[u8]],
    status: u8,
    output: &str,
    errors: &str,
) -> bool {
    let mut link = MemoryLink::new(alloc, pieces, 100);
    let (came, printed, told) = answer_over(alloc, &mut link, question, Some(URL), 4096);
    came == status && printed.text() == output.as_bytes() && told.text() == errors.as_bytes()
}

/// Whether an opened channel brings this.
fn opened(alloc: Global, question: Question, said: &[u8], status: u8, output: &str) -> bool {
    let pieces = [ACKNOWLEDGE, OPEN_RESPONSE, said];
    asks(alloc, question, &pieces, status, output, "")
}

#[test]
fn a_server_answers(rt: HostRuntime) {
    let alloc = rt.alloc();
    assert!(rt; opened(alloc, Question::Find, FIND_RESPONSE, 0, PRESS));
    assert!(rt; opened(alloc, Question::Find, BOTH_FOUND, 0, PRESS_AND_OVEN));
    assert!(rt; opened(alloc, Question::Endpoints, ENDPOINTS_RESPONSE, 0, ENDPOINT));
}

#[test]
fn something_comes_in_the_place_of_an_answer(rt: HostRuntime) {
    for (said, output) in [
        (FAULT_RESPONSE, "fault 800B0000\n"),
        (ABORT_TOO_LARGE, "aborted 80B90000\n"),
        (ERROR, "server said 807E0000 null\n"),
        (ERROR_WITH_REASON, "server said 807E0000 \"no\"\n"),
        (ENDPOINTS_RESPONSE, "broken 80090000\n"),
        (b"GET / HTTP/1.1\r\n".as_slice(), "broken 807E0000\n"),
    ] {
        assert!(rt;
            opened(rt.alloc(), Question::Find, said, 1, output),
            "{output}"
        );
    }
    assert!(rt;
        asks(
            rt.alloc(),
            Question::Find,
            &[ERROR],
            1,
            "server said 807E0000 null\n",
            ""
        )
    );
    assert!(rt;
        asks(
            rt.alloc(),
            Question::Find,
            &[b"GET / HTTP/1.1\r\n"],
            1,
            "broken 807E0000\n",
            ""
        )
    );
}

#[test]
fn a_link_ends_before_the_answer(rt: HostRuntime) {
    let alloc = rt.alloc();
    assert!(rt; asks(alloc, Question::Find, &[], 3, "", "link\n"));
    assert!(rt; asks(alloc, Question::Find, &[ACKNOWLEDGE], 3, "", "link\n"));
    assert!(rt;
        asks(
            alloc,
            Question::Endpoints,
            &[ACKNOWLEDGE, OPEN_RESPONSE],
            3,
            "",
            "link\n"
        )
    );
    let cut = [ACKNOWLEDGE, OPEN_RESPONSE, &FIND_RESPONSE[..133]];
    assert!(rt; asks(alloc, Question::Find, &cut, 3, "", "link\n"));
}

/// The request is longer than the server takes.
#[test]
fn a_question_is_not_asked(rt: HostRuntime) {
    let pieces = [SMALL_ACKNOWLEDGE, OPEN_RESPONSE, FIND_RESPONSE];
    assert!(rt; asks(rt.alloc(), Question::Find, &pieces, 1, "", "not asked 2\n"));
}

/// The request and the close request stand behind a Hello and an open request.
fn says_all(alloc: Global) -> bool {
    let pieces = [ACKNOWLEDGE, OPEN_RESPONSE, FIND_RESPONSE];
    let mut link = MemoryLink::new(alloc, &pieces, 100);
    let (status, _, _) = answer_over(alloc, &mut link, Question::Find, Some(URL), 4096);
    let sent = link.sent();
    status == 0
        && sent.len() == 338
        && sent[188.min(sent.len())..].starts_with(FIND_REQUEST)
        && sent.ends_with(CLOSE_REQUEST)
}

#[test]
fn a_question_is_asked_and_the_channel_closed(rt: HostRuntime) {
    assert!(rt; says_all(rt.alloc()));
}

/// A link that gives the beginning of an Acknowledge of 8192 bytes, a byte a read, or fails.
#[derive(Drop)]
struct SlowLink {
    given: usize,
    fails: bool,
    failures: u64,
}

const SLOW_HEADER: &[u8; 8] = b"ACKF\0\x20\0\0";

impl Link for SlowLink {
    ghost fault_count = { λ l. l.failures };

    fn recv(&mut self, buf: &mut [u8]) -> Result<usize, LinkFault> {
        if self.fails {
            self.failures += 1;
            return Err(LinkFault);
        }
        buf[0] = match SLOW_HEADER.get(self.given) {
            Some(byte) => *byte,
            None => 0,
        };
        self.given = self.given.saturating_add(1);
        Ok(1)
    }

    fn send(&mut self, bytes: &[u8]) -> Result<usize, LinkFault> {
        Ok(bytes.len())
    }

    fn failures(&self) -> u64 {
        self.failures
    }
}

/// Whether the question over such a link fails after so many bytes came.
fn gives_up(alloc: Global, fails: bool, given: usize) -> bool {
    let mut link = SlowLink {
        given: 0,
        fails,
        failures: 0,
    };
    let (status, printed, told) = answer_over(alloc, &mut link, Question::Find, Some(URL), 4096);
    status == 3
        && link.given == given
        && printed.text().is_empty()
        && told.text() == b"link\n".as_slice()
}

#[test]
fn an_answer_does_not_come(rt: HostRuntime) {
    assert!(rt; gives_up(rt.alloc(), true, 0));
    assert!(rt; gives_up(rt.alloc(), false, 4096));
}

/// Whether an answer that finds so much room fails.
fn is_unprinted(alloc: Global, room: usize) -> bool {
    let pieces = [ACKNOWLEDGE, OPEN_RESPONSE, FIND_RESPONSE];
    let mut link = MemoryLink::new(alloc, &pieces, 100);
    let mut why = Why::Unknown;
    let (status, printed, told) = answer_and_why(
        alloc,
        &mut link,
        Question::Find,
        Some(URL),
        room,
        &mut why,
    );
    status == 3
        && printed.text().len() == room
        && told.text() == b"file\n".as_slice()
        && is_output(&why)
}

#[test]
fn a_line_cannot_be_printed(rt: HostRuntime) {
    assert!(rt; is_unprinted(rt.alloc(), 0));
    assert!(rt; is_unprinted(rt.alloc(), 17));
}

/// The full answer of a server that says these pieces, or nothing printed: `memory`, or `link` where the link found no
/// room for what was sent.
fn answers_or_not(alloc: Global, url: Option<&str>, pieces: &[&[u8]]) -> bool
    requires { IfSome url (λ url. length url.now ≤ 4095) }
{
    let mut link = MemoryLink::new(alloc, pieces, 100);
    let (status, printed, told) = answer_over(alloc, &mut link, Question::Find, url, 4096);
    match status {
        0 => printed.text() == PRESS.as_bytes() && told.text().is_empty(),
        3 => printed.text().is_empty() && told.text() == b"link\n".as_slice(),
        4 => printed.text().is_empty() && told.text() == b"memory\n".as_slice(),
        _ => false,
    }
}

#[test]
fn a_server_answers_or_no_memory(rt: HostRuntime) {
    let pieces = [ACKNOWLEDGE, OPEN_RESPONSE, FIND_RESPONSE];
    assert!(rt; answers_or_not(rt.alloc(), Some(URL), &pieces));
}

#[test]
fn a_server_that_opens_answers_or_no_memory(rt: HostRuntime) {
    let pieces = [REVERSE_HELLO, ACKNOWLEDGE, OPEN_RESPONSE, FIND_RESPONSE];
    assert!(rt; answers_or_not(rt.alloc(), None, &pieces));
}
