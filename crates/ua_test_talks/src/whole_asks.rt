//! What `ask` says from its Hello to the close, byte for byte.

ghost use Rattle.std.specs.Prelude.{◌≤◌, IfSome, length};

use std::alloc::Global;
use ua_command::{Question, Why, ask_over};
use ua_link::{Clock, MemoryLink};
use ua_test_runs::pages::Page;
use ua_test_runs::vectors::{
    ACKNOWLEDGE, CLOSE_REQUEST, ENDPOINTS_RESPONSE, FIND_REQUEST, FIND_REQUEST_WITHOUT_URL,
    FIND_RESPONSE, OPEN_RESPONSE, REVERSE_HELLO,
};

const URL: &str = "opc.tcp://localhost:4840";

/// A Hello with buffers of 65535 bytes, messages of 1048576 bytes, 64 chunks, and the url.
const HELLO: &[u8] =
    b"HELF\x38\0\0\0\0\0\0\0\xFF\xFF\0\0\xFF\xFF\0\0\0\0\x10\0\x40\0\0\0\x18\0\0\0opc.tcp://localhost:4840";

/// An open request without security, under number 1 and request id 1, up to its moment.
const OPENING: &[u8] =
    b"OPNF\x84\0\0\0\0\0\0\0\x2F\0\0\0http://opcfoundation.org/UA/SecurityPolicy#None\xFF\xFF\xFF\xFF\xFF\xFF\xFF\xFF\x01\0\0\0\x01\0\0\0\x01\0\xBE\x01\0\0";

/// What stands behind the moment: handle 1, the rest of its header, version 0, a token to be issued, no security, no
/// nonce, and a lifetime of 3600000 milliseconds.
const LASTING_AN_HOUR: &[u8] =
    b"\x01\0\0\0\0\0\0\0\xFF\xFF\xFF\xFF\0\0\0\0\0\0\0\0\0\0\0\0\0\0\0\x01\0\0\0\xFF\xFF\xFF\xFF\x80\xEE\x36\0";

/// A clock that stands still.
#[derive(Clone, Copy)]
struct StoppedClock {
    moment: i64,
}

impl Clock for StoppedClock {
    fn now(&mut self) -> i64 {
        self.moment
    }
}

/// What stands behind a Hello, an open request, this request with this type and a close request, each but the first of
/// this moment.
fn behind_calls<'a>(sent: &'a [u8], moment: i64, of_type: u8, request: &[u8]) -> Option<&'a [u8]> {
    let moment = moment.to_le_bytes();
    sent.strip_prefix(HELLO)?
        .strip_prefix(OPENING)?
        .strip_prefix(moment.as_slice())?
        .strip_prefix(LASTING_AN_HOUR)?
        .strip_prefix(request.get(..26)?)?
        .strip_prefix([of_type].as_slice())?
        .strip_prefix(request.get(27..30)?)?
        .strip_prefix(moment.as_slice())?
        .strip_prefix(request.get(38..)?)?
        .strip_prefix(&CLOSE_REQUEST[..30])?
        .strip_prefix(moment.as_slice())?
        .strip_prefix(&CLOSE_REQUEST[38..])
}

/// Whether these are such calls, and nothing else.
fn are_calls(sent: &[u8], moment: i64, of_type: u8, request: &[u8]) -> bool {
    match behind_calls(sent, moment, of_type, request) {
        Some(rest) => rest.is_empty(),
        None => false,
    }
}

/// Whether the question by a clock that stands at this moment is asked by this request with this type, of a server that
/// says these pieces and is called by this url, or opens the connection.
fn says_so(
    alloc: Global,
    question: Question,
    moment: i64,
    of_type: u8,
    url: Option<&str>,
    pieces: &[&[u8]],
    request: &[u8],
) -> bool
    requires { IfSome url (λ url. length url.now ≤ 4095) }
{
    let mut link = MemoryLink::new(alloc, pieces, 100);
    let mut clock = StoppedClock { moment };
    let (mut printed, mut told) = (Page::new(4096), Page::new(4096));
    let status = ask_over(
        alloc,
        &mut link,
        &mut clock,
        question,
        url,
        &mut printed,
        &mut told,
        &mut Why::Unknown,
    );
    status == 0 && are_calls(link.sent(), moment, of_type, request)
}

/// Whether it is asked so of a server that answers this, once it is called by the url and once it opens the connection
/// itself: the Hello is the same then, and the request names no url.
fn says_all(alloc: Global, question: Question, moment: i64, of_type: u8, said: &[u8]) -> bool {
    let called = [ACKNOWLEDGE, OPEN_RESPONSE, said];
    let opens = [REVERSE_HELLO, ACKNOWLEDGE, OPEN_RESPONSE, said];
    says_so(
        alloc,
        question,
        moment,
        of_type,
        Some(URL),
        &called,
        FIND_REQUEST,
    ) && says_so(
        alloc,
        question,
        moment,
        of_type,
        None,
        &opens,
        FIND_REQUEST_WITHOUT_URL,
    )
}

/// A moment of November 2025, of eight bytes that differ.
const LATER: i64 = 0x01DC_5FA3_B847_2E91;

#[test]
fn all_that_is_said_is_that_of_the_standard(rt: HostRuntime) {
    let alloc = rt.alloc();
    assert!(rt; says_all(alloc, Question::Find, 0, 0xA6, FIND_RESPONSE));
    assert!(rt; says_all(alloc, Question::Find, LATER, 0xA6, FIND_RESPONSE));
    assert!(rt; says_all(alloc, Question::Endpoints, LATER, 0xAC, ENDPOINTS_RESPONSE));
}
