//! Frames of the connection protocol: headers, Hello, Acknowledge, Error and ReverseHello, and what is agreed.

ghost use Rattle.std.specs.Prelude.{◌≡◌};
ghost use Rattle.ua_frame.specs.Hello.{text_bytes};

use std::alloc::{AllocError, Global};
use ua_frame::status::{
    BAD_DECODING_ERROR, BAD_TCP_ENDPOINT_URL_INVALID, BAD_TCP_MESSAGE_TOO_LARGE,
    BAD_TCP_MESSAGE_TYPE_INVALID, BAD_TCP_NOT_ENOUGH_RESOURCES,
};
use ua_frame::{Ack, ErrorFrame, Frame, Hello, Kind, Limits, ReverseHello, frame_at, negotiate};
use ua_test_shared::vectors::{ACKNOWLEDGE, HELLO};
use ua_value::{ReadFault, UaString, ValueFault};

pub(crate) const ERROR: &[u8] = b"ERRF\x10\0\0\0\0\0\x7E\x80\xFF\xFF\xFF\xFF";

/// The same with another status and a reason.
pub(crate) const TOLD: &[u8] = b"ERRF\x12\0\0\0\0\0\x07\x80\x02\0\0\0no";

/// The first frame of a server that opened the connection, by the settings `default`.
pub(crate) const REVERSE_HELLO: &[u8] =
    b"RHEF\x2D\0\0\0\x05\0\0\0urn:a\x18\0\0\0opc.tcp://localhost:4840";

const LIMITS: Limits = Limits {
    receive: 65535,
    send: 65535,
    max_message: 1_048_576,
    max_chunks: 64,
};

pub(crate) const AGREED: Ack = Ack {
    version: 0,
    receive: 65535,
    send: 65535,
    max_message: 1_048_576,
    max_chunks: 64,
};

/// The whole frame that the bytes begin with, if there is one.
pub(crate) fn whole(bytes: &[u8]) -> Option<Frame<'_>> {
    match frame_at(bytes, 8192) {
        Ok(frame) => frame,
        Err(_) => None,
    }
}

/// The Hello of the bytes; without a whole frame none is read.
pub(crate) fn hello_of(alloc: Global, bytes: &[u8]) -> Result<Hello, ReadFault> {
    match whole(bytes) {
        Some(frame) => Hello::read(alloc, &frame),
        None => Err(ReadFault::NoMemory),
    }
}

fn acknowledge_of(bytes: &[u8]) -> Result<Ack, ReadFault> {
    match whole(bytes) {
        Some(frame) => Ack::read(&frame),
        None => Err(ReadFault::NoMemory),
    }
}

pub(crate) fn error_of(alloc: Global, bytes: &[u8]) -> Result<ErrorFrame, ReadFault> {
    match whole(bytes) {
        Some(frame) => ErrorFrame::read(alloc, &frame),
        None => Err(ReadFault::NoMemory),
    }
}

pub(crate) fn reverse_hello_of(alloc: Global, bytes: &[u8]) -> Result<ReverseHello, ReadFault> {
    match whole(bytes) {
        Some(frame) => ReverseHello::read(alloc, &frame),
        None => Err(ReadFault::NoMemory),
    }
}

/// A frame that is written behind other bytes.
pub(crate) trait Written {
    fn put(&self, out: &mut Vec<u8>) -> Result<(), AllocError>;
}

impl Written for Hello {
    fn put(&self, out: &mut Vec<u8>) -> Result<(), AllocError> {
        self.write(out)
    }
}

impl Written for Ack {
    fn put(&self, out: &mut Vec<u8>) -> Result<(), AllocError> {
        self.write(out)
    }
}

impl Written for ErrorFrame {
    fn put(&self, out: &mut Vec<u8>) -> Result<(), AllocError> {
        self.write(out)
    }
}

/// The bytes of a text, of which a null one has none.
fn text_len(text: &UaString) -> usize
    ensures { result ≡ text_bytes text.now }
{
    match text.get() {
        None => 0,
        Some(text) => text.len(),
    }
}

/// The texts of these tests are short.
impl Written for ReverseHello {
    fn put(&self, out: &mut Vec<u8>) -> Result<(), AllocError> {
        if text_len(&self.server_uri) > 4096 || text_len(&self.endpoint_url) > 4096 {
            return Err(AllocError);
        }
        self.write(out)
    }
}

fn is_written<W: Written>(alloc: Global, frame: &W, bytes: &[u8]) -> bool {
    let mut out = Vec::new(alloc);
    frame.put(&mut out).is_ok() && out.as_slice() == bytes
}

fn is_hello_frame() -> bool {
    match whole(HELLO) {
        Some(frame) => {
            frame.kind() == Kind::Hello && frame.flag() == b'F' && frame.fields().len() == 48
        }
        None => false,
    }
}

/// Whether it is the Hello with buffers of 65535 bytes and no limits.
fn is_hello(hello: &Hello) -> bool {
    hello.version == 0
        && hello.receive == 65535
        && hello.send == 65535
        && hello.max_message == 0
        && hello.max_chunks == 0
        && hello.url.get() == Some("opc.tcp://localhost:4840")
}

fn is_acknowledged(alloc: Global, hello: &Hello) -> bool {
    match negotiate(hello, &LIMITS) {
        Ok(acknowledge) => is_written(alloc, &acknowledge, ACKNOWLEDGE),
        Err(_) => false,
    }
}

fn is_read_and_acknowledged(alloc: Global) -> bool {
    match hello_of(alloc, HELLO) {
        Ok(hello) => {
            is_hello(&hello) && is_written(alloc, &hello, HELLO) && is_acknowledged(alloc, &hello)
        }
        Err(_) => false,
    }
}

#[test]
fn hello_is_read_and_acknowledged(rt: HostRuntime) {
    assert!(rt; is_hello_frame());
    assert!(rt; is_read_and_acknowledged(rt.alloc()));
}

fn tells(error: &ErrorFrame, status: u32, reason: Option<&str>) -> bool {
    error.status == status && error.reason.get() == reason
}

/// Whether the error with this status and reason is read of the bytes, and written as they are.
fn is_error(alloc: Global, bytes: &[u8], status: u32, reason: Option<&str>) -> bool {
    match error_of(alloc, bytes) {
        Ok(error) => tells(&error, status, reason) && is_written(alloc, &error, bytes),
        Err(_) => false,
    }
}

/// Whether an error that is made of a status and a reason is written so.
fn is_told(alloc: Global) -> bool {
    let Ok(reason) = UaString::new(alloc, "no") else {
        return false;
    };
    let told = ErrorFrame {
        status: BAD_DECODING_ERROR,
        reason,
    };
    is_written(alloc, &told, TOLD)
}

#[test]
fn acknowledge_and_error_are_read(rt: HostRuntime) {
    let alloc = rt.alloc();
    assert!(rt; acknowledge_of(ACKNOWLEDGE) == Ok(AGREED));
    assert!(rt; is_error(alloc, ERROR, BAD_TCP_MESSAGE_TYPE_INVALID, None));
    assert!(rt; is_error(alloc, TOLD, BAD_DECODING_ERROR, Some("no")));
    assert!(rt; is_told(alloc));
}

/// Whether a ReverseHello with these texts is read of the bytes, and written as they are.
fn is_reverse_hello(alloc: Global, bytes: &[u8], uri: Option<&str>, url: Option<&str>) -> bool {
    match reverse_hello_of(alloc, bytes) {
        Ok(said) => {
            said.server_uri.get() == uri
                && said.endpoint_url.get() == url
                && is_written(alloc, &said, bytes)
        }
        Err(_) => false,
    }
}

/// Whether the bytes are a whole frame that is no ReverseHello.
fn is_no_reverse_hello(alloc: Global, bytes: &[u8]) -> bool {
    matches!(reverse_hello_of(alloc, bytes), Err(ReadFault::Refused))
}

#[test]
fn reverse_hellos_are_read(rt: HostRuntime) {
    let alloc = rt.alloc();
    let url = "opc.tcp://localhost:4840";
    assert!(rt; is_reverse_hello(alloc, REVERSE_HELLO, Some("urn:a"), Some(url)));
    assert!(rt;
        is_reverse_hello(
            alloc,
            b"RHEF\x10\0\0\0\xFF\xFF\xFF\xFF\xFF\xFF\xFF\xFF",
            None,
            None
        )
    );
    assert!(rt;
        is_reverse_hello(
            alloc,
            b"RHEF\x10\0\0\0\0\0\0\0\xFF\xFF\xFF\xFF",
            Some(""),
            None
        )
    );
    assert!(rt;
        is_reverse_hello(
            alloc,
            b"RHEF\x11\0\0\0\xFF\xFF\xFF\xFF\x01\0\0\0b",
            None,
            Some("b")
        )
    );
}

#[test]
fn what_is_no_reverse_hello_is_refused(rt: HostRuntime) {
    let alloc = rt.alloc();
    for bytes in [
        HELLO,
        b"RHEF\x08\0\0\0",
        b"RHEF\x0C\0\0\0\xFF\xFF\xFF\xFF",
        b"RHEF\x0F\0\0\0\xFF\xFF\xFF\xFF\xFF\xFF\xFF",
        b"RHEF\x10\0\0\0\xFF\xFF\xFF\xFF\xFE\xFF\xFF\xFF",
        b"RHEF\x11\0\0\0\x01\0\0\0\xFF\xFF\xFF\xFF\xFF",
        b"RHEF\x11\0\0\0\xFF\xFF\xFF\xFF\xFF\xFF\xFF\xFF\0",
    ] {
        assert!(rt; is_no_reverse_hello(alloc, bytes));
    }
}

/// Bytes, the greatest size of a frame, and why the header is refused, if it is.
const HEADERS: [(&[u8], u32, Option<u32>); 17] = [
    // An HTTP request: the type goes before the size.
    (b"GET / HT", 8192, Some(BAD_TCP_MESSAGE_TYPE_INVALID)),
    (b"GET / H", 8192, None),
    (b"helF\x08\0\0\0", 8192, Some(BAD_TCP_MESSAGE_TYPE_INVALID)),
    // The flag goes before the size.
    (b"HELC\0\0\0\0", 8192, Some(BAD_TCP_MESSAGE_TYPE_INVALID)),
    (b"OPNA\x09\0\0\0", 8192, Some(BAD_TCP_MESSAGE_TYPE_INVALID)),
    (b"MSGX\0\0\0\0", 8192, Some(BAD_TCP_MESSAGE_TYPE_INVALID)),
    (b"MSGC\x09\0\0\0", 8192, None),
    (b"MSGF\x09\0\0\0", 8192, None),
    (b"MSGA\x09\0\0\0", 8192, None),
    (b"RHEF\x09\0\0\0", 8192, None),
    (b"CLOF\x09\0\0\0", 8192, None),
    // A size under a header goes before one over the limit.
    (b"HELF\x07\0\0\0", 5, Some(BAD_DECODING_ERROR)),
    (b"HELF\0\0\0\0", 8192, Some(BAD_DECODING_ERROR)),
    (b"HELF\x08\0\0\0", 8, None),
    (b"HELF\x01\x20\0\0", 8192, Some(BAD_TCP_MESSAGE_TOO_LARGE)),
    (b"HELF\0\x20\0\0", 8192, None),
    (
        b"HELF\xFF\xFF\xFF\xFF",
        65535,
        Some(BAD_TCP_MESSAGE_TOO_LARGE),
    ),
];

fn is_refused_with(bytes: &[u8], limit: u32, status: Option<u32>) -> bool {
    match frame_at(bytes, limit) {
        Ok(_) => status.is_none(),
        Err(found) => status == Some(found),
    }
}

#[test]
fn headers_are_refused_row_by_row(rt: HostRuntime) {
    for (bytes, limit, status) in &HEADERS {
        assert!(rt; is_refused_with(bytes, *limit, *status), "{bytes:?}");
    }
}

#[test]
fn a_cut_frame_is_none_yet(rt: HostRuntime) {
    for n in 0..HELLO.len() {
        assert!(rt; matches!(frame_at(&HELLO[..n], 8192), Ok(None)), "{n}");
    }
}

/// A Hello of so many bytes in all, with the fields of another one.
fn cut_hello(alloc: Global, len: u8) -> Result<Vec<u8>, AllocError> {
    let mut bytes = [b'H', b'E', b'L', b'F', len, 0, 0, 0].to_vec(alloc)?;
    for at in 8..len as usize {
        bytes.push(HELLO.get(at).copied().unwrap_or(0))?;
    }
    Ok(bytes)
}

fn cut_hello_is_refused(alloc: Global, len: u8) -> bool {
    match cut_hello(alloc, len) {
        Ok(bytes) => is_refused(hello_of(alloc, bytes.as_slice())),
        Err(_) => false,
    }
}

/// An Acknowledge with one byte left over.
const LONGER: &[u8] = b"ACKF\x1D\0\0\0\0\0\0\0\xFF\xFF\0\0\xFF\xFF\0\0\0\0\x10\0\x40\0\0\0\0";

#[test]
fn fields_of_another_length_are_refused(rt: HostRuntime) {
    let alloc = rt.alloc();
    for len in 8..56u8 {
        assert!(rt; cut_hello_is_refused(alloc, len), "{len}");
    }
    assert!(rt; acknowledge_of(LONGER) == Err(ReadFault::Refused));
}

fn is_refused<T: Drop>(read: Result<T, ReadFault>) -> bool {
    match read {
        Ok(_) => false,
        Err(fault) => fault == ReadFault::Refused,
    }
}

fn is_read<T: Drop>(read: Result<T, ReadFault>) -> bool {
    read.is_ok()
}

/// The error frame with another type.
const OTHER_TYPE: &[u8] = b"ACKF\x10\0\0\0\0\0\x7E\x80\xFF\xFF\xFF\xFF";

#[test]
fn frames_of_another_type_are_refused(rt: HostRuntime) {
    let alloc = rt.alloc();
    assert!(rt; is_refused(error_of(alloc, OTHER_TYPE)));
    assert!(rt; is_read(error_of(alloc, ERROR)));
    assert!(rt; is_refused(acknowledge_of(HELLO)));
    assert!(rt; is_refused(hello_of(alloc, ACKNOWLEDGE)));
}

/// A url of so many bytes.
fn url_of(alloc: Global, len: usize) -> Result<UaString, ValueFault> {
    let mut text = String::new(alloc);
    for _ in 0..len {
        text.push('a')?;
    }
    UaString::new(alloc, &text)
}

fn hello_to(receive: u32, send: u32, url: UaString) -> Hello {
    Hello {
        version: 7,
        receive,
        send,
        max_message: 1,
        max_chunks: 2,
        url,
    }
}

/// What is agreed about the buffers, or why nothing is.
type Agreed = Result<(u32, u32), u32>;

/// Whether a Hello with these buffers and this url is answered so.
fn is_answered(receive: u32, send: u32, url: UaString, agreed: Agreed) -> bool {
    let want = match agreed {
        Ok((receive, send)) => Ok(Ack {
            receive,
            send,
            ..AGREED
        }),
        Err(status) => Err(status),
    };
    negotiate(&hello_to(receive, send, url), &LIMITS) == want
}

/// The client's buffers, the length of its url, and what is agreed.
type Row = (u32, u32, usize, Agreed);

fn is_negotiated(alloc: Global, row: &Row) -> bool {
    let (receive, send, len, agreed) = *row;
    match url_of(alloc, len) {
        Ok(url) => is_answered(receive, send, url, agreed),
        Err(_) => false,
    }
}

const HELLOS: [Row; 9] = [
    (65535, 65535, 24, Ok((65535, 65535))),
    (8191, 65535, 24, Err(BAD_TCP_NOT_ENOUGH_RESOURCES)),
    (65535, 8191, 24, Err(BAD_TCP_NOT_ENOUGH_RESOURCES)),
    // What the client takes bounds what the server sends, and the other way round.
    (8192, 65535, 24, Ok((65535, 8192))),
    (65535, 8192, 24, Ok((8192, 65535))),
    (100_000, 70_000, 24, Ok((65535, 65535))),
    (65535, 65535, 4095, Ok((65535, 65535))),
    (65535, 65535, 4096, Err(BAD_TCP_ENDPOINT_URL_INVALID)),
    // The url goes before the buffers.
    (8191, 65535, 4096, Err(BAD_TCP_ENDPOINT_URL_INVALID)),
];

#[test]
fn hellos_are_negotiated_row_by_row(rt: HostRuntime) {
    for row in &HELLOS {
        assert!(rt; is_negotiated(rt.alloc(), row), "{row:?}");
    }
    assert!(rt; is_answered(65535, 65535, UaString::null(), Ok((65535, 65535))));
}
