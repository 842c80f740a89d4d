//! The lines of frames and messages.

ghost use Rattle.std.specs.Prelude.{◌≡◌, ◌≤◌, ◌++◌, codes, drop, IfOk, OnOk, Some, string_bytes};
ghost use Rattle.std.specs.Option.{option_map};
ghost use Rattle.std.specs.Str.{IsUtf8};
ghost use Rattle.ua_chunk.specs.declared.content.Content.TheVariants.{Message as message, Close as close};
ghost use Rattle.ua_print.specs.FrameLine.{numbers_text, hello_text, acknowledge_text, error_text, reverse_hello_text, open_text, chunk_text, frame_line, type_in, type_text, message_text, message_line, bad_line, long_line, rest_line};

use crate::row::{ROOM, add_number, add_row, put_number, put_word};
use crate::text::{Code, Text, add_node};
use std::alloc::{AllocError, Global};
use std::fmt;
use ua_chunk::{Chunk, Content, OpenChunk};
use ua_frame::{Ack, ErrorFrame, Hello, ReverseHello};
use ua_value::{NoMemory, NodeId, ReadFault, Wire};

/// The numbers of a HEL or an ACK.
#[derive(Clone, Copy)]
struct Numbers {
    version: u32,
    receive: u32,
    send: u32,
    max_message: u32,
    max_chunks: u32,
}

impl fmt::Display for Numbers {
    ghost output = { λ n. Some (numbers_text n.version n.receive n.send n.max_message n.max_chunks) };

    fn fmt<W: fmt::Write>(&self, f: &mut fmt::Formatter<W>) -> fmt::Result {
        write!(
            f,
            "version={} receive={} send={} message={} chunks={}",
            self.version, self.receive, self.send, self.max_message, self.max_chunks,
        )
    }
}

/// What is said of a HEL.
#[derive(Clone, Copy)]
struct HelloLine<'a>(&'a Hello);

impl fmt::Display for HelloLine<'_> {
    ghost output = { λ line. Some (hello_text line.0.now) };

    fn fmt<W: fmt::Write>(&self, f: &mut fmt::Formatter<W>) -> fmt::Result {
        let hello = self.0;
        let numbers = Numbers {
            version: hello.version,
            receive: hello.receive,
            send: hello.send,
            max_message: hello.max_message,
            max_chunks: hello.max_chunks,
        };
        let url = Text(hello.url.get().map(str::as_bytes));
        write!(f, "{numbers} url={url}")
    }
}

/// What is said of an ACK.
#[derive(Clone, Copy)]
struct AcknowledgeLine<'a>(&'a Ack);

impl fmt::Display for AcknowledgeLine<'_> {
    ghost output = { λ line. Some (acknowledge_text line.0.now) };

    fn fmt<W: fmt::Write>(&self, f: &mut fmt::Formatter<W>) -> fmt::Result {
        let ack = self.0;
        let numbers = Numbers {
            version: ack.version,
            receive: ack.receive,
            send: ack.send,
            max_message: ack.max_message,
            max_chunks: ack.max_chunks,
        };
        write!(f, "{numbers}")
    }
}

/// What is said of an ERR.
#[derive(Clone, Copy)]
struct ErrorLine<'a>(&'a ErrorFrame);

impl fmt::Display for ErrorLine<'_> {
    ghost output = { λ line. Some (error_text line.0.now) };

    fn fmt<W: fmt::Write>(&self, f: &mut fmt::Formatter<W>) -> fmt::Result {
        let error = self.0;
        let reason = Text(error.reason.get().map(str::as_bytes));
        write!(f, "status={} reason={reason}", Code(error.status))
    }
}

/// What is said of an RHE.
#[derive(Clone, Copy)]
struct ReverseHelloLine<'a>(&'a ReverseHello);

impl fmt::Display for ReverseHelloLine<'_> {
    ghost output = { λ line. Some (reverse_hello_text line.0.now) };

    fn fmt<W: fmt::Write>(&self, f: &mut fmt::Formatter<W>) -> fmt::Result {
        let said = self.0;
        let server = Text(said.server_uri.get().map(str::as_bytes));
        let url = Text(said.endpoint_url.get().map(str::as_bytes));
        write!(f, "server={server} url={url}")
    }
}

/// What is said of an OPN.
#[derive(Clone, Copy)]
struct OpenLine<'a>(&'a OpenChunk<'a>);

impl fmt::Display for OpenLine<'_> {
    ghost output = { λ line. Some (open_text line.0.now) };

    fn fmt<W: fmt::Write>(&self, f: &mut fmt::Formatter<W>) -> fmt::Result {
        let chunk = self.0;
        write!(
            f,
            "channel={} policy={} sequence={} request={} body={}",
            chunk.channel(),
            Text(chunk.policy().map(str::as_bytes)),
            chunk.sequence(),
            chunk.request_id(),
            chunk.body().len(),
        )
    }
}

/// Puts what is said of a MSG or CLO at the end of a row, with a blank before it and the line's end behind it, and gives
/// where it begins.
fn put_chunk(chunk: &Chunk, row: &mut [u8; ROOM]) -> usize
    ensures low { 110 ≤ result }
    ensures high { result ≤ 256 }
    ensures written { drop result row.new ≡ codes " " ++ chunk_text chunk.now ++ codes "\n" }
    ensures utf8 { IsUtf8 (drop result row.new) }
{
    let at = put_word("\n", row, ROOM);
    let at = put_number(" body=", chunk.body().len() as u64, row, at);
    let at = put_number(" request=", u64::from(chunk.request_id()), row, at);
    let at = put_number(" sequence=", u64::from(chunk.sequence()), row, at);
    let at = put_number(" token=", u64::from(chunk.token()), row, at);
    put_number(" channel=", u64::from(chunk.channel()), row, at)
}

/// Appends the line of a MSG, which most frames are.
#[inline(always)]
#[tactic(auto, unfolding(crate::specs::FrameLine::frame_line))]
fn add_message_frame(
    text: &mut String,
    offset: usize,
    size: usize,
    chunk: &Chunk,
) -> Result<(), NoMemory>
    ensures { OnOk result (string_bytes text.new ≡ string_bytes text.old ++ frame_line offset size (message chunk.now)) }
{
    let mut row = [0u8; ROOM];
    let mut wide = [0u8; 4];
    let flag = char::from(chunk.flag()).encode_utf8(&mut wide);
    let at = put_chunk(chunk, &mut row);
    let at = put_number(" ", size as u64, &mut row, at);
    let at = put_word(flag, &mut row, at);
    let at = put_word(" MSG ", &mut row, at);
    let at = put_number("", offset as u64, &mut row, at);
    add_row(text, &row, at)
}

/// Appends the line of a CLO.
#[tactic(auto, unfolding(crate::specs::FrameLine::frame_line))]
fn add_close_frame(
    text: &mut String,
    offset: usize,
    size: usize,
    chunk: &Chunk,
) -> Result<(), NoMemory>
    ensures { OnOk result (string_bytes text.new ≡ string_bytes text.old ++ frame_line offset size (close chunk.now)) }
{
    let mut row = [0u8; ROOM];
    let at = put_chunk(chunk, &mut row);
    let at = put_number(" CLO ", size as u64, &mut row, at);
    let at = put_number("", offset as u64, &mut row, at);
    add_row(text, &row, at)
}

/// Appends the encoding id that a message begins with, or `?`.
fn add_type(text: &mut String, id: Option<&NodeId>) -> Result<(), NoMemory>
    ensures { OnOk result (string_bytes text.new ≡ string_bytes text.old ++ type_text (option_map (λ n. n.now) id.entry)) }
{
    match id {
        Some(id) => add_node(text, id),
        None => text.push_str("?"),
    }
}

/// Appends the line of a message of so many bytes.
#[tactic(auto, unfolding(crate::specs::FrameLine::message_text))]
pub fn add_message_text(
    text: &mut String,
    request_id: u32,
    id: Option<&NodeId>,
    size: usize,
) -> Result<(), NoMemory>
    ensures { OnOk result (string_bytes text.new ≡ string_bytes text.old ++ (message_text request_id (option_map (λ n. n.now) id.entry) size ++ codes "\n")) }
{
    add_number(text, "  message request=", u64::from(request_id), " type=")?;
    add_type(text, id)?;
    add_number(text, " size=", size as u64, "\n")
}

/// Appends the line of the frame of so many bytes that begins at the offset. After an error a beginning of it may
/// stand there.
#[inline(always)]
#[tactic(auto, unfolding(crate::specs::FrameLine::frame_line))]
pub fn add_frame(
    text: &mut String,
    offset: usize,
    size: usize,
    content: &Content,
) -> Result<(), NoMemory>
    ensures { OnOk result (string_bytes text.new ≡ string_bytes text.old ++ frame_line offset size content.now) }
{
    match content {
        Content::Hello(hello) => writeln!(text, "{offset} HEL {size} {}", HelloLine(hello)),
        Content::Acknowledge(ack) => writeln!(text, "{offset} ACK {size} {}", AcknowledgeLine(ack)),
        Content::Error(error) => writeln!(text, "{offset} ERR {size} {}", ErrorLine(error)),
        Content::ReverseHello(said) => {
            writeln!(text, "{offset} RHE {size} {}", ReverseHelloLine(said))
        }
        Content::Open(chunk) => writeln!(text, "{offset} OPN {size} {}", OpenLine(chunk)),
        Content::Message(chunk) => add_message_frame(text, offset, size, chunk),
        Content::Close(chunk) => add_close_frame(text, offset, size, chunk),
    }
}

/// The most bytes that a reader takes, which no machine holds.
const MOST_BYTES: usize = 1 << 60;

/// The encoding id that a message begins with, if any.
#[inline(always)]
#[tactic(auto, unfolding(crate::specs::FrameLine::type_in))]
pub fn type_of(alloc: Global, body: &[u8]) -> Result<Option<NodeId>, NoMemory>
    ensures { IfOk result (λ id. id ≡ type_in body.now) }
{
    if body.len() > MOST_BYTES {
        return Err(AllocError);
    }
    match NodeId::read_front(alloc, body) {
        Ok((id, _)) => Ok(Some(id)),
        Err(ReadFault::Refused) => Ok(None),
        Err(ReadFault::NoMemory) => Err(AllocError),
    }
}

/// Appends the line of a whole message under this request id. After an error a beginning of it may stand there.
#[inline(always)]
#[tactic(auto, unfolding(crate::specs::FrameLine::message_line))]
pub fn add_message(
    alloc: Global,
    text: &mut String,
    request_id: u32,
    body: &[u8],
) -> Result<(), NoMemory>
    ensures { OnOk result (string_bytes text.new ≡ string_bytes text.old ++ message_line request_id body.now) }
{
    let id = type_of(alloc, body)?;
    add_message_text(text, request_id, id.as_ref(), body.len())
}

/// Appends the line of a frame, or of what should be one, that is refused with this status. After an error a beginning
/// of it may stand there.
#[tactic(auto, unfolding(crate::specs::FrameLine::bad_line))]
pub fn add_bad(text: &mut String, offset: usize, status: u32) -> Result<(), NoMemory>
    ensures { OnOk result (string_bytes text.new ≡ string_bytes text.old ++ bad_line offset status) }
{
    writeln!(text, "{offset} bad {}", Code(status))
}

/// Appends the line of a frame with which a message is longer than what is taken of one. After an error a beginning of it
/// may stand there.
#[tactic(auto, unfolding(crate::specs::FrameLine::long_line))]
pub fn add_long(text: &mut String, offset: usize) -> Result<(), NoMemory>
    ensures { OnOk result (string_bytes text.new ≡ string_bytes text.old ++ long_line offset) }
{
    writeln!(text, "{offset} message-too-long")
}

/// Appends the line of bytes that are less than a frame. After an error a beginning of it may stand there.
#[tactic(auto, unfolding(crate::specs::FrameLine::rest_line))]
pub fn add_rest(text: &mut String, offset: usize, left: usize) -> Result<(), NoMemory>
    ensures { OnOk result (string_bytes text.new ≡ string_bytes text.old ++ rest_line offset left) }
{
    writeln!(text, "{offset} rest {left}")
}
