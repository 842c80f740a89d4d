//! Frames and messages of a capture.

ghost use Rattle.std.specs.Prelude.{◌≡◌, OnOk, OnErr, string_bytes};
ghost use Rattle.ua_json.specs.Lines.{AppendsLine};
ghost use Rattle.ua_json.specs.Nesting.{AddsMembers};

use crate::answer::put_error;
use crate::line::Line;
use crate::origin::{Origin, put_origin};
use std::alloc::Global;
use ua_chunk::{Chunk, Content, OpenChunk};
use ua_frame::{Ack, ErrorFrame, Hello, ReverseHello};
use ua_print::type_of_parts;
use ua_value::{NoMemory, NodeId, StatusCode};
use ua_walk::size_of;

/// The fields of a HEL (OPC 10000-6, 7.1.2.3).
fn put_hello(line: &mut Line, hello: &Hello) -> Result<(), NoMemory>
    ensures { OnOk result (AddsMembers line.old.json.tokens line.new.json.tokens) }
{
    line.field("ProtocolVersion", &hello.version)?;
    line.field("ReceiveBufferSize", &hello.receive)?;
    line.field("SendBufferSize", &hello.send)?;
    line.field("MaxMessageSize", &hello.max_message)?;
    line.field("MaxChunkCount", &hello.max_chunks)?;
    line.field("EndpointUrl", &hello.url)
}

/// The fields of an ACK (OPC 10000-6, 7.1.2.4).
fn put_acknowledge(line: &mut Line, ack: &Ack) -> Result<(), NoMemory>
    ensures { OnOk result (AddsMembers line.old.json.tokens line.new.json.tokens) }
{
    line.field("ProtocolVersion", &ack.version)?;
    line.field("ReceiveBufferSize", &ack.receive)?;
    line.field("SendBufferSize", &ack.send)?;
    line.field("MaxMessageSize", &ack.max_message)?;
    line.field("MaxChunkCount", &ack.max_chunks)
}

/// The fields of an ERR (OPC 10000-6, 7.1.2.5).
fn put_error_frame(line: &mut Line, error: &ErrorFrame) -> Result<(), NoMemory>
    ensures { OnOk result (AddsMembers line.old.json.tokens line.new.json.tokens) }
{
    put_error(line, error.status, &error.reason)
}

/// The fields of an RHE (OPC 10000-6, 7.1.2.6).
fn put_reverse_hello(line: &mut Line, said: &ReverseHello) -> Result<(), NoMemory>
    ensures { OnOk result (AddsMembers line.old.json.tokens line.new.json.tokens) }
{
    line.field("ServerUri", &said.server_uri)?;
    line.field("EndpointUrl", &said.endpoint_url)
}

/// The headers of an OPN, and the size of its body (OPC 10000-6, 6.7.2).
fn put_open(line: &mut Line, chunk: &OpenChunk) -> Result<(), NoMemory>
    ensures { OnOk result (AddsMembers line.old.json.tokens line.new.json.tokens) }
{
    line.field("SecureChannelId", &chunk.channel())?;
    line.field("SecurityPolicyUri", &chunk.policy())?;
    line.field("SequenceNumber", &chunk.sequence())?;
    line.field("RequestId", &chunk.request_id())?;
    line.count("BodySize", chunk.body().len())
}

/// The headers of a MSG or CLO, and the size of its body (OPC 10000-6, 6.7.2).
fn put_chunk(line: &mut Line, chunk: &Chunk) -> Result<(), NoMemory>
    ensures { OnOk result (AddsMembers line.old.json.tokens line.new.json.tokens) }
{
    line.key("IsFinal")?;
    line.shown(&char::from(chunk.flag()))?;
    line.field("SecureChannelId", &chunk.channel())?;
    line.field("TokenId", &chunk.token())?;
    line.field("SequenceNumber", &chunk.sequence())?;
    line.field("RequestId", &chunk.request_id())?;
    line.count("BodySize", chunk.body().len())
}

/// What a frame carries.
fn put_content(line: &mut Line, content: &Content) -> Result<(), NoMemory>
    ensures { OnOk result (AddsMembers line.old.json.tokens line.new.json.tokens) }
{
    match content {
        Content::Hello(hello) => put_hello(line, hello),
        Content::Acknowledge(ack) => put_acknowledge(line, ack),
        Content::Error(error) => put_error_frame(line, error),
        Content::ReverseHello(said) => put_reverse_hello(line, said),
        Content::Open(chunk) => put_open(line, chunk),
        Content::Message(chunk) => put_chunk(line, chunk),
        Content::Close(chunk) => put_chunk(line, chunk),
    }
}

/// The three letters of a frame's type (OPC 10000-6, 7.1.2.2 and 6.7.2.2).
fn type_name(content: &Content) -> &'static str {
    match content {
        Content::Hello(_) => "HEL",
        Content::Acknowledge(_) => "ACK",
        Content::Error(_) => "ERR",
        Content::ReverseHello(_) => "RHE",
        Content::Open(_) => "OPN",
        Content::Message(_) => "MSG",
        Content::Close(_) => "CLO",
    }
}

fn put_frame(
    line: &mut Line,
    origin: Option<Origin>,
    offset: usize,
    size: usize,
    content: &Content,
) -> Result<(), NoMemory>
    ensures { OnOk result (AddsMembers line.old.json.tokens line.new.json.tokens) }
{
    put_origin(line, origin)?;
    line.count("Offset", offset)?;
    line.key("MessageType")?;
    line.text(type_name(content))?;
    line.count("MessageSize", size)?;
    put_content(line, content)
}

/// Adds the line of a frame of so many bytes, in front of whose fields stands where it comes from, if that is said.
/// OPC 10000-6, 6.7.2 and 7.1.2.
///
/// # Errors
///
/// `NoMemory` where a growth was refused; the text is then as it was.
pub fn add_frame(
    alloc: Global,
    text: &mut String,
    origin: Option<Origin>,
    offset: usize,
    size: usize,
    content: &Content,
) -> Result<(), NoMemory>
    ensures line { OnOk result (AppendsLine (string_bytes text.old) (string_bytes text.new)) }
    ensures refused { OnErr result (string_bytes text.new ≡ string_bytes text.old) }
{
    let mut line = Line::new(alloc)?;
    let put = put_frame(&mut line, origin, offset, size, content);
    line.add_to(text, put)
}

fn put_message(
    line: &mut Line,
    origin: Option<Origin>,
    request_id: u32,
    id: Option<&NodeId>,
    size: usize,
) -> Result<(), NoMemory>
    ensures { OnOk result (AddsMembers line.old.json.tokens line.new.json.tokens) }
{
    put_origin(line, origin)?;
    line.field("RequestId", &request_id)?;
    line.key("TypeId")?;
    match id {
        Some(id) => line.node(id)?,
        None => line.null()?,
    }
    line.count("BodySize", size)
}

/// Adds the line of a whole message in parts under this request id: the id of its encoding, if it begins with one, and
/// its size; in front of them where it comes from, if that is said. OPC 10000-6, 6.7.2.
///
/// # Errors
///
/// `NoMemory` where a growth was refused; the text is then as it was.
pub fn add_message(
    alloc: Global,
    text: &mut String,
    origin: Option<Origin>,
    request_id: u32,
    parts: &[&[u8]],
) -> Result<(), NoMemory>
    ensures line { OnOk result (AppendsLine (string_bytes text.old) (string_bytes text.new)) }
    ensures refused { OnErr result (string_bytes text.new ≡ string_bytes text.old) }
{
    let size = size_of(parts)?;
    let id = type_of_parts(alloc, parts, size)?;
    let mut line = Line::new(alloc)?;
    let put = put_message(&mut line, origin, request_id, id.as_ref(), size);
    line.add_to(text, put)
}

fn put_bad(
    line: &mut Line,
    origin: Option<Origin>,
    offset: usize,
    status: u32,
) -> Result<(), NoMemory>
    ensures { OnOk result (AddsMembers line.old.json.tokens line.new.json.tokens) }
{
    put_origin(line, origin)?;
    line.count("Offset", offset)?;
    line.field("Refused", &StatusCode(status))
}

/// Adds the line of a frame, or of what should be one, that is refused with this status; in front where it comes from, if
/// that is said. OPC 10000-6, 7.1.5.
///
/// # Errors
///
/// `NoMemory` where a growth was refused; the text is then as it was.
pub fn add_bad(
    alloc: Global,
    text: &mut String,
    origin: Option<Origin>,
    offset: usize,
    status: u32,
) -> Result<(), NoMemory>
    ensures line { OnOk result (AppendsLine (string_bytes text.old) (string_bytes text.new)) }
    ensures refused { OnErr result (string_bytes text.new ≡ string_bytes text.old) }
{
    let mut line = Line::new(alloc)?;
    let put = put_bad(&mut line, origin, offset, status);
    line.add_to(text, put)
}

fn put_rest(
    line: &mut Line,
    origin: Option<Origin>,
    offset: usize,
    left: usize,
) -> Result<(), NoMemory>
    ensures { OnOk result (AddsMembers line.old.json.tokens line.new.json.tokens) }
{
    put_origin(line, origin)?;
    line.count("Offset", offset)?;
    line.count("Rest", left)
}

/// Adds the line of bytes that are less than a frame; in front where they come from, if that is said.
///
/// # Errors
///
/// `NoMemory` where a growth was refused; the text is then as it was.
pub fn add_rest(
    alloc: Global,
    text: &mut String,
    origin: Option<Origin>,
    offset: usize,
    left: usize,
) -> Result<(), NoMemory>
    ensures line { OnOk result (AppendsLine (string_bytes text.old) (string_bytes text.new)) }
    ensures refused { OnErr result (string_bytes text.new ≡ string_bytes text.old) }
{
    let mut line = Line::new(alloc)?;
    let put = put_rest(&mut line, origin, offset, left);
    line.add_to(text, put)
}
