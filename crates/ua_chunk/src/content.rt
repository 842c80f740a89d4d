//! What a frame carries.

ghost use Rattle.std.specs.Prelude.{◌≡◌, Ok, IfOk, IfErr};
ghost use Rattle.ua_chunk.specs.Content.{content_in, IsContentFault, of_unread};
ghost use Rattle.ua_chunk.specs.declared.content.ContentFault.TheVariants.{Refused as RefusedWith};

use crate::chunk::{Chunk, message_chunk};
use crate::opening::{OpenChunk, open_chunk};
use std::alloc::Global;
use ua_frame::status::BAD_DECODING_ERROR;
use ua_frame::{Ack, ErrorFrame, Frame, Hello, Kind, ReverseHello};
use ua_value::ReadFault;

/// What a frame carries, by its type. The bodies and the policy of an OPN are lent from the frame.
#[derive(Drop)]
pub enum Content<'a> {
    /// What a client says of itself. OPC 10000-6, 7.1.2.3.
    Hello(Hello),
    /// What the server agrees to. OPC 10000-6, 7.1.2.4.
    Acknowledge(Ack),
    /// Why an end gives up the connection. OPC 10000-6, 7.1.2.5.
    Error(ErrorFrame),
    /// How a server opens the conversation. OPC 10000-6, 7.1.2.6.
    ReverseHello(ReverseHello),
    /// An open request or its answer. OPC 10000-6, 6.7.2.3.
    Open(OpenChunk<'a>),
    /// A part of a message, or that it is given up. OPC 10000-6, 6.7.2.2 and 6.7.3.
    Message(Chunk<'a>),
    /// A close request. OPC 10000-6, 6.7.2.
    Close(Chunk<'a>),
}

/// Why a frame has no content.
#[derive(Clone, Copy, Debug, PartialEq, Eq)]
pub enum ContentFault {
    /// The status that refuses it.
    Refused(u32),
    /// A growth was refused.
    NoMemory,
}

impl From<u32> for ContentFault {
    ghost from_gives = { λ status e. e ≡ RefusedWith status };

    fn from(status: u32) -> ContentFault {
        ContentFault::Refused(status)
    }
}

/// Fields that spell nothing of the frame's type are refused.
impl From<ReadFault> for ContentFault {
    ghost from_gives = { λ fault e. e ≡ of_unread fault };

    fn from(fault: ReadFault) -> ContentFault {
        match fault {
            ReadFault::Refused => ContentFault::Refused(BAD_DECODING_ERROR),
            ReadFault::NoMemory => ContentFault::NoMemory,
        }
    }
}

/// What a frame carries: all of its fields, by the layout of its type. The texts of a HEL, an ERR and an RHE are copied;
/// the content of any other frame takes no memory, whatever its size. OPC 10000-6, 6.7.2 and 7.1.2.
///
/// # Errors
///
/// `Refused` with `BAD_DECODING_ERROR` where the fields have not the layout of the frame's type; `NoMemory` where the
/// room for a text is refused.
pub fn content_of<'a>(alloc: Global, frame: &Frame<'a>) -> Result<Content<'a>, ContentFault>
    ensures found { IfOk result (λ content. content_in frame.now ≡ Ok content) }
    ensures refused { IfErr result (IsContentFault frame.now) }
{
    match frame.kind() {
        Kind::Hello => Ok(Content::Hello(Hello::read(alloc, frame)?)),
        Kind::Acknowledge => Ok(Content::Acknowledge(Ack::read(frame)?)),
        Kind::Error => Ok(Content::Error(ErrorFrame::read(alloc, frame)?)),
        Kind::ReverseHello => Ok(Content::ReverseHello(ReverseHello::read(alloc, frame)?)),
        Kind::Open => Ok(Content::Open(open_chunk(frame)?)),
        Kind::Message => Ok(Content::Message(message_chunk(frame)?)),
        Kind::Close => Ok(Content::Close(message_chunk(frame)?)),
    }
}
