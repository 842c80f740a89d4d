//! How a server opens the conversation.

ghost use Rattle.std.specs.Prelude.{◌≡◌, ◌+◌, ◌≤◌, ◌++◌, length, is_ok, if◌then◌else◌};
ghost use Rattle.ua_value.specs.Format.{Gives, input_limit};
ghost use Rattle.ua_value.specs.Whole.{ReadsAll};
ghost use Rattle.ua_frame.specs.Hello.{reverse_hello_layout, reverse_hello_of, reverse_hello_frame, text_bytes};

use crate::frame::Frame;
use crate::kind::Kind;
use crate::writing::write_frame;
use std::alloc::Global;
use ua_value::plumbing::read_whole;
use ua_value::{NoMemory, ReadFault, UaString, Wire};

/// The first frame of a server that opened the connection, `RHE`: it asks the client for a Hello. OPC 10000-6, 7.1.2.6.
#[derive(Debug, Drop)]
pub struct ReverseHello {
    /// The URI of the server's application.
    pub server_uri: UaString,
    /// The url of the endpoint that the client is to name in its Hello.
    pub endpoint_url: UaString,
}

/// The fields in their order.
type Fields = (UaString, UaString);

impl ReverseHello {
    /// The ReverseHello that these fields spell.
    fn of_fields(alloc: Global, fields: &[u8]) -> Result<ReverseHello, ReadFault>
        requires { length fields.now ≤ input_limit }
        ensures spelled { ReadsAll reverse_hello_layout.grammar.spells fields.now result }
        ensures exact { Gives (λ r. r) result (reverse_hello_of fields.now) }
    {
        let (server_uri, endpoint_url) = read_whole::<Fields>(alloc, fields)?;
        Ok(ReverseHello {
            server_uri,
            endpoint_url,
        })
    }

    /// The ReverseHello that a frame is. OPC 10000-6, 7.1.2.6.
    ///
    /// # Errors
    ///
    /// `Refused` (status `BAD_DECODING_ERROR`) where the frame is of another type, or its fields, all of them, spell no
    /// ReverseHello; `NoMemory` where the room for one of the texts is refused.
    pub fn read(alloc: Global, frame: &Frame) -> Result<ReverseHello, ReadFault>
        // What is read is spelled so, and what is spelled so is not refused.
        ensures spelled { ReadsAll (λ r fields. (frame.now.kind ≡ Kind.ReverseHello) × reverse_hello_layout.grammar.spells r fields) frame.now.fields result }

        // Which one it is.
        ensures exact { frame.now.kind ≡ Kind.ReverseHello → Gives (λ r. r) result (reverse_hello_of frame.now.fields) }
    {
        match frame.kind() {
            Kind::ReverseHello => ReverseHello::of_fields(alloc, frame.fields()),
            _ => Err(ReadFault::Refused),
        }
    }

    /// Appends the whole frame. The two texts have at most 4294967279 bytes together, so that the frame's size fits its
    /// four bytes. OPC 10000-6, 7.1.2.6.
    ///
    /// # Errors
    ///
    /// `NoMemory` where the growth of `out` is refused; `out` is then unchanged.
    pub fn write(&self, out: &mut Vec<u8>) -> Result<(), NoMemory>
        requires { text_bytes self.now.server_uri + text_bytes self.now.endpoint_url ≤ 4294967279 }
        ensures { out.new.items ≡ (if is_ok result then out.old.items ++ reverse_hello_frame self.now else out.old.items) }
    {
        write_reverse_hello(&self.server_uri, &self.endpoint_url, out)
    }
}

/// Appends the whole frame of a server with this URI, for the endpoint with this url; both are lent. They have at most
/// 4294967279 bytes together. OPC 10000-6, 7.1.2.6.
///
/// # Errors
///
/// `NoMemory` where the growth of `out` is refused; `out` is then unchanged.
pub fn write_reverse_hello(
    server_uri: &UaString,
    endpoint_url: &UaString,
    out: &mut Vec<u8>,
) -> Result<(), NoMemory>
    requires { text_bytes server_uri.now + text_bytes endpoint_url.now ≤ 4294967279 }
    ensures { out.new.items ≡ (if is_ok result then out.old.items ++ reverse_hello_frame (record { server_uri = server_uri.now; endpoint_url = endpoint_url.now }) else out.old.items) }
{
    let len = server_uri.len() + endpoint_url.len();
    write_frame(
        Kind::ReverseHello,
        len as u32,
        &(server_uri, endpoint_url),
        out,
    )
}
