//! The client's first frame.

ghost use Rattle.std.specs.Prelude.{◌≡◌, ◌≤◌, ◌++◌, length, is_ok, if◌then◌else◌};
ghost use Rattle.ua_value.specs.Format.{Gives, input_limit};
ghost use Rattle.ua_value.specs.Whole.{ReadsAll};

use crate::frame::Frame;
use crate::kind::Kind;
use crate::writing::write_frame;
use std::alloc::Global;
use ua_value::plumbing::read_whole;
use ua_value::{NoMemory, ReadFault, UaString, Wire};

/// What a client says of itself, the `HEL` frame. OPC 10000-6, 7.1.2.3.
#[derive(Debug, Drop)]
pub struct Hello {
    /// The version of the connection protocol that the client knows.
    pub version: u32,
    /// Bytes of the longest frame that the client takes.
    pub receive: u32,
    /// Bytes of the longest frame that the client sends.
    pub send: u32,
    /// Bytes of the longest answer that the client takes, or 0 for no limit.
    pub max_message: u32,
    /// The most chunks of an answer that the client takes, or 0 for no limit.
    pub max_chunks: u32,
    /// The url of the endpoint that the client wants.
    pub url: UaString,
}

/// The fields in their order.
type Fields = (u32, (u32, (u32, (u32, (u32, UaString)))));

/// Bytes of the five numbers.
const NUMBERS: u32 = 20;

impl Hello {
    ghost use Rattle.ua_frame.specs.Hello.{hello_layout, hello_of, hello_frame};

    /// The Hello that these fields spell.
    fn of_fields(alloc: Global, fields: &[u8]) -> Result<Hello, ReadFault>
        requires { length fields.now ≤ input_limit }
        ensures spelled { ReadsAll hello_layout.grammar.spells fields.now result }
        ensures exact { Gives (λ h. h) result (hello_of fields.now) }
    {
        let (version, (receive, (send, (max_message, (max_chunks, url))))) = read_whole::<Fields>(
            alloc, fields,
        )?;
        Ok(Hello {
            version,
            receive,
            send,
            max_message,
            max_chunks,
            url,
        })
    }

    /// The Hello that a frame is. OPC 10000-6, 7.1.2.3.
    ///
    /// # Errors
    ///
    /// `Refused` (status `BAD_DECODING_ERROR`) where the frame is of another type, or its fields, all of them, spell no
    /// Hello; `NoMemory` where the room for the url is refused.
    pub fn read(alloc: Global, frame: &Frame) -> Result<Hello, ReadFault>
        // What is read is spelled so, and what is spelled so is not refused.
        ensures spelled { ReadsAll (λ h fields. (frame.now.kind ≡ Kind.Hello) × hello_layout.grammar.spells h fields) frame.now.fields result }

        // Which one it is.
        ensures exact { frame.now.kind ≡ Kind.Hello → Gives (λ h. h) result (hello_of frame.now.fields) }
    {
        match frame.kind() {
            Kind::Hello => Hello::of_fields(alloc, frame.fields()),
            _ => Err(ReadFault::Refused),
        }
    }

    /// Appends the whole frame. OPC 10000-6, 7.1.2.3.
    ///
    /// # Errors
    ///
    /// `NoMemory` where the growth of `out` is refused; `out` is then unchanged.
    pub fn write(&self, out: &mut Vec<u8>) -> Result<(), NoMemory>
        ensures { out.new.items ≡ (if is_ok result then out.old.items ++ hello_frame self.now else out.old.items) }
    {
        let numbers = (
            &self.receive,
            (
                &self.send,
                (&self.max_message, (&self.max_chunks, &self.url)),
            ),
        );
        let len = NUMBERS + self.url.len() as u32;
        write_frame(Kind::Hello, len, &(&self.version, numbers), out)
    }
}
