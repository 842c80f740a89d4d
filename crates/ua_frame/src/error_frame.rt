//! Why an end gives up the connection.

ghost use Rattle.std.specs.Prelude.{◌≡◌, ◌≤◌, ◌++◌, length, is_ok, if◌then◌else◌};
ghost use Rattle.ua_value.specs.Format.{Gives, input_limit};
ghost use Rattle.ua_value.specs.Whole.{ReadsAll};

use crate::frame::Frame;
use crate::kind::Kind;
use crate::writing::write_frame;
use std::alloc::Global;
use ua_value::plumbing::read_whole;
use ua_value::{NoMemory, ReadFault, UaString, Wire};

/// An end's last frame before it gives up the connection, `ERR`. OPC 10000-6, 7.1.2.5.
#[derive(Debug, Drop)]
pub struct ErrorFrame {
    /// The status code that says why.
    pub status: u32,
    /// The same for a reader, or null.
    pub reason: UaString,
}

/// The fields in their order.
type Fields = (u32, UaString);

/// Bytes of the status.
const STATUS: u32 = 4;

impl ErrorFrame {
    ghost use Rattle.ua_frame.specs.Hello.{error_layout, error_of, error_frame};

    /// The error that these fields spell.
    fn of_fields(alloc: Global, fields: &[u8]) -> Result<ErrorFrame, ReadFault>
        requires { length fields.now ≤ input_limit }
        ensures spelled { ReadsAll error_layout.grammar.spells fields.now result }
        ensures exact { Gives (λ e. e) result (error_of fields.now) }
    {
        let (status, reason) = read_whole::<Fields>(alloc, fields)?;
        Ok(ErrorFrame { status, reason })
    }

    /// The error that a frame is. OPC 10000-6, 7.1.2.5.
    ///
    /// # Errors
    ///
    /// `Refused` (status `BAD_DECODING_ERROR`) where the frame is of another type, or its fields, all of them, spell no
    /// error; `NoMemory` where the room for the reason is refused.
    pub fn read(alloc: Global, frame: &Frame) -> Result<ErrorFrame, ReadFault>
        // What is read is spelled so, and what is spelled so is not refused.
        ensures spelled { ReadsAll (λ e fields. (frame.now.kind ≡ Kind.Error) × error_layout.grammar.spells e fields) frame.now.fields result }

        // Which one it is.
        ensures exact { frame.now.kind ≡ Kind.Error → Gives (λ e. e) result (error_of frame.now.fields) }
    {
        match frame.kind() {
            Kind::Error => ErrorFrame::of_fields(alloc, frame.fields()),
            _ => Err(ReadFault::Refused),
        }
    }

    /// Appends the whole frame. OPC 10000-6, 7.1.2.5.
    ///
    /// # Errors
    ///
    /// `NoMemory` where the growth of `out` is refused; `out` is then unchanged.
    pub fn write(&self, out: &mut Vec<u8>) -> Result<(), NoMemory>
        ensures { out.new.items ≡ (if is_ok result then out.old.items ++ error_frame self.now else out.old.items) }
    {
        let len = STATUS + self.reason.len() as u32;
        write_frame(Kind::Error, len, &(&self.status, &self.reason), out)
    }
}
