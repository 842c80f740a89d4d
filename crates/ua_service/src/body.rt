//! Messages, and the bodies that are read and written for them.

ghost use Rattle.std.specs.Prelude.{◌≡◌, ◌≤◌, ◌++◌, length, if◌then◌else◌, is_ok, IfOk, OnOk, OnErr};
ghost use Rattle.ua_value.specs.Format.{Gives, AppendsPart, input_limit};
ghost use Rattle.ua_value.specs.Whole.{ReadsAll};
ghost use Rattle.ua_service.specs.Message.{Message, message, is_id, id_of};
ghost use Rattle.ua_service.specs.MessageLaws.{IsLawfulMessage};

use std::alloc::Global;
use ua_value::plumbing::read_whole;
use ua_value::{Identifier, NoMemory, NodeId, ReadFault, Sink, Wire};

/// A message. Its body is the id of its encoding as a NodeId, then its fields, and nothing more
/// (OPC 10000-6, 5.2.9). The id may be spelled in any form; the shortest is written.
pub trait Body: Sized + Drop {
    ghost message: { Message Self };

    /// The number of bytes that `write_body` appends. It takes no memory.
    fn body_len(&self) -> u64
        ensures length { result ≡ length (message.canon self.now) }
        ensures value { message.IsValue self.now };

    /// Puts the canonical body into `out`.
    ///
    /// # Errors
    ///
    /// `NoMemory` where a growth was refused; a beginning of the body may have been put.
    fn emit_body<S: Sink>(&self, out: &mut S) -> Result<(), NoMemory>
        ensures ok { OnOk result (S.contents out.new ≡ S.contents out.old ++ message.canon self.now) }
        ensures err { OnErr result (AppendsPart (S.contents out.old) (S.contents out.new) (message.canon self.now)) };

    /// Appends the canonical body. The room for all of it is asked for once, before the first byte.
    ///
    /// # Errors
    ///
    /// `NoMemory` where a growth was refused; `out` is then unchanged.
    fn write_body(&self, out: &mut Vec<u8>) -> Result<(), NoMemory>
        ensures { out.new.items ≡ (if is_ok result then out.old.items ++ message.canon self.now else out.old.items) }
    {
        out.reserve(self.body_len() as usize)?;
        let start = out.len();
        match self.emit_body(out) {
            Ok(()) => Ok(()),
            Err(e) => {
                out.truncate(start);
                Err(e)
            }
        }
    }

    /// The message of which the whole input is a body. Each type says it here; callers use
    /// `read_body`.
    ///
    /// # Errors
    ///
    /// `Refused` where the input is the body of no such message, as where bytes are left over;
    /// `NoMemory` where a growth was refused, which says nothing of the input.
    fn parse_body(alloc: Global, input: &[u8]) -> Result<Self, ReadFault>
        requires { length input.now ≤ input_limit }
        ensures { Gives (λ v. v) result (message.message_of input.now) };

    /// The message of which the whole input is a body.
    ///
    /// # Errors
    ///
    /// `Refused` where the input is the body of no such message, as where bytes are left over;
    /// `NoMemory` where a growth was refused, which says nothing of the input.
    fn read_body(alloc: Global, input: &[u8]) -> Result<Self, ReadFault>
        requires { length input.now ≤ input_limit }
        ensures all { ReadsAll message.IsBody input.now result }
        ensures gives { Gives (λ v. v) result (message.message_of input.now) }
    {
        Self::parse_body(alloc, input)
    }

    ghost laws: { IsLawfulMessage message };
}

/// The number of bytes of the message's canonical body (OPC 10000-6, 5.2.9). It takes no memory.
pub fn body_len<M: Body>(message: &M) -> u64
    ensures { result ≡ length (M.message.canon message.now) }
{
    message.body_len()
}

/// Appends the message's canonical body to `out` (OPC 10000-6, 5.2.9).
///
/// # Errors
///
/// `NoMemory` where a growth was refused; `out` is then unchanged.
pub fn write_body<M: Body>(message: &M, out: &mut Vec<u8>) -> Result<(), NoMemory>
    ensures { out.new.items ≡ (if is_ok result then out.old.items ++ M.message.canon message.now else out.old.items) }
{
    message.write_body(out)
}

/// The canonical body of a message (OPC 10000-6, 5.2.9), which is then dropped.
///
/// # Errors
///
/// `NoMemory` where a growth was refused; the message is dropped all the same.
pub fn body_of<M: Body>(alloc: Global, message: M) -> Result<Vec<u8>, NoMemory>
    ensures { IfOk result (λ body. body.items ≡ M.message.canon message) }
{
    let mut body = Vec::new(alloc);
    message.write_body(&mut body)?;
    Ok(body)
}

/// Whether it is the number in namespace 0.
pub(crate) fn is(id: &NodeId, number: u32) -> bool
    ensures { result ≡ is_id number id.now }
{
    id.namespace_index == 0
        && match &id.identifier {
            Identifier::Numeric(found) => *found == number,
            _ => false,
        }
}

/// The number in namespace 0.
pub(crate) fn id(number: u32) -> NodeId
    ensures { result ≡ id_of number }
{
    NodeId::numeric(0, number)
}

/// The fields that follow the id of this number.
#[tactic(auto, unfolding(crate::specs::Message::message))]
pub(crate) fn read_fields_of<T: Wire>(
    alloc: Global,
    number: u32,
    input: &[u8],
) -> Result<T, ReadFault>
    requires { length input.now ≤ input_limit }
    ensures { Gives (λ v. v) result ((message number T.format).message_of input.now) }
{
    let (found, rest) = NodeId::read_front(alloc, input)?;
    if !is(&found, number) {
        return Err(ReadFault::Refused);
    }
    read_whole(alloc, rest)
}
