//! Messages put together from their parts.

ghost use Rattle.std.specs.Prelude.{◌≡◌, ◌≤◌, length, true, false, is_ok, is_some, Some, None, IfOk, OnOk, IfErr, IfSome, if◌then◌else◌};
ghost use Rattle.ua_frame.specs.declared.kind.Kind.TheVariants.{Message};
ghost use Rattle.ua_chunk.specs.Half.{id_of, body_of};
ghost use Rattle.ua_chunk.specs.Assembly.{gathered_none, gathered_after, half_of, part_fault, added_by, is_whole};

use crate::abort::abort_status;
use crate::chunk::Chunk;
use std::alloc::Global;
use std::marker::Model;
use ua_frame::status::{
    BAD_DECODING_ERROR, BAD_TCP_MESSAGE_TOO_LARGE, BAD_TCP_MESSAGE_TYPE_INVALID,
};
use ua_value::NoMemory;

/// What came of a part.
#[derive(Clone, Copy, Debug, PartialEq, Eq)]
pub enum Added {
    /// The message goes on.
    More,
    /// It was the last part: the message is whole.
    Whole,
    /// The sender gave the message up, and its parts are dropped.
    Aborted {
        /// The sender's reason.
        status: u32,
    },
}

/// The parts of one message so far, within the limits of the end that receives it, in room that is reserved once.
/// OPC 10000-6, 6.7.2.
#[derive(Drop)]
pub struct Assembly {
    max_message: u32,
    max_chunks: u32,
    id: Option<u32>,
    parts: u32,
    whole: bool,
    body: Vec<u8>,
}

impl Model for Assembly {
    ghost use Rattle.std.specs.Prelude.{vec_capacity};
    ghost use Rattle.ua_chunk.specs.Gathered.{Gathered, half_by, IsGathered};
    ghost use Rattle.ua_chunk.specs.Held.{IsAll};

    ghost Value = { Gathered };

    ghost view = { λ a. record { max_message = a.max_message; max_chunks = a.max_chunks; half = half_by a.id a.parts a.body.items; whole = a.whole } };

    ghost invariant = { λ a. IsGathered a.max_message a.max_chunks a.id a.parts a.body.items (vec_capacity a.body) (IsAll a) };
}

impl Assembly {
    /// An assembly without parts, for messages of at most `max_message` bytes in at most `max_chunks` parts. These are
    /// the limits of the end that receives, and 0 does not mean "no limit" here. Room for the longest message is
    /// reserved here and never again, and is not filled. OPC 10000-6, 7.1.2.3 and 7.1.2.4.
    ///
    /// # Errors
    ///
    /// `NoMemory` where the room is refused.
    pub fn with_capacity(
        alloc: Global,
        max_message: u32,
        max_chunks: u32,
    ) -> Result<Assembly, NoMemory>
        ensures made { IfOk result (λ a. a ≡ gathered_none max_message max_chunks) }
    {
        let body = Vec::with_capacity(alloc, max_message as usize)?;
        Ok(Assembly {
            max_message,
            max_chunks,
            id: None,
            parts: 0,
            whole: false,
            body,
        })
    }

    /// The message, where the chunk is the whole of it: no part came before it, it is the last one, and it is within the
    /// limits. So it can be read where it stands: it need not be added. OPC 10000-6, 6.7.2.2.
    pub fn whole_in<'a>(&self, chunk: &'a Chunk) -> Option<&'a [u8]>
        ensures alone { IfSome result (λ body. (self.now.half ≡ None) × (chunk.now.flag ≡ 70) × (body.now ≡ chunk.now.chunk.body)) }
        ensures passed { is_some result ≡ true → part_fault self.now chunk.now ≡ None }
        ensures found { self.now.half ≡ None → chunk.now.flag ≡ 70 → part_fault self.now chunk.now ≡ None → is_some result ≡ true }
    {
        let bytes = chunk.body();
        let fits = self.max_chunks > 0 && bytes.len() <= self.max_message as usize;
        if self.id.is_none() && chunk.flag() == b'F' && fits {
            Some(bytes)
        } else {
            None
        }
    }

    /// Adds the part that a MSG chunk carries: `C` puts it behind the others, `F` makes the message whole, and `A`
    /// drops them, with the status in its body. An abort is not counted, and may come first. It takes no memory.
    /// OPC 10000-6, 6.7.2.2 and 6.7.3.
    ///
    /// After `Whole` the message is there in `body`, until `clear`, which goes before the next `add`.
    ///
    /// # Errors
    ///
    /// The status of the first of these that holds: `BAD_TCP_MESSAGE_TYPE_INVALID` where the chunk has another request
    /// id than the parts before it; `BAD_TCP_MESSAGE_TOO_LARGE` where a `C` or `F` makes more parts or more bytes than
    /// the limits; `BAD_DECODING_ERROR` where an `A` has not the body of an abort. The parts are as before then.
    #[inline(always)]
    pub fn add(&mut self, chunk: &Chunk) -> Result<Added, u32>
        requires message { chunk.now.kind ≡ Message }
        requires cleared { self.old.whole ≡ false }
        ensures passed { OnOk result (part_fault self.old chunk.now ≡ None) }
        ensures refused { IfErr result (λ status. part_fault self.old chunk.now ≡ Some status) }
        ensures added { IfOk result (λ added. added_by chunk.now ≡ Some added) }
        ensures whole { IfOk result (λ added. self.new.whole ≡ is_whole added) }
        ensures holds { self.new ≡ (if is_ok result then gathered_after self.old chunk.now.flag chunk.now.chunk.request_id chunk.now.chunk.body else self.old) }
        ensures bound { length (body_of self.new.half) ≤ self.new.max_message }
    {
        let id = chunk.request_id();
        let bytes = chunk.body();
        if let Some(first) = self.id {
            if first != id {
                return Err(BAD_TCP_MESSAGE_TYPE_INVALID);
            }
        }
        if chunk.flag() == b'A' {
            let Some(status) = abort_status(bytes) else {
                return Err(BAD_DECODING_ERROR);
            };
            self.clear();
            return Ok(Added::Aborted { status });
        }
        let room = self.max_message as usize - self.body.len();
        if self.parts >= self.max_chunks || bytes.len() > room {
            return Err(BAD_TCP_MESSAGE_TOO_LARGE);
        }
        let Ok(()) = self.body.extend_from_slice(bytes) else {
            unreachable!()
        };
        self.id = Some(id);
        self.parts += 1;
        self.whole = chunk.flag() == b'F';
        Ok(if self.whole {
            Added::Whole
        } else {
            Added::More
        })
    }

    /// The request id of the half received message, if there is one: none after `Whole`.
    pub fn half(&self) -> Option<u32>
        ensures { result ≡ id_of (half_of self.now) }
    {
        if self.whole { None } else { self.id }
    }

    /// The bytes of the parts so far, which are the message once it is whole.
    pub fn body(&self) -> &[u8]
        ensures { result.now ≡ body_of self.now.half }
    {
        &self.body
    }

    /// Drops all parts, for the next message. The memory is kept.
    pub fn clear(&mut self)
        ensures { self.new ≡ gathered_none self.old.max_message self.old.max_chunks }
    {
        self.id = None;
        self.parts = 0;
        self.whole = false;
        self.body.clear();
    }
}
