//! Input that came and is not used yet, which lends its frames.

ghost use Rattle.std.specs.Prelude.{◌≡◌, ◌==◌, ℕ, ◌+◌, ◌-◌, ◌<◌, ◌≤◌, [], ◌++◌, length, take, drop, min, true, Ok, None, vec_len, vec_capacity, IfOk, IfErr, OnOk, IfSome, OnSome, IfNone};
ghost use Rattle.ua_frame.specs.Layout.{size_of, IsFrame, IsFrameOf, frame_bytes};
ghost use Rattle.ua_frame.specs.HeaderRows.{header_fault};
ghost use Rattle.ua_frame.specs.Buffer.{empty_buffer};
ghost use Rattle.ua_frame.specs.Sizes.{least_buffer, most_buffer};

use crate::frame::{Frame, HEADER, frame_at, size_in};
use std::alloc::Global;
use std::marker::Model;
use ua_value::NoMemory;

/// Bytes of a stream that came and are not used yet, in room that is reserved once. Its frames are lent from it.
///
/// It keeps where the bytes begin and moves them to the front only when room is short, so that a piece costs at most
/// one move of what is left of the piece before.
#[derive(Drop)]
pub struct FrameBuf {
    bytes: Vec<u8>,
    start: usize,
    capacity: usize,
    /// Bytes of the frame at the front, where its header is known to be in order under `limit`; else 0.
    awaited: usize,
    limit: u32,
}

impl Model for FrameBuf {
    ghost use Rattle.std.specs.Prelude.{◌≤◌, drop, length, vec_capacity};
    ghost use Rattle.ua_frame.specs.Buffer.{Buffered, IsRoom, IsAwaited};
    ghost use Rattle.ua_frame.specs.Held.{IsAll};

    ghost Value = { Buffered };

    ghost view = { λ a. record { bytes = drop a.start a.bytes.items; capacity = a.capacity } };

    ghost invariant = { λ a. IsRoom a.start (length a.bytes.items) a.capacity (vec_capacity a.bytes) (IsAwaited a.awaited a.limit (drop a.start a.bytes.items)) (IsAll a) };
}

impl FrameBuf {
    /// An empty buffer with room for `capacity` bytes, from 8192 to 1048576. The room is reserved here and never again,
    /// and is not filled. OPC 10000-6, 7.1.2.3 and 7.1.2.4 (buffer sizes).
    ///
    /// # Errors
    ///
    /// `NoMemory` where the room is refused.
    pub fn with_capacity(alloc: Global, capacity: usize) -> Result<FrameBuf, NoMemory>
        requires least { least_buffer ≤ capacity }
        requires most { capacity ≤ most_buffer }
        ensures { IfOk result (λ b. b ≡ empty_buffer capacity) }
    {
        let bytes = Vec::with_capacity(alloc, capacity)?;
        Ok(FrameBuf {
            bytes,
            start: 0,
            capacity,
            awaited: 0,
            limit: 0,
        })
    }

    /// Whether it holds no byte. It takes no memory.
    pub fn is_empty(&self) -> bool
        ensures { result ≡ (length self.now.bytes == 0) }
    {
        self.bytes[self.start..].is_empty()
    }

    /// Takes as many bytes from the front of the piece as there is room for, and says how many. Without room that
    /// is 0. It takes no memory.
    pub fn push(&mut self, piece: &[u8]) -> usize
        ensures taken { result ≡ min (length piece.now) (self.old.capacity - length self.old.bytes) }
        ensures bytes { self.new.bytes ≡ self.old.bytes ++ take result piece.now }
        ensures capacity { self.new.capacity ≡ self.old.capacity }
        ensures bound { length self.new.bytes ≤ self.new.capacity }
    {
        let held = self.bytes.len() - self.start;
        let taken = piece.len().min(self.capacity - held);
        if self.capacity - self.bytes.len() < taken {
            remove_front(&mut self.bytes, self.start);
            self.start = 0;
        }
        let Ok(()) = self.bytes.extend_from_slice(&piece[..taken]) else {
            unreachable!()
        };
        taken
    }

    /// The frame that the bytes begin with, as [`frame_at`] finds it: lent, where it is whole and at most `limit` bytes
    /// long. It takes no memory. OPC 10000-6, 7.1.2.2, 6.7.2.2 and 7.1.5.
    ///
    /// `Ok(None)` says that more bytes are needed. A full buffer whose capacity is at least `limit` never says so.
    ///
    /// # Errors
    ///
    /// The status of the first thing that is wrong with the header, as [`frame_at`] judges it. The bytes are still held
    /// then.
    #[inline(always)]
    pub fn first(&self, limit: u32) -> Result<Option<Frame<'_>>, u32>
        // The header decides, whether the rest of the frame is there or not.
        ensures refused { IfErr result (λ status. header_fault limit self.now.bytes ≡ Some status) }
        ensures passed { OnOk result (header_fault limit self.now.bytes ≡ None) }

        // A frame is the one at the front, and these bytes are its one spelling.
        ensures within { IfOk result (λ found. OnSome found (size_of self.now.bytes ≤ length self.now.bytes)) }
        ensures frame { IfOk result (λ found. IfSome found (λ f. IsFrameOf (take (size_of self.now.bytes) self.now.bytes) f)) }
        ensures spelled { IfOk result (λ found. IfSome found (λ f. take (size_of self.now.bytes) self.now.bytes ≡ frame_bytes f)) }

        // Without one, no beginning of the bytes is a frame, and there is room for more.
        ensures none { IfOk result (λ found. IfNone found ((n : ℕ) → n ≤ length self.now.bytes → IsFrame (take n self.now.bytes) → ⊥)) }
        ensures room { IfOk result (λ found. IfNone found (limit ≤ self.now.capacity → length self.now.bytes < self.now.capacity)) }
    {
        frame_at(&self.bytes[self.start..], limit)
    }

    /// Remembers how long the frame at the front is, for [`FrameBuf::awaits`]. The caller knows that its header is in
    /// order, as `first` told. It takes no memory, and nothing that is held changes.
    pub fn remember(&mut self, limit: u32)
        requires { header_fault limit self.old.bytes ≡ None }
        ensures { self.new ≡ self.old }
    {
        let held = &self.bytes[self.start..];
        self.awaited = if held.len() < HEADER as usize {
            0
        } else {
            size_in(held) as usize
        };
        self.limit = limit;
    }

    /// Whether the frame at the front is known to need more bytes, without another look at them: its length was
    /// remembered under this limit, and so many are not there. Where it is not known, `first` says. It takes no memory.
    #[inline(always)]
    pub fn awaits(&self, limit: u32) -> bool
        ensures passed { result ≡ true → header_fault limit self.now.bytes ≡ None }
        ensures none { result ≡ true → (n : ℕ) → n ≤ length self.now.bytes → IsFrame (take n self.now.bytes) → ⊥ }
        ensures room { result ≡ true → limit ≤ self.now.capacity → length self.now.bytes < self.now.capacity }
    {
        self.limit == limit && self.bytes.len() - self.start < self.awaited
    }

    /// Drops the frame that the bytes begin with, and nothing else. The caller knows that there is one, as `first`
    /// told. It takes no memory and moves no byte.
    pub fn drop_first(&mut self)
        requires { IsFrame (take (size_of self.old.bytes) self.old.bytes) }
        ensures bytes { self.new.bytes ≡ drop (size_of self.old.bytes) self.old.bytes }
        ensures capacity { self.new.capacity ≡ self.old.capacity }
    {
        self.awaited = 0;
        self.start += size_in(&self.bytes[self.start..]) as usize;
        if self.start == self.bytes.len() {
            self.bytes.clear();
            self.start = 0;
        }
    }
}

/// Drops the first `n` bytes, and keeps the room.
fn remove_front(bytes: &mut Vec<u8>, n: usize)
    requires { n ≤ vec_len bytes.old }
    ensures items { bytes.new.items ≡ drop n bytes.old.items }
    ensures capacity { vec_capacity bytes.new ≡ vec_capacity bytes.old }
{
    let left = bytes.len() - n;
    bytes.copy_within(n.., 0);
    bytes.truncate(left);
}
