//! The bytes of one direction as they come, and what is told of them.

ghost use Rattle.std.specs.Prelude.{◌≡◌, ◌+◌, ◌≤◌, ◌<◌, ◌^◌, ◌++◌, ◌&&◌, [], drop, false, true, length, not, vec_len, IfOk, OnErr, OnOk, if◌then◌else◌};
ghost use Rattle.ua_walk.specs.Told.{is_whole, Hears};
ghost use Rattle.ua_walk.specs.Walk.{opened, story, story_on, IsLess, Walks, WalksOn};

use crate::teller::Teller;
use crate::walk::{Walked, walk};
use std::alloc::{AllocError, Global};
use std::marker::Model;
use ua_value::NoMemory;
use ua_value::plumbing::let_go;

/// Takes the bytes of one direction, cut anywhere, and tells what they complete. It keeps the frame that is cut, and the parts of
/// a message that is not whole, of at most [`MOST_MESSAGE`](crate::MOST_MESSAGE) bytes.
#[derive(Drop)]
pub struct Walker {
    /// Bytes that came and are less than a frame.
    rest: Vec<u8>,
    /// Where these begin among all that came.
    offset: usize,
    /// The bodies of the MSG frames since the last that ended a message, joined.
    half: Vec<u8>,
    /// Whether nothing more is told.
    has_ended: bool,
}

impl Model for Walker {
    ghost use Rattle.ua_walk.specs.Walk.{IsLess, Walk};

    ghost Value = { Walk };

    ghost view = { λ w. record { offset = w.offset; half = w.half.items; rest = w.rest.items; has_ended = w.has_ended } };

    ghost invariant = { λ w. IsLess w.rest.items };
}

/// Drops the first `n` bytes, and keeps the room.
fn remove_front(bytes: &mut Vec<u8>, n: usize)
    requires { n ≤ vec_len bytes.old }
    ensures { bytes.new.items ≡ drop n bytes.old.items }
{
    if n > 0 {
        let left = bytes.len() - n;
        bytes.copy_within(n.., 0);
        bytes.truncate(left);
    }
}

/// Gives back the memory of both.
fn give_back(rest: &mut Vec<u8>, half: &mut Vec<u8>)
    ensures rest { rest.new.items ≡ [] }
    ensures half { half.new.items ≡ [] }
{
    let alloc = *rest.allocator();
    *rest = Vec::new(alloc);
    *half = Vec::new(alloc);
}

/// Tells the frames that these bytes have, where none wait, and has those wait that are less than a frame.
fn feed_alone<T: Teller>(
    rest: &mut Vec<u8>,
    offset: usize,
    half: &mut Vec<u8>,
    bytes: &[u8],
    teller: &mut T,
) -> Result<Walked, NoMemory>
    requires rest { rest.old.items ≡ [] }
    requires within { offset + length bytes.now < 2 ^ 64 }
    ensures { IfOk result (WalksOn T.heard offset bytes.now rest.new.items half.old.items half.new.items teller.old teller.new) }
{
    let walked = walk(half, offset, bytes, teller)?;
    if !walked.has_ended {
        rest.extend_from_slice(&bytes[walked.used..])?;
    }
    Ok(walked)
}

/// Tells the frames that the waiting bytes have, and has those wait that are less than a frame.
fn feed_waiting<T: Teller>(
    rest: &mut Vec<u8>,
    offset: usize,
    half: &mut Vec<u8>,
    teller: &mut T,
) -> Result<Walked, NoMemory>
    requires { offset + length rest.old.items < 2 ^ 64 }
    ensures { IfOk result (WalksOn T.heard offset rest.old.items rest.new.items half.old.items half.new.items teller.old teller.new) }
{
    let walked = walk(half, offset, rest.as_slice(), teller)?;
    remove_front(rest, walked.used);
    Ok(walked)
}

/// Tells the frames that the waiting bytes and these have, and has those wait that are less than a frame.
fn feed_behind<T: Teller>(
    rest: &mut Vec<u8>,
    offset: usize,
    half: &mut Vec<u8>,
    bytes: &[u8],
    teller: &mut T,
) -> Result<Walked, NoMemory>
    ensures bytes { IfOk result (WalksOn T.heard offset (rest.old.items ++ bytes.now) rest.new.items half.old.items half.new.items teller.old teller.new) }
    ensures within { OnOk result (offset + (length rest.old.items + length bytes.now) < 2 ^ 64) }
{
    let Some(waiting) = rest.len().checked_add(bytes.len()) else {
        return Err(AllocError);
    };
    if offset.checked_add(waiting).is_none() {
        return Err(AllocError);
    }
    if rest.is_empty() {
        return feed_alone(rest, offset, half, bytes, teller);
    }
    rest.extend_from_slice(bytes)?;
    feed_waiting(rest, offset, half, teller)
}

impl Walker {
    /// One of which nothing came. It takes no memory.
    pub fn new(alloc: Global) -> Walker
        ensures { result ≡ opened }
    {
        Walker {
            rest: Vec::new(alloc),
            offset: 0,
            half: Vec::new(alloc),
            has_ended: false,
        }
    }

    /// Whether nothing more is told.
    pub fn has_ended(&self) -> bool
        ensures { result ≡ self.now.has_ended }
    {
        self.has_ended
    }

    /// The bytes that came and are less than a frame.
    pub fn rest(&self) -> &[u8]
        ensures { result.now ≡ self.now.rest }
    {
        &self.rest
    }

    /// Where these begin among all that came.
    pub fn offset(&self) -> usize
        ensures { result ≡ self.now.offset }
    {
        self.offset
    }

    /// Tells no more, and gives back all memory.
    pub fn give_up(&mut self)
        ensures ended { self.new.has_ended ≡ true }
        ensures rest { self.new.rest ≡ [] }
        ensures offset { self.new.offset ≡ self.old.offset }
    {
        give_back(&mut self.rest, &mut self.half);
        self.has_ended = true;
    }

    /// Takes the next bytes, and tells what they complete.
    ///
    /// # Errors
    ///
    /// `NoMemory` where a growth was refused, here or by the teller, or where more came than 64 bits can count. A beginning was
    /// told then, and nothing more is.
    pub fn feed<T: Teller>(&mut self, bytes: &[u8], teller: &mut T) -> Result<(), NoMemory>
        ensures told { OnOk result (Walks T.heard bytes.now self.old self.new teller.old teller.new) }
        ensures less { OnOk result (IsLess self.new.rest) }
        ensures failed { OnErr result (self.new.has_ended ≡ true) }
    {
        if self.has_ended {
            return Ok(());
        }
        match feed_behind(&mut self.rest, self.offset, &mut self.half, bytes, teller) {
            Ok(walked) if walked.has_ended => {
                give_back(&mut self.rest, &mut self.half);
                self.has_ended = true;
                Ok(())
            }
            Ok(walked) => {
                self.offset += walked.used;
                Ok(())
            }
            Err(e) => {
                give_back(&mut self.rest, &mut self.half);
                self.has_ended = true;
                Err(e)
            }
        }
    }

    /// Tells what is left where no more bytes come: those that are less than a frame, if there are some. The result says
    /// whether all that came was whole.
    ///
    /// # Errors
    ///
    /// `NoMemory` where a growth was refused.
    pub fn end<T: Teller>(&mut self, teller: &mut T) -> Result<bool, NoMemory>
        ensures told { OnOk result (Hears T.heard (story_on self.old []) teller.old teller.new) }
        ensures whole { IfOk result (λ whole. whole ≡ (not self.old.has_ended && is_whole (story_on self.old []))) }
        ensures ended { self.new.has_ended ≡ true }
    {
        if self.has_ended {
            return Ok(false);
        }
        let offset = self.offset;
        let left = self.rest.len();
        self.give_up();
        if left == 0 {
            return Ok(true);
        }
        teller.tell_rest(offset, left)?;
        Ok(false)
    }
}

/// The exit status of a command that shows what is told, by whether all was whole.
pub fn status_of(is_whole: bool) -> u8
    ensures { result ≡ if is_whole then 0 else 1 }
{
    if is_whole { 0 } else { 1 }
}

/// Tells all that these bytes are, by a walker of which nothing came.
fn tell_whole<T: Teller>(
    walker: &mut Walker,
    bytes: &[u8],
    teller: &mut T,
) -> Result<bool, NoMemory>
    requires { walker.old ≡ opened }
    ensures told { OnOk result (Hears T.heard (story bytes.now) teller.old teller.new) }
    ensures whole { IfOk result (λ whole. whole ≡ is_whole (story bytes.now)) }
{
    walker.feed(bytes, teller)?;
    walker.end(teller)
}

/// Tells all that these bytes are, and says whether they were whole frames to their end.
///
/// # Errors
///
/// `NoMemory` where a growth was refused, here or by the teller; a beginning was told then.
pub fn walk_whole<T: Teller>(alloc: Global, bytes: &[u8], teller: &mut T) -> Result<bool, NoMemory>
    ensures told { OnOk result (Hears T.heard (story bytes.now) teller.old teller.new) }
    ensures whole { IfOk result (λ whole. whole ≡ is_whole (story bytes.now)) }
{
    let mut walker = Walker::new(alloc);
    let told = tell_whole(&mut walker, bytes, teller);
    let_go(walker);
    told
}
