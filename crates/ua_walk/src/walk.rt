//! The frames in some bytes, one after the other, and the messages that are whole with them.

ghost use Rattle.std.specs.Prelude.{◌+◌, ◌<◌, ◌^◌, drop, length, IfOk};
ghost use Rattle.ua_chunk.specs.declared.content.Content.TheVariants.{Message as carried};
ghost use Rattle.ua_walk.specs.Walk.{TellsContent, TellsFrame, TellsFront, WalksOn};

use crate::half::Half;
use crate::teller::Teller;
use std::alloc::{AllocError, Global};
use std::mem::replace;
use ua_chunk::{Chunk, Content, ContentFault, content_of};
use ua_frame::{Frame, frame_at};
use ua_value::NoMemory;

/// Bytes of the longest frame that is told.
pub const LONGEST: u32 = 1_048_576;

/// The most bytes of the parts of a message before the last: 16 MiB.
pub const MOST_MESSAGE: usize = 16_777_216;

/// What stands at the front of some bytes.
#[derive(Clone, Copy)]
pub(crate) enum Front {
    /// A frame of so many bytes, which was told.
    Frame(usize),
    /// Less than a frame.
    Less,
    /// What ends the walk, which was told.
    End,
}

/// How far frames go in some bytes.
#[derive(Clone, Copy)]
pub(crate) struct Walked {
    /// How many bytes they have.
    pub(crate) used: usize,
    /// Whether nothing is told behind them.
    pub(crate) has_ended: bool,
}

/// Takes in the part of a message, and tells the message where it is whole with it. `false` says that it is too long, which
/// was told.
fn tell_part<'a, T: Teller>(
    half: &mut Half<'a>,
    offset: usize,
    chunk: &Chunk<'a>,
    teller: &mut T,
) -> Result<bool, NoMemory>
    ensures { IfOk result (TellsContent T.heard offset (carried chunk.now) half.old half.new teller.old teller.new) }
{
    let body = chunk.body();
    match chunk.flag() {
        b'A' => half.clear(),
        b'F' if half.len() == 0 => teller.tell_message(chunk.request_id(), &[body])?,
        b'F' => {
            half.push(body)?;
            half.tell(chunk.request_id(), teller)?;
            half.clear();
        }
        _ if half.len().saturating_add(body.len()) > MOST_MESSAGE => {
            teller.tell_long(offset)?;
            return Ok(false);
        }
        _ => half.push(body)?,
    }
    Ok(true)
}

/// Tells the message that is whole with a frame. `false` says that it is too long, which was told.
fn tell_content<'a, T: Teller>(
    half: &mut Half<'a>,
    offset: usize,
    content: &Content<'a>,
    teller: &mut T,
) -> Result<bool, NoMemory>
    ensures { IfOk result (TellsContent T.heard offset content.now half.old half.new teller.old teller.new) }
{
    match content {
        Content::Hello(_)
        | Content::Acknowledge(_)
        | Content::Error(_)
        | Content::ReverseHello(_) => {}
        Content::Open(chunk) => teller.tell_message(chunk.request_id(), &[chunk.body()])?,
        Content::Message(chunk) => return tell_part(half, offset, chunk, teller),
        Content::Close(chunk) => teller.tell_message(chunk.request_id(), &[chunk.body()])?,
    }
    Ok(true)
}

/// Tells a frame of a known type.
fn tell_known<'a, T: Teller>(
    alloc: Global,
    half: &mut Half<'a>,
    offset: usize,
    frame: &Frame<'a>,
    teller: &mut T,
) -> Result<Front, NoMemory>
    ensures { IfOk result (TellsFrame T.heard offset frame.now half.old half.new teller.old teller.new) }
{
    let size = frame.len() as usize;
    match content_of(alloc, frame) {
        Ok(content) => {
            teller.tell_frame(offset, size, &content)?;
            match tell_content(half, offset, &content, teller) {
                Ok(true) => Ok(Front::Frame(size)),
                Ok(false) => Ok(Front::End),
                Err(e) => Err(e),
            }
        }
        Err(ContentFault::Refused(status)) => {
            teller.tell_bad(offset, status)?;
            Ok(Front::End)
        }
        Err(ContentFault::NoMemory) => Err(AllocError),
    }
}

/// Tells what the bytes begin with.
fn tell_front<'a, T: Teller>(
    alloc: Global,
    half: &mut Half<'a>,
    offset: usize,
    bytes: &'a [u8],
    teller: &mut T,
) -> Result<Front, NoMemory>
    ensures { IfOk result (TellsFront T.heard offset bytes.now half.old half.new teller.old teller.new) }
{
    match frame_at(bytes, LONGEST) {
        Ok(Some(frame)) => tell_known(alloc, half, offset, &frame, teller),
        Ok(None) => Ok(Front::Less),
        Err(status) => {
            teller.tell_bad(offset, status)?;
            Ok(Front::End)
        }
    }
}

/// Tells all frames that are whole, of which the first begins at the offset.
fn tell_all<'a, T: Teller>(
    alloc: Global,
    half: &mut Half<'a>,
    offset: usize,
    bytes: &'a [u8],
    teller: &mut T,
) -> Result<Walked, NoMemory>
    requires { offset + length bytes.now < 2 ^ 64 }
    ensures { IfOk result (λ walked. WalksOn T.heard offset bytes.now (drop walked.used bytes.now) half.old half.new teller.old teller.new walked) }
{
    let mut used = 0;
    'frames: loop {
        let has_ended = match tell_front(alloc, half, offset + used, &bytes[used..], teller)? {
            Front::Frame(size) => {
                used += size;
                continue 'frames;
            }
            Front::Less => false,
            Front::End => true,
        };
        return Ok(Walked { used, has_ended });
    }
}

/// Tells all frames that are whole, of which the first begins at the offset, behind these bytes of a message.
pub(crate) fn walk<T: Teller>(
    kept: &mut Vec<u8>,
    offset: usize,
    bytes: &[u8],
    teller: &mut T,
) -> Result<Walked, NoMemory>
    requires { offset + length bytes.now < 2 ^ 64 }
    ensures { IfOk result (λ walked. WalksOn T.heard offset bytes.now (drop walked.used bytes.now) kept.old.items kept.new.items teller.old teller.new walked) }
{
    let alloc = *kept.allocator();
    let mut half = Half::of(alloc, replace(kept, Vec::new(alloc)));
    let walked = tell_all(alloc, &mut half, offset, bytes, teller)?;
    if walked.has_ended {
        return Ok(walked);
    }
    match half.into_bytes() {
        Ok(bytes) => {
            *kept = bytes;
            Ok(walked)
        }
        Err(e) => Err(e),
    }
}
