//! A message that is cut into chunks while it is put: a header goes out before each part, and nothing is moved.

ghost use Rattle.std.specs.Prelude.{◌≡◌, ◌+◌, ◌-◌, ◌≤◌, ◌++◌, length, take, drop, is_ok, if◌then◌else◌, min, OnOk};
ghost use Rattle.ua_chunk.specs.Numbers.{most_part, number_after};
ghost use Rattle.ua_chunk.specs.NumberLaws.{IsNumber};
ghost use Rattle.ua_chunk.specs.Cutting.{carried, IsCut, IsHeader};

use crate::sequence::Sequence;
use crate::writing::{Head, chunk_header};
use std::marker::Model;
use ua_frame::Kind;
use ua_value::{NoMemory, Sink};

/// How a message is cut.
#[derive(Clone, Copy)]
pub(crate) struct Plan {
    /// What its chunks have.
    pub head: Head,
    /// The bytes of it in each chunk but the last.
    pub part_limit: u32,
    /// Its bytes.
    pub total: u64,
    /// The sequence number of its first chunk.
    pub first: u32,
    /// Where its frames begin in the output.
    pub start: usize,
}

/// How far a message is cut.
#[derive(Clone, Copy)]
pub(crate) struct Place {
    /// The sequence number of the next chunk.
    pub number: u32,
    /// The bytes of the message that are still to be put.
    pub left: u64,
    /// The bytes that the last chunk has room for.
    pub room: u64,
    /// The chunks before the last one.
    pub full: usize,
}

/// The header of the next chunk, which is the last one then.
#[inline(always)]
pub(crate) fn next_header(plan: &Plan, at: &mut Place) -> [u8; 24]
    requires some { 1 ≤ plan.now.part_limit }
    requires most { plan.now.part_limit ≤ most_part }
    requires number { IsNumber at.old.number }
    ensures header { IsHeader plan.now.head.channel plan.now.head.token plan.now.head.request_id plan.now.part_limit at.old.number at.old.left result }
    ensures number { at.new.number ≡ number_after at.old.number 1 }
    ensures left { at.new.left ≡ at.old.left }
    ensures room { at.new.room ≡ min at.old.left plan.now.part_limit }
    ensures full { at.new.full ≡ at.old.full }
{
    let limit = plan.part_limit as u64;
    let mut numbers = Sequence::starting_at(at.number);
    let number = numbers.take();
    at.number = numbers.peek();
    at.room = at.left.min(limit);
    let flag = if limit < at.left { b'C' } else { b'F' };
    chunk_header(Kind::Message, flag, &plan.head, number, at.room as u32)
}

/// Appends bytes of the message, with a header before each part of them that begins a chunk.
///
/// # Errors
///
/// `NoMemory` where the growth of `out` is refused; a beginning of what is appended may then stand in it.
fn cut(plan: &Plan, bytes: &[u8], at: &mut Place, out: &mut Vec<u8>) -> Result<(), NoMemory>
    requires most { plan.now.part_limit ≤ most_part }
    requires cut { IsCut plan.now.head.channel plan.now.head.token plan.now.head.request_id plan.now.part_limit plan.now.total plan.now.first at.old.number at.old.left at.old.room at.old.full (drop plan.now.start out.old.items) }
    ensures cut { OnOk result (IsCut plan.now.head.channel plan.now.head.token plan.now.head.request_id plan.now.part_limit plan.now.total plan.now.first at.new.number at.new.left at.new.room at.new.full (drop plan.now.start out.new.items)) }
    ensures carried { OnOk result (carried at.new.full plan.now.part_limit (drop plan.now.start out.new.items) ≡ carried at.old.full plan.now.part_limit (drop plan.now.start out.old.items) ++ bytes.now) }
    ensures begins { take (length out.old.items) out.new.items ≡ out.old.items }
{
    let mut rest = bytes;
    while rest.len() as u64 > at.room && at.left > at.room {
        let (front, back) = rest.split_at(at.room as usize);
        out.extend_from_slice(front)?;
        at.left -= at.room;
        let header = next_header(plan, at);
        out.extend_from_slice(&header)?;
        at.full += 1;
        rest = back;
    }
    out.extend_from_slice(rest)?;
    let len = rest.len() as u64;
    at.left = at.left.saturating_sub(len);
    at.room = at.room.saturating_sub(len);
    Ok(())
}

/// An output that cuts what is put into it. Contracts see how, behind what, and what was put.
#[derive(Drop)]
pub(crate) struct Cutting {
    pub out: Vec<u8>,
    pub plan: Plan,
    pub at: Place,
}

impl Model for Cutting {
    ghost use Rattle.std.specs.Prelude.{List, ℕ, ◌≤◌, drop};
    ghost use Rattle.ua_chunk.specs.Cutting.{IsCut, shown};
    ghost use Rattle.ua_chunk.specs.Numbers.{most_part};

    ghost Value = { List ℕ };

    ghost view = { λ c. shown c.plan.head.channel c.plan.head.token c.plan.head.request_id c.plan.part_limit c.plan.total c.plan.first c.plan.start c.at.full c.out.items };

    ghost invariant = { λ c. (c.plan.part_limit ≤ most_part) × IsCut c.plan.head.channel c.plan.head.token c.plan.head.request_id c.plan.part_limit c.plan.total c.plan.first c.at.number c.at.left c.at.room c.at.full (drop c.plan.start c.out.items) };
}

impl Cutting {
    /// Puts bytes that may begin further chunks.
    ///
    /// # Errors
    ///
    /// `NoMemory` where a growth was refused; nothing has changed then.
    #[inline(never)]
    fn put_in_parts(&mut self, bytes: &[u8]) -> Result<(), NoMemory>
        ensures { self.new ≡ (if is_ok result then self.old ++ bytes.now else self.old) }
    {
        let len = self.out.len();
        let mut at = self.at;
        match cut(&self.plan, bytes, &mut at, &mut self.out) {
            Ok(()) => {
                self.at = at;
                Ok(())
            }
            Err(e) => {
                self.out.truncate(len);
                Err(e)
            }
        }
    }
}

impl Sink for Cutting {
    ghost contents = { λ c. c };

    // Most pieces are small, and the last chunk has room for them: their way is kept short, and in line.
    #[inline(always)]
    fn put(&mut self, bytes: &[u8]) -> Result<(), NoMemory> {
        let len = bytes.len() as u64;
        if len > self.at.room {
            return self.put_in_parts(bytes);
        }
        self.out.extend_from_slice(bytes)?;
        self.at.left -= len;
        self.at.room -= len;
        Ok(())
    }
}
