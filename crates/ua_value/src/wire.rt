//! Values that are spelled as bytes.

ghost use Rattle.std.specs.Prelude.{◌≡◌, ◌≤◌, ◌<◌, ◌+◌, ◌*◌, ◌++◌, [], List, ℕ, length, max, vec_len, vec_capacity, if◌then◌else◌, is_ok, OnOk, OnErr, IfOk, IfErr};
ghost use Rattle.std.specs.List.{flat_map};
ghost use Rattle.ua_value.specs.Format.{Format, IsLawful, Reads, Gives, AppendsPart, IsBytes, input_limit};
ghost use Rattle.ua_value.specs.Array.{items_at};

use crate::fault::{NoMemory, ReadFault};
use std::alloc::Global;

/// What bytes are put into, one after another.
pub trait Sink {
    // what was put so far
    ghost contents: { Self → List ℕ };

    /// Appends the bytes.
    ///
    /// # Errors
    ///
    /// `NoMemory` where a growth was refused; nothing has changed then.
    fn put(&mut self, bytes: &[u8]) -> Result<(), NoMemory>
        ensures { contents self.new ≡ (if is_ok result then contents self.old ++ bytes.now else contents self.old) };
}

impl Sink for Vec<u8> {
    ghost contents = { λ v. v.items };

    fn put(&mut self, bytes: &[u8]) -> Result<(), NoMemory> {
        self.extend_from_slice(bytes)
    }
}

/// A type whose values are spelled as bytes, by its format (OPC 10000-6, 5.2).
pub trait Wire: Sized + Drop {
    // which bytes spell which value, which spelling is written, and which values there are
    ghost format: { Format Self };

    // no canonical spelling is longer
    ghost most: { ℕ };

    // that a value of the type may take memory: a value that takes none is read and copied without want of it
    ghost Grows: { Type 0 };

    /// The length of the canonical spelling, in bytes. It takes no memory.
    fn len(&self) -> u64
        ensures length { result ≡ length (format.canon self.now) }
        ensures value { format.IsValue self.now }
        ensures bound { result ≤ most };

    /// Puts the canonical spelling into `out`.
    ///
    /// # Errors
    ///
    /// `NoMemory` where a growth was refused; a beginning of the spelling may have been put.
    fn emit<S: Sink>(&self, out: &mut S) -> Result<(), NoMemory>
        ensures ok { OnOk result (S.contents out.new ≡ S.contents out.old ++ format.canon self.now) }
        ensures err { OnErr result (AppendsPart (S.contents out.old) (S.contents out.new) (format.canon self.now)) };

    /// Appends the canonical spelling. The room for all of it is asked for once, before the first byte.
    ///
    /// # Errors
    ///
    /// `NoMemory` where a growth was refused; `out` is then unchanged.
    fn write(&self, out: &mut Vec<u8>) -> Result<(), NoMemory>
        ensures { out.new.items ≡ (if is_ok result then out.old.items ++ format.canon self.now else out.old.items) }
    {
        out.reserve(self.len() as usize)?;
        let start = out.len();
        match self.emit(out) {
            Ok(()) => Ok(()),
            Err(e) => {
                out.truncate(start);
                Err(e)
            }
        }
    }

    /// An equal value, with memory of its own.
    ///
    /// # Errors
    ///
    /// `NoMemory` where a growth was refused, and only where the type's values may take memory.
    fn copy(&self) -> Result<Self, NoMemory>
        ensures equal { IfOk result (λ v. v ≡ self.now) }
        ensures memory { IfErr result (λ _. Grows) };

    /// The value that the input begins with, and what follows it.
    ///
    /// # Errors
    ///
    /// `Refused` where no beginning of the input spells a value; `NoMemory` where a growth was refused, and only where
    /// the type's values may take memory.
    fn read_front(alloc: Global, input: &[u8]) -> Result<(Self, &[u8]), ReadFault>
        requires { length input.now ≤ input_limit }
        ensures gives { Gives (λ x. (x.0, x.1.now)) result (format.grammar.front input.now) }
        ensures shorter { IfOk result (λ x. length x.1.now ≤ length input.now) }
        ensures memory { IfErr result (λ e. e ≡ ReadFault.NoMemory → Grows) };

    /// The value that the input begins with, and how many bytes spell it. Nothing is copied but what the value keeps.
    ///
    /// # Errors
    ///
    /// `Refused` where no beginning of the input spells a value; `NoMemory` where a growth was refused, and only where
    /// the type's values may take memory. After `NoMemory` the input may spell a value or not.
    fn read(alloc: Global, input: &[u8]) -> Result<(Self, usize), ReadFault>
        requires { length input.now ≤ input_limit }
        ensures reads { Reads format input.now result }
        ensures memory { IfErr result (λ e. e ≡ ReadFault.NoMemory → Grows) }
    {
        match Self::read_front(alloc, input) {
            Ok((value, rest)) => Ok((value, input.len() - rest.len())),
            Err(fault) => Err(fault),
        }
    }

    /// How many values so many bytes can spell at the most, where that is told by the shortest spelling; else 0. A list is
    /// read into room for no more than these, and grows with those that follow.
    fn most_in(bytes: usize) -> usize
        ensures { result ≤ bytes }
    {
        let _bytes = bytes;
        0
    }

    /// So many values, one after another, and what follows them (OPC 10000-6, 5.2.5).
    ///
    /// # Errors
    ///
    /// `Refused` where the input does not begin with so many spellings; `NoMemory` where a growth was refused.
    fn read_items(alloc: Global, count: u32, input: &[u8]) -> Result<(Vec<Self>, &[u8]), ReadFault>
        requires { length input.now ≤ input_limit }
        ensures gives { Gives (λ x. (x.0.items, x.1.now)) result (items_at format.grammar count input.now) }
        ensures shorter { IfOk result (λ x. length x.1.now ≤ length input.now) }
    {
        Self::read_each(alloc, Self::most_in(input.len()), 0, count, input)
    }

    /// The same. The list has room for `room` values, or for all where they are fewer, before the first is read. Where it
    /// has none left it makes room for as many again as were read, and for no more than `limit` together as long as they
    /// are fewer: how many values the input can spell at the most, for a type whose lists have no room before the first.
    /// Such a type says so in its `read_items`.
    ///
    /// # Errors
    ///
    /// As of `read_items`. A growth is asked for after the value that it is for was read.
    fn read_each(
        alloc: Global,
        room: usize,
        limit: usize,
        count: u32,
        input: &[u8],
    ) -> Result<(Vec<Self>, &[u8]), ReadFault>
        requires { length input.now ≤ input_limit }
        ensures gives { Gives (λ x. (x.0.items, x.1.now)) result (items_at format.grammar count input.now) }
        ensures shorter { IfOk result (λ x. length x.1.now ≤ length input.now) }
    {
        let mut items = Vec::new(alloc);
        match Self::read_into(alloc, &mut items, room, limit, count, input) {
            Ok(rest) => Ok((items, rest)),
            Err(fault) => Err(fault),
        }
    }

    /// The same, into a list that has none yet, and no room. It has the values that were read, also where a later one is
    /// refused, and room for no more than the count says: for `room`, or for these values and as many again, at the least
    /// 64, and no more than `limit` as long as they are fewer.
    ///
    /// # Errors
    ///
    /// As of `read_items`.
    fn read_into<'a>(
        alloc: Global,
        items: &mut Vec<Self>,
        room: usize,
        limit: usize,
        count: u32,
        input: &'a [u8],
    ) -> Result<&'a [u8], ReadFault>
        requires short { length input.now ≤ input_limit }
        requires none { items.old.items ≡ [] }
        requires empty { vec_capacity items.old ≡ 0 }
        ensures gives { Gives (λ x. (items.new.items, x.now)) result (items_at format.grammar count input.now) }
        ensures shorter { IfOk result (λ x. length x.now ≤ length input.now) }
        ensures read { vec_capacity items.new ≤ max room (64 + 2 * vec_len items.new) }
        ensures limit { vec_capacity items.new ≤ max room (max limit (4 + 2 * vec_len items.new)) }
        ensures count { vec_capacity items.new ≤ count }
    {
        items.reserve_exact(room.min(count as usize))?;
        let mut rest = input;
        'values: for read in 0..count {
            let (item, after) = Self::read_front(alloc, rest)?;
            make_room(items, limit, (count - read) as usize)?;
            // `push` could hand the item back, so it would copy it once more for each.
            items.push_reserved(item);
            rest = after;
        }
        Ok(rest)
    }

    /// Puts the canonical spellings of the values into `out`, one after another (OPC 10000-6, 5.2.5).
    ///
    /// # Errors
    ///
    /// `NoMemory` where a growth was refused; a beginning of the spellings may have been put.
    fn emit_items<S: Sink>(items: &[Self], out: &mut S) -> Result<(), NoMemory>
        ensures ok { OnOk result (S.contents out.new ≡ S.contents out.old ++ flat_map format.canon items.now) }
        ensures err { OnErr result (AppendsPart (S.contents out.old) (S.contents out.new) (flat_map format.canon items.now)) }
    {
        for item in items {
            item.emit(out)?;
        }
        Ok(())
    }

    // what is read is spelled so, what is spelled so is read, and the canonical spelling is one
    ghost laws: { IsLawful format };
}

/// How many values a list makes room for with its first, where the input can spell so many.
const FIRST: usize = 64;

/// How many values a list makes room for with its first, where nothing says how many the input can spell.
const FEW: usize = 4;

/// Room for one more value, of `left` that are still to be put. Where there is none it is made for as many again as there
/// are: so values are moved no more often than they are put, and what is asked for follows what was read, whatever the
/// count says.
fn make_room<T>(items: &mut Vec<T>, limit: usize, left: usize) -> Result<(), NoMemory>
    requires { 1 ≤ left }
    ensures items { items.new.items ≡ items.old.items }
    ensures len { vec_len items.new ≡ vec_len items.old }
    ensures ok { OnOk result (vec_len items.new < vec_capacity items.new) }
    ensures read { vec_capacity items.new ≤ max (vec_capacity items.old) (64 + 2 * vec_len items.old) }
    ensures limit { vec_capacity items.new ≤ max (vec_capacity items.old) (max limit (4 + 2 * vec_len items.old)) }
    ensures count { vec_capacity items.new ≤ max (vec_capacity items.old) (vec_len items.old + left) }
{
    let len = items.len();
    if len < items.capacity() {
        return Ok(());
    }
    let more = if len < limit {
        len.max(FIRST).min(limit - len)
    } else {
        len.max(FEW)
    };
    items.reserve_exact(more.min(left))
}

/// Says that the bytes are bytes.
pub(crate) fn bytes_known(bytes: &[u8])
    ensures { IsBytes bytes.now }
{}
