//! Numbers of as many bytes each, many at a time (OPC 10000-6, 5.2.5).

ghost use Rattle.std.specs.Prelude.{◌≡◌, ◌≤◌, ◌++◌, List, ℕ, length, IfOk, OnOk, OnErr};
ghost use Rattle.std.specs.List.{flat_map};
ghost use Rattle.ua_value.specs.Array.{items_at};
ghost use Rattle.ua_value.specs.Fixed.{IsFixed};
ghost use Rattle.ua_value.specs.Format.{Format, Gives, AppendsPart};

use crate::fault::{NoMemory, ReadFault};
use crate::wire::Sink;
use std::alloc::Global;

/// A type of which each value takes N bytes, and any N bytes are one.
pub(crate) trait Fixed<const N: usize>: Copy + Drop {
    ghost format: { Format Self };

    // which value N bytes are
    ghost value: { List ℕ → Self };

    fn of_bytes(bytes: &[u8; N]) -> Self
        ensures { result ≡ value bytes.now };

    fn to_bytes(self) -> [u8; N]
        ensures { result ≡ format.canon self };

    ghost fixed: { IsFixed format N value };
}

/// So many values, one after another. The room for all of them is asked for once, when all of their bytes are there.
pub(crate) fn read_fixed<T: Fixed<N>, const N: usize>(
    alloc: Global,
    count: u32,
    input: &[u8],
) -> Result<(Vec<T>, &[u8]), ReadFault>
    ensures gives { Gives (λ x. (x.0.items, x.1.now)) result (items_at T.format.grammar count input.now) }
    ensures shorter { IfOk result (λ x. length x.1.now ≤ length input.now) }
{
    let size = count as usize * N;
    if input.len() < size {
        return Err(ReadFault::Refused);
    }
    let (front, rest) = input.split_at(size);
    let (chunks, _) = front.as_chunks::<N>();
    let mut items = Vec::with_capacity(alloc, chunks.len())?;
    for chunk in chunks {
        items.push_reserved(T::of_bytes(chunk));
    }
    Ok((items, rest))
}

/// Puts the values, eight at a time.
pub(crate) fn emit_fixed<T: Fixed<N>, S: Sink, const N: usize>(
    items: &[T],
    out: &mut S,
) -> Result<(), NoMemory>
    ensures ok { OnOk result (S.contents out.new ≡ S.contents out.old ++ flat_map T.format.canon items.now) }
    ensures err { OnErr result (AppendsPart (S.contents out.old) (S.contents out.new) (flat_map T.format.canon items.now)) }
{
    let mut rest = items;
    while let [a, b, c, d, e, f, g, h, after @ ..] = rest {
        let bytes = [
            a.to_bytes(),
            b.to_bytes(),
            c.to_bytes(),
            d.to_bytes(),
            e.to_bytes(),
            f.to_bytes(),
            g.to_bytes(),
            h.to_bytes(),
        ];
        out.put(bytes.as_flattened())?;
        rest = after;
    }
    emit_each(rest, out)
}

/// Puts the values, one at a time.
fn emit_each<T: Fixed<N>, S: Sink, const N: usize>(items: &[T], out: &mut S) -> Result<(), NoMemory>
    ensures ok { OnOk result (S.contents out.new ≡ S.contents out.old ++ flat_map T.format.canon items.now) }
    ensures err { OnErr result (AppendsPart (S.contents out.old) (S.contents out.new) (flat_map T.format.canon items.now)) }
{
    for item in items {
        out.put(&item.to_bytes())?;
    }
    Ok(())
}
