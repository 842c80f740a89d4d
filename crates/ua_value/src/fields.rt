//! Several values, one after another.

ghost use Rattle.std.specs.Prelude.{◌≡◌, ◌≤◌, ◌++◌, List, ℕ, length, OnOk, OnErr, IfOk, IfErr, ◌⊎◌};
ghost use Rattle.ua_value.specs.Format.{AppendsPart, Format, IsLawful, Gives, input_limit};
ghost use Rattle.ua_value.specs.Sequence.{pair, part};
ghost use Rattle.ua_value.specs.SequenceLaws.{lawful_pair};
ghost use Rattle.ua_value.specs.Whole.{only};

use crate::fault::{NoMemory, ReadFault};
use crate::wire::{Sink, Wire};
use std::alloc::Global;

/// Fields that are read one after another: `(A, (B, C))`.
pub trait Fields: Sized + Drop {
    ghost format: { Format Self };

    // that a field may take memory
    ghost Grows: { Type 0 };

    /// The fields that the input begins with, and what follows them.
    ///
    /// # Errors
    ///
    /// `Refused` where no beginning of the input spells them; `NoMemory` where a growth was refused, and only where a
    /// field may take memory.
    fn read_fields(alloc: Global, input: &[u8]) -> Result<(Self, &[u8]), ReadFault>
        requires { length input.now ≤ input_limit }
        ensures gives { Gives (λ x. (x.0, x.1.now)) result (format.grammar.front input.now) }
        ensures shorter { IfOk result (λ x. length x.1.now ≤ length input.now) }
        ensures memory { IfErr result (λ e. e ≡ ReadFault.NoMemory → Grows) };

    ghost laws: { IsLawful format };
}

impl<T: Wire> Fields for T {
    ghost format = { T.format };

    ghost Grows = { T.Grows };

    fn read_fields(alloc: Global, input: &[u8]) -> Result<(T, &[u8]), ReadFault> {
        T::read_front(alloc, input)
    }

    ghost laws = { T.laws };
}

impl<T: Wire, F: Fields> Fields for (T, F) {
    ghost format = { pair T.format F.format };

    ghost Grows = { T.Grows ⊎ F.Grows };

    fn read_fields(alloc: Global, input: &[u8]) -> Result<((T, F), &[u8]), ReadFault> {
        let (first, rest) = T::read_front(alloc, input)?;
        let (others, rest) = F::read_fields(alloc, rest)?;
        Ok(((first, others), rest))
    }

    ghost laws = { lawful_pair T.format F.format T.laws F.laws };
}

/// The part that the input begins with, where it is flagged, and what follows it; else the absent value, without a byte
/// read.
///
/// # Errors
///
/// `Refused` where it is flagged, and no beginning of the input spells it; `NoMemory` where a growth was refused, and
/// only where the part may take memory.
pub fn read_part<T: Wire>(
    alloc: Global,
    flagged: bool,
    absent: T,
    input: &[u8],
) -> Result<(T, &[u8]), ReadFault>
    requires { length input.now ≤ input_limit }
    ensures gives { Gives (λ x. (x.0, x.1.now)) result ((part flagged absent T.format.grammar).front input.now) }
    ensures shorter { IfOk result (λ x. length x.1.now ≤ length input.now) }
    ensures memory { IfErr result (λ e. e ≡ ReadFault.NoMemory → T.Grows) }
{
    if flagged {
        T::read_front(alloc, input)
    } else {
        Ok((absent, input))
    }
}

/// Fields that are put one after another: `(&a, (&b, &c))`.
pub trait Parts {
    // the bytes that are put
    ghost spelling: { Self → List ℕ };

    /// Puts the fields' bytes into `out`, one field after another.
    ///
    /// # Errors
    ///
    /// `NoMemory` where a growth was refused; a beginning of the bytes may have been put.
    fn emit_parts<S: Sink>(&self, out: &mut S) -> Result<(), NoMemory>
        ensures ok { OnOk result (S.contents out.new ≡ S.contents out.old ++ spelling self.now) }
        ensures err { OnErr result (AppendsPart (S.contents out.old) (S.contents out.new) (spelling self.now)) };
}

impl<'a, T: Wire> Parts for &'a T {
    ghost spelling = { λ p. T.format.canon p.now };

    fn emit_parts<S: Sink>(&self, out: &mut S) -> Result<(), NoMemory> {
        let value: &T = self;
        value.emit(out)
    }
}

impl<'a, T: Wire, P: Parts> Parts for (&'a T, P) {
    ghost spelling = { λ p. T.format.canon p.0.now ++ P.spelling p.1 };

    fn emit_parts<S: Sink>(&self, out: &mut S) -> Result<(), NoMemory> {
        self.0.emit(out)?;
        self.1.emit_parts(out)
    }
}

/// Fields that are put, and others that are put behind them.
#[derive(Clone, Copy, Drop)]
pub struct Then<A, B> {
    pub first: A,
    pub behind: B,
}

impl<A: Parts, B: Parts> Parts for Then<A, B> {
    ghost spelling = { λ p. A.spelling p.first ++ B.spelling p.behind };

    fn emit_parts<S: Sink>(&self, out: &mut S) -> Result<(), NoMemory> {
        self.first.emit_parts(out)?;
        self.behind.emit_parts(out)
    }
}

/// Copies of two values.
///
/// # Errors
///
/// `NoMemory` where a growth was refused, and only where one of the two may take memory.
pub fn copy_two<A: Wire, B: Wire>(first: &A, second: &B) -> Result<(A, B), NoMemory>
    ensures equal { IfOk result (λ c. c ≡ (first.now, second.now)) }
    ensures memory { IfErr result (λ _. A.Grows ⊎ B.Grows) }
{
    let first = first.copy()?;
    let second = second.copy()?;
    Ok((first, second))
}

/// Copies of three values.
///
/// # Errors
///
/// `NoMemory` where a growth was refused, and only where one of the three may take memory.
pub fn copy_three<A: Wire, B: Wire, C: Wire>(
    first: &A,
    second: &B,
    third: &C,
) -> Result<(A, B, C), NoMemory>
    ensures equal { IfOk result (λ c. c ≡ (first.now, second.now, third.now)) }
    ensures memory { IfErr result (λ _. A.Grows ⊎ (B.Grows ⊎ C.Grows)) }
{
    let first = first.copy()?;
    let (second, third) = copy_two(second, third)?;
    Ok((first, second, third))
}

/// The value that the whole input spells.
///
/// # Errors
///
/// `Refused` where the input spells none, as where bytes are left over; `NoMemory` where a growth was refused, and only
/// where the value may take memory.
pub fn read_whole<T: Fields>(alloc: Global, input: &[u8]) -> Result<T, ReadFault>
    requires { length input.now ≤ input_limit }
    ensures gives { Gives (λ v. v) result (only T.format.grammar input.now) }
    ensures memory { IfErr result (λ e. e ≡ ReadFault.NoMemory → T.Grows) }
{
    let (value, rest) = T::read_fields(alloc, input)?;
    if !rest.is_empty() {
        return Err(ReadFault::Refused);
    }
    Ok(value)
}

/// Bytes that are put as they are.
#[derive(Clone, Copy)]
pub struct Raw<'a> {
    pub bytes: &'a [u8],
}

impl<'a> Parts for Raw<'a> {
    ghost spelling = { λ p. p.bytes.now };

    fn emit_parts<S: Sink>(&self, out: &mut S) -> Result<(), NoMemory> {
        out.put(self.bytes)
    }
}
