//! Sequence numbers.

ghost use Rattle.std.specs.Prelude.{◌≡◌, ◌≤◌};
ghost use Rattle.ua_chunk.specs.Numbers.{follows, number_after, greatest_number};
ghost use Rattle.ua_chunk.specs.NumberLaws.{IsNumber};

use std::marker::Model;

/// The greatest number that a sender gives.
const GREATEST: u32 = 4_294_966_272;

/// Whether a sender may give the sequence number `b` next after `a`: `b` is one more than `a`, or `a` is greater
/// than 4294966271 and `b` less than 1024. OPC 10000-6, 6.7.2.4.
pub fn follows(a: u32, b: u32) -> bool
    ensures { result ≡ follows a b }
{
    b as u64 == a as u64 + 1 || (a > 4_294_966_271 && b < 1024)
}

/// The sequence numbers that a sender gives, one after another: 4294966272 is followed by 1, any other number by
/// the next. Contracts see the number that is given next. OPC 10000-6, 6.7.2.4.
#[derive(Debug, Drop)]
pub struct Sequence {
    next: u32,
}

impl Model for Sequence {
    ghost use Rattle.std.specs.Prelude.{ℕ};
    ghost use Rattle.ua_chunk.specs.Held.{IsSequence};

    ghost Value = { ℕ };

    ghost view = { λ s. s.next };

    ghost invariant = { IsSequence };
}

impl Sequence {
    /// The numbers from `first` on.
    pub fn starting_at(first: u32) -> Sequence
        requires some { 1 ≤ first }
        requires least { first ≤ greatest_number }
        ensures { result ≡ first }
    {
        Sequence { next: first }
    }

    /// Gives the next number. The j-th call on a sequence that starts at `first` gives `(first + j - 2) % 4294966272 +
    /// 1`. OPC 10000-6, 6.7.2.4.
    pub fn take(&mut self) -> u32
        ensures number { result ≡ self.old }
        ensures range { IsNumber result }
        ensures moves_on { self.new ≡ number_after self.old 1 }
    {
        let number = self.next;
        self.next = if number == GREATEST { 1 } else { number + 1 };
        number
    }

    /// The number that is given next.
    pub(crate) fn peek(&self) -> u32
        ensures number { result ≡ self.now }
        ensures range { IsNumber result }
    {
        self.next
    }
}
