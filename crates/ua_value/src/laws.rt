//! What holds of the spellings of every type. A caller names a law at its type and has the fact in its proof; nothing
//! runs.

ghost use Rattle.ua_value.specs.Format.{IsDistinct, IsLawful};
ghost use Rattle.ua_value.specs.Laws.{BeginsNoOther, HasOneValue, HasBytes, IsCanonical, IsShortest, ReadsBack};

use crate::wire::Wire;

/// Where two spellings begin the same bytes, they are one, and so are their values; and the format has all the laws of
/// `Wire`.
pub fn spellings_are_distinct<T: Wire>()
    ensures distinct { IsDistinct T.format.grammar }
    ensures lawful { IsLawful T.format }
{}

/// No spelling of a value begins another spelling, of the same value or of another.
pub fn no_spelling_begins_another<T: Wire>()
    ensures { BeginsNoOther T.format.grammar }
{}

/// A spelling has one value.
pub fn a_spelling_has_one_value<T: Wire>()
    ensures { HasOneValue T.format.grammar }
{}

/// Every spelling has at least one byte, so an array has no more items than bytes.
pub fn every_spelling_has_bytes<T: Wire>()
    ensures { HasBytes T.format.grammar }
{}

/// What is written is a spelling of the value, and no spelling of it is shorter.
pub fn the_canonical_spelling_is_one<T: Wire>()
    ensures canonical { IsCanonical T.format }
    ensures shortest { IsShortest T.format }
{}

/// What is written reads as the value, and as no more bytes, whatever follows.
pub fn what_is_written_reads_back<T: Wire>()
    ensures { ReadsBack T.format }
{}
