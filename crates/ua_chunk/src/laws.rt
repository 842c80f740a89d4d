//! Laws of the definitions that contracts cite.

ghost use Rattle.ua_chunk.specs.NumberLaws.{NumbersFollow};
ghost use Rattle.ua_chunk.specs.CutLaws.{FillIsTheCut};
ghost use Rattle.ua_chunk.specs.LayoutLaws.{LayoutsAreRead, IsWritten};
ghost use Rattle.ua_chunk.specs.AssemblyLaws.{AssemblesAnyCut};
ghost use Rattle.ua_chunk.specs.ContentLaws.{ContentsAreRead};

/// The numbers of a sender begin where it says, stay from 1 to 4294966272, and each follows the one before it.
/// OPC 10000-6, 6.7.2.4.
pub fn numbers_follow()
    ensures { NumbersFollow }
{}

/// A body has one cut whose parts have a given size, the last from one byte up to that size. OPC 10000-6, 6.7.2.
pub fn fill_is_the_cut()
    ensures { FillIsTheCut }
{}

/// The fields of a frame have at most one reading as an OPN, as a MSG or CLO and as an abort's body, and it is the
/// one that is read. OPC 10000-6, 6.7.2.3, 6.7.2.4 and 6.7.3.
pub fn layouts_are_read()
    ensures { LayoutsAreRead }
{}

/// The fields that we write have their layout, and say what they are made of. OPC 10000-6, 6.7.2.3, 6.7.2.4 and 6.7.3.
pub fn written_is_read()
    ensures { IsWritten }
{}

/// However a body is cut, an assembly with room for it takes each part and gives the body back. OPC 10000-6, 6.7.2.
pub fn assembles_any_cut()
    ensures { AssemblesAnyCut }
{}

/// Each frame that an end writes reads as its content, by any limit that it is within: HEL, ACK, ERR, RHE, OPN, CLO, the
/// frame of each part of a message, and the abort of one. OPC 10000-6, 6.7.2, 6.7.3 and 7.1.2.
pub fn contents_are_read()
    ensures { ContentsAreRead }
{}
