//! What is put as bytes whose number is known before the first.

ghost use Rattle.std.specs.Prelude.{◌≡◌, ◌++◌, List, ℕ, length, OnOk, OnErr};
ghost use Rattle.ua_value.specs.Format.{AppendsPart};

use crate::fault::NoMemory;
use crate::fields::Raw;
use crate::wire::{Sink, Wire};

/// What has one spelling, which is put without a copy of it being made before: a value, the body of a message, bytes as
/// they are.
pub trait Emit {
    // the bytes that are put
    ghost spelling: { Self → List ℕ };

    /// The number of bytes that `emit` puts. It takes no memory.
    fn emit_len(&self) -> u64
        ensures length { result ≡ length (spelling self.now) };

    /// Puts the spelling into `sink`.
    ///
    /// # Errors
    ///
    /// `NoMemory` where a growth was refused; a beginning of the spelling may have been put.
    fn emit<S: Sink>(&self, sink: &mut S) -> Result<(), NoMemory>
        ensures ok { OnOk result (S.contents sink.new ≡ S.contents sink.old ++ spelling self.now) }
        ensures err { OnErr result (AppendsPart (S.contents sink.old) (S.contents sink.new) (spelling self.now)) };
}

impl<T: Wire> Emit for T {
    ghost spelling = { λ v. T.format.canon v };

    fn emit_len(&self) -> u64 {
        self.len()
    }

    fn emit<S: Sink>(&self, sink: &mut S) -> Result<(), NoMemory> {
        <T as Wire>::emit(self, sink)
    }
}

impl<'a> Emit for Raw<'a> {
    ghost spelling = { λ r. r.bytes.now };

    fn emit_len(&self) -> u64 {
        self.bytes.len() as u64
    }

    fn emit<S: Sink>(&self, sink: &mut S) -> Result<(), NoMemory> {
        sink.put(self.bytes)
    }
}
