//! What a DataValue says beside its value.

ghost use Rattle.std.specs.Prelude.{◌≡◌, ◌≤◌, ◌<◌, ◌+◌, ◌++◌, length, IfOk, OnOk, OnErr};
ghost use Rattle.ua_value.specs.Format.{AppendsPart, Gives, input_limit};
ghost use Rattle.ua_variant.specs.Stamps.{stamps};

use crate::flagged::{Kept, bit, copy_kept, kept_len, read_kept};
use crate::picoseconds::Picoseconds;
use std::alloc::Global;
use ua_value::plumbing::{Parts, Then};
use ua_value::{DateTime, NoMemory, ReadFault, Sink, StatusCode, Wire};

/// The parts of a DataValue beside its value, in the order of their bytes (OPC 10000-6, 5.2.2.17).
#[derive(Debug, Drop)]
pub(crate) struct Stamps {
    pub(crate) status: Option<StatusCode>,
    pub(crate) source_timestamp: Option<DateTime>,
    pub(crate) source_picoseconds: Option<Picoseconds>,
    pub(crate) server_timestamp: Option<DateTime>,
    pub(crate) server_picoseconds: Option<Picoseconds>,
}

#[tactic(auto, unfolding(crate::specs::Stamps::stamps))]
impl Stamps {
    /// The parts that the mask flags; often it flags none.
    pub(crate) fn read_behind(
        alloc: Global,
        mask: u8,
        input: &[u8],
    ) -> Result<(Stamps, &[u8]), ReadFault>
        requires { length input.now ≤ input_limit }
        ensures gives { Gives (λ x. (x.0, x.1.now)) result ((stamps.behind mask).front input.now) }
        ensures shorter { IfOk result (λ x. length x.1.now ≤ length input.now) }
    {
        if mask <= 0x01 {
            let stamps = Stamps {
                status: None,
                source_timestamp: None,
                source_picoseconds: None,
                server_timestamp: None,
                server_picoseconds: None,
            };
            return Ok((stamps, input));
        }
        Stamps::read_some(alloc, mask, input)
    }

    /// The parts that the mask flags. Its frame is apart from those of the recursion, so that what is 100 deep is read on
    /// little stack.
    #[inline(never)]
    fn read_some(alloc: Global, mask: u8, input: &[u8]) -> Result<(Stamps, &[u8]), ReadFault>
        requires { length input.now ≤ input_limit }
        ensures gives { Gives (λ x. (x.0, x.1.now)) result ((stamps.behind mask).front input.now) }
        ensures shorter { IfOk result (λ x. length x.1.now ≤ length input.now) }
    {
        Stamps::read_in_line(alloc, mask, input)
    }

    /// The same in line.
    #[inline(always)]
    pub(crate) fn read_in_line(
        alloc: Global,
        mask: u8,
        input: &[u8],
    ) -> Result<(Stamps, &[u8]), ReadFault>
        requires { length input.now ≤ input_limit }
        ensures gives { Gives (λ x. (x.0, x.1.now)) result ((stamps.behind mask).front input.now) }
        ensures shorter { IfOk result (λ x. length x.1.now ≤ length input.now) }
    {
        let (status, rest) = read_kept(alloc, mask & 0x02 != 0, input)?;
        let (source_timestamp, rest) = read_kept(alloc, mask & 0x04 != 0, rest)?;
        let (source_picoseconds, rest) = read_kept(alloc, mask & 0x10 != 0, rest)?;
        let (server_timestamp, rest) = read_kept(alloc, mask & 0x08 != 0, rest)?;
        let (server_picoseconds, rest) = read_kept(alloc, mask & 0x20 != 0, rest)?;
        Ok((
            Stamps {
                status,
                source_timestamp,
                source_picoseconds,
                server_timestamp,
                server_picoseconds,
            },
            rest,
        ))
    }

    pub(crate) fn len(&self) -> u64
        ensures length { result ≡ length (stamps.canon self.now) }
        ensures value { stamps.IsValue self.now }
        ensures bound { result ≤ 24 }
    {
        kept_len(&self.status)
            + kept_len(&self.source_timestamp)
            + kept_len(&self.source_picoseconds)
            + kept_len(&self.server_timestamp)
            + kept_len(&self.server_picoseconds)
    }

    /// Promises that the parts are values of their formats. It does nothing.
    #[inline(always)]
    pub(crate) fn promise_values(&self)
        ensures { stamps.IsValue self.now }
    {
        let _len = self.len();
    }

    /// The bits of the parts that are there.
    pub(crate) fn mask(&self) -> u8
        ensures mask { result ≡ stamps.mask self.now }
        ensures below { result < 63 }
    {
        bit(self.status.is_some(), 0x02)
            + bit(self.source_timestamp.is_some(), 0x04)
            + bit(self.source_picoseconds.is_some(), 0x10)
            + bit(self.server_timestamp.is_some(), 0x08)
            + bit(self.server_picoseconds.is_some(), 0x20)
    }

    /// Puts the canonical spelling, or a beginning of it where memory runs out.
    pub(crate) fn emit<S: Sink>(&self, out: &mut S) -> Result<(), NoMemory>
        ensures ok { OnOk result (S.contents out.new ≡ S.contents out.old ++ stamps.canon self.now) }
        ensures err { OnErr result (AppendsPart (S.contents out.old) (S.contents out.new) (stamps.canon self.now)) }
    {
        Then {
            first: Kept { part: &self.status },
            behind: Then {
                first: Kept {
                    part: &self.source_timestamp,
                },
                behind: Then {
                    first: Kept {
                        part: &self.source_picoseconds,
                    },
                    behind: Then {
                        first: Kept {
                            part: &self.server_timestamp,
                        },
                        behind: Kept {
                            part: &self.server_picoseconds,
                        },
                    },
                },
            },
        }
        .emit_parts(out)
    }

    pub(crate) fn copy(&self) -> Result<Stamps, NoMemory>
        ensures { IfOk result (λ v. v ≡ self.now) }
    {
        Ok(Stamps {
            status: self.status,
            source_timestamp: self.source_timestamp,
            source_picoseconds: copy_kept(&self.source_picoseconds)?,
            server_timestamp: self.server_timestamp,
            server_picoseconds: copy_kept(&self.server_picoseconds)?,
        })
    }
}
