//! What a DiagnosticInfo says beside the one inside it.

ghost use Rattle.std.specs.Prelude.{◌≡◌, ◌≤◌, ◌<◌, ◌+◌, ◌++◌, length, None, IfOk, OnOk, OnErr};
ghost use Rattle.ua_value.specs.Format.{AppendsPart, Gives, input_limit};
ghost use Rattle.ua_variant.specs.DiagnosticParts.{diagnostic_parts, of_row};

use crate::flagged::{Kept, UnlessNull, bit, copy_kept, kept_len, read_kept, text_len};
use std::alloc::Global;
use ua_value::plumbing::{Parts, Then, read_part};
use ua_value::{NoMemory, ReadFault, Sink, StatusCode, UaString, Wire};

/// The parts of a DiagnosticInfo beside the inner one, in the order of their bytes
/// (OPC 10000-6, 5.2.2.12). The first four are indexes into the string table of a response.
#[derive(Debug, PartialEq, Eq, Drop)]
pub struct DiagnosticParts {
    /// The index of the name of the error.
    pub symbolic_id: Option<i32>,
    /// The index of the namespace of that name.
    pub namespace_uri: Option<i32>,
    /// The index of the language of the text.
    pub locale: Option<i32>,
    /// The index of the text.
    pub localized_text: Option<i32>,
    /// More about the error; null where there is none.
    pub additional_info: UaString,
    /// The status of what was called below.
    pub inner_status: Option<StatusCode>,
}

#[tactic(auto, unfolding(crate::specs::DiagnosticParts::diagnostic_parts))]
impl DiagnosticParts {
    /// Those that say nothing. They take no memory.
    pub(crate) fn none() -> DiagnosticParts
        ensures { result ≡ of_row (None, (None, (None, (None, (None, None))))) }
    {
        DiagnosticParts {
            symbolic_id: None,
            namespace_uri: None,
            locale: None,
            localized_text: None,
            additional_info: UaString::null(),
            inner_status: None,
        }
    }

    /// The parts that the mask flags. Its frame is apart from those of the recursion, so that what is 100 deep is read on
    /// little stack.
    #[inline(never)]
    pub(crate) fn read_behind(
        alloc: Global,
        mask: u8,
        input: &[u8],
    ) -> Result<(DiagnosticParts, &[u8]), ReadFault>
        requires { length input.now ≤ input_limit }
        ensures gives { Gives (λ x. (x.0, x.1.now)) result ((diagnostic_parts.behind mask).front input.now) }
        ensures shorter { IfOk result (λ x. length x.1.now ≤ length input.now) }
    {
        let (symbolic_id, rest) = read_kept(alloc, mask & 0x01 != 0, input)?;
        let (namespace_uri, rest) = read_kept(alloc, mask & 0x02 != 0, rest)?;
        let (locale, rest) = read_kept(alloc, mask & 0x08 != 0, rest)?;
        let (localized_text, rest) = read_kept(alloc, mask & 0x04 != 0, rest)?;
        let (additional_info, rest) = read_part(alloc, mask & 0x10 != 0, UaString::null(), rest)?;
        let (inner_status, rest) = read_kept(alloc, mask & 0x20 != 0, rest)?;
        Ok((
            DiagnosticParts {
                symbolic_id,
                namespace_uri,
                locale,
                localized_text,
                additional_info,
                inner_status,
            },
            rest,
        ))
    }

    pub(crate) fn len(&self) -> u64
        ensures length { result ≡ length (diagnostic_parts.canon self.now) }
        ensures value { diagnostic_parts.IsValue self.now }
        ensures bound { result ≤ 2147483671 }
    {
        kept_len(&self.symbolic_id)
            + kept_len(&self.namespace_uri)
            + kept_len(&self.locale)
            + kept_len(&self.localized_text)
            + text_len(&self.additional_info)
            + kept_len(&self.inner_status)
    }

    /// The bits of the parts that are there.
    pub(crate) fn mask(&self) -> u8
        ensures mask { result ≡ diagnostic_parts.mask self.now }
        ensures below { result < 64 }
    {
        bit(self.symbolic_id.is_some(), 0x01)
            + bit(self.namespace_uri.is_some(), 0x02)
            + bit(self.locale.is_some(), 0x08)
            + bit(self.localized_text.is_some(), 0x04)
            + bit(self.additional_info.get().is_some(), 0x10)
            + bit(self.inner_status.is_some(), 0x20)
    }

    /// Puts the canonical spelling, or a beginning of it where memory runs out.
    pub(crate) fn emit<S: Sink>(&self, out: &mut S) -> Result<(), NoMemory>
        ensures ok { OnOk result (S.contents out.new ≡ S.contents out.old ++ diagnostic_parts.canon self.now) }
        ensures err { OnErr result (AppendsPart (S.contents out.old) (S.contents out.new) (diagnostic_parts.canon self.now)) }
    {
        Then {
            first: Kept {
                part: &self.symbolic_id,
            },
            behind: Then {
                first: Kept {
                    part: &self.namespace_uri,
                },
                behind: Then {
                    first: Kept { part: &self.locale },
                    behind: Then {
                        first: Kept {
                            part: &self.localized_text,
                        },
                        behind: Then {
                            first: UnlessNull {
                                text: &self.additional_info,
                            },
                            behind: Kept {
                                part: &self.inner_status,
                            },
                        },
                    },
                },
            },
        }
        .emit_parts(out)
    }

    pub(crate) fn copy(&self) -> Result<DiagnosticParts, NoMemory>
        ensures { IfOk result (λ v. v ≡ self.now) }
    {
        Ok(DiagnosticParts {
            symbolic_id: self.symbolic_id,
            namespace_uri: self.namespace_uri,
            locale: self.locale,
            localized_text: self.localized_text,
            additional_info: self.additional_info.copy()?,
            inner_status: copy_kept(&self.inner_status)?,
        })
    }
}
