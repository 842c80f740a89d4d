//! What went wrong, in the words of a server.

ghost use Rattle.std.specs.Prelude.{◌≡◌, ◌≤◌, ◌<◌, ◌+◌, ◌*◌, ◌++◌, ◌↔◌, length, IfOk, OnOk, OnErr, IsErrOf, IfErr, IsOk, ◌⊎◌, None, option_copied};
ghost use Rattle.ua_value.specs.Format.{AppendsPart, Gives, input_limit};
ghost use Rattle.ua_variant.specs.DiagnosticParts.{of_row};
ghost use Rattle.ua_variant.specs.Diagnostic.{plain, around, depth, deepest, parts_of, inner_of, diagnostic_of, canon, within, diagnostic, IsDiagnostic, IsFull};
ghost use Rattle.ua_variant.specs.DiagnosticLaws.{lawful_diagnostic};

use crate::diagnostic_parts::DiagnosticParts;
use crate::fault::VariantFault;
use std::alloc::Global;
use std::marker::Model;
use ua_kind::{DEEPEST, allowance};
use ua_value::{NoMemory, ReadFault, Sink, StatusCode, UaString, Wire};

/// Vendor-specific diagnostics of an error, and maybe those of the error below it
/// (OPC 10000-6, 5.2.2.12). At most 100 are nested.
#[derive(Debug, Drop)]
pub struct DiagnosticInfo {
    levels: u8,
    parts: DiagnosticParts,
    inner: Option<Box<DiagnosticInfo>>,
}

impl Model for DiagnosticInfo {
    ghost use Rattle.ua_variant.specs.Diagnostic.{Diagnostic, depth};
    ghost use Rattle.ua_variant.specs.DiagnosticCode.{diagnostic_coded};

    ghost Value = { Diagnostic };

    ghost coded = { diagnostic_coded };

    ghost use Rattle.ua_variant.specs.DiagnosticView.{view_of, IsKept};

    ghost view = { view_of };

    ghost invariant = { IsKept };

    ghost size = { depth };

    ghost use Rattle.std.proofs.Common.{arith};

    ghost size_decreases = { λ a h. Prim.grind arith };
}

impl DiagnosticInfo {
    fn plain(parts: DiagnosticParts) -> DiagnosticInfo
        ensures { result ≡ plain parts }
    {
        let _known = parts.len();
        DiagnosticInfo {
            levels: 1,
            parts,
            inner: None,
        }
    }

    fn around(
        alloc: Global,
        parts: DiagnosticParts,
        inner: DiagnosticInfo,
    ) -> Result<DiagnosticInfo, NoMemory>
        requires { depth inner < deepest }
        ensures { IfOk result (λ v. v ≡ around parts inner) }
    {
        let _known = parts.len();
        let levels = inner.depth() + 1;
        let inner = Box::new(alloc, inner)?;
        Ok(DiagnosticInfo {
            levels,
            parts,
            inner: Some(inner),
        })
    }

    /// How deep it is nested: 1 where it has no inner one, else 1 more than that; at most 100.
    pub fn depth(&self) -> u8
        ensures depth { result ≡ depth self.now }
        ensures value { IsDiagnostic self.now }
    {
        self.levels
    }
}

impl DiagnosticInfo {
    /// Puts the canonical spelling, or a beginning of it where memory runs out.
    pub(crate) fn put<S: Sink>(&self, out: &mut S) -> Result<(), NoMemory>
        ensures ok { OnOk result (S.contents out.new ≡ S.contents out.old ++ canon self.now) }
        ensures err { OnErr result (AppendsPart (S.contents out.old) (S.contents out.new) (canon self.now)) }
    {
        match &self.inner {
            None => {
                out.put(&[self.parts.mask()])?;
                self.parts.emit(out)
            }
            Some(inner) => {
                out.put(&[self.parts.mask() + 0x40])?;
                self.parts.emit(out)?;
                inner.put(out)
            }
        }
    }

    pub(crate) fn size(&self) -> u64
        ensures length { result ≡ length (canon self.now) }
        ensures bound { result ≤ 2147483672 * depth self.now }
        ensures value { IsDiagnostic self.now }
    {
        let own = 1 + self.parts.len();
        match &self.inner {
            None => own,
            Some(inner) => own + inner.size(),
        }
    }

    pub(crate) fn copied(&self) -> Result<DiagnosticInfo, NoMemory>
        ensures { IfOk result (λ v. v ≡ self.now) }
    {
        let levels = self.depth();
        let parts = self.parts.copy()?;
        match &self.inner {
            None => Ok(DiagnosticInfo {
                levels,
                parts,
                inner: None,
            }),
            Some(inner) => {
                let inner = Box::new(*Box::allocator(inner), inner.copied()?)?;
                Ok(DiagnosticInfo {
                    levels,
                    parts,
                    inner: Some(inner),
                })
            }
        }
    }

    /// The one at the front that is at most so deep, and what follows it.
    #[tactic(auto, using(crate::proofs::DiagnosticSteps::one_level, crate::proofs::DiagnosticSteps::no_level))]
    pub(crate) fn read_within(
        alloc: Global,
        input: &[u8],
        allowance: u8,
    ) -> Result<(DiagnosticInfo, &[u8]), ReadFault>
        requires short { length input.now ≤ input_limit }
        requires allowed { allowance ≤ deepest }
        ensures gives { Gives (λ x. (x.0, x.1.now)) result ((within allowance).front input.now) }
        ensures shorter { IfOk result (λ x. length x.1.now ≤ length input.now) }
        ensures depth { IfOk result (λ x. depth x.0 ≤ allowance) }
    {
        if allowance == 0 {
            return Err(ReadFault::Refused);
        }
        let [mask, rest @ ..] = input else {
            return Err(ReadFault::Refused);
        };
        let mask = *mask;
        if mask >= 128 {
            return Err(ReadFault::Refused);
        }
        let (parts, rest) = DiagnosticParts::read_behind(alloc, mask, rest)?;
        let has_inner = mask & 0x40 != 0;
        if !has_inner {
            return Ok((DiagnosticInfo::plain(parts), rest));
        }
        let (inner, rest) = DiagnosticInfo::read_within(alloc, rest, allowance - 1)?;
        Ok((DiagnosticInfo::around(alloc, parts, inner)?, rest))
    }
}

impl DiagnosticInfo {
    /// What `read_within` gives. One that says nothing, as nearly all do, takes a short way.
    pub(crate) fn front_within(
        alloc: Global,
        input: &[u8],
        allowance: u8,
    ) -> Result<(DiagnosticInfo, &[u8]), ReadFault>
        requires short { length input.now ≤ input_limit }
        requires allowed { allowance ≤ deepest }
        ensures gives { Gives (λ x. (x.0, x.1.now)) result ((within allowance).front input.now) }
        ensures shorter { IfOk result (λ x. length x.1.now ≤ length input.now) }
        ensures depth { IfOk result (λ x. depth x.0 ≤ allowance) }
    {
        if let [mask, rest @ ..] = input {
            if *mask == 0 && allowance > 0 {
                return Ok((DiagnosticInfo::empty(), rest));
            }
        }
        DiagnosticInfo::read_within(alloc, input, allowance)
    }
}

#[tactic(auto, unfolding(crate::specs::Diagnostic::diagnostic))]
impl Wire for DiagnosticInfo {
    ghost format = { diagnostic };

    ghost most = { 100 * 2147483672 };

    ghost Grows = { Unit {0} };

    fn len(&self) -> u64 {
        self.size()
    }

    fn emit<S: Sink>(&self, out: &mut S) -> Result<(), NoMemory> {
        self.put(out)
    }

    fn copy(&self) -> Result<DiagnosticInfo, NoMemory> {
        self.copied()
    }

    fn read_front(alloc: Global, input: &[u8]) -> Result<(DiagnosticInfo, &[u8]), ReadFault> {
        DiagnosticInfo::front_within(alloc, input, allowance())
    }

    ghost laws = { lawful_diagnostic };
}

impl DiagnosticInfo {
    /// The one with these parts, around `inner` where there is one (OPC 10000-6, 5.2.2.12). A null
    /// `additional_info` is an absent one.
    ///
    /// # Errors
    ///
    /// `TooDeep` exactly where `inner` is nested 100 deep already; else `NoMemory` where the room
    /// for `inner` is refused. All parts are then dropped. Without `inner` no fault comes.
    pub fn new(
        alloc: Global,
        symbolic_id: Option<i32>,
        namespace_uri: Option<i32>,
        locale: Option<i32>,
        localized_text: Option<i32>,
        additional_info: UaString,
        inner_status: Option<StatusCode>,
        inner: Option<DiagnosticInfo>,
    ) -> Result<DiagnosticInfo, VariantFault>
        ensures ok { IfOk result (λ v. v ≡ diagnostic_of (of_row (symbolic_id, (namespace_uri, (locale, (localized_text, (additional_info, inner_status)))))) inner) }
        ensures too_deep { IsErrOf result VariantFault.TooDeep ↔ IsFull inner }
        ensures faults { IfErr result (λ e. (e ≡ VariantFault.TooDeep) ⊎ (e ≡ VariantFault.NoMemory)) }
        ensures plain { inner ≡ None → IsOk result }
    {
        let parts = DiagnosticParts {
            symbolic_id,
            namespace_uri,
            locale,
            localized_text,
            additional_info,
            inner_status,
        };
        match inner {
            None => Ok(DiagnosticInfo::plain(parts)),
            Some(inner) => {
                if inner.depth() >= DEEPEST {
                    return Err(VariantFault::TooDeep);
                }
                Ok(DiagnosticInfo::around(alloc, parts, inner)?)
            }
        }
    }

    /// The one that says nothing. It takes no memory.
    pub fn empty() -> DiagnosticInfo
        ensures { result ≡ diagnostic_of (of_row (None, (None, (None, (None, (None, None)))))) None }
    {
        DiagnosticInfo::plain(DiagnosticParts::none())
    }

    /// What it says and the diagnostics of the error below it, which takes no memory.
    pub fn into_parts(self) -> (DiagnosticParts, Option<DiagnosticInfo>)
        ensures parts { result.0 ≡ parts_of self }
        ensures inner { result.1 ≡ inner_of self }
    {
        let DiagnosticInfo {
            levels: _,
            parts,
            inner,
        } = self;
        match inner {
            None => (parts, None),
            Some(inner) => (parts, Some(Box::into_inner(inner))),
        }
    }

    /// What it says, beside the inner one.
    pub fn parts(&self) -> &DiagnosticParts
        ensures { result.now ≡ parts_of self.now }
    {
        &self.parts
    }

    /// The diagnostics of the error below it.
    pub fn inner(&self) -> Option<&DiagnosticInfo>
        ensures { option_copied result ≡ inner_of self.now }
    {
        match &self.inner {
            None => None,
            Some(inner) => Some(inner),
        }
    }
}
