//! Requests of other services.

ghost use Rattle.std.specs.Prelude.{◌≡◌, ◌++◌, length, IfOk, OnOk, OnErr};
ghost use Rattle.ua_value.specs.Format.{AppendsPart};
ghost use Rattle.ua_service.specs.OtherFields.{IsOtherId, IsOther, canon_other};

use crate::headers::RequestHeader;
use std::marker::Model;
use ua_value::plumbing::{Parts, Raw};
use ua_value::{NoMemory, NodeId, Sink, Wire};

/// A request of a service that is read no further than its header. Its id is none of those that
/// `Request` has a case for.
#[derive(Debug, Drop)]
pub struct OtherRequest {
    type_id: NodeId,
    header: RequestHeader,
    rest: Vec<u8>,
}

impl Model for OtherRequest {
    ghost use Rattle.ua_service.specs.OtherFields.{OtherFields, IsOtherId};

    ghost Value = { OtherFields };

    ghost view = { λ a. record { type_id = a.type_id; header = a.header; rest = a.rest.items } };

    ghost invariant = { λ a. IsOtherId a.type_id };
}

impl OtherRequest {
    pub(crate) fn new(type_id: NodeId, header: RequestHeader, rest: Vec<u8>) -> OtherRequest
        requires { IsOtherId type_id }
        ensures type_id { result.type_id ≡ type_id }
        ensures header { result.header ≡ header }
        ensures rest { result.rest ≡ rest.items }
    {
        OtherRequest {
            type_id,
            header,
            rest,
        }
    }

    /// The id of the request's encoding.
    pub fn type_id(&self) -> &NodeId
        ensures id { result.now ≡ self.now.type_id }
        ensures other { IsOtherId self.now.type_id }
    {
        &self.type_id
    }

    /// The request's header.
    pub fn header(&self) -> &RequestHeader
        ensures { result.now ≡ self.now.header }
    {
        &self.header
    }

    /// The bytes behind the header, as they came.
    pub fn rest(&self) -> &[u8]
        ensures { result.now ≡ self.now.rest }
    {
        self.rest.as_slice()
    }

    /// Its id, its header and the bytes behind the header.
    pub fn into_parts(self) -> (NodeId, RequestHeader, Vec<u8>)
        ensures type_id { result.0 ≡ self.type_id }
        ensures header { result.1 ≡ self.header }
        ensures rest { result.2.items ≡ self.rest }
    {
        (self.type_id, self.header, self.rest)
    }

    pub(crate) fn copy(&self) -> Result<OtherRequest, NoMemory>
        ensures { IfOk result (λ v. v ≡ self.now) }
    {
        let type_id = self.type_id.copy()?;
        let rest = self.rest.clone()?;
        let header = self.header.copy()?;
        Ok(OtherRequest {
            type_id,
            header,
            rest,
        })
    }

    pub(crate) fn body_len(&self) -> u64
        ensures length { result ≡ length (canon_other self.now) }
        ensures value { IsOther self.now }
    {
        self.type_id.len() + self.header.len() + self.rest.len() as u64
    }

    /// Puts the canonical body, or a beginning of it where memory runs out.
    pub(crate) fn emit_body<S: Sink>(&self, out: &mut S) -> Result<(), NoMemory>
        ensures ok { OnOk result (S.contents out.new ≡ S.contents out.old ++ canon_other self.now) }
        ensures err { OnErr result (AppendsPart (S.contents out.old) (S.contents out.new) (canon_other self.now)) }
    {
        (self.type_id(), (&self.header, Raw { bytes: self.rest() })).emit_parts(out)
    }
}
