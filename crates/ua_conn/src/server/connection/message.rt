//! The parts of requests, and what is said to a whole one.

ghost use Rattle.std.specs.Prelude.{◌≡◌, ◌<◌, ◌≤◌, ◌^◌, ◌++◌, ◌∷◌, [], length, List, ℕ, false, is_none, is_ok, if◌then◌else◌};
ghost use Rattle.ua_value.specs.Format.{input_limit};
ghost use Rattle.ua_frame.specs.declared.kind.Kind.TheVariants as kinds;
ghost use Rattle.ua_service.specs.Requests.{request_of};
ghost use Rattle.ua_chunk.specs.Half.{body_of};
ghost use Rattle.ua_chunk.specs.Layout.{chunk_of};
ghost use Rattle.ua_chunk.specs.Numbers.{number_after};
ghost use Rattle.ua_chunk.specs.NumberLaws.{IsNumber};
ghost use Rattle.ua_chunk.specs.Written.{message_frames};
ghost use Rattle.ua_conn.specs.server.Answers.{answer_body};
ghost use Rattle.ua_conn.specs.server.Ranges.{IsBuffer};
ghost use Rattle.ua_conn.specs.server.Replies.{is_over_limits, answer_parts};
ghost use Rattle.ua_conn.specs.server.Effects.{message_effect, Does, Judges};
ghost use Rattle.ua_conn.specs.server.Parts.{gathered_rows, Gathers};

use crate::limits::is_over;
use crate::server::agreed::Agreed;
use crate::server::answers::answer_to;
use crate::server::connection::Connection;
use crate::server::connection::admission::admitted_chunk;
use crate::server::fault::Fault;
use crate::status::BAD_RESPONSE_TOO_LARGE;
use std::alloc::Global;
use ua_chunk::{
    Added, Assembly, CHUNK_HEADER, Chunk, Head, Sequence, chunk_count, write_abort, write_measured,
};
use ua_disco::Settings;
use ua_frame::{Frame, Kind};
use ua_service::{Request, read_request};
use ua_value::plumbing::let_go;
use ua_value::{Emit, NoMemory};

/// The request of which the bytes are the body.
fn request_in(alloc: Global, body: &[u8]) -> Result<Option<Request>, Fault>
    requires short { length body.now ≤ input_limit }
    ensures judged { Judges ((is_none (request_of body.now), 0x80070000) ∷ []) (λ request. request ≡ request_of body.now) result }
{
    match read_request(alloc, body) {
        Ok(request) => Ok(Some(request)),
        Err(fault) => Err(Fault::from(fault)),
    }
}

/// Puts a part to those before it. The result is the request that it makes whole, if any: one that comes in one part is
/// read where it stands.
fn gather(alloc: Global, half: &mut Assembly, chunk: &Chunk) -> Result<Option<Request>, Fault>
    requires message { chunk.now.kind ≡ kinds.Message }
    requires between { half.old.whole ≡ false }
    requires short { half.old.max_message < 2 ^ 32 }
    ensures judged { Judges (gathered_rows half.old chunk.now) (λ request. Gathers half.old half.new chunk.now request) result }
    ensures whole { half.new.whole ≡ false }
    ensures max_message { half.new.max_message ≡ half.old.max_message }
    ensures max_chunks { half.new.max_chunks ≡ half.old.max_chunks }
    ensures bytes { length (body_of half.new.half) ≤ half.new.max_message }
{
    if let Some(body) = half.whole_in(chunk) {
        return request_in(alloc, body);
    }
    if half.add(chunk)? != Added::Whole {
        return Ok(None);
    }
    let read = request_in(alloc, half.body());
    half.clear();
    read
}

/// Whether an answer of this length is larger than the client takes. OPC 10000-6, 7.1.2.3.
fn is_too_large(agreed: &Agreed, len: u64) -> bool
    requires { IsBuffer agreed.now.ack.send }
    ensures { (answer : List ℕ) → len ≡ length answer → result ≡ is_over_limits agreed.now answer }
{
    is_over(agreed.answer_bytes, len)
        || is_over(
            agreed.answer_parts,
            chunk_count(len, agreed.ack.send - CHUNK_HEADER),
        )
}

/// Says an answer in parts, or gives it up where it is larger than the client takes. OPC 10000-6, 6.7.2 and 6.7.3.
#[inline(never)]
fn say<M: Emit>(
    agreed: &Agreed,
    head: &Head,
    answer: &M,
    next: &mut Sequence,
    out: &mut Vec<u8>,
) -> Result<(), NoMemory>
    requires send { IsBuffer agreed.now.ack.send }
    requires number { IsNumber next.old }
    ensures said { out.new.items ≡ (if is_ok result then out.old.items ++ message_frames head.now.channel head.now.token next.old 0 (answer_parts agreed.now head.now.request_id (M.spelling answer.now)) else out.old.items) }
    ensures numbered { next.new ≡ (if is_ok result then number_after next.old (length (answer_parts agreed.now head.now.request_id (M.spelling answer.now))) else next.old) }
{
    let len = answer.emit_len();
    if is_too_large(agreed, len) {
        return write_abort(
            head.channel,
            head.token,
            head.request_id,
            BAD_RESPONSE_TOO_LARGE,
            next,
            out,
        );
    }
    write_measured(answer, len, head, agreed.ack.send - CHUNK_HEADER, next, out)
}

/// Says the answer to a request, and hands the request on. The answer is lent from the settings and the request, and
/// after `NoMemory` neither is said nor handed on. OPC 10000-4, 5.5 and 7.35.
#[inline(never)]
fn hand_on(
    agreed: &Agreed,
    head: &Head,
    settings: &Settings,
    request: Request,
    now: u64,
    next: &mut Sequence,
    asked: &mut Vec<Request>,
    out: &mut Vec<u8>,
) -> Result<(), NoMemory>
    requires stamp { now < 2 ^ 63 }
    requires send { IsBuffer agreed.now.ack.send }
    requires number { IsNumber next.old }
    ensures said { out.new.items ≡ (if is_ok result then out.old.items ++ message_frames head.now.channel head.now.token next.old 0 (answer_parts agreed.now head.now.request_id (answer_body settings.now request now)) else out.old.items) }
    ensures numbered { next.new ≡ (if is_ok result then number_after next.old (length (answer_parts agreed.now head.now.request_id (answer_body settings.now request now))) else next.old) }
    ensures asked { asked.new.items ≡ (if is_ok result then asked.old.items ++ request ∷ [] else asked.old.items) }
{
    let room = asked.reserve(1);
    let said = match room {
        Ok(()) => say(agreed, head, &answer_to(settings, &request, now), next, out),
        Err(e) => Err(e),
    };
    match said {
        Ok(()) => {
            asked.push_reserved(request);
            Ok(())
        }
        Err(e) => {
            let_go(request);
            Err(e)
        }
    }
}

impl<'a> Connection<'a> {
    /// Takes a part of a request, and answers a whole one. OPC 10000-6, 6.7.2 and 6.7.3; OPC 10000-4, 7.35.
    pub(crate) fn message(
        &mut self,
        frame: &Frame,
        now: u64,
        asked: &mut Vec<Request>,
        out: &mut Vec<u8>,
    ) -> Result<(), Fault>
        requires kind { frame.now.kind ≡ Kind.Message }
        requires stamp { now < 2 ^ 63 }
        requires later { self.old.moment ≤ now }
        ensures does { Does (message_effect self.old.site self.old.known now frame.now.flag (chunk_of frame.now.fields)) self.old self.new
            (record { bytes = out.old.items; asked = asked.old.items }) (record { bytes = out.new.items; asked = asked.new.items }) result }
        ensures moment { self.new.moment ≤ now }
        ensures site { self.new.site ≡ self.old.site }
    {
        let chunk = admitted_chunk(&mut self.channel, frame, now)?;
        let request = match gather(self.alloc, &mut self.half, &chunk) {
            Ok(Some(request)) => request,
            Ok(None) => return Ok(()),
            Err(fault) => return Err(fault),
        };
        // No stream comes here without a Hello: before one, and before an OPN, a MSG is refused by its type.
        let Some(agreed) = self.agreed else {
            asked.push(request)?;
            return Ok(());
        };
        let head = Head {
            channel: self.id,
            token: self.channel.sending_token().unwrap(),
            request_id: chunk.request_id(),
        };
        hand_on(
            &agreed,
            &head,
            self.settings,
            request,
            now,
            &mut self.next,
            asked,
            out,
        )?;
        Ok(())
    }
}
