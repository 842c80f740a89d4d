//! The parts of answers.

ghost use Rattle.std.specs.Prelude.{◌≡◌, ◌<◌, ◌≤◌, ◌^◌, ◌++◌, ◌∷◌, [], ℕ, length, true, false, not, Some, None, List, is_none, option_map, IfOk, IfErr, OnOk};
ghost use Rattle.ua_value.specs.Format.{input_limit};
ghost use Rattle.ua_frame.specs.Rows.{first_row};
ghost use Rattle.ua_frame.specs.declared.kind.Kind.TheVariants as kinds;
ghost use Rattle.ua_chunk.specs.Layout.{chunk_of};
ghost use Rattle.ua_chunk.specs.Assembly.{half_of};
ghost use Rattle.ua_chunk.specs.Half.{body_of, may_have_id, other_request_id};
ghost use Rattle.ua_service.specs.Responses.{response_of};
ghost use Rattle.ua_conn.specs.client.Faults.{broken, whole_rows, fits};
ghost use Rattle.ua_conn.specs.client.Machine.{waiting_under, without};
ghost use Rattle.ua_conn.specs.client.Parts.{IsHeard, IsAnswer, gathered_rows, Gathers};
ghost use Rattle.ua_conn.specs.client.Reading.{answer_with};
ghost use Rattle.ua_conn.specs.client.Effects.{answer_heard_rows, answer_effect, Does, Judges};

use crate::client::answer::{Answer, AnswerResult};
use crate::client::connection::Connection;
use crate::client::fault::ClientFault;
use crate::client::pending::Pending;
use crate::content::chunk_of;
use crate::lists::push;
use crate::status::BAD_UNKNOWN_RESPONSE;
use std::alloc::Global;
use ua_channel::ClientChannel;
use ua_chunk::{Added, Assembly, Chunk};
use ua_frame::status::BAD_TCP_MESSAGE_TYPE_INVALID;
use ua_frame::{Frame, Kind};
use ua_service::{Request, Response, read_response};
use ua_value::NoMemory;
use ua_value::plumbing::let_go;

/// Admits a MSG whose last byte came at `now`. OPC 10000-6, 6.7.2.3 and 6.7.2.4; OPC 10000-4, 5.6.2.1.
fn admitted_chunk<'a>(
    channel: &mut ClientChannel,
    frame: &Frame<'a>,
    now: u64,
) -> Result<Chunk<'a>, u32>
    requires kind { frame.now.kind ≡ Kind.Message }
    requires stamp { now < 2 ^ 63 }
    requires later { channel.old.moment ≤ now }
    ensures refused { IfErr result (λ status. first_row (answer_heard_rows channel.old.channel now (chunk_of frame.now.fields)) ≡ Some status) }
    ensures admitted { OnOk result (first_row (answer_heard_rows channel.old.channel now (chunk_of frame.now.fields)) ≡ None) }
    ensures heard { IfOk result (λ c. IsHeard channel.old channel.new frame.now now c) }
    ensures moment { channel.new.moment ≤ now }
{
    let chunk = chunk_of(frame)?;
    channel.admit(&chunk, now as i64)?;
    Ok(chunk)
}

/// Whether the response is one to such a request: that of its service, or a fault.
fn fits(request: &Request, response: &Response) -> bool
    ensures { result ≡ fits request.now response.now }
{
    match (request, response) {
        (_, Response::Fault(_)) => true,
        (Request::FindServers(_), Response::FindServers(_)) => true,
        (Request::GetEndpoints(_), Response::GetEndpoints(_)) => true,
        _ => false,
    }
}

/// The response of which the bytes are the body, where it answers the request.
fn read_answer(alloc: Global, body: &[u8], request: &Request) -> Result<Response, ClientFault>
    requires short { length body.now ≤ input_limit }
    ensures { Judges (broken (whole_rows (Some request.now) (response_of body.now))) (λ response. IsAnswer request.now body.now response) result }
{
    let response = read_response(alloc, body)?;
    if !fits(request, &response) {
        let_go(response);
        return Err(ClientFault::Broken(BAD_UNKNOWN_RESPONSE));
    }
    Ok(response)
}

/// Puts a part to those before it. The result is what came of the request, where the message ends: one that comes in one
/// part is read where it stands.
fn gather(
    alloc: Global,
    half: &mut Assembly,
    chunk: &Chunk,
    request: &Request,
) -> Result<Option<AnswerResult>, ClientFault>
    requires message { chunk.now.kind ≡ kinds.Message }
    requires between { half.old.whole ≡ false }
    requires short { half.old.max_message < 2 ^ 32 }
    requires same { may_have_id half.old.half chunk.now.chunk.request_id ≡ true }
    ensures judged { Judges (broken (gathered_rows half.old chunk.now request.now)) (λ came. Gathers half.old half.new chunk.now came) result }
    ensures whole { half.new.whole ≡ false }
    ensures max_message { half.new.max_message ≡ half.old.max_message }
    ensures max_chunks { half.new.max_chunks ≡ half.old.max_chunks }
    ensures bytes { length (body_of half.new.half) ≤ half.new.max_message }
{
    if let Some(body) = half.whole_in(chunk) {
        let response = read_answer(alloc, body, request)?;
        return Ok(Some(AnswerResult::Response(response)));
    }
    match half.add(chunk)? {
        Added::More => Ok(None),
        Added::Aborted { status } => Ok(Some(AnswerResult::Aborted(status))),
        Added::Whole => {
            let read = read_answer(alloc, half.body(), request);
            half.clear();
            Ok(Some(AnswerResult::Response(read?)))
        }
    }
}

/// Refuses a part of another message than the one that is half received.
fn same_message(half: &Assembly, id: u32) -> Result<(), u32>
    ensures refused { IfErr result (λ status. first_row (other_request_id (half_of half.now) id ∷ []) ≡ Some status) }
    ensures same { OnOk result (may_have_id (half_of half.now) id ≡ true) }
{
    match half.half() {
        Some(first) if first != id => Err(BAD_TCP_MESSAGE_TYPE_INVALID),
        _ => Ok(()),
    }
}

/// Hands out what came of the request that is pending under this id, which is no longer pending then.
fn hand_answer(
    pending: &mut Pending,
    id: u32,
    came: AnswerResult,
    answers: &mut Vec<Answer>,
) -> Result<(), NoMemory>
    ensures left { pending.new.requests ≡ without id pending.old.requests }
    ensures given { OnOk result (answers.new.items ≡ answers.old.items ++ answer_with id (waiting_under id pending.old.requests) (Some came)) }
{
    match pending.take(id) {
        Some(request) => {
            let answer = Answer {
                id,
                request,
                result: came,
            };
            push(answers, answer)
        }
        None => {
            let_go(came);
            Ok(())
        }
    }
}

impl Connection {
    /// Takes a part of an answer, and hands a whole one out. OPC 10000-6, 6.7.2 and 6.7.3; OPC 10000-4, 7.34.
    pub(crate) fn message(
        &mut self,
        frame: &Frame,
        now: u64,
        answers: &mut Vec<Answer>,
    ) -> Result<(), ClientFault>
        requires kind { frame.now.kind ≡ Kind.Message }
        requires stamp { now < 2 ^ 63 }
        requires later { self.old.moment ≤ now }
        ensures does { (bytes : List ℕ) → Does (answer_effect self.old.config self.old.waits now frame.now.flag (chunk_of frame.now.fields)) self.old self.new
            (record { bytes = bytes; answers = answers.old.items }) (record { bytes = bytes; answers = answers.new.items }) result }
        ensures moment { self.new.moment ≤ now }
        ensures config { self.new.config ≡ self.old.config }
    {
        let chunk = admitted_chunk(&mut self.channel, frame, now)?;
        let id = chunk.request_id();
        same_message(&self.half, id)?;
        let Some(request) = self.pending.get(id) else {
            return Err(ClientFault::Broken(BAD_UNKNOWN_RESPONSE));
        };
        let Some(came) = gather(self.alloc, &mut self.half, &chunk, request)? else {
            return Ok(());
        };
        hand_answer(&mut self.pending, id, came, answers)?;
        Ok(())
    }
}
