//! A whole connection, from the client's bytes to the server's.

ghost use Rattle.std.specs.Prelude.{◌≡◌, ◌<◌, ◌++◌, [], Bool, true, false, List, Some, IfOk, IsErrOf, ◌↔◌, OnOk};
ghost use Rattle.ua_frame.specs.Streams.{moment_of as counted, pieces_of, timed};
ghost use Rattle.ua_service.specs.declared.request.Request.{Request as Asked};
ghost use Rattle.ua_conn.specs.server.Site.{Site};
ghost use Rattle.ua_conn.specs.server.Greeting.{reverse_fault};
ghost use Rattle.ua_conn.specs.server.Replies.{reply_bytes, end_of};
ghost use Rattle.ua_conn.specs.server.Replies as replies;
ghost use Rattle.ua_conn.specs.server.Feeding.{FeedsAll, Answering};

use crate::outcome::{End, Outcome};
use crate::server::greeting::ReverseFault;
use crate::server::{Fed, Server};
use std::alloc::{AllocError, Global};
use ua_disco::Settings;
use ua_service::Request;
use ua_value::NoMemory;
use ua_value::plumbing::let_go;

/// What becomes of the requests that a server hands on.
trait Requests: Drop {
    // these are all that were handed on, as far as they are kept
    ghost keeps: { Self → List Asked → Type 0 };

    /// Takes those of one more piece.
    ///
    /// # Errors
    ///
    /// `NoMemory` where a growth was refused.
    fn take(&mut self, more: Vec<Request>) -> Result<(), NoMemory>
        ensures { OnOk result ((asked : List Asked) → keeps self.old asked → keeps self.new (asked ++ more.items)) };
}

/// All requests, in their order.
#[derive(Drop)]
struct Kept {
    requests: Vec<Request>,
}

impl Requests for Kept {
    ghost keeps = { λ k asked. k.requests.items ≡ asked };

    fn take(&mut self, more: Vec<Request>) -> Result<(), NoMemory> {
        let mut more = more;
        let taken = self.requests.append(&mut more);
        let_go(more);
        taken
    }
}

/// No request: those of a piece go with it.
#[derive(Drop)]
struct LetGo;

impl Requests for LetGo {
    ghost keeps = { λ _ _. Unit {0} };

    fn take(&mut self, more: Vec<Request>) -> Result<(), NoMemory> {
        let_go(more);
        Ok(())
    }
}

/// Answers one more piece. The result is the end that it brings, if any.
fn answer_piece<T: Requests>(
    server: &mut Server,
    now: i64,
    piece: &[u8],
    reply: &mut Vec<u8>,
    handed: &mut T,
) -> Result<Option<End>, NoMemory>
    ensures { IfOk result (λ end. (asked : List Asked) × ((before : List Asked) → T.keeps handed.old before → T.keeps handed.new (before ++ asked))
        × FeedsAll server.old (record { moment = counted now; bytes = piece.now }) reply.old.items reply.new.items asked end server.new) }
{
    match server.feed(now, piece, reply) {
        Ok(Fed { requests, end }) => {
            handed.take(requests)?;
            Ok(end)
        }
        // No piece follows an end, so the only fault is want of memory.
        Err(_) => Err(AllocError),
    }
}

/// Answers the pieces, up to the first that brings an end. The result is how the connection ended.
fn answer_pieces<T: Requests>(
    server: &mut Server,
    pieces: &[(i64, &[u8])],
    reply: &mut Vec<u8>,
    handed: &mut T,
) -> Result<End, NoMemory>
    ensures reply { IfOk result (λ _. (reverse : Bool) (site : Site) (asked : List Asked) → T.keeps handed.old asked → Answering reverse site [] reply.old.items asked server.old →
        reply.new.items ≡ reply_bytes reverse site (timed (pieces_of pieces.now))) }
    ensures handed { IfOk result (λ _. (reverse : Bool) (site : Site) (asked : List Asked) → T.keeps handed.old asked → Answering reverse site [] reply.old.items asked server.old →
        T.keeps handed.new (replies.handed site (timed (pieces_of pieces.now)))) }
    ensures end { IfOk result (λ end. (reverse : Bool) (site : Site) (asked : List Asked) → T.keeps handed.old asked → Answering reverse site [] reply.old.items asked server.old →
        end ≡ end_of site (timed (pieces_of pieces.now))) }
{
    'pieces: for &(now, piece) in pieces {
        if let Some(end) = answer_piece(server, now, piece, reply, handed)? {
            return Ok(end);
        }
    }
    Ok(server.end_of_input())
}

/// What a server answers to the pieces that heard nothing yet and said this.
fn outcome_of(
    alloc: Global,
    server: Server,
    reply: Vec<u8>,
    pieces: &[(i64, &[u8])],
) -> Result<Outcome, NoMemory>
    ensures reply { IfOk result (λ outcome. (reverse : Bool) (site : Site) → Answering reverse site [] reply.items [] server.entry →
        outcome.reply.items ≡ reply_bytes reverse site (timed (pieces_of pieces.now))) }
    ensures handed { IfOk result (λ outcome. (reverse : Bool) (site : Site) → Answering reverse site [] reply.items [] server.entry →
        outcome.handed.items ≡ replies.handed site (timed (pieces_of pieces.now))) }
    ensures end { IfOk result (λ outcome. (reverse : Bool) (site : Site) → Answering reverse site [] reply.items [] server.entry →
        outcome.end ≡ end_of site (timed (pieces_of pieces.now))) }
{
    let mut server = server;
    let mut reply = reply;
    let mut handed = Kept {
        requests: Vec::new(alloc),
    };
    let answered = answer_pieces(&mut server, pieces, &mut reply, &mut handed);
    let_go(server);
    match answered {
        Ok(end) => Ok(Outcome {
            reply,
            handed: handed.requests,
            end,
        }),
        Err(e) => {
            let_go((reply, handed));
            Err(e)
        }
    }
}

/// The same without the requests.
fn reply_of(
    server: Server,
    reply: Vec<u8>,
    pieces: &[(i64, &[u8])],
) -> Result<(Vec<u8>, End), NoMemory>
    ensures reply { IfOk result (λ replied. (reverse : Bool) (site : Site) → Answering reverse site [] reply.items [] server.entry →
        replied.0.items ≡ reply_bytes reverse site (timed (pieces_of pieces.now))) }
    ensures end { IfOk result (λ replied. (reverse : Bool) (site : Site) → Answering reverse site [] reply.items [] server.entry →
        replied.1 ≡ end_of site (timed (pieces_of pieces.now))) }
{
    let mut server = server;
    let mut reply = reply;
    let mut handed = LetGo;
    let replied = answer_pieces(&mut server, pieces, &mut reply, &mut handed);
    let_go(server);
    match replied {
        Ok(end) => Ok((reply, end)),
        Err(e) => {
            let_go(reply);
            Err(e)
        }
    }
}

/// A server that opened the connection itself, and what it said.
fn opened(
    alloc: Global,
    settings: &Settings,
    channel_id: u32,
) -> Result<(Server<'_>, Vec<u8>), ReverseFault>
    requires { 0 < channel_id }
    ensures answering { IfOk result (λ o. let site : Site = record { settings = settings.now; channel = channel_id } in
        Answering true site [] o.1.items [] o.0) }
    ensures no_endpoint { IsErrOf result ReverseFault.NoEndpoint ↔ (reverse_fault settings.now ≡ Some ReverseFault.NoEndpoint) }
    ensures too_large { IsErrOf result ReverseFault.TooLarge ↔ (reverse_fault settings.now ≡ Some ReverseFault.TooLarge) }
{
    let mut said = Vec::new(alloc);
    match Server::new_reverse(alloc, settings, channel_id, &mut said) {
        Ok(server) => Ok((server, said)),
        Err(fault) => {
            let_go(said);
            Err(fault)
        }
    }
}

/// Answers a whole input, which came in these pieces, each with its moment: ticks of 100 ns since 1601-01-01 UTC. The
/// id of the channel is not 0. OPC 10000-6, 6.7 and 7.1.
///
/// The reply has the frames that the server writes, in order; the requests are those that the input makes whole, up to
/// the first frame that is refused or closes; the end says which of the two came, or whether a cut frame is left. All
/// are those of the stream of the bytes with their moments, however the input was cut into pieces.
///
/// # Errors
///
/// `NoMemory` where a growth was refused; nothing of the reply is given then.
pub fn answer_all(
    alloc: Global,
    settings: &Settings,
    channel_id: u32,
    pieces: &[(i64, &[u8])],
) -> Result<Outcome, NoMemory>
    requires { 0 < channel_id }
    ensures reply { IfOk result (λ outcome. let site : Site = record { settings = settings.now; channel = channel_id } in
        outcome.reply.items ≡ reply_bytes false site (timed (pieces_of pieces.now))) }
    ensures handed { IfOk result (λ outcome. let site : Site = record { settings = settings.now; channel = channel_id } in
        outcome.handed.items ≡ replies.handed site (timed (pieces_of pieces.now))) }
    ensures end { IfOk result (λ outcome. let site : Site = record { settings = settings.now; channel = channel_id } in
        outcome.end ≡ end_of site (timed (pieces_of pieces.now))) }
{
    let server = Server::new(alloc, settings, channel_id)?;
    let reply = Vec::new(alloc);
    match outcome_of(alloc, server, reply, pieces) {
        Ok(outcome) => Ok(outcome),
        Err(e) => Err(e),
    }
}

/// The reply and the end of [`answer_all`], for callers that do not look at the requests: those of a piece are let go
/// of with it, so that they are not all held at once. The pieces, their moments and the id of the channel are those of
/// `answer_all`. OPC 10000-6, 6.7 and 7.1.
///
/// # Errors
///
/// `NoMemory` where a growth was refused; nothing of the reply is given then.
pub fn reply_all(
    alloc: Global,
    settings: &Settings,
    channel_id: u32,
    pieces: &[(i64, &[u8])],
) -> Result<(Vec<u8>, End), NoMemory>
    requires { 0 < channel_id }
    ensures reply { IfOk result (λ replied. let site : Site = record { settings = settings.now; channel = channel_id } in
        replied.0.items ≡ reply_bytes false site (timed (pieces_of pieces.now))) }
    ensures end { IfOk result (λ replied. let site : Site = record { settings = settings.now; channel = channel_id } in
        replied.1 ≡ end_of site (timed (pieces_of pieces.now))) }
{
    let server = Server::new(alloc, settings, channel_id)?;
    let reply = Vec::new(alloc);
    match reply_of(server, reply, pieces) {
        Ok(replied) => Ok(replied),
        Err(e) => Err(e),
    }
}

/// The same as [`answer_all`] by a server that opened the connection itself: the reply begins with its ReverseHello.
/// OPC 10000-6, 7.1.2.6.
///
/// # Errors
///
/// The first of these that holds: `NoEndpoint` where the settings have none; `TooLarge` where the ReverseHello would
/// have more than 8192 bytes; `NoMemory` where a growth was refused. Nothing of the reply is given then.
pub fn answer_all_reverse(
    alloc: Global,
    settings: &Settings,
    channel_id: u32,
    pieces: &[(i64, &[u8])],
) -> Result<Outcome, ReverseFault>
    requires { 0 < channel_id }
    ensures reply { IfOk result (λ outcome. let site : Site = record { settings = settings.now; channel = channel_id } in
        outcome.reply.items ≡ reply_bytes true site (timed (pieces_of pieces.now))) }
    ensures handed { IfOk result (λ outcome. let site : Site = record { settings = settings.now; channel = channel_id } in
        outcome.handed.items ≡ replies.handed site (timed (pieces_of pieces.now))) }
    ensures end { IfOk result (λ outcome. let site : Site = record { settings = settings.now; channel = channel_id } in
        outcome.end ≡ end_of site (timed (pieces_of pieces.now))) }
    ensures no_endpoint { IsErrOf result ReverseFault.NoEndpoint ↔ (reverse_fault settings.now ≡ Some ReverseFault.NoEndpoint) }
    ensures too_large { IsErrOf result ReverseFault.TooLarge ↔ (reverse_fault settings.now ≡ Some ReverseFault.TooLarge) }
{
    let (server, reply) = opened(alloc, settings, channel_id)?;
    match outcome_of(alloc, server, reply, pieces) {
        Ok(outcome) => Ok(outcome),
        Err(_) => Err(ReverseFault::NoMemory),
    }
}

/// The reply and the end of [`answer_all_reverse`], for callers that do not look at the requests. OPC 10000-6, 7.1.2.6.
///
/// # Errors
///
/// Those of `answer_all_reverse`; nothing of the reply is given then.
pub fn reply_all_reverse(
    alloc: Global,
    settings: &Settings,
    channel_id: u32,
    pieces: &[(i64, &[u8])],
) -> Result<(Vec<u8>, End), ReverseFault>
    requires { 0 < channel_id }
    ensures reply { IfOk result (λ replied. let site : Site = record { settings = settings.now; channel = channel_id } in
        replied.0.items ≡ reply_bytes true site (timed (pieces_of pieces.now))) }
    ensures end { IfOk result (λ replied. let site : Site = record { settings = settings.now; channel = channel_id } in
        replied.1 ≡ end_of site (timed (pieces_of pieces.now))) }
    ensures no_endpoint { IsErrOf result ReverseFault.NoEndpoint ↔ (reverse_fault settings.now ≡ Some ReverseFault.NoEndpoint) }
    ensures too_large { IsErrOf result ReverseFault.TooLarge ↔ (reverse_fault settings.now ≡ Some ReverseFault.TooLarge) }
{
    let (server, reply) = opened(alloc, settings, channel_id)?;
    match reply_of(server, reply, pieces) {
        Ok(replied) => Ok(replied),
        Err(_) => Err(ReverseFault::NoMemory),
    }
}
