//! Frames that open the channel, or renew its token.

ghost use Rattle.std.specs.Prelude.{◌≡◌, ◌<◌, ◌≤◌, ◌^◌, ◌∷◌, [], ◌++◌, length, is_some, Some, None, List, IfOk, IfErr};
ghost use Rattle.std.specs.Int.{w32, w64, to_le_bytes};
ghost use Rattle.ua_value.specs.Text.{null};
ghost use Rattle.ua_chunk.specs.Layout.{open_chunk_of};
ghost use Rattle.ua_chunk.specs.Assembly.{half_of};
ghost use Rattle.ua_channel.specs.Channel.{numbered};
ghost use Rattle.ua_channel.specs.Admission.{admit_open_rows};
ghost use Rattle.ua_service.specs.ChannelMessages.{open_of};
ghost use Rattle.ua_service.specs.declared.request.Request.{Request as Asked};
ghost use Rattle.ua_conn.specs.server.Answers.{opened_body};
ghost use Rattle.ua_conn.specs.server.Opening.{asked_rows, Grants};
ghost use Rattle.ua_conn.specs.server.Effects.{open_effect, Does, Judges};

use crate::content::opening_of;
use crate::server::connection::Connection;
use crate::server::fault::Fault;
use std::alloc::Global;
use ua_channel::{Issued, ServerChannel};
use ua_chunk::{Assembly, OpenChunk, Sequence, write_open};
use ua_frame::status::BAD_TCP_MESSAGE_TYPE_INVALID;
use ua_frame::{Frame, Kind, VERSION};
use ua_service::encoding::OPEN_RESPONSE;
use ua_service::{read_open, response_head};
use ua_value::plumbing::let_go;

/// The status of what went well.
const GOOD: u32 = 0;

/// What an open request is granted, and the handle that it gave itself.
#[derive(Clone, Copy)]
struct Granted {
    token: u32,
    lifetime: u32,
    handle: u32,
}

/// Admits an OPN, which comes between two messages.
fn admit(channel: &mut ServerChannel, half: &Assembly, opening: &OpenChunk) -> Result<(), Fault>
    ensures judged { Judges (admit_open_rows channel.old.channel opening.now ++ (is_some (half_of half.now), 0x807E0000) ∷ [])
        (λ _. channel.new ≡ record { channel = numbered channel.old.channel opening.now.sequence; moment = channel.old.moment }) result }
    ensures id { channel.new.channel.id ≡ channel.old.channel.id }
    ensures moment { channel.new.moment ≡ channel.old.moment }
{
    channel.admit_open(opening)?;
    if half.half().is_some() {
        return Err(Fault::Refused(BAD_TCP_MESSAGE_TYPE_INVALID));
    }
    Ok(())
}

/// Issues a token to the open request with this body.
fn grant(
    alloc: Global,
    channel: &mut ServerChannel,
    body: &[u8],
    now: u64,
) -> Result<Granted, Fault>
    requires short { length body.now < 2 ^ 32 }
    requires stamp { now < 2 ^ 63 }
    requires later { channel.old.moment ≤ now }
    ensures judged { Judges (asked_rows channel.old.channel (open_of body.now))
        (λ granted. Grants channel.old channel.new now (open_of body.now) granted) result }
    ensures id { channel.new.channel.id ≡ channel.old.channel.id }
    ensures moment { channel.new.moment ≤ now }
{
    let request = read_open(alloc, body)?;
    let handle = request.header.request_handle;
    let issued = channel.issue(&request, now as i64);
    let_go(request);
    let Issued { token, lifetime } = issued?;
    Ok(Granted {
        token,
        lifetime,
        handle,
    })
}

/// What the answer to an open request has behind its header: the version, the ids of the channel and of the token, the
/// moment and the lifetime, and no nonce.
fn opened_fields(channel: u32, granted: Granted, now: u64) -> [u8; 28]
    requires { now < 2 ^ 63 }
    ensures { result ≡ to_le_bytes w32 0 ++ to_le_bytes w32 channel ++ to_le_bytes w32 granted.token ++ to_le_bytes w64 now ++ to_le_bytes w32 granted.lifetime ++ null }
{
    let [v0, v1, v2, v3] = VERSION.to_le_bytes();
    let [c0, c1, c2, c3] = channel.to_le_bytes();
    let [t0, t1, t2, t3] = granted.token.to_le_bytes();
    let [m0, m1, m2, m3, m4, m5, m6, m7] = now.to_le_bytes();
    let [l0, l1, l2, l3] = granted.lifetime.to_le_bytes();
    [
        v0, v1, v2, v3, c0, c1, c2, c3, t0, t1, t2, t3, m0, m1, m2, m3, m4, m5, m6, m7, l0, l1, l2,
        l3, 255, 255, 255, 255,
    ]
}

/// The body of the answer to an open request, whose length never changes. OPC 10000-4, 5.6.2.
#[tactic(auto, unfolding(crate::specs::server::Answers::opened_body, ua_service::specs::Message::message, ua_service::specs::Channel::open_response, ua_value::specs::Number::unsigned, ua_value::specs::Number::signed, ua_value::specs::Date::date_time, ua_value::specs::Text::bytes_of))]
fn opened_body(channel: u32, granted: Granted, now: u64) -> [u8; 56]
    requires { now < 2 ^ 63 }
    ensures { result ≡ opened_body granted.handle now channel (record { id = granted.token; issued = now; lifetime = granted.lifetime }) }
{
    let mut body = [0; 56];
    let (head, fields) = body.split_at_mut(28);
    head.copy_from_slice(&response_head(OPEN_RESPONSE, now as i64, granted.handle, GOOD));
    fields.copy_from_slice(&opened_fields(channel, granted, now));
    body
}

impl<'a> Connection<'a> {
    /// Opens the channel or renews its token. OPC 10000-4, 5.6.2; OPC 10000-6, 6.7.2.3 and 6.7.4.
    #[inline(never)]
    pub(crate) fn issue(&mut self, frame: &Frame, now: u64, out: &mut Vec<u8>) -> Result<(), Fault>
        requires kind { frame.now.kind ≡ Kind.Open }
        requires stamp { now < 2 ^ 63 }
        requires later { self.old.moment ≤ now }
        ensures does { (asked : List Asked) → Does (open_effect self.old.site self.old.known now (open_chunk_of frame.now.fields)) self.old self.new
            (record { bytes = out.old.items; asked = asked }) (record { bytes = out.new.items; asked = asked }) result }
        ensures moment { self.new.moment ≤ now }
        ensures site { self.new.site ≡ self.old.site }
    {
        let opening = opening_of(frame)?;
        admit(&mut self.channel, &self.half, &opening)?;
        let granted = grant(self.alloc, &mut self.channel, opening.body(), now)?;
        let body = opened_body(self.id, granted, now);
        write_open(self.id, opening.request_id(), &body, &mut self.next, out)?;
        Ok(())
    }
}
