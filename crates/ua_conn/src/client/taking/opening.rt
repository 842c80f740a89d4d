//! The frames that open the channel, or renew its token.

ghost use Rattle.std.specs.Prelude.{◌≡◌, ◌<◌, ◌≤◌, ◌^◌, ◌∷◌, [], ◌++◌, ℕ, length, not, is_some, Some, None, List, IfOk, IfErr, OnOk, OnErr};
ghost use Rattle.ua_frame.specs.Rows.{first_row};
ghost use Rattle.ua_chunk.specs.Layout.{open_chunk_of};
ghost use Rattle.ua_chunk.specs.Assembly.{half_of};
ghost use Rattle.ua_channel.specs.Channel.{numbered};
ghost use Rattle.ua_channel.specs.ClientChannel.{admit_response_rows, opened_as};
ghost use Rattle.ua_service.specs.ChannelMessages.{open_response_of};
ghost use Rattle.ua_conn.specs.client.Faults.{is_id, response_rows};
ghost use Rattle.ua_conn.specs.client.Effects.{opening_effect, Does, Judges};
ghost use Rattle.ua_conn.specs.declared.client.answer.Answer.{Answer as Given};

use crate::client::connection::Connection;
use crate::client::fault::ClientFault;
use crate::content::opening_of;
use crate::status::BAD_UNKNOWN_RESPONSE;
use std::alloc::Global;
use ua_channel::ClientChannel;
use ua_channel::status::BAD_TCP_SECURE_CHANNEL_UNKNOWN;
use ua_chunk::{Assembly, OpenChunk};
use ua_frame::status::BAD_TCP_MESSAGE_TYPE_INVALID;
use ua_frame::{Frame, Kind};
use ua_service::{OpenResponse, read_open_response};
use ua_value::UaString;
use ua_value::plumbing::let_go;

/// The least status that is bad. OPC 10000-4, 7.39.1.
const BAD: u32 = 0x8000_0000;

/// Admits an OPN, which comes between two messages and answers the open request that is pending.
fn admit(
    channel: &mut ClientChannel,
    half: &Assembly,
    due: Option<u32>,
    opening: &OpenChunk,
) -> Result<(), u32>
    ensures refused { IfErr result (λ status. first_row (admit_response_rows channel.old.channel opening.now ++ (is_some (half_of half.now), 0x807E0000) ∷ (not (is_id due opening.now.request_id), 0x80090000) ∷ []) ≡ Some status) }
    ensures admitted { OnOk result (first_row (admit_response_rows channel.old.channel opening.now ++ (is_some (half_of half.now), 0x807E0000) ∷ (not (is_id due opening.now.request_id), 0x80090000) ∷ []) ≡ None) }
    ensures after { OnOk result (channel.new ≡ record { channel = numbered channel.old.channel opening.now.sequence; moment = channel.old.moment }) }
    ensures moment { channel.new.moment ≡ channel.old.moment }
{
    channel.admit_open(opening)?;
    if half.half().is_some() {
        return Err(BAD_TCP_MESSAGE_TYPE_INVALID);
    }
    if due != Some(opening.request_id()) {
        return Err(BAD_UNKNOWN_RESPONSE);
    }
    Ok(())
}

/// The open response of an OPN, where the service went well and names the same channel.
fn granted(alloc: Global, opening: &OpenChunk) -> Result<OpenResponse, ClientFault>
    requires short { length opening.now.body < 2 ^ 32 }
    ensures { Judges (response_rows opening.now.channel (open_response_of opening.now.body)) (λ response. open_response_of opening.now.body ≡ Some response) result }
{
    let response = read_open_response(alloc, opening.body())?;
    let status = response.header.service_result.0;
    if status >= BAD {
        let_go(response);
        return Err(ClientFault::ServerSaid(status, UaString::null()));
    }
    if response.channel_id != opening.channel() {
        let_go(response);
        return Err(ClientFault::Broken(BAD_TCP_SECURE_CHANNEL_UNKNOWN));
    }
    Ok(response)
}

/// Keeps the token that a response grants at `now`, and the id of the channel that its frame names.
fn keep(channel: &mut ClientChannel, opening: &OpenChunk, response: &OpenResponse, now: u64)
    requires stamp { now < 2 ^ 63 }
    requires later { channel.old.moment ≤ now }
    ensures { channel.new ≡ record { channel = opened_as opening.now.channel channel.old.channel response.now now; moment = now } }
{
    channel.opened(opening.channel(), response, now as i64);
}

impl Connection {
    /// Keeps the token that an open response grants. OPC 10000-4, 5.6.2; OPC 10000-6, 6.7.2.3 and 6.7.4.
    pub(crate) fn opening(&mut self, frame: &Frame, now: u64) -> Result<(), ClientFault>
        requires kind { frame.now.kind ≡ Kind.Open }
        requires stamp { now < 2 ^ 63 }
        requires later { self.old.moment ≤ now }
        ensures does { (bytes : List ℕ) (answers : List Given) → Does (opening_effect self.old.waits now (open_chunk_of frame.now.fields)) self.old self.new
            (record { bytes = bytes; answers = answers }) (record { bytes = bytes; answers = answers }) result }
        ensures moment { self.new.moment ≤ now }
        ensures config { self.new.config ≡ self.old.config }
    {
        let opening = opening_of(frame)?;
        admit(&mut self.channel, &self.half, self.due, &opening)?;
        let response = granted(self.alloc, &opening)?;
        keep(&mut self.channel, &opening, &response, now);
        let_go(response);
        self.due = None;
        Ok(())
    }
}
