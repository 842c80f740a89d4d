//! The first frame of a server.

ghost use Rattle.std.specs.Prelude.{◌≡◌, ◌<◌, ◌≤◌, ◌^◌, Some, List, true, IfOk};
ghost use Rattle.ua_frame.specs.Hello.{acknowledge_of};
ghost use Rattle.ua_conn.specs.server.Ranges.{IsBuffer};
ghost use Rattle.ua_conn.specs.client.Faults.{broken, acknowledge_rows};
ghost use Rattle.ua_conn.specs.client.Ranges.{IsAccepted};
ghost use Rattle.ua_conn.specs.client.Effects.{asker_with, acknowledge_effect, Does, Judges};
ghost use Rattle.ua_conn.specs.declared.client.answer.Answer.{Answer as Given};

use crate::client::config::ClientConfig;
use crate::client::connection::{Connection, FIRST_ID};
use crate::client::fault::ClientFault;
use crate::client::questions::{Asks, hello_to};
use ua_frame::status::BAD_TCP_NOT_ENOUGH_RESOURCES;
use ua_frame::{Ack, Frame, Kind, acceptable};
use ua_value::UaString;

/// The channel of an open request that opens one.
const NO_CHANNEL: u32 = 0;

/// The Acknowledge that a frame is, where it is acceptable.
fn agree(config: &ClientConfig, frame: &Frame) -> Result<Ack, ClientFault>
    requires kind { frame.now.kind ≡ Kind.Acknowledge }
    requires buffer { IsBuffer config.now.buffer }
    ensures { Judges (broken (acknowledge_rows (asker_with config.now) (acknowledge_of frame.now.fields))) (λ ack. (acknowledge_of frame.now.fields ≡ Some ack) × IsAccepted ack × (ack.send ≤ config.now.buffer)) result }
{
    let ack = Ack::read(frame)?;
    // (whatever url the Hello named)
    if !acceptable(&hello_to(config, UaString::null()), &ack) {
        return Err(ClientFault::Broken(BAD_TCP_NOT_ENOUGH_RESOURCES));
    }
    Ok(ack)
}

impl Connection {
    /// Takes the Acknowledge, and asks for a channel. OPC 10000-6, 7.1.2.4; OPC 10000-4, 5.6.2.
    pub(crate) fn acknowledge(
        &mut self,
        frame: &Frame,
        now: u64,
        out: &mut Vec<u8>,
    ) -> Result<(), ClientFault>
        requires kind { frame.now.kind ≡ Kind.Acknowledge }
        requires stamp { now < 2 ^ 63 }
        ensures does { (answers : List Given) → Does (acknowledge_effect self.old.config self.old.waits now (acknowledge_of frame.now.fields)) self.old self.new
            (record { bytes = out.old.items; answers = answers }) (record { bytes = out.new.items; answers = answers }) result }
        ensures moment { self.new.moment ≡ self.old.moment }
        ensures config { self.new.config ≡ self.old.config }
    {
        let ack = agree(&self.config, frame)?;
        self.ack = Some(ack);
        self.say_open(NO_CHANNEL, FIRST_ID, Asks::Issue, now, out)?;
        Ok(())
    }
}
