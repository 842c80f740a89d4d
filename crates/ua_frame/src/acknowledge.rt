//! The server's answer to a Hello.

ghost use Rattle.std.specs.Prelude.{◌≡◌, ◌++◌, is_ok, option_map, IfErr, if◌then◌else◌};
ghost use Rattle.ua_value.specs.Format.{Gives};
ghost use Rattle.ua_value.specs.Whole.{ReadsAll};

use crate::frame::Frame;
use crate::kind::Kind;
use crate::writing::write_frame;
use ua_value::plumbing::front_u32;
use ua_value::{NoMemory, ReadFault};

/// What the server agrees to, the `ACK` frame. OPC 10000-6, 7.1.2.4.
#[derive(Clone, Copy, Debug, PartialEq, Eq)]
pub struct Ack {
    /// The version of the connection protocol that the server speaks.
    pub version: u32,
    /// Bytes of the longest frame that the server takes.
    pub receive: u32,
    /// Bytes of the longest frame that the server sends.
    pub send: u32,
    /// Bytes of the longest request that the server takes, or 0 for no limit.
    pub max_message: u32,
    /// The most chunks of a request that the server takes, or 0 for no limit.
    pub max_chunks: u32,
}

/// Bytes of the fields.
const LEN: u32 = 20;

impl Ack {
    ghost use Rattle.ua_frame.specs.Hello.{acknowledge_layout, acknowledge_of, acknowledge_frame};

    /// The Acknowledge that the fields begin with, and what follows it.
    #[tactic(auto, unfolding(crate::specs::Hello::acknowledge_layout))]
    fn front(fields: &[u8]) -> Option<(Ack, &[u8])>
        ensures { option_map (λ p. (p.0, p.1.now)) result ≡ acknowledge_layout.grammar.front fields.now }
    {
        let (version, rest) = front_u32(fields)?;
        let (receive, rest) = front_u32(rest)?;
        let (send, rest) = front_u32(rest)?;
        let (max_message, rest) = front_u32(rest)?;
        let (max_chunks, rest) = front_u32(rest)?;
        let ack = Ack {
            version,
            receive,
            send,
            max_message,
            max_chunks,
        };
        Some((ack, rest))
    }

    /// The Acknowledge that the fields spell, all of them, if they spell one.
    fn whole(fields: &[u8]) -> Option<Ack>
        ensures { result ≡ acknowledge_of fields.now }
    {
        let (ack, rest) = Ack::front(fields)?;
        match rest {
            [] => Some(ack),
            _ => None,
        }
    }

    /// The same, refused where they spell none.
    fn of_fields(fields: &[u8]) -> Result<Ack, ReadFault>
        ensures spelled { ReadsAll acknowledge_layout.grammar.spells fields.now result }
        ensures exact { Gives (λ a. a) result (acknowledge_of fields.now) }
        ensures refused { IfErr result (λ fault. fault ≡ ReadFault.Refused) }
    {
        match Ack::whole(fields) {
            Some(ack) => Ok(ack),
            None => Err(ReadFault::Refused),
        }
    }

    /// The Acknowledge that a frame is. It takes no memory. OPC 10000-6, 7.1.2.4.
    ///
    /// # Errors
    ///
    /// `Refused` (status `BAD_DECODING_ERROR`) exactly where the frame is of another type, or its fields, all of them,
    /// spell no Acknowledge. No other fault comes.
    pub fn read(frame: &Frame) -> Result<Ack, ReadFault>
        // What is read is spelled so, and what is spelled so is not refused.
        ensures spelled { ReadsAll (λ a fields. (frame.now.kind ≡ Kind.Acknowledge) × acknowledge_layout.grammar.spells a fields) frame.now.fields result }

        // Which one it is.
        ensures exact { frame.now.kind ≡ Kind.Acknowledge → Gives (λ a. a) result (acknowledge_of frame.now.fields) }

        // Nothing else goes wrong.
        ensures refused { IfErr result (λ fault. fault ≡ ReadFault.Refused) }
    {
        match frame.kind() {
            Kind::Acknowledge => Ack::of_fields(frame.fields()),
            _ => Err(ReadFault::Refused),
        }
    }

    /// Appends the whole frame. OPC 10000-6, 7.1.2.4.
    ///
    /// # Errors
    ///
    /// `NoMemory` where the growth of `out` is refused; `out` is then unchanged.
    pub fn write(&self, out: &mut Vec<u8>) -> Result<(), NoMemory>
        ensures { out.new.items ≡ (if is_ok result then out.old.items ++ acknowledge_frame self.now else out.old.items) }
    {
        let limits = (&self.send, (&self.max_message, &self.max_chunks));
        write_frame(
            Kind::Acknowledge,
            LEN,
            &(&self.version, (&self.receive, limits)),
            out,
        )
    }
}
