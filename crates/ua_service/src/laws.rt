//! What holds of the bodies of every message. A caller names a law at its message and has the fact
//! in its proof; nothing runs.

ghost use Rattle.ua_service.specs.Message.{AgreeOn, HasOneMessage};
ghost use Rattle.ua_service.specs.MessageLaws.{IsLawfulMessage};

use crate::body::Body;

/// Bytes are a body of a message exactly where they are read as it, so they are the body of one at
/// most; what is written is a body of the message, and none is shorter.
pub fn bodies_are_read_as_their_messages<B: Body>()
    ensures agree { AgreeOn B.message }
    ensures one { HasOneMessage B.message }
    ensures lawful { IsLawfulMessage B.message }
{}
