//! Where in a capture of many connections a line comes from.

ghost use Rattle.std.specs.Prelude.{OnOk};
ghost use Rattle.ua_json.specs.Nesting.{AddsMembers};

use crate::line::Line;
use crate::moment::Moment;
use ua_value::NoMemory;

/// Which end of a connection sent something.
#[derive(Clone, Copy, Debug, PartialEq, Eq)]
pub enum Sender {
    /// The end that opened the connection.
    Client,
    /// The other end.
    Server,
}

/// Where in a capture of many connections a line comes from.
#[derive(Clone, Copy, Debug, PartialEq, Eq)]
pub struct Origin {
    /// The number of the connection.
    pub stream: usize,
    /// The end that sent it.
    pub sender: Sender,
    /// The moment in nanoseconds since 1970, where one is known.
    pub moment: Option<u64>,
}

/// A moment, or null where none is known.
pub(crate) fn put_moment(line: &mut Line, moment: Option<u64>) -> Result<(), NoMemory>
    ensures { OnOk result (AddsMembers line.old.json.tokens line.new.json.tokens) }
{
    line.key("Moment")?;
    match moment {
        Some(nanoseconds) => line.shown(&Moment(nanoseconds)),
        None => line.null(),
    }
}

fn sender_name(sender: Sender) -> &'static str {
    match sender {
        Sender::Client => "Client",
        Sender::Server => "Server",
    }
}

/// The fields of an origin, if there is one.
pub(crate) fn put_origin(line: &mut Line, origin: Option<Origin>) -> Result<(), NoMemory>
    ensures { OnOk result (AddsMembers line.old.json.tokens line.new.json.tokens) }
{
    match origin {
        Some(origin) => {
            line.count("Stream", origin.stream)?;
            line.key("From")?;
            line.text(sender_name(origin.sender))?;
            put_moment(line, origin.moment)
        }
        None => Ok(()),
    }
}
