//! Ends of connections, as the command prints them and answers them with its exit status.

ghost use Rattle.std.specs.Prelude.{◌≡◌, Some};
ghost use Rattle.ua_command.specs.Answer.{end_text};
ghost use Rattle.ua_command.specs.End.{end_status};

use std::fmt;
use ua_conn::End;
use ua_print::Code;

/// How a connection ended, as the command prints it.
#[derive(Clone, Copy)]
pub struct Ending(pub End);

impl fmt::Display for Ending {
    ghost output = { λ e. Some (end_text e.0) };

    fn fmt<W: fmt::Write>(&self, f: &mut fmt::Formatter<W>) -> fmt::Result {
        match self.0 {
            End::Closed => f.write_str("closed"),
            End::InputEnded => f.write_str("input-ended"),
            End::Truncated => f.write_str("truncated"),
            End::Refused(status) => write!(f, "refused {}", Code(status)),
            End::LinkFailed => f.write_str("link-failed"),
            End::TurnsSpent => f.write_str("turns-spent"),
            End::NoMemory => f.write_str("memory"),
        }
    }
}

impl Ending {
    /// The exit status: 0 where a close came or the input ended behind a whole frame, 1 where a frame was refused or cut, 3
    /// where the link failed, 4 for want of memory.
    pub fn status(self) -> u8
        ensures { result ≡ end_status self.0 }
    {
        match self.0 {
            End::Closed | End::InputEnded | End::TurnsSpent => 0,
            End::Truncated | End::Refused(_) => 1,
            End::LinkFailed => 3,
            End::NoMemory => 4,
        }
    }
}
