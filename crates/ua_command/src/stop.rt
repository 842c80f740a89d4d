//! Why the command stops before it is done.

ghost use Rattle.std.specs.Prelude.{◌≡◌, OnOk, IfErr};
ghost use Rattle.std.specs.Io.KnownBytes.{Appends};
ghost use Rattle.ua_command.specs.Reverse.{reverse_number};
ghost use Rattle.ua_command.specs.Stop.{status_of, stop_text, stop_of_settings, stop_of_input, stop_of_script, stop_of_reverse};
ghost use Rattle.ua_command.specs.declared.stop.Stop.TheVariants.{NoMemory as OutOfMemory};

use crate::input::InputFault;
use crate::script::ScriptFault;
use std::alloc::{AllocError, AllocFailed};
use std::fmt;
use std::io::Write;
use ua_conn::ReverseFault;
use ua_disco::SettingsFault;

/// Why the command stops.
#[derive(Debug, Drop)]
pub enum Stop {
    /// The words are no command; this is the text to print.
    Words(String),
    /// The settings are refused with this fault.
    Settings(SettingsFault),
    /// The line of this number is none, the first line having 1.
    Line(u64),
    /// A server by the settings can't open a connection, for this reason.
    Reverse(ReverseFault),
    /// A read or a write failed.
    File,
    /// A link failed, or there is none.
    Link,
    /// A growth was refused.
    NoMemory,
}

impl Stop {
    /// The exit status.
    pub fn status(&self) -> u8
        ensures { result ≡ status_of self.now }
    {
        match self {
            Stop::Settings(_) | Stop::Line(_) | Stop::Reverse(_) => 1,
            Stop::Words(_) => 2,
            Stop::File | Stop::Link => 3,
            Stop::NoMemory => 4,
        }
    }
}

/// The number of a reason why a server can't open a connection.
fn number_of(fault: ReverseFault) -> u8
    ensures { result ≡ reverse_number fault }
{
    match fault {
        ReverseFault::NoEndpoint => 1,
        ReverseFault::TooLarge => 2,
        ReverseFault::NoMemory => 3,
    }
}

impl fmt::Display for Stop {
    ghost output = { λ stop. stop_text stop };

    fn fmt<W: fmt::Write>(&self, f: &mut fmt::Formatter<W>) -> fmt::Result {
        match self {
            Stop::Words(text) => write!(f, "{text}"),
            Stop::Settings(fault) => writeln!(f, "{fault}"),
            Stop::Line(number) => writeln!(f, "line {number}"),
            Stop::Reverse(fault) => writeln!(f, "reverse {}", number_of(*fault)),
            Stop::File => writeln!(f, "file"),
            Stop::Link => writeln!(f, "link"),
            Stop::NoMemory => writeln!(f, "memory"),
        }
    }
}

impl From<AllocError> for Stop {
    ghost from_gives = { λ _ e. e ≡ OutOfMemory };

    fn from(_e: AllocError) -> Stop {
        Stop::NoMemory
    }
}

impl<T: Drop> From<AllocFailed<T>> for Stop {
    ghost from_gives = { λ _ e. e ≡ OutOfMemory };

    fn from(_e: AllocFailed<T>) -> Stop {
        Stop::NoMemory
    }
}

impl From<SettingsFault> for Stop {
    ghost from_gives = { λ fault e. e ≡ stop_of_settings fault };

    fn from(fault: SettingsFault) -> Stop {
        match fault {
            SettingsFault::NoMemory => Stop::NoMemory,
            fault => Stop::Settings(fault),
        }
    }
}

impl From<InputFault> for Stop {
    ghost from_gives = { λ fault e. e ≡ stop_of_input fault };

    fn from(fault: InputFault) -> Stop {
        match fault {
            InputFault::Failed => Stop::File,
            InputFault::NoMemory => Stop::NoMemory,
        }
    }
}

impl From<ScriptFault> for Stop {
    ghost from_gives = { λ fault e. e ≡ stop_of_script fault };

    fn from(fault: ScriptFault) -> Stop {
        match fault {
            ScriptFault::BadLine(number) => Stop::Line(number),
            ScriptFault::NoMemory => Stop::NoMemory,
        }
    }
}

impl From<ReverseFault> for Stop {
    ghost from_gives = { λ fault e. e ≡ stop_of_reverse fault };

    fn from(fault: ReverseFault) -> Stop {
        match fault {
            ReverseFault::NoMemory => Stop::NoMemory,
            fault => Stop::Reverse(fault),
        }
    }
}

/// Prints a text, whole or with a failed write. After an error a beginning of it may stand there.
pub fn print<O: Write>(output: &mut O, text: &str) -> Result<(), Stop>
    ensures ok { OnOk result (Appends (O.contents output.old) (O.contents output.new) text.now) }
    ensures err { IfErr result (λ e. e ≡ Stop.File) }
{
    print_bytes(output, text.as_bytes())
}

/// Prints the bytes of a text in the same way: in one write, and a flush behind it.
pub fn print_bytes<O: Write>(output: &mut O, text: &[u8]) -> Result<(), Stop>
    ensures ok { OnOk result (Appends (O.contents output.old) (O.contents output.new) text.now) }
    ensures err { IfErr result (λ e. e ≡ Stop.File) }
{
    if output.write_all(text).is_err() {
        return Err(Stop::File);
    }
    if output.flush().is_err() {
        return Err(Stop::File);
    }
    Ok(())
}
