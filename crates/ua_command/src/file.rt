//! Reads a file to its end.

ghost use Rattle.std.specs.Prelude.{IfErr};
ghost use Rattle.ua_command.specs.Stop.{IsFileStop};

use crate::input::read_whole;
use crate::stop::Stop;
use std::fs::File;
use std::io;
use std::io::ErrorKind;
use std::rt::Files;

/// The bytes of the file at a path, by at most `MOST_READS` reads. `File` where it can't be read to its end.
pub fn read_file<R: Files + AllocGlobal>(rt: &R, path: &str) -> Result<Vec<u8>, Stop>
    ensures { IfErr result IsFileStop }
{
    match File::open(rt, path) {
        Ok(mut file) => Ok(read_whole(rt.alloc(), &mut file)?),
        Err(error) => Err(stop_of_open(&error)),
    }
}

/// What it is to the command that a file can't be opened.
pub fn stop_of_open(error: &io::Error) -> Stop
    ensures { IsFileStop result }
{
    match error.kind() {
        ErrorKind::OutOfMemory => Stop::NoMemory,
        _ => Stop::File,
    }
}
