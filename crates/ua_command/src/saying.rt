//! The second line of a fault, in words for people.

use crate::why::Why;
use std::fs::File;
use std::io::{Read, Write};
use std::rt::Files;
use std::{fs, io};
use ua_value::plumbing::let_go;
use ua_words::{Capture, Command, Source, WordsFault, command_of};

/// The address that a command names, or else nothing.
fn address_of(command: &Command) -> Option<&str> {
    match command {
        Command::Serve { address, .. }
        | Command::ServeMany { address, .. }
        | Command::Ask { address, .. }
        | Command::Check { address, .. } => Some(address.as_str()),
        _ => None,
    }
}

/// The path of the file that a command reads, if it reads one.
fn path_of(command: &Command) -> Option<&str> {
    match command {
        Command::Answer {
            source: Source::File(path),
            ..
        } => Some(path.as_str()),
        Command::Serve {
            source: Source::File(path),
            ..
        } => Some(path.as_str()),
        Command::ServeMany {
            source: Source::File(path),
            ..
        } => Some(path.as_str()),
        Command::Check {
            source: Source::File(path),
            ..
        } => Some(path.as_str()),
        Command::Show {
            capture: Capture::File(path),
            ..
        } => Some(path.as_str()),
        _ => None,
    }
}

/// Whether a command reads standard input.
fn reads_input(command: &Command) -> bool {
    match command {
        Command::Answer { .. } => true,
        Command::Show {
            capture: Capture::Input,
            ..
        } => true,
        _ => false,
    }
}

/// Opens a file once more, and reads its first byte. Where it is no file and no folder that is left out, since it might
/// wait for somebody who writes, and the result is false.
fn try_file<R: Files>(rt: &R, path: &str) -> io::Result<bool> {
    let metadata = fs::metadata(rt, path)?;
    if !metadata.is_file() && !metadata.is_dir() {
        return Ok(false);
    }
    let mut file = File::open(rt, path)?;
    let mut piece = [0u8; 1];
    file.read(&mut piece)?;
    Ok(true)
}

/// Says which file could not be read, and what the system says of it now; or what else may have failed.
fn say_file<R: Files, E: Write>(rt: &R, path: &str, input: bool, errors: &mut E) {
    let tried = match try_file(rt, path) {
        Ok(tried) => tried,
        Err(error) => {
            let _ = writeln!(errors, "  {path}: {error}");
            return;
        }
    };
    let opened = if tried { "it can be opened; " } else { "" };
    let input = if input { " or of standard input" } else { "" };
    let _ = writeln!(
        errors,
        "  {path}: {opened}a read of it{input} failed, or a write to standard output"
    );
}

/// Says that standard output could not be written.
fn say_output<E: Write>(errors: &mut E) {
    let _ = writeln!(errors, "  {}", Why::Output);
}

/// Says which file, or which of the standard streams, a command could not read or write.
fn say_of_file<R: Files, E: Write>(rt: &R, command: &Command, errors: &mut E) {
    let input = reads_input(command);
    match path_of(command) {
        Some(path) => say_file(rt, path, input, errors),
        None if input => {
            let _ = writeln!(
                errors,
                "  standard input could not be read, or standard output could not be written"
            );
        }
        None => say_output(errors),
    }
}

/// Says why a command came to nothing.
fn say_of<R: Files, E: Write>(rt: &R, command: &Command, why: &Why, errors: &mut E) {
    match why {
        Why::Unknown => {}
        Why::File => say_of_file(rt, command, errors),
        Why::Output => say_output(errors),
        why => {
            let address = address_of(command).unwrap_or("");
            let _ = writeln!(errors, "  {address}: {why}");
        }
    }
}

/// Says on `errors`, in a line for people behind the one that told the fault, why the command that the words are came to
/// nothing: which address or file, what the system said, and what to try. Where nothing is known, nothing is said; a
/// failed write is passed over. Of a file that could not be read, the system is asked once more. Help and the version can
/// only fail to be printed.
pub fn say_why<R: Files + AllocGlobal, E: Write>(
    rt: &R,
    words: &[&str],
    why: &Why,
    errors: &mut E,
) {
    match command_of(rt.alloc(), words) {
        Ok(command) => {
            say_of(rt, &command, why, errors);
            let_go(command);
        }
        Err(WordsFault::Shown(text)) => {
            let_go(text);
            if let Why::File = why {
                say_output(errors);
            }
        }
        Err(fault) => let_go(fault),
    }
}
