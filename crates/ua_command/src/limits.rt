//! Whether a process may have as many files open as `serve` wants at one time, in words for people.

use std::fs;
use std::io::Write;
use std::rt::Files;
use ua_value::plumbing::let_go;
use ua_words::{Command, command_of};

/// The files that a server of several connections has open beside theirs: the standard streams, the listener, and what the
/// system reports by which of them are ready.
const OTHERS: u64 = 5;

/// How many files a process may have open, by the text of its `/proc/self/limits`; none where the text sets no limit.
fn most_files(limits: &str) -> Option<u64> {
    for line in limits.lines() {
        if let Some(rest) = line.strip_prefix("Max open files") {
            return rest.split_whitespace().next()?.parse::<u64>().ok();
        }
    }
    None
}

/// Says on `errors`, in a line for people, that so many connections at one time want more open files than a process may
/// have, where the text of its `/proc/self/limits` says so. A failed write is passed over.
pub fn say_of_limits<E: Write>(at_once: u32, limits: &str, errors: &mut E) {
    let wanted = u64::from(at_once) + OTHERS;
    if let Some(most) = most_files(limits)
        && most < wanted
    {
        let _ = writeln!(
            errors,
            "  {at_once} connections at one time want {wanted} open files, and {most} are allowed, so some will have to wait: `ulimit -n {wanted}` before the start allows them"
        );
        let _ = errors.flush();
    }
}

/// How many connections a command may come to have at one time, if it serves several.
fn at_once_of(command: &Command) -> Option<u32> {
    match command {
        Command::ServeMany {
            connections,
            at_once,
            ..
        } => Some((*at_once).min(*connections)),
        _ => None,
    }
}

/// Says before the command that the words are begins, where that is `serve` with more connections at one time than this
/// process may open, that this is so. It is read in `/proc/self/limits`; where that can't be read, nothing is said.
pub fn say_limits<R: Files + AllocGlobal, E: Write>(rt: &R, words: &[&str], errors: &mut E) {
    let at_once = match command_of(rt.alloc(), words) {
        Ok(command) => {
            let at_once = at_once_of(&command);
            let_go(command);
            at_once
        }
        Err(fault) => {
            let_go(fault);
            None
        }
    };
    let Some(at_once) = at_once else {
        return;
    };
    if let Ok(limits) = fs::read_to_string(rt, "/proc/self/limits") {
        say_of_limits(at_once, limits.as_str(), errors);
    }
}
