//! Reads, copies, writes and prints values that are nested 100 deep, in each form of the command `value`, and says whether the stack on which it
//! did so has at most `MOST` KB: of a process, `/proc/self/status` says what it grew to.
#![tactic(auto)]

use std::alloc::{AllocError, Global};
use std::net::Net;
use std::process::ExitCode;
use std::rt::{Clock, Files};
use std::{fs, io};
use ua_command::run::run;

/// How many KB the stack may have: 200 for the program, and 16 for its words, its environment, and where the system lets it begin.
const MOST: u32 = 216;

/// The type of a value that is nested 100 deep, and its bytes in hex: so many times the first digits, and the last ones.
const VALUES: [(&str, u32, &str, &str); 5] = [
    ("Variant", 99, "9801000000", "00"),
    ("Variant", 49, "1701", "1700"),
    ("DataValue", 49, "0117", "0100"),
    ("Variant", 49, "970100000001", "970100000000"),
    ("DiagnosticInfo", 99, "40", "00"),
];

fn main(rt: HostRuntime) -> ExitCode {
    for (kind, times, digits, last) in VALUES {
        if !is_printed(&rt, kind, digits_of(rt.alloc(), times, digits, last)) {
            return ExitCode::from(1);
        }
    }
    match said(&rt, kilobytes(&rt)) {
        Ok(()) => ExitCode::SUCCESS,
        Err(_) => ExitCode::from(3),
    }
}

fn digits_of(alloc: Global, times: u32, digits: &str, last: &str) -> Result<String, AllocError> {
    let mut all = String::new(alloc);
    for _ in 0..times {
        all.push_str(digits)?;
    }
    all.push_str(last)?;
    Ok(all)
}

/// Whether the value is printed in each form.
fn is_printed<R: Files + Net + Clock + AllocGlobal>(
    rt: &R,
    kind: &str,
    digits: Result<String, AllocError>,
) -> bool {
    match digits {
        Ok(digits) => {
            let digits = digits.as_str();
            is_done(rt, &["value", kind, digits])
                && is_done(rt, &["value", kind, digits, "--show"])
                && is_done(rt, &["value", kind, digits, "--json"])
        }
        Err(_) => false,
    }
}

fn is_done<R: Files + Net + Clock + AllocGlobal>(rt: &R, words: &[&str]) -> bool {
    let mut input = b"".as_slice();
    run(rt, words, &mut input, &mut io::sink(), &mut io::sink()) == 0
}

/// How many KB the stack of this process has grown to, where the system says it.
fn kilobytes<R: Files + AllocGlobal>(rt: &R) -> Option<u32> {
    match fs::read_to_string(rt, "/proc/self/status") {
        Ok(status) => number_behind(status.as_str(), "VmStk:"),
        Err(_) => None,
    }
}

/// The number behind a name at the beginning of a line.
fn number_behind(text: &str, name: &str) -> Option<u32> {
    for line in text.lines() {
        if let Some(rest) = line.strip_prefix(name) {
            return rest.trim().trim_end_matches(" kB").parse::<u32>().ok();
        }
    }
    None
}

fn said<R: Print>(rt: &R, kilobytes: Option<u32>) -> io::Result<()> {
    match kilobytes {
        Some(number) if number <= MOST => println!(rt; "at most {MOST} KB of stack"),
        Some(number) => println!(rt; "{number} KB of stack"),
        None => println!(rt; "the system does not say how large the stack is"),
    }
}
