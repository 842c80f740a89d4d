//! The command `uadisc`.
#![tactic(auto)]

use std::io::IsTerminal;
use std::process::ExitCode;
use std::rt::Env;
use std::{env, io};
use ua_command::run::{run_and_say, told};
use ua_command::{Stop, Why, say_limits, say_why};

fn main(rt: HostRuntime) -> ExitCode {
    let status = match words(&rt) {
        Ok(words) => run_words(&rt, words.as_slice()),
        Err(stop) => Err(stop),
    };
    match status {
        Ok(status) => ExitCode::from(status),
        Err(stop) => ExitCode::from(told(&stop, &mut rt.stderr())),
    }
}

/// The words after the program's name. One that is not UTF-8 is refused.
fn words<R: Env + AllocGlobal>(rt: &R) -> Result<Vec<String>, Stop> {
    match env::args(rt) {
        Ok(words) => Ok(words.skip(1).collect(rt.alloc())?),
        Err(error) if error.kind() == io::ErrorKind::OutOfMemory => Err(Stop::NoMemory),
        Err(_) => Err(Stop::Words(String::from_str(rt.alloc(), "words\n")?)),
    }
}

fn run_words(rt: &HostRuntime, words: &[String]) -> Result<u8, Stop> {
    let mut lent: Vec<&str> = Vec::new(rt.alloc());
    for word in words {
        lent.push(word.as_str())?;
    }
    let for_people = is_for_people(rt);
    if for_people {
        say_limits(rt, lent.as_slice(), &mut rt.stderr());
    }
    let mut why = Why::Unknown;
    let status = run_and_say(
        rt,
        lent.as_slice(),
        &mut rt.stdin(),
        &mut rt.stdout(),
        &mut rt.stderr(),
        &mut why,
    );
    if for_people {
        say_why(rt, lent.as_slice(), &why, &mut rt.stderr());
    }
    Ok(status)
}

/// Whether people read standard error: it is a terminal, or `UADISC_WORDS` says so.
fn is_for_people(rt: &HostRuntime) -> bool {
    rt.stderr().is_terminal() || env::var(rt, "UADISC_WORDS").is_ok()
}
