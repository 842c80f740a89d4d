//! A test bench replays recorded clients: the command `answer`.

use crate::digest::{Digest, Failed, Work, lend};
use crate::draw::{Draw, Pool};
use crate::lines::{Cut, Digits, put_cut, put_in_groups, put_other};
use std::alloc::Global;
use std::net::Net;
use std::rt::{Clock, Files};
use ua_command::run::run;

/// The settings of 20 endpoints with certificates.
const PLANT: &str = "plant.toml";

/// Runs the words on an input, and adds what is printed and told, and the status.
pub fn run_on<R: Files + Net + Clock + AllocGlobal>(
    rt: &R,
    words: &[&str],
    input: &[u8],
    digest: &mut Digest,
) {
    let mut input = input;
    let mut printed = Vec::new(rt.alloc());
    let mut told = Vec::new(rt.alloc());
    let status = run(rt, words, &mut input, &mut printed, &mut told);
    digest.add_bytes(&printed);
    digest.add_bytes(&told);
    digest.add(u64::from(status));
}

/// The lines of a script.
#[derive(Clone, Copy)]
enum Script<'a> {
    /// So many requests, a line each, and a last line.
    Lines(u32, &'a [u8]),
    /// So many requests, cut as TCP cuts them: this many digits a line.
    Cuts(u32, usize),
    /// So many requests as `xxd` prints them.
    Groups(u32),
    /// A request of about a megabyte.
    Parts(Cut),
}

/// Makes the lines of a script.
#[derive(Drop)]
struct Making<'a> {
    alloc: Global,
    text: &'a mut Vec<u8>,
    pool: &'a Pool,
    draw: &'a mut Draw,
    script: Script<'a>,
}

/// So many requests in a row, and then as lines.
fn put_row(
    alloc: Global,
    digits: &mut Digits,
    text: &mut Vec<u8>,
    times: u32,
    width: usize,
) -> Result<(), Failed> {
    let mut row = Vec::new(alloc);
    match digits.ask_in_a_row(&mut row, times) {
        Ok(()) if width == 0 => put_in_groups(text, &row),
        Ok(()) => put_cut(text, &row, width, b"\n"),
        Err(Failed) => Err(Failed),
    }
}

impl<'a> Work<Digits> for Making<'a> {
    fn run(self, digits: &mut Digits) -> Result<(), Failed> {
        let Making {
            alloc,
            text,
            pool,
            draw,
            script,
        } = self;
        digits.begin(text)?;
        match script {
            Script::Lines(times, last) => {
                digits.ask_by_lines(text, times)?;
                text.extend_from_slice(last)?;
                Ok(())
            }
            Script::Cuts(times, width) => put_row(alloc, digits, text, times, width),
            Script::Groups(times) => put_row(alloc, digits, text, times, 0),
            Script::Parts(cut) => put_other(alloc, text, pool, draw, cut),
        }
    }
}

/// Makes a script, and answers it by the settings.
fn answer_script<R: Files + Net + Clock + AllocGlobal>(
    rt: &R,
    settings: &str,
    pool: &Pool,
    draw: &mut Draw,
    script: Script,
    digest: &mut Digest,
) -> Result<(), Failed> {
    let mut text = Vec::new(rt.alloc());
    let digits = Digits::new(rt.alloc(), draw);
    let making = Making {
        alloc: rt.alloc(),
        text: &mut text,
        pool,
        draw,
        script,
    };
    match lend(digits, making) {
        Ok(()) => {
            run_on(rt, &["answer", settings], &text, digest);
            Ok(())
        }
        Err(Failed) => Err(Failed),
    }
}

/// The scripts of one round.
const SCRIPTS: [(&str, Script); 8] = [
    ("default", Script::Lines(5_000, b"")),
    (PLANT, Script::Lines(200, b"")),
    ("default", Script::Cuts(2_000, 2_920)),
    (
        "default",
        Script::Parts(Cut {
            parts: 46,
            size: 20_000,
        }),
    ),
    (
        "default",
        Script::Parts(Cut {
            parts: 14,
            size: 65_511,
        }),
    ),
    ("default", Script::Groups(500)),
    ("default", Script::Cuts(100, 2)),
    ("default", Script::Lines(1_000, b"4d53470")),
];

/// So many times one script of each kind.
pub fn replay<R: Files + Net + Clock + AllocGlobal>(
    rt: &R,
    pool: &Pool,
    draw: &mut Draw,
    rounds: u32,
    digest: &mut Digest,
) -> Result<(), Failed> {
    for _ in 0..rounds {
        for (settings, script) in &SCRIPTS {
            answer_script(rt, settings, pool, draw, *script, digest)?;
        }
    }
    Ok(())
}
