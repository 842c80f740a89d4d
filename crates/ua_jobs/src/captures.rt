//! An engineer looks into captures: the command `show`.

use crate::connections::{ask_in_a_row, begin};
use crate::digest::{Digest, Failed, Work, lend};
use crate::draw::{Draw, Pool};
use crate::frames::{Caller, put_number, put_other_head, put_part, put_text};
use crate::replays::run_on;
use std::alloc::Global;
use std::net::Net;
use std::rt::{Clock, Files};

/// The words that show what standard input gives.
const WORDS: [&str; 2] = ["show", "-"];

/// Bytes of a part of a server's message.
const PART: usize = 8_168;

/// What a capture has.
#[derive(Clone, Copy)]
enum Sight<'a> {
    /// What a client says: so many questions, and a last piece.
    Asked(u32, &'a [u8]),
    /// What a server says: so many messages of this many parts.
    Said(u32, u32),
    /// So many error frames whose reasons are partly outside ASCII.
    Refused(u32),
}

/// Makes the bytes of a client's direction.
#[derive(Drop)]
struct Asking<'a> {
    bytes: &'a mut Vec<u8>,
    draw: &'a mut Draw,
    questions: u32,
    last: &'a [u8],
}

impl<'a> Work<Caller> for Asking<'a> {
    fn run(self, caller: &mut Caller) -> Result<(), Failed> {
        let Asking {
            bytes,
            draw,
            questions,
            last,
        } = self;
        begin(bytes, caller)?;
        ask_in_a_row(bytes, caller, draw, questions)?;
        bytes.extend_from_slice(last)?;
        Ok(())
    }
}

fn put_said(
    bytes: &mut Vec<u8>,
    body: &mut Vec<u8>,
    pool: &Pool,
    draw: &mut Draw,
    messages: u32,
    parts: u32,
) -> Result<(), Failed> {
    let mut n = 1u32;
    for _ in 0..messages {
        for part in 0..parts {
            body.clear();
            if part == 0 {
                put_other_head(body)?;
            }
            body.extend_from_slice(pool.some(draw, PART))?;
            put_part(bytes, part.wrapping_add(1) == parts, n, body)?;
            n = n.wrapping_add(1);
        }
    }
    Ok(())
}

fn put_refused(
    bytes: &mut Vec<u8>,
    reason: &mut Vec<u8>,
    pool: &Pool,
    draw: &mut Draw,
    frames: u32,
) -> Result<(), Failed> {
    for n in 0..frames {
        reason.clear();
        reason.extend_from_slice("Anfrage für »".as_bytes())?;
        reason.extend_from_slice(pool.some(draw, 16 + (n % 32) as usize))?;
        reason.extend_from_slice("« abgelehnt: 40 µm".as_bytes())?;
        bytes.extend_from_slice(b"ERRF")?;
        put_number(
            bytes,
            u32::try_from(reason.len().saturating_add(16)).unwrap_or(0),
        )?;
        put_number(bytes, 0x8074_0000)?;
        put_text(bytes, reason)?;
    }
    Ok(())
}

fn put_sight(
    alloc: Global,
    bytes: &mut Vec<u8>,
    pool: &Pool,
    draw: &mut Draw,
    sight: Sight,
) -> Result<(), Failed> {
    match sight {
        Sight::Asked(questions, last) => {
            let caller = Caller::new(alloc, draw, 65_535);
            lend(
                caller,
                Asking {
                    bytes,
                    draw,
                    questions,
                    last,
                },
            )
        }
        Sight::Said(messages, parts) => {
            let mut body = Vec::new(alloc);
            put_said(bytes, &mut body, pool, draw, messages, parts)
        }
        Sight::Refused(frames) => {
            let mut reason = Vec::new(alloc);
            put_refused(bytes, &mut reason, pool, draw, frames)
        }
    }
}

/// The captures of one round; a frame of no type stands at the end of one.
const SIGHTS: [Sight; 5] = [
    Sight::Asked(20_000, b""),
    Sight::Asked(20_000, b"GET / HTTP/1.1\r\n\r\n"),
    Sight::Said(20, 16),
    Sight::Said(1_000, 1),
    Sight::Refused(2_000),
];

fn look<R: Files + Net + Clock + AllocGlobal>(
    rt: &R,
    pool: &Pool,
    draw: &mut Draw,
    sight: Sight,
    digest: &mut Digest,
) -> Result<(), Failed> {
    let mut bytes = Vec::new(rt.alloc());
    match put_sight(rt.alloc(), &mut bytes, pool, draw, sight) {
        Ok(()) => {
            run_on(rt, &WORDS, &bytes, digest);
            Ok(())
        }
        Err(Failed) => Err(Failed),
    }
}

/// So many times captures of each kind.
pub fn show<R: Files + Net + Clock + AllocGlobal>(
    rt: &R,
    pool: &Pool,
    draw: &mut Draw,
    rounds: u32,
    digest: &mut Digest,
) -> Result<(), Failed> {
    for _ in 0..rounds {
        for sight in &SIGHTS {
            look(rt, pool, draw, *sight, digest)?;
        }
    }
    Ok(())
}
