//! Scripts of the command `answer`: what a client sends, in hex, line by line.

use crate::digest::{Failed, Work, filled, lend, push_made};
use crate::draw::{Draw, Pool, digit};
use crate::frames::{
    Caller, HANDLE, MOMENT, QUESTIONS, REQUEST, SEQUENCE, put_other_head, put_part, set_number,
};
use std::alloc::Global;

/// A moment of 2026, in ticks of 100 ns since 1601.
const FIRST: u64 = 134_120_736_000_000_000;

/// Ticks between two frames: 2 ms.
const STEP: u64 = 20_000;

/// Appends the bytes as digits.
pub fn put_hex(text: &mut Vec<u8>, bytes: &[u8]) -> Result<(), Failed> {
    for byte in bytes {
        text.push(digit(u64::from(*byte >> 4)))?;
        text.push(digit(u64::from(*byte)))?;
    }
    Ok(())
}

/// Writes a number of so many bytes over the digits of the bytes from the place on, where they are there.
fn set_digits(text: &mut [u8], at: usize, n: u64, bytes: u32) {
    let mut place = at.wrapping_mul(2);
    let mut n = n;
    for _ in 0..bytes {
        for digit in [digit(n >> 4), digit(n)] {
            if let Some(old) = text.get_mut(place) {
                *old = digit;
            }
            place = place.wrapping_add(1);
        }
        n >>= 8;
    }
}

/// A line `@N`.
fn put_moment(text: &mut Vec<u8>, moment: u64) -> Result<(), Failed> {
    let mut digits = [b'0'; 20];
    let mut n = moment;
    for digit in digits.iter_mut().rev() {
        *digit = b'0' + (n % 10) as u8;
        n /= 10;
    }
    text.push(b'@')?;
    text.extend_from_slice(&digits)?;
    text.push(b'\n')?;
    Ok(())
}

/// The frames of a client as digits.
#[derive(Drop)]
pub struct Digits {
    frames: Vec<Vec<u8>>,
    next: u32,
    moment: u64,
}

/// Adds the digits of a frame.
fn add_digits(alloc: Global, frames: &mut Vec<Vec<u8>>, frame: &[u8]) -> Result<(), Failed> {
    let mut digits = Vec::new(alloc);
    let done = put_hex(&mut digits, frame);
    push_made(frames, filled(digits, done))
}

#[derive(Drop)]
struct AddingDigits<'a> {
    alloc: Global,
    frames: &'a mut Vec<Vec<u8>>,
}

impl<'a> Work<Caller> for AddingDigits<'a> {
    fn run(self, caller: &mut Caller) -> Result<(), Failed> {
        let AddingDigits { alloc, frames } = self;
        add_digits(alloc, frames, caller.hello())?;
        add_digits(alloc, frames, caller.open())?;
        for n in 0..QUESTIONS as u32 {
            add_digits(alloc, frames, caller.question(n))?;
        }
        Ok(())
    }
}

impl Digits {
    /// The frames of a client that is drawn.
    pub fn new(alloc: Global, draw: &mut Draw) -> Result<Digits, Failed> {
        let caller = Caller::new(alloc, draw, 65_535);
        let moment = FIRST.wrapping_add(u64::from(draw.half()));
        let mut frames = Vec::new(alloc);
        let done = lend(
            caller,
            AddingDigits {
                alloc,
                frames: &mut frames,
            },
        );
        filled(
            Digits {
                frames,
                next: 2,
                moment,
            },
            done,
        )
    }

    fn frame(&self, n: usize) -> &[u8] {
        match self.frames.get(n) {
            Some(frame) => frame,
            None => &[],
        }
    }

    /// The Hello and the open request, each on a line.
    pub fn begin(&self, text: &mut Vec<u8>) -> Result<(), Failed> {
        put_moment(text, self.moment)?;
        text.extend_from_slice(self.frame(0))?;
        text.push(b'\n')?;
        text.extend_from_slice(self.frame(1))?;
        text.push(b'\n')?;
        Ok(())
    }

    /// The next question, with no line end.
    fn ask(&mut self, text: &mut Vec<u8>) -> Result<(), Failed> {
        let n = self.next;
        let start = text.len();
        text.extend_from_slice(self.frame(2 + n as usize % QUESTIONS))?;
        let digits = &mut text[start..];
        let number = u64::from(n);
        set_digits(digits, SEQUENCE, number, 4);
        set_digits(digits, REQUEST, number, 4);
        set_digits(digits, MOMENT, self.moment, 8);
        set_digits(digits, HANDLE, number.wrapping_mul(7), 4);
        self.next = n.wrapping_add(1);
        self.moment = self.moment.wrapping_add(STEP);
        Ok(())
    }

    /// So many questions, each on a line behind its moment.
    pub fn ask_by_lines(&mut self, text: &mut Vec<u8>, times: u32) -> Result<(), Failed> {
        for _ in 0..times {
            put_moment(text, self.moment)?;
            self.ask(text)?;
            text.push(b'\n')?;
        }
        Ok(())
    }

    /// So many questions, one behind the other.
    pub fn ask_in_a_row(&mut self, text: &mut Vec<u8>, times: u32) -> Result<(), Failed> {
        for _ in 0..times {
            self.ask(text)?;
        }
        Ok(())
    }
}

/// Cuts digits into lines of so many, the last one of what is left; each ends so.
pub fn put_cut(text: &mut Vec<u8>, digits: &[u8], width: usize, end: &[u8]) -> Result<(), Failed> {
    for piece in digits.chunks(width.max(1)) {
        text.extend_from_slice(piece)?;
        text.extend_from_slice(end)?;
    }
    Ok(())
}

/// Digits as `xxd` prints them: sixteen bytes a line, a blank between two bytes and the next two.
pub fn put_in_groups(text: &mut Vec<u8>, digits: &[u8]) -> Result<(), Failed> {
    for line in digits.chunks(32) {
        for group in line.chunks(4) {
            text.extend_from_slice(group)?;
            text.push(b' ')?;
        }
        text.extend_from_slice(b"\r\n")?;
    }
    Ok(())
}

/// How a long request is cut: so many parts of this many bytes.
#[derive(Clone, Copy)]
pub struct Cut {
    pub parts: u32,
    pub size: usize,
}

fn put_other_parts(
    head: &mut Vec<u8>,
    body: &mut Vec<u8>,
    text: &mut Vec<u8>,
    pool: &Pool,
    draw: &mut Draw,
    cut: Cut,
) -> Result<(), Failed> {
    put_other_head(body)?;
    for n in 0..cut.parts {
        head.clear();
        put_part(
            head,
            n.wrapping_add(1) == cut.parts,
            n.wrapping_add(2),
            body,
        )?;
        // The size of the frame is that of its head and of what the pool gives.
        let more = cut.size.saturating_sub(body.len());
        let whole = u32::try_from(more.saturating_add(head.len())).unwrap_or(0);
        set_number(head, 4, whole);
        put_hex(text, head)?;
        text.extend_from_slice(pool.some(draw, more.saturating_mul(2)))?;
        text.push(b'\n')?;
        body.clear();
    }
    Ok(())
}

/// A request of a service that is not offered, in parts, each on a line.
pub fn put_other(
    alloc: Global,
    text: &mut Vec<u8>,
    pool: &Pool,
    draw: &mut Draw,
    cut: Cut,
) -> Result<(), Failed> {
    let mut head = Vec::new(alloc);
    let mut body = Vec::new(alloc);
    put_other_parts(&mut head, &mut body, text, pool, draw, cut)
}
