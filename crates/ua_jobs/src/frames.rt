//! Frames of a client. What it asks is made once, and each time that it is sent its numbers are written over.

use crate::digest::{Failed, filled, push_made};
use crate::draw::{Draw, digit};
use std::alloc::Global;

/// The URI of the policy None.
const POLICY: &[u8] = b"http://opcfoundation.org/UA/SecurityPolicy#None";

/// The URI of the transport profile of UA TCP.
pub const PROFILE: &[u8] = b"http://opcfoundation.org/UA-Profile/Transport/uatcp-uasc-uabinary";

/// The languages that a client may want.
const LOCALES: [&[u8]; 4] = [b"en", b"de-DE", b"fr", b"pt-BR"];

/// Null, as the length of a text or the count of an array.
const NULL: [u8; 4] = [0xFF; 4];

/// Where the numbers stand in a MSG with a request.
pub const SEQUENCE: usize = 16;

pub const REQUEST: usize = 20;

pub const MOMENT: usize = 30;

pub const HANDLE: usize = 38;

/// How many questions a caller has.
pub const QUESTIONS: usize = 16;

/// Appends a UInt32.
pub fn put_number(out: &mut Vec<u8>, n: u32) -> Result<(), Failed> {
    out.extend_from_slice(&n.to_le_bytes())?;
    Ok(())
}

/// Appends a String: its length and its bytes.
pub fn put_text(out: &mut Vec<u8>, text: &[u8]) -> Result<(), Failed> {
    let Ok(len) = u32::try_from(text.len()) else {
        return Err(Failed);
    };
    put_number(out, len)?;
    out.extend_from_slice(text)?;
    Ok(())
}

/// Writes a number over the bytes from the place on, where they are there.
pub fn set_number(bytes: &mut [u8], at: usize, n: u32) {
    let mut place = at;
    for byte in n.to_le_bytes() {
        if let Some(old) = bytes.get_mut(place) {
            *old = byte;
        }
        place = place.wrapping_add(1);
    }
}

/// The type, the flag and the size of a frame whose fields have this length.
fn put_header(out: &mut Vec<u8>, what: &[u8; 4], fields: usize) -> Result<(), Failed> {
    let Ok(size) = u32::try_from(fields.saturating_add(8)) else {
        return Err(Failed);
    };
    out.extend_from_slice(what)?;
    put_number(out, size)
}

/// The id of an encoding, and the header of a request.
fn put_request_header(body: &mut Vec<u8>, id: u16) -> Result<(), Failed> {
    body.extend_from_slice(&[1, 0])?;
    body.extend_from_slice(&id.to_le_bytes())?;
    // No token; the moment, the handle and the diagnostics; no entry of an audit log; the timeout; nothing additional.
    body.extend_from_slice(&[0; 2 + 8 + 4 + 4])?;
    body.extend_from_slice(&NULL)?;
    body.extend_from_slice(&[0; 4 + 3])?;
    Ok(())
}

/// A text with a drawn number, of a host.
fn put_url(url: &mut Vec<u8>, draw: &mut Draw) -> Result<(), Failed> {
    url.extend_from_slice(b"opc.tcp://host-")?;
    let mut n = draw.next();
    for _ in 0..12 {
        url.push(digit(n))?;
        n >>= 4;
    }
    url.extend_from_slice(b".plant.example:4840")?;
    Ok(())
}

/// A url with a drawn number.
pub fn drawn_url(alloc: Global, draw: &mut Draw) -> Result<Vec<u8>, Failed> {
    let mut url = Vec::new(alloc);
    let done = put_url(&mut url, draw);
    filled(url, done)
}

/// A Hello of a client that takes frames of so many bytes.
fn put_hello(out: &mut Vec<u8>, url: &[u8], receive: u32) -> Result<(), Failed> {
    put_header(out, b"HELF", url.len().saturating_add(24))?;
    for n in [0, receive, 65_535, 0, 0] {
        put_number(out, n)?;
    }
    put_text(out, url)
}

/// The fields of a request that opens a channel for an hour.
fn put_open(out: &mut Vec<u8>) -> Result<(), Failed> {
    put_number(out, 0)?;
    put_text(out, POLICY)?;
    out.extend_from_slice(&NULL)?;
    out.extend_from_slice(&NULL)?;
    put_number(out, 1)?;
    put_number(out, 1)?;
    put_request_header(out, 446)?;
    for n in [0, 0, 1] {
        put_number(out, n)?;
    }
    out.extend_from_slice(&NULL)?;
    put_number(out, 3_600_000)
}

/// A frame of channel 1 and token 1 with this body; its number and request id are still 0.
fn put_framed(out: &mut Vec<u8>, what: &[u8; 4], body: &[u8]) -> Result<(), Failed> {
    put_header(out, what, body.len().saturating_add(16))?;
    put_number(out, 1)?;
    put_number(out, 1)?;
    out.extend_from_slice(&[0; 8])?;
    out.extend_from_slice(body)?;
    Ok(())
}

/// The header of FindServers, or of GetEndpoints where that is said.
pub fn put_head(out: &mut Vec<u8>, endpoints: bool) -> Result<(), Failed> {
    put_request_header(out, if endpoints { 428 } else { 422 })
}

/// The body of FindServers, or of GetEndpoints where that is said, with so many locales.
fn put_question(
    out: &mut Vec<u8>,
    url: &[u8],
    endpoints: bool,
    locales: u32,
) -> Result<(), Failed> {
    put_head(out, endpoints)?;
    put_text(out, url)?;
    put_number(out, locales)?;
    let mut place = url.len();
    for _ in 0..locales {
        place = place.wrapping_add(1);
        put_text(out, LOCALES[place % 4])?;
    }
    if endpoints && locales == 1 {
        put_number(out, 1)?;
        put_text(out, PROFILE)
    } else {
        out.extend_from_slice(&NULL)?;
        Ok(())
    }
}

/// The body of FindServers, or of GetEndpoints where that is said, in one language or, where that is empty, in none.
pub fn put_query(out: &mut Vec<u8>, endpoints: bool, language: &[u8]) -> Result<(), Failed> {
    put_head(out, endpoints)?;
    put_text(out, b"opc.tcp://localhost:4840")?;
    if language.is_empty() {
        out.extend_from_slice(&NULL)?;
    } else {
        put_number(out, 1)?;
        put_text(out, language)?;
    }
    out.extend_from_slice(&NULL)?;
    Ok(())
}

/// A part of a request of another service: C, or F where it is the last.
pub fn put_part(out: &mut Vec<u8>, last: bool, n: u32, body: &[u8]) -> Result<(), Failed> {
    let what = if last { b"MSGF" } else { b"MSGC" };
    put_header(out, what, body.len().saturating_add(16))?;
    for n in [1, 1, n, 2] {
        put_number(out, n)?;
    }
    out.extend_from_slice(body)?;
    Ok(())
}

/// The header of a request of a service that no discovery server offers.
pub fn put_other_head(body: &mut Vec<u8>) -> Result<(), Failed> {
    put_request_header(body, 673)
}

/// What a client sends: a Hello, an open request, a close, and its questions.
#[derive(Drop)]
pub struct Caller {
    frames: Vec<Vec<u8>>,
}

/// Bytes that are made one behind the other, of which frames are cut.
#[derive(Drop)]
struct Row<'a> {
    alloc: Global,
    frames: &'a mut Vec<Vec<u8>>,
    body: &'a mut Vec<u8>,
    frame: &'a mut Vec<u8>,
}

/// Adds a copy of the frame.
fn keep(alloc: Global, frames: &mut Vec<Vec<u8>>, frame: &[u8]) -> Result<(), Failed> {
    push_made(frames, Vec::from_slice(alloc, frame).map_err(|_| Failed))
}

fn add_first(row: &mut Row, draw: &mut Draw, receive: u32) -> Result<(), Failed> {
    put_url(row.body, draw)?;
    put_hello(row.frame, row.body, receive)?;
    keep(row.alloc, row.frames, row.frame)?;
    row.body.clear();
    row.frame.clear();
    put_open(row.body)?;
    put_header(row.frame, b"OPNF", row.body.len())?;
    row.frame.extend_from_slice(row.body)?;
    keep(row.alloc, row.frames, row.frame)?;
    row.body.clear();
    row.frame.clear();
    put_request_header(row.body, 452)?;
    put_framed(row.frame, b"CLOF", row.body)?;
    keep(row.alloc, row.frames, row.frame)
}

fn add_questions(row: &mut Row, draw: &mut Draw, url: &mut Vec<u8>) -> Result<(), Failed> {
    for n in 0..QUESTIONS as u32 {
        url.clear();
        row.body.clear();
        row.frame.clear();
        put_url(url, draw)?;
        put_question(row.body, url, n % 2 == 1, n % 3)?;
        put_framed(row.frame, b"MSGF", row.body)?;
        keep(row.alloc, row.frames, row.frame)?;
    }
    Ok(())
}

fn add_frames(
    alloc: Global,
    frames: &mut Vec<Vec<u8>>,
    draw: &mut Draw,
    receive: u32,
) -> Result<(), Failed> {
    let mut url = Vec::new(alloc);
    let mut body = Vec::new(alloc);
    let mut frame = Vec::new(alloc);
    let mut row = Row {
        alloc,
        frames,
        body: &mut body,
        frame: &mut frame,
    };
    match add_first(&mut row, draw, receive) {
        Ok(()) => add_questions(&mut row, draw, &mut url),
        Err(Failed) => Err(Failed),
    }
}

impl Caller {
    /// A client that takes frames of so many bytes. Its questions are FindServers and GetEndpoints by turns, with 0 to 2
    /// locales.
    pub fn new(alloc: Global, draw: &mut Draw, receive: u32) -> Result<Caller, Failed> {
        let mut frames = Vec::new(alloc);
        let done = add_frames(alloc, &mut frames, draw, receive);
        filled(Caller { frames }, done)
    }

    fn frame(&self, n: usize) -> &[u8] {
        match self.frames.get(n) {
            Some(frame) => frame,
            None => &[],
        }
    }

    /// The Hello.
    pub fn hello(&self) -> &[u8] {
        self.frame(0)
    }

    /// The open request.
    pub fn open(&self) -> &[u8] {
        self.frame(1)
    }

    /// The close request.
    pub fn close(&self) -> &[u8] {
        self.frame(2)
    }

    /// The question of that number; the questions come by turns.
    pub fn question(&self, n: u32) -> &[u8] {
        self.frame(3 + n as usize % QUESTIONS)
    }
}
