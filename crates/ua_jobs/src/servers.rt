//! A discovery server, and the clients that come to it: a connection each.

use crate::answers::number_of;
use crate::connections::{Ticks, ask_and_close, begin, put_pieces};
use crate::digest::{Digest, Failed, Work, lend};
use crate::documents::{Shape, drawn_settings};
use crate::draw::{Draw, Pool, digit};
use crate::frames::{Caller, put_head, put_number, put_part, put_text};
use std::alloc::Global;
use ua_conn::End;
use ua_disco::Settings;
use ua_link::{MemoryLink, Report, serve_connection};

/// A moment of 2026, in ticks of 100 ns since 1601.
pub const FIRST: i64 = 134_120_736_000_000_000;

/// The turns of a connection.
const TURNS: u32 = 65_536;

/// Bytes of a part of a long request.
const PART: usize = 60_000;

/// Adds how a connection ended, what went out, and each read.
fn add_report(report: &Report, digest: &mut Digest) {
    digest.add(number_of(report.end));
    digest.add((report.written % 4_294_967_296) as u64);
    digest.add((report.written / 4_294_967_296 % 4_294_967_296) as u64);
    digest.add(report.cuts.len() as u64);
    for (moment, bytes) in report.cuts.as_slice() {
        digest.add_signed(*moment);
        digest.add(*bytes as u64);
    }
}

/// Serves one connection, whose bytes come in pieces. A number for its end.
fn served(
    alloc: Global,
    settings: &Settings,
    pieces: &[&[u8]],
    now: i64,
    digest: &mut Digest,
) -> u64 {
    let mut link = MemoryLink::new(alloc, pieces, 65_536);
    let mut clock = Ticks(now);
    let report = serve_connection(alloc, settings, 1, &mut link, &mut clock, TURNS);
    digest.add_bytes(link.sent());
    add_report(&report, digest);
    number_of(report.end)
}

/// Serves one connection, whose bytes come in pieces of so many. It fails where the connection ends otherwise than it
/// should: after a frame that was refused, what comes behind is not looked at.
fn connection(
    alloc: Global,
    settings: &Settings,
    bytes: &[u8],
    piece: usize,
    end: End,
    draw: &mut Draw,
    digest: &mut Digest,
) -> Result<(), Failed> {
    let mut pieces = Vec::new(alloc);
    let now = FIRST.wrapping_add(i64::from(draw.half()));
    match put_pieces(&mut pieces, bytes, piece) {
        Ok(()) if served(alloc, settings, &pieces, now, digest) == number_of(end) => Ok(()),
        _ => Err(Failed),
    }
}

/// Clients that come one after the other: how many, how many questions each asks, in pieces of how many bytes, and bytes
/// of the greatest frame that it takes. Where locales are said, it is one client whose one request lists so many.
#[derive(Clone, Copy)]
struct Comers {
    times: u32,
    questions: u32,
    piece: usize,
    receive: u32,
    locales: u32,
}

/// Clients that take frames of 65,535 bytes.
fn usual(times: u32, questions: u32, piece: usize) -> Comers {
    Comers {
        times,
        questions,
        piece,
        receive: 65_535,
        locales: 0,
    }
}

fn connections(
    alloc: Global,
    settings: &Settings,
    caller: &Caller,
    comers: &Comers,
    bytes: &mut Vec<u8>,
    draw: &mut Draw,
    digest: &mut Digest,
) -> Result<(), Failed> {
    for _ in 0..comers.times {
        bytes.clear();
        begin(bytes, caller)?;
        ask_and_close(bytes, caller, draw, comers.questions)?;
        connection(
            alloc,
            settings,
            bytes,
            comers.piece,
            End::Closed,
            draw,
            digest,
        )?;
    }
    Ok(())
}

/// The body of a GetEndpoints request with so many locales, of which the last one is that of a name.
fn put_long_body(body: &mut Vec<u8>, draw: &mut Draw, locales: u32) -> Result<(), Failed> {
    put_head(body, true)?;
    put_text(body, b"opc.tcp://localhost:4840")?;
    put_number(body, locales)?;
    for _ in 1..locales {
        let n = draw.next();
        let text = [
            b'x',
            b'-',
            digit(n),
            digit(n >> 4),
            digit(n >> 8),
            digit(n >> 12),
        ];
        put_text(body, &text)?;
    }
    put_text(body, b"pl-7")?;
    put_number(body, u32::MAX)
}

/// The Hello, the open request and a request with so many locales, in parts.
fn put_long(
    bytes: &mut Vec<u8>,
    body: &mut Vec<u8>,
    caller: &Caller,
    draw: &mut Draw,
    locales: u32,
) -> Result<(), Failed> {
    bytes.clear();
    begin(bytes, caller)?;
    put_long_body(body, draw, locales)?;
    let mut rest = body.len();
    let mut n = 2u32;
    for part in body.chunks(PART) {
        rest = rest.saturating_sub(part.len());
        put_part(bytes, rest == 0, n, part)?;
        n = n.wrapping_add(1);
    }
    Ok(())
}

/// What comes to a server with settings.
#[derive(Drop)]
struct Coming<'a> {
    alloc: Global,
    settings: &'a Settings,
    comers: &'a Comers,
    draw: &'a mut Draw,
    digest: &'a mut Digest,
}

impl<'a> Work<Caller> for Coming<'a> {
    fn run(self, caller: &mut Caller) -> Result<(), Failed> {
        let Coming {
            alloc,
            settings,
            comers,
            draw,
            digest,
        } = self;
        let mut bytes = Vec::new(alloc);
        if comers.locales == 0 {
            return connections(alloc, settings, caller, comers, &mut bytes, draw, digest);
        }
        let mut body = Vec::new(alloc);
        match put_long(&mut bytes, &mut body, caller, draw, comers.locales) {
            Ok(()) => {
                let end = End::InputEnded;
                connection(alloc, settings, &bytes, comers.piece, end, draw, digest)
            }
            Err(Failed) => Err(Failed),
        }
    }
}

fn come(
    alloc: Global,
    settings: &Settings,
    comers: &Comers,
    draw: &mut Draw,
    digest: &mut Digest,
) -> Result<(), Failed> {
    let caller = Caller::new(alloc, draw, comers.receive);
    lend(
        caller,
        Coming {
            alloc,
            settings,
            comers,
            draw,
            digest,
        },
    )
}

const SMALL: Shape = Shape {
    names: 2,
    endpoints: 3,
    certificate: 900,
    last: "",
};

const MIDDLE: Shape = Shape {
    names: 8,
    endpoints: 20,
    certificate: 1_100,
    last: "",
};

const LARGE: Shape = Shape {
    names: 20,
    endpoints: 100,
    certificate: 1_300,
    last: "",
};

/// A server that all rounds of its clients come to.
#[derive(Drop)]
struct Serving<'a> {
    alloc: Global,
    comers: &'a [Comers],
    rounds: u32,
    draw: &'a mut Draw,
    digest: &'a mut Digest,
}

fn serve_rounds(
    alloc: Global,
    settings: &Settings,
    all: &[Comers],
    rounds: u32,
    draw: &mut Draw,
    digest: &mut Digest,
) -> Result<(), Failed> {
    for _ in 0..rounds {
        for comers in all {
            come(alloc, settings, comers, draw, digest)?;
        }
    }
    Ok(())
}

impl<'a> Work<Settings> for Serving<'a> {
    fn run(self, settings: &mut Settings) -> Result<(), Failed> {
        let Serving {
            alloc,
            comers,
            rounds,
            draw,
            digest,
        } = self;
        serve_rounds(alloc, settings, comers, rounds, draw, digest)
    }
}

/// So many times clients of each kind, to servers of 3, 20 and 100 endpoints.
pub fn serve(
    alloc: Global,
    pool: &Pool,
    draw: &mut Draw,
    rounds: u32,
    digest: &mut Digest,
) -> Result<(), Failed> {
    let small = [
        usual(2_000, 1, 1_460),
        usual(300, 10, 4_096),
        usual(60, 2, 1),
    ];
    let middle = [usual(300, 2, 536), usual(60, 10, 7)];
    let chunked = Comers {
        receive: 8_192,
        ..usual(30, 2, 1_460)
    };
    let many_locales = Comers {
        locales: 20_000,
        ..usual(1, 1, 1_460)
    };
    let large = [usual(60, 2, 1_460), chunked, many_locales];
    for (shape, comers) in [
        (&SMALL, &small[..]),
        (&MIDDLE, &middle[..]),
        (&LARGE, &large[..]),
    ] {
        let settings = drawn_settings(alloc, draw, pool, shape);
        lend(
            settings,
            Serving {
                alloc,
                comers,
                rounds,
                draw: &mut *draw,
                digest: &mut *digest,
            },
        )?;
    }
    Ok(())
}
