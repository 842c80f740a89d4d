//! Calls for benchmarks, over the public calls of the libraries: numbers and slices alone cross. bench/ua_bench.h says
//! what each call does and what it answers. Nothing is kept between two calls.
#![tactic(auto)]

mod assembling;
mod bodies;
mod both;
mod clients;
mod connections;
mod documents;
mod giving;
mod values;

use crate::assembling::{assembled, cut};
use crate::bodies::body_read_and_written;
use crate::both::{Rounds, conversed};
use crate::clients::{Talk, talked};
use crate::connections::answered;
use crate::documents::settings_numbered;
use crate::giving::{BAD, counted};
use crate::values::{value_read, value_written};
use std::alloc::Global;

/// Bytes of a piece, where 0 stands for all in one.
fn piece_of(piece: usize) -> usize {
    if piece == 0 { usize::MAX } else { piece }
}

/// The length of the input: what a call costs.
#[unsafe(no_mangle)]
pub extern "C" fn ua_nothing(input: &[u8]) -> i64 {
    counted(input.len())
}

/// A connection to a new server, `repeat` times.
#[unsafe(no_mangle)]
pub extern "C" fn ua_answer(
    alloc: Global,
    settings: u32,
    input: &[u8],
    piece: usize,
    moment: i64,
    repeat: u32,
    out: &mut [u8],
) -> i64 {
    let piece = piece_of(piece);
    match settings_numbered(alloc, settings) {
        Err(status) => status,
        Ok(settings) => answered(alloc, &settings, input, piece, moment, repeat, out),
    }
}

/// Reads a value of the type with that number, `repeat` times.
#[unsafe(no_mangle)]
pub extern "C" fn ua_value_read(alloc: Global, kind: u32, input: &[u8], repeat: u32) -> i64 {
    value_read(alloc, kind, input, repeat)
}

/// Reads a value of the type with that number, and writes it `repeat` times.
#[unsafe(no_mangle)]
pub extern "C" fn ua_value_write(
    alloc: Global,
    kind: u32,
    input: &[u8],
    repeat: u32,
    out: &mut [u8],
) -> i64 {
    value_written(alloc, kind, input, repeat, out)
}

/// Reads and writes a body, `repeat` times.
#[unsafe(no_mangle)]
pub extern "C" fn ua_body(
    alloc: Global,
    what: u32,
    input: &[u8],
    repeat: u32,
    out: &mut [u8],
) -> i64 {
    body_read_and_written(alloc, what, input, repeat, out)
}

/// Joins the chunks of messages, `repeat` times.
#[unsafe(no_mangle)]
pub extern "C" fn ua_assemble(
    alloc: Global,
    max_message: u32,
    max_chunks: u32,
    input: &[u8],
    repeat: u32,
    out: &mut [u8],
) -> i64 {
    assembled(alloc, max_message, max_chunks, input, repeat, out)
}

/// Cuts a body into chunks, `repeat` times.
#[unsafe(no_mangle)]
pub extern "C" fn ua_cut(
    alloc: Global,
    part_limit: u32,
    input: &[u8],
    repeat: u32,
    out: &mut [u8],
) -> i64 {
    cut(alloc, part_limit, input, repeat, out)
}

/// A client alone, `repeat` times.
#[unsafe(no_mangle)]
pub extern "C" fn ua_client(
    alloc: Global,
    buffer: u32,
    body: &[u8],
    down: &[u8],
    opening: usize,
    asks: u32,
    part_limit: u32,
    piece: usize,
    repeat: u32,
    out: &mut [u8],
) -> i64 {
    if opening > down.len() {
        return BAD;
    }
    let (opening, answers) = down.split_at(opening);
    let talk = Talk {
        buffer,
        opening,
        answers,
        asks,
        part_limit,
        piece: piece_of(piece),
    };
    talked(alloc, body, &talk, repeat, out)
}

/// A client and a server, `repeat` times.
#[unsafe(no_mangle)]
pub extern "C" fn ua_converse(
    alloc: Global,
    settings: u32,
    buffer: u32,
    body: &[u8],
    rounds: u32,
    asks: u32,
    renew: u32,
    part_limit: u32,
    repeat: u32,
    out: &mut [u8],
) -> i64 {
    match settings_numbered(alloc, settings) {
        Err(status) => status,
        Ok(settings) => {
            let r = Rounds {
                settings: &settings,
                buffer,
                rounds,
                asks,
                renews: renew == 1,
                part_limit,
            };
            conversed(alloc, body, &r, repeat, out)
        }
    }
}
