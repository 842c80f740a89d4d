//! Bodies of messages, read and written.

ghost use Rattle.std.specs.Prelude.{◌≤◌, length};
ghost use Rattle.ua_value.specs.Format.{input_limit};

use crate::giving::{BAD, NO_MEMORY, counted, fault_answer, give};
use crate::values::LONGEST;
use std::alloc::Global;
use ua_service::{Body, read_request, read_response};

fn write_request(alloc: Global, input: &[u8], bytes: &mut Vec<u8>) -> Result<(), i64>
    requires { length input.now ≤ input_limit }
{
    match read_request(alloc, input) {
        Err(fault) => Err(fault_answer(fault)),
        Ok(message) => {
            bytes.clear();
            message.write_body(bytes).map_err(|_| NO_MEMORY)
        }
    }
}

fn write_response(alloc: Global, input: &[u8], bytes: &mut Vec<u8>) -> Result<(), i64>
    requires { length input.now ≤ input_limit }
{
    match read_response(alloc, input) {
        Err(fault) => Err(fault_answer(fault)),
        Ok(message) => {
            bytes.clear();
            message.write_body(bytes).map_err(|_| NO_MEMORY)
        }
    }
}

/// Reads a request (0) or a response (1) and writes it, `repeat` times.
pub(crate) fn body_read_and_written(
    alloc: Global,
    what: u32,
    input: &[u8],
    repeat: u32,
    out: &mut [u8],
) -> i64 {
    if input.len() > LONGEST {
        return BAD;
    }
    let mut bytes = Vec::new(alloc);
    for _ in 0..repeat {
        let done = match what {
            0 => write_request(alloc, input, &mut bytes),
            1 => write_response(alloc, input, &mut bytes),
            _ => Err(BAD),
        };
        if let Err(status) = done {
            return status;
        }
    }
    give(&bytes, counted(bytes.len()), out)
}
