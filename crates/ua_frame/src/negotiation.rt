//! What a Hello and a server's limits agree on.

ghost use Rattle.std.specs.Prelude.{◌≡◌, None, Some, IfOk, IfErr};
ghost use Rattle.ua_frame.specs.Rows.{first_row};
ghost use Rattle.ua_frame.specs.Hello.{is_long, hello_rows, negotiated, hello_answer, is_size, is_acceptable};

use crate::acknowledge::Ack;
use crate::hello::Hello;
use crate::limits::{LEAST_BUFFER, Limits};
use crate::status::{BAD_TCP_ENDPOINT_URL_INVALID, BAD_TCP_NOT_ENOUGH_RESOURCES};
use ua_value::UaString;
use ua_value::plumbing::LONGEST_URL;

/// The version of the connection protocol that is spoken (OPC 10000-6, 7.1.2.3).
pub const VERSION: u32 = 0;

/// Whether a url is longer than an end takes: over 4095 bytes. A null one is not. OPC 10000-6, 7.1.2.3 and 7.1.2.6.
pub fn is_long_url(url: &UaString) -> bool
    ensures { result ≡ is_long url.now }
{
    match url.get() {
        None => false,
        Some(url) => url.len() > LONGEST_URL,
    }
}

/// What a server with these limits answers to a Hello. It takes no memory. OPC 10000-6, 7.1.2.3 and 7.1.2.4.
///
/// The version is 0; in each direction a frame has at most as many bytes as the one end sends and the other takes, and
/// the limits on requests are the server's. Any version of the client is accepted, and any url of at most 4095 bytes,
/// null included.
///
/// # Errors
///
/// The status of the first of these that holds: `BAD_TCP_ENDPOINT_URL_INVALID` where the url has more than 4095 bytes;
/// `BAD_TCP_NOT_ENOUGH_RESOURCES` where one of the client's buffers is smaller than 8192 bytes.
pub fn negotiate(hello: &Hello, limits: &Limits) -> Result<Ack, u32>
    ensures refused { IfErr result (λ status. first_row (hello_rows (Some hello.now)) ≡ Some status) }
    ensures passed { IfOk result (λ ack. first_row (hello_rows (Some hello.now)) ≡ None) }
    ensures agreed { IfOk result (λ ack. ack ≡ negotiated limits.now hello.now) }
    ensures exact { result ≡ hello_answer limits.now hello.now }
{
    if is_long_url(&hello.url) {
        return Err(BAD_TCP_ENDPOINT_URL_INVALID);
    }
    if hello.receive < LEAST_BUFFER || hello.send < LEAST_BUFFER {
        return Err(BAD_TCP_NOT_ENOUGH_RESOURCES);
    }
    Ok(Ack {
        version: VERSION,
        receive: limits.receive.min(hello.send),
        send: limits.send.min(hello.receive),
        max_message: limits.max_message,
        max_chunks: limits.max_chunks,
    })
}

/// Whether a buffer of `size` bytes is large enough for any end, and no larger than `most`.
fn is_size(most: u32, size: u32) -> bool
    ensures { result ≡ is_size most size }
{
    LEAST_BUFFER <= size && size <= most
}

/// Whether a client goes on with what a server answered to its Hello: both sizes are at least 8192 bytes, and at most
/// those that the Hello named. Any version is acceptable, and so are any limits on requests. The call takes no memory.
/// OPC 10000-6, 7.1.2.4.
pub fn acceptable(hello: &Hello, ack: &Ack) -> bool
    ensures { result ≡ is_acceptable hello.now ack.now }
{
    is_size(hello.send, ack.receive) && is_size(hello.receive, ack.send)
}
