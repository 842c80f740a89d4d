//! How a server begins that opened the connection itself.

ghost use Rattle.std.specs.Prelude.{◌≡◌, None, Some, IfOk, IfErr};
ghost use Rattle.ua_disco.specs.Settings.{first_url_of};
ghost use Rattle.ua_conn.specs.server.Greeting.{reverse_fault};

use crate::limits::GREATEST_FIRST_FRAME;
use std::alloc::AllocError;
use ua_disco::Settings;
use ua_value::{UaString, Wire};

/// Why a server can't open a connection.
#[derive(Clone, Copy, Debug, PartialEq, Eq)]
pub enum ReverseFault {
    /// The settings have no endpoint, whose url the ReverseHello would name.
    NoEndpoint,
    /// The ReverseHello would have more than 8192 bytes, which no client takes.
    TooLarge,
    /// A growth was refused.
    NoMemory,
}

impl From<AllocError> for ReverseFault {
    ghost use Rattle.ua_conn.specs.declared.server.greeting.ReverseFault.TheVariants.{NoMemory as OutOfMemory};

    ghost from_gives = { λ _ e. e ≡ OutOfMemory };

    fn from(_e: AllocError) -> ReverseFault {
        ReverseFault::NoMemory
    }
}

/// Bytes of the longest frame before an Acknowledge.
const LONGEST_FRAME: u64 = GREATEST_FIRST_FRAME as u64;

/// Bytes of a frame's header.
const HEADER: u64 = ua_frame::HEADER as u64;

/// Whether a server of these settings can open a connection. It takes no memory. OPC 10000-6, 7.1.2.6.
///
/// # Errors
///
/// `NoEndpoint` where the settings have no endpoint; `TooLarge` where the ReverseHello would have more than 8192 bytes.
pub fn can_open(settings: &Settings) -> Result<(), ReverseFault>
    ensures fine { IfOk result (λ _. reverse_fault settings.now ≡ None) }
    ensures fault { IfErr result (λ fault. reverse_fault settings.now ≡ Some fault) }
{
    match greeting_url(settings) {
        Ok(_) => Ok(()),
        Err(fault) => Err(fault),
    }
}

/// The url that the ReverseHello names, or why there can't be one.
pub(crate) fn greeting_url(settings: &Settings) -> Result<&UaString, ReverseFault>
    ensures fine { IfOk result (λ url. reverse_fault settings.now ≡ None) }
    ensures url { IfOk result (λ url. first_url_of settings.now.endpoints ≡ Some url.now) }
    ensures fault { IfErr result (λ fault. reverse_fault settings.now ≡ Some fault) }
{
    let Some(url) = settings.first_url() else {
        return Err(ReverseFault::NoEndpoint);
    };
    if HEADER + settings.first_uri().len() + url.len() > LONGEST_FRAME {
        return Err(ReverseFault::TooLarge);
    }
    Ok(url)
}
