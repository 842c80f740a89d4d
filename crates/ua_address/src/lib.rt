//! Urls of OPC UA over TCP, as people write them, and the addresses that they name.
#![tactic(auto)]

ghost use Rattle.std.specs.Prelude.{◌≡◌, ◌==◌, ◌<◌, ◌++◌, codes, length, string_bytes, IfOk, OnOk};
ghost use Rattle.std.specs.List.{before_first};
ghost use Rattle.ua_address.specs.Address.{address_of, authority, before, behind_host, has, is_url, with_port};

use std::alloc::{AllocError, Global};

/// What the url of a server begins with that speaks OPC UA over TCP. OPC 10000-6, 7.2.
const SCHEME: &str = "opc.tcp://";

/// Whether a text begins as the url of a server that speaks OPC UA over TCP.
pub fn is_url(text: &str) -> bool
    ensures { result ≡ is_url text.now }
{
    text.strip_prefix(SCHEME).is_some()
}

/// What stands before the first `end` of a text, which is ASCII, or all of it.
fn before<'a>(text: &'a str, end: char) -> &'a str
    requires { end < 128 }
    ensures { result.now ≡ before end text.now }
{
    match text.split_once(end) {
        Some((front, _)) => front,
        None => text,
    }
}

/// The host and perhaps the port behind the scheme of a url: what stands before the first `/`, `?` or `#`.
fn authority(rest: &str) -> &str
    ensures { result.now ≡ authority rest.now }
{
    before(before(before(rest, '/'), '?'), '#')
}

/// What stands behind the brackets of an address of IPv6, or all of another host.
fn behind_host(authority: &str) -> &str
    ensures { result.now ≡ behind_host authority.now }
{
    match authority.split_once(']') {
        Some((_, rest)) => rest,
        None => authority,
    }
}

/// Whether a port stands behind the host.
fn has_port(authority: &str) -> bool
    ensures { result ≡ has 58 (behind_host authority.now) }
{
    behind_host(authority).split_once(':').is_some()
}

/// A host and a port: 4840, where none stands there.
fn with_port(alloc: Global, authority: &str) -> Result<String, AllocError>
    ensures { IfOk result (λ address. string_bytes address ≡ with_port authority.now) }
{
    let mut address = String::from_str(alloc, authority)?;
    if !has_port(authority) {
        address.push_str(":4840")?;
    }
    Ok(address)
}

/// The address, a host and a port, that a text names: of a url that begins with `opc.tcp://` the host and the port behind
/// that, or the registered port 4840 where it has none; any other text is the address itself.
///
/// # Errors
///
/// `AllocError` where a growth was refused.
pub fn address_of(alloc: Global, text: &str) -> Result<String, AllocError>
    ensures { IfOk result (λ address. string_bytes address ≡ address_of text.now) }
{
    match text.strip_prefix(SCHEME) {
        Some(rest) => with_port(alloc, authority(rest)),
        None => String::from_str(alloc, text),
    }
}
