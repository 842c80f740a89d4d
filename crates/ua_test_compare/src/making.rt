//! Descriptions, spelled by hand (OPC 10000-6, 5.2), and what is said of two lists of them.

ghost use Rattle.std.specs.Prelude.{◌≤◌};

use std::alloc::{AllocError, Global};
use ua_compare::{add_application_differences, add_endpoint_differences};
use ua_service::{ApplicationDescription, EndpointDescription};
use ua_value::{Array, NoMemory, ReadFault, Wire};

/// The length of what is made, which is short.
fn length_of<T>(items: &[T]) -> u32
    ensures { result ≤ 1000 }
{
    items.len().min(1000) as u32
}

fn put_bytes(out: &mut Vec<u8>, bytes: Option<&[u8]>) -> Result<(), AllocError> {
    let Some(bytes) = bytes else {
        return out.extend_from_slice(&[255, 255, 255, 255]);
    };
    out.extend_from_slice(&length_of(bytes).to_le_bytes())?;
    out.extend_from_slice(bytes)
}

fn put_text(out: &mut Vec<u8>, text: Option<&str>) -> Result<(), AllocError> {
    put_bytes(out, text.map(str::as_bytes))
}

/// What can be spelled.
pub(crate) trait Spelled {
    fn put(&self, out: &mut Vec<u8>) -> Result<(), AllocError>;
}

fn put_all<S: Spelled>(out: &mut Vec<u8>, items: Option<&[S]>) -> Result<(), AllocError> {
    let Some(items) = items else {
        return out.extend_from_slice(&[255, 255, 255, 255]);
    };
    out.extend_from_slice(&length_of(items).to_le_bytes())?;
    for item in items {
        item.put(out)?;
    }
    Ok(())
}

impl Spelled for &str {
    fn put(&self, out: &mut Vec<u8>) -> Result<(), AllocError> {
        put_text(out, Some(*self))
    }
}

/// An application.
#[derive(Clone, Copy)]
pub(crate) struct Application<'a> {
    pub(crate) uri: Option<&'a str>,
    pub(crate) product: Option<&'a str>,
    pub(crate) locale: Option<&'a str>,
    pub(crate) name: Option<&'a str>,
    pub(crate) kind: i32,
    pub(crate) gateway: Option<&'a str>,
    pub(crate) profile: Option<&'a str>,
    pub(crate) urls: Option<&'a [&'a str]>,
}

impl Spelled for Application<'_> {
    fn put(&self, out: &mut Vec<u8>) -> Result<(), AllocError> {
        put_text(out, self.uri)?;
        put_text(out, self.product)?;
        out.push(3)?;
        put_text(out, self.locale)?;
        put_text(out, self.name)?;
        out.extend_from_slice(&self.kind.to_le_bytes())?;
        put_text(out, self.gateway)?;
        put_text(out, self.profile)?;
        put_all(out, self.urls)
    }
}

/// A policy for the tokens of users.
#[derive(Clone, Copy)]
pub(crate) struct Token<'a> {
    pub(crate) id: Option<&'a str>,
    pub(crate) kind: i32,
    pub(crate) issued: Option<&'a str>,
    pub(crate) issuer: Option<&'a str>,
    pub(crate) policy: Option<&'a str>,
}

impl Spelled for Token<'_> {
    fn put(&self, out: &mut Vec<u8>) -> Result<(), AllocError> {
        put_text(out, self.id)?;
        out.extend_from_slice(&self.kind.to_le_bytes())?;
        put_text(out, self.issued)?;
        put_text(out, self.issuer)?;
        put_text(out, self.policy)
    }
}

/// An endpoint.
#[derive(Clone, Copy)]
pub(crate) struct Endpoint<'a> {
    pub(crate) url: Option<&'a str>,
    pub(crate) server: Application<'a>,
    pub(crate) certificate: Option<&'a [u8]>,
    pub(crate) mode: i32,
    pub(crate) policy: Option<&'a str>,
    pub(crate) tokens: Option<&'a [Token<'a>]>,
    pub(crate) transport: Option<&'a str>,
    pub(crate) level: u8,
}

impl Spelled for Endpoint<'_> {
    fn put(&self, out: &mut Vec<u8>) -> Result<(), AllocError> {
        put_text(out, self.url)?;
        self.server.put(out)?;
        put_bytes(out, self.certificate)?;
        out.extend_from_slice(&self.mode.to_le_bytes())?;
        put_text(out, self.policy)?;
        put_all(out, self.tokens)?;
        put_text(out, self.transport)?;
        out.push(self.level)?;
        Ok(())
    }
}

/// The items of a list, none where it is null.
fn items_of<T: Wire>(list: &Array<T>) -> &[T] {
    match list.get() {
        Some(items) => items,
        None => &[],
    }
}

/// Lists that can be laid beside each other.
pub(crate) trait Offered: Wire {
    fn add(
        alloc: Global,
        wanted: &Array<Self>,
        found: &Array<Self>,
        text: &mut String,
    ) -> Result<bool, NoMemory>;
}

impl Offered for ApplicationDescription {
    fn add(
        alloc: Global,
        wanted: &Array<ApplicationDescription>,
        found: &Array<ApplicationDescription>,
        text: &mut String,
    ) -> Result<bool, NoMemory> {
        let wanted = items_of(wanted);
        let found = items_of(found);
        add_application_differences(alloc, wanted, found, text)
    }
}

impl Offered for EndpointDescription {
    fn add(
        alloc: Global,
        wanted: &Array<EndpointDescription>,
        found: &Array<EndpointDescription>,
        text: &mut String,
    ) -> Result<bool, NoMemory> {
        let wanted = items_of(wanted);
        let found = items_of(found);
        add_endpoint_differences(alloc, wanted, found, text)
    }
}

/// What was said.
#[derive(Clone, Copy, Debug, PartialEq, Eq)]
pub(crate) enum Said {
    /// These lines, and whether there is a difference agrees with them.
    AsExpected,
    Other,
    /// A description could not be read.
    Unread,
    NoMemory,
}

fn read_list<O: Offered>(alloc: Global, bytes: &[u8]) -> Result<Array<O>, ReadFault> {
    if bytes.len() > 100_000 {
        return Err(ReadFault::Refused);
    }
    match Array::<O>::read_front(alloc, bytes) {
        Ok((list, _)) => Ok(list),
        Err(fault) => Err(fault),
    }
}

fn made<O: Offered, S: Spelled>(alloc: Global, items: &[S]) -> Result<Array<O>, ReadFault> {
    let mut out = Vec::new(alloc);
    put_all(&mut out, Some(items))?;
    read_list(alloc, out.as_slice())
}

fn said_of<O: Offered>(
    alloc: Global,
    wanted: &Array<O>,
    found: &Array<O>,
    text: &mut String,
    lines: &str,
) -> Said {
    match O::add(alloc, wanted, found, text) {
        Ok(same) if text.as_str() == lines && same == lines.is_empty() => Said::AsExpected,
        Ok(_) => Said::Other,
        Err(_) => Said::NoMemory,
    }
}

/// What is said of the two lists beside these lines.
pub(crate) fn outcome<O: Offered, S: Spelled>(
    alloc: Global,
    wanted: &[S],
    found: &[S],
    lines: &str,
) -> Said {
    let (wanted, found) = match (made::<O, S>(alloc, wanted), made::<O, S>(alloc, found)) {
        (Ok(wanted), Ok(found)) => (wanted, found),
        (Err(ReadFault::NoMemory), _) | (_, Err(ReadFault::NoMemory)) => return Said::NoMemory,
        _ => return Said::Unread,
    };
    let mut text = String::new(alloc);
    said_of(alloc, &wanted, &found, &mut text, lines)
}
