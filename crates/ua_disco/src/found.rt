//! What a request asks for, lent from the settings.

ghost use Rattle.std.specs.Prelude.{◌≡◌, ◌≤◌, ◌++◌, length, OnOk, OnErr};
ghost use Rattle.std.specs.List.{AllByRecursion, flat_map};
ghost use Rattle.ua_value.specs.Format.{AppendsPart};
ghost use Rattle.ua_service.specs.Application.{application_description};
ghost use Rattle.ua_service.specs.Endpoint.{endpoint_description};
ghost use Rattle.ua_disco.specs.Answers.{servers_among, endpoints_found};
ghost use Rattle.ua_disco.specs.Bounds.{IsApplication};

use crate::settings::Settings;
use crate::spelled::{NamedApplication, SpelledApplication};
use std::alloc::Global;
use ua_choice::{Filter, KnownLocales, Locales, Verdicts};
use ua_service::GetEndpointsRequest;
use ua_value::plumbing::Parts;
use ua_value::{Array, NoMemory, Sink, UaString};

/// The locales of the names of those applications that a filter asks for.
///
/// # Errors
///
/// `NoMemory` where the room for their copies is refused.
fn known_locales(
    alloc: Global,
    listed: &[SpelledApplication],
    filter: &Filter<'_>,
) -> Result<KnownLocales, NoMemory> {
    let mut known = KnownLocales::new(alloc);
    for application in listed {
        let plain = application.get();
        if filter.asks_for(&plain.uri) {
            known.add(alloc, &plain.names)?;
        }
    }
    Ok(known)
}

/// The locales that a reader wants of the applications that a filter asks for. Over sixteen of them are looked up once
/// for several applications, where there is memory for it.
pub(crate) fn locales_for<'a>(
    alloc: Global,
    listed: &[SpelledApplication],
    filter: &Filter<'_>,
    wanted: &'a Array<UaString>,
) -> Locales<'a>
    ensures { result ≡ wanted.now }
{
    if listed.len() < 2 || !Locales::are_many(wanted) {
        return Locales::new(wanted);
    }
    match known_locales(alloc, listed, filter) {
        Ok(known) => Locales::looked_up(alloc, wanted, known),
        Err(_) => Locales::new(wanted),
    }
}

/// The applications that a filter asks for, in their order, each for a reader of the locales.
#[derive(Clone, Copy)]
pub(crate) struct FoundServers<'a> {
    pub(crate) listed: &'a [SpelledApplication],
    pub(crate) filter: &'a Filter<'a>,
    pub(crate) locales: &'a Locales<'a>,
}

impl<'a> FoundServers<'a> {
    /// How many they are.
    pub(crate) fn count(&self) -> usize
        requires { length self.now.listed.now ≤ 65535 }
        ensures count { result ≡ length (servers_among self.now.locales.now self.now.filter.now self.now.listed.now) }
        ensures few { result ≤ 65535 }
    {
        let mut number = 0;
        let (listed, filter) = (self.listed, self.filter);
        for application in listed {
            if filter.asks_for(&application.get().uri) {
                number += 1;
            }
        }
        number
    }

    /// The length of what they are written as, in bytes.
    pub(crate) fn len(&self) -> u64
        requires applications { AllByRecursion IsApplication self.now.listed.now }
        requires number { length self.now.listed.now ≤ 65535 }
        ensures length { result ≡ length (flat_map application_description.canon (servers_among self.now.locales.now self.now.filter.now self.now.listed.now)) }
        ensures few { result ≤ 1152921504606846976 }
    {
        let mut total = 0;
        let (listed, filter, locales) = (self.listed, self.filter, self.locales);
        for application in listed {
            let plain = application.get();
            if filter.asks_for(&plain.uri) {
                let name = plain.names.for_reader(locales);
                total += NamedApplication { application, name }.len();
            }
        }
        total
    }
}

impl<'a> Parts for FoundServers<'a> {
    ghost spelling = { λ p. flat_map application_description.canon (servers_among p.locales.now p.filter.now p.listed.now) };

    fn emit_parts<S: Sink>(&self, out: &mut S) -> Result<(), NoMemory> {
        let (listed, filter, locales) = (self.listed, self.filter, self.locales);
        for application in listed {
            let plain = application.get();
            if filter.asks_for(&plain.uri) {
                let name = plain.names.for_reader(locales);
                NamedApplication { application, name }.emit_parts(out)?;
            }
        }
        Ok(())
    }
}

/// How many endpoints the request asks for.
pub(crate) fn endpoint_count<'a>(settings: &'a Settings, request: &'a GetEndpointsRequest) -> usize
    ensures count { result ≡ length (endpoints_found settings.now request.now) }
    ensures few { result ≤ 65535 }
{
    let mut count = 0;
    let mut verdicts = Verdicts::new(&request.profile_uris);
    let offered = settings.endpoints();
    for endpoint in offered {
        if verdicts.asks_for(&endpoint.get().transport) {
            count += 1;
        }
    }
    count
}

/// The length of what the endpoints that the request asks for are written as, in bytes.
pub(crate) fn endpoints_len<'a>(settings: &'a Settings, request: &'a GetEndpointsRequest) -> u64
    ensures length { result ≡ length (flat_map endpoint_description.canon (endpoints_found settings.now request.now)) }
    ensures few { result ≤ 1152921504606846976 }
{
    let application = settings.first();
    let plain = application.get();
    let name = plain.names.in_language(&request.locale_ids);
    let server = NamedApplication { application, name };
    let mut total = 0;
    let mut verdicts = Verdicts::new(&request.profile_uris);
    let offered = settings.endpoints();
    for endpoint in offered {
        if verdicts.asks_for(&endpoint.get().transport) {
            total += endpoint.len(&server);
        }
    }
    total
}

/// Puts the endpoints that the request asks for, in the order of the settings.
///
/// # Errors
///
/// `NoMemory` where a growth was refused; a beginning of them may have been put.
fn put_endpoints<'a, S: Sink>(
    settings: &'a Settings,
    request: &'a GetEndpointsRequest,
    out: &mut S,
) -> Result<(), NoMemory>
    ensures ok { OnOk result (S.contents out.new ≡ S.contents out.old ++ flat_map endpoint_description.canon (endpoints_found settings.now request.now)) }
    ensures err { OnErr result (AppendsPart (S.contents out.old) (S.contents out.new) (flat_map endpoint_description.canon (endpoints_found settings.now request.now))) }
{
    let application = settings.first();
    let plain = application.get();
    let name = plain.names.in_language(&request.locale_ids);
    let server = NamedApplication { application, name };
    let mut verdicts = Verdicts::new(&request.profile_uris);
    let offered = settings.endpoints();
    for endpoint in offered {
        if verdicts.asks_for(&endpoint.get().transport) {
            endpoint.put(&server, out)?;
        }
    }
    Ok(())
}

/// The endpoints that the request asks for, in the order of the settings.
#[derive(Clone, Copy)]
pub(crate) struct FoundEndpoints<'a> {
    pub(crate) settings: &'a Settings,
    pub(crate) request: &'a GetEndpointsRequest,
}

impl<'a> Parts for FoundEndpoints<'a> {
    ghost spelling = { λ p. flat_map endpoint_description.canon (endpoints_found p.settings.now p.request.now) };

    fn emit_parts<S: Sink>(&self, out: &mut S) -> Result<(), NoMemory> {
        put_endpoints(self.settings, self.request, out)
    }
}
