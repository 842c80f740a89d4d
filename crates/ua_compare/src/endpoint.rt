//! Endpoints (OPC 10000-4, 7.14), by their EndpointUrl, SecurityMode, SecurityPolicyUri and TransportProfileUri.

ghost use Rattle.std.specs.Prelude.{◌==◌, ◌↔◌, IfOk, IsTrue, OnOk, string_bytes};
ghost use Rattle.ua_compare.specs.Offer.{IsSameOffer};
ghost use Rattle.ua_compare.specs.Said.{Says};
ghost use Rattle.ua_compare.specs.Same.{same_application, same_bytes, same_but_key, same_key};
ghost use Rattle.ua_compare.specs.SameLaws.{endpoint_decides};

use crate::application::add_but_uri;
use crate::described::Described;
use crate::differing::add_differences;
use crate::field::{add_text_field, add_where, longer};
use crate::token::add_tokens;
use crate::value::{Value, add_number, add_text};
use std::alloc::Global;
use ua_service::{ApplicationDescription, EndpointDescription};
use ua_value::plumbing::let_go;
use ua_value::{NoMemory, UaBytes};

/// Appends a line for each field of the server that differs.
fn add_server_fields(
    wanted: &ApplicationDescription,
    found: &ApplicationDescription,
    start: &str,
    text: &mut String,
) -> Result<(), NoMemory>
    ensures { OnOk result (Says (same_application wanted.now found.now) (string_bytes text.old) (string_bytes text.new)) }
{
    add_text_field(
        start,
        "ApplicationUri",
        &wanted.application_uri,
        &found.application_uri,
        text,
    )?;
    add_but_uri(wanted, found, start, text)
}

/// The same, each with `Server.` before the field.
fn add_server(
    alloc: Global,
    wanted: &ApplicationDescription,
    found: &ApplicationDescription,
    start: &str,
    text: &mut String,
) -> Result<(), NoMemory>
    ensures { OnOk result (Says (same_application wanted.now found.now) (string_bytes text.old) (string_bytes text.new)) }
{
    let start = longer(alloc, start, "Server.")?;
    let added = add_server_fields(wanted, found, start.as_str(), text);
    let_go(start);
    added
}

/// Appends the line of the certificate where it differs.
fn add_certificate(
    wanted: &UaBytes,
    found: &UaBytes,
    start: &str,
    text: &mut String,
) -> Result<(), NoMemory>
    ensures { OnOk result (Says (same_bytes wanted.now found.now) (string_bytes text.old) (string_bytes text.new)) }
{
    let same = wanted == found;
    add_where(
        same,
        start,
        "ServerCertificate",
        Value::Certificate(wanted),
        Value::Certificate(found),
        text,
    )
}

/// Appends the line of the SecurityLevel where it differs.
fn add_level(wanted: u8, found: u8, start: &str, text: &mut String) -> Result<(), NoMemory>
    ensures { OnOk result (Says (wanted == found) (string_bytes text.old) (string_bytes text.new)) }
{
    let same = wanted == found;
    add_where(
        same,
        start,
        "SecurityLevel",
        Value::Number(i32::from(wanted)),
        Value::Number(i32::from(found)),
        text,
    )
}

/// Appends a line for each field that differs and is no part of its name.
fn add_but_key(
    alloc: Global,
    wanted: &EndpointDescription,
    found: &EndpointDescription,
    start: &str,
    text: &mut String,
) -> Result<(), NoMemory>
    ensures { OnOk result (Says (same_but_key wanted.now found.now) (string_bytes text.old) (string_bytes text.new)) }
{
    add_server(alloc, &wanted.server, &found.server, start, text)?;
    add_certificate(
        &wanted.server_certificate,
        &found.server_certificate,
        start,
        text,
    )?;
    add_tokens(
        alloc,
        &wanted.user_identity_tokens,
        &found.user_identity_tokens,
        start,
        text,
    )?;
    add_level(wanted.security_level, found.security_level, start, text)
}

impl Described for EndpointDescription {
    ghost named = { same_key };

    fn is_named_as(&self, other: &EndpointDescription) -> bool {
        self.endpoint_url == other.endpoint_url
            && self.security_mode == other.security_mode
            && self.security_policy_uri == other.security_policy_uri
            && self.transport_profile_uri == other.transport_profile_uri
    }

    fn add_name(&self, text: &mut String) -> Result<(), NoMemory> {
        text.push_str("endpoint ")?;
        add_text(&self.endpoint_url, text)?;
        text.push_str(" mode=")?;
        add_number(self.security_mode, text)?;
        text.push_str(" policy=")?;
        add_text(&self.security_policy_uri, text)?;
        text.push_str(" transport=")?;
        add_text(&self.transport_profile_uri, text)
    }

    fn add_fields(
        &self,
        alloc: Global,
        found: &EndpointDescription,
        start: &str,
        text: &mut String,
    ) -> Result<(), NoMemory> {
        add_but_key(alloc, self, found, start, text)
    }

    ghost decides = { endpoint_decides };
}

/// Appends a line for each difference between the endpoints that are wanted and those that were found (OPC 10000-4, 5.5.4
/// and 7.14), and says whether there is none. As [`crate::add_application_differences`]; those that are laid beside each other have
/// the same EndpointUrl, SecurityMode, SecurityPolicyUri and TransportProfileUri.
///
/// # Errors
///
/// `NoMemory` where a growth was refused; a beginning of the lines may have been appended.
pub fn add_endpoint_differences(
    alloc: Global,
    wanted: &[EndpointDescription],
    found: &[EndpointDescription],
    text: &mut String,
) -> Result<bool, NoMemory>
    ensures same { IfOk result (λ same. IsTrue same ↔ IsSameOffer wanted.now found.now) }
    ensures said { IfOk result (λ same. Says same (string_bytes text.old) (string_bytes text.new)) }
{
    add_differences(alloc, "", wanted, found, text)
}
