//! The lines of an endpoint.

use crate::application::add_described;
use crate::hex_text::add_hex;
use crate::margin::Margin;
use crate::naming::{Behind, Named, shown};
use sha1::Sha1;
use std::alloc::Global;
use ua_service::{EndpointDescription, SecurityMode, TokenType, UserTokenPolicy};
use ua_value::{NoMemory, UaBytes};

/// The name of a security mode (OPC 10000-4, 7.20).
fn mode_name(number: i32) -> Option<&'static str> {
    match SecurityMode::named(number)? {
        SecurityMode::Invalid => Some("Invalid"),
        SecurityMode::None => Some("None"),
        SecurityMode::Sign => Some("Sign"),
        SecurityMode::SignAndEncrypt => Some("SignAndEncrypt"),
    }
}

/// The name of a type of user token (OPC 10000-4, 7.43).
fn token_name(number: i32) -> Option<&'static str> {
    match TokenType::named(number)? {
        TokenType::Anonymous => Some("Anonymous"),
        TokenType::UserName => Some("UserName"),
        TokenType::Certificate => Some("Certificate"),
        TokenType::IssuedToken => Some("IssuedToken"),
    }
}

fn add_mode(text: &mut String, number: i32) -> Result<(), NoMemory> {
    let mode = Named {
        number,
        name: mode_name(number),
    };
    writeln!(text, "  mode {mode}")
}

/// Appends the size and the thumbprint of a certificate, which is the SHA-1 of its bytes (OPC 10000-6,
/// 6.7.2.3).
fn add_certificate(
    alloc: Global,
    text: &mut String,
    certificate: &UaBytes,
) -> Result<(), NoMemory> {
    let Some(bytes) = certificate.get() else {
        return text.push_str("  certificate null\n");
    };
    let size = bytes.len();
    write!(text, "  certificate size={size} sha1=")?;
    add_hex(alloc, text, &Sha1::digest(bytes))?;
    text.push_str("\n")
}

fn add_token(text: &mut String, token: &UserTokenPolicy) -> Result<(), NoMemory> {
    let id = shown(&token.policy_id);
    let kind = token.token_type;
    let name = Behind(token_name(kind));
    let issued = shown(&token.issued_token_type);
    let issuer = shown(&token.issuer_endpoint_url);
    let policy = shown(&token.security_policy_uri);
    writeln!(
        text,
        "  token {id} type={kind}{name} issued={issued} issuer={issuer} policy={policy}"
    )
}

fn add_tokens(text: &mut String, endpoint: &EndpointDescription) -> Result<(), NoMemory> {
    for token in endpoint.user_identity_tokens.get().unwrap_or(&[]) {
        add_token(text, token)?;
    }
    Ok(())
}

/// Appends the line `endpoint TEXT mode=N policy=TEXT transport=TEXT level=N`: the url, the number of the security mode,
/// the URIs of policy and transport profile, and the security level (OPC 10000-4, 7.14).
///
/// # Errors
///
/// `NoMemory` where a growth was refused; a beginning of the line may stand there then.
pub fn add_endpoint_line(
    text: &mut String,
    endpoint: &EndpointDescription,
) -> Result<(), NoMemory> {
    let url = shown(&endpoint.endpoint_url);
    let mode = endpoint.security_mode;
    let policy = shown(&endpoint.security_policy_uri);
    let transport = shown(&endpoint.transport_profile_uri);
    let level = endpoint.security_level;
    writeln!(
        text,
        "endpoint {url} mode={mode} policy={policy} transport={transport} level={level}"
    )
}

/// Appends all that is said of an endpoint (OPC 10000-4, 7.14): the line of [`add_endpoint_line`], and under it lines of
/// the name of the mode or the number that has none, the size and SHA-1 thumbprint of the certificate, each user token
/// policy, and the server, of which all stands there that [`add_application`](crate::add_application) says.
///
/// # Errors
///
/// `NoMemory` where a growth was refused; a beginning of the lines may stand there then.
pub fn add_endpoint(
    alloc: Global,
    text: &mut String,
    endpoint: &EndpointDescription,
) -> Result<(), NoMemory> {
    add_endpoint_line(text, endpoint)?;
    add_mode(text, endpoint.security_mode)?;
    add_certificate(alloc, text, &endpoint.server_certificate)?;
    add_tokens(text, endpoint)?;
    add_described(text, Margin::new(2), "server", &endpoint.server)
}
