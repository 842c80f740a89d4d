//! Endpoints of servers.

ghost use Rattle.std.specs.Prelude.{◌≡◌, OnOk, OnErr, string_bytes};
ghost use Rattle.ua_json.specs.Lines.{AppendsLine};
ghost use Rattle.ua_json.specs.Nesting.{AddsMembers};

use crate::line::Line;
use crate::put::Put;
use std::alloc::Global;
use ua_service::{EndpointDescription, UserTokenPolicy};
use ua_value::NoMemory;

impl Put for UserTokenPolicy {
    fn put(&self, line: &mut Line) -> Result<(), NoMemory> {
        line.begin_object()?;
        line.field("PolicyId", &self.policy_id)?;
        line.field("TokenType", &self.token_type)?;
        line.field("IssuedTokenType", &self.issued_token_type)?;
        line.field("IssuerEndpointUrl", &self.issuer_endpoint_url)?;
        line.field("SecurityPolicyUri", &self.security_policy_uri)?;
        line.end_object()
    }
}

/// The fields of an endpoint (OPC 10000-4, 7.14).
fn put_endpoint(line: &mut Line, endpoint: &EndpointDescription) -> Result<(), NoMemory>
    ensures { OnOk result (AddsMembers line.old.json.tokens line.new.json.tokens) }
{
    line.field("EndpointUrl", &endpoint.endpoint_url)?;
    line.field("Server", &endpoint.server)?;
    line.field("ServerCertificate", &endpoint.server_certificate)?;
    line.field("SecurityMode", &endpoint.security_mode)?;
    line.field("SecurityPolicyUri", &endpoint.security_policy_uri)?;
    line.field("UserIdentityTokens", &endpoint.user_identity_tokens)?;
    line.field("TransportProfileUri", &endpoint.transport_profile_uri)?;
    line.field("SecurityLevel", &endpoint.security_level)
}

/// Appends the line of an endpoint, under the names of OPC 10000-4, 7.14.
///
/// # Errors
///
/// `NoMemory` where a growth was refused; the text is then as it was.
pub fn add_endpoint(
    alloc: Global,
    text: &mut String,
    endpoint: &EndpointDescription,
) -> Result<(), NoMemory>
    ensures line { OnOk result (AppendsLine (string_bytes text.old) (string_bytes text.new)) }
    ensures refused { OnErr result (string_bytes text.new ≡ string_bytes text.old) }
{
    let mut line = Line::new(alloc)?;
    let put = put_endpoint(&mut line, endpoint);
    line.add_to(text, put)
}
