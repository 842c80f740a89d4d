//! Endpoints of servers.

ghost use Rattle.ua_service.specs.Endpoint.{user_token_policy, lawful_user_token_policy, endpoint_description, lawful_endpoint_description};

use crate::application::ApplicationDescription;
use std::alloc::Global;
use ua_value::plumbing::{Fields, Parts, copy_three, copy_two};
use ua_value::{Array, NoMemory, ReadFault, Sink, UaBytes, UaString, Wire};

/// A kind of user identity that an endpoint takes (OPC 10000-4, 7.42).
#[derive(Debug, PartialEq, Eq, Drop)]
pub struct UserTokenPolicy {
    /// The name of the policy, unique in its endpoint.
    pub policy_id: UaString,
    /// 0 for anonymous, 1 for a user name, 2 for a certificate, 3 for an issued token; as it came.
    pub token_type: i32,
    /// The kind of an issued token; else null.
    pub issued_token_type: UaString,
    /// Where an issued token is had; else null.
    pub issuer_endpoint_url: UaString,
    /// The security policy of the identity; null for that of the endpoint.
    pub security_policy_uri: UaString,
}

type UserTokenPolicyFields = (UaString, (i32, (UaString, (UaString, UaString))));

#[tactic(auto, unfolding(crate::specs::Endpoint::user_token_policy))]
impl Wire for UserTokenPolicy {
    ghost format = { user_token_policy };

    ghost most = { 8589934608 };

    ghost Grows = { Unit {0} };

    fn len(&self) -> u64 {
        self.policy_id.len()
            + self.token_type.len()
            + self.issued_token_type.len()
            + self.issuer_endpoint_url.len()
            + self.security_policy_uri.len()
    }

    fn emit<S: Sink>(&self, out: &mut S) -> Result<(), NoMemory> {
        (
            &self.policy_id,
            (
                &self.token_type,
                (
                    &self.issued_token_type,
                    (&self.issuer_endpoint_url, &self.security_policy_uri),
                ),
            ),
        )
            .emit_parts(out)
    }

    fn copy(&self) -> Result<UserTokenPolicy, NoMemory> {
        let (policy_id, issued_token_type) = copy_two(&self.policy_id, &self.issued_token_type)?;
        let (issuer_endpoint_url, security_policy_uri) = copy_two(
            &self.issuer_endpoint_url,
            &self.security_policy_uri,
        )?;
        Ok(UserTokenPolicy {
            policy_id,
            token_type: self.token_type,
            issued_token_type,
            issuer_endpoint_url,
            security_policy_uri,
        })
    }

    fn read_front(alloc: Global, input: &[u8]) -> Result<(UserTokenPolicy, &[u8]), ReadFault> {
        match UserTokenPolicyFields::read_fields(alloc, input) {
            Ok(
                (
                    (
                        policy_id,
                        (
                            token_type,
                            (issued_token_type, (issuer_endpoint_url, security_policy_uri)),
                        ),
                    ),
                    rest,
                ),
            ) => Ok((
                UserTokenPolicy {
                    policy_id,
                    token_type,
                    issued_token_type,
                    issuer_endpoint_url,
                    security_policy_uri,
                },
                rest,
            )),
            Err(fault) => Err(fault),
        }
    }

    fn read_items(
        alloc: Global,
        count: u32,
        input: &[u8],
    ) -> Result<(Vec<UserTokenPolicy>, &[u8]), ReadFault> {
        // None takes fewer than 20 bytes.
        Self::read_each(alloc, 0, input.len() / 20, count, input)
    }

    ghost laws = { lawful_user_token_policy };
}

/// An endpoint of a server (OPC 10000-4, 7.14).
#[derive(Debug, PartialEq, Eq, Drop)]
pub struct EndpointDescription {
    /// Where the endpoint is.
    pub endpoint_url: UaString,
    /// Whose endpoint it is.
    pub server: ApplicationDescription,
    /// The certificate of the application; null where there is none.
    pub server_certificate: UaBytes,
    /// 1 for none, 2 to sign, 3 to sign and encrypt; as it came.
    pub security_mode: i32,
    /// The security policy of its channels.
    pub security_policy_uri: UaString,
    /// The user identities that it takes.
    pub user_identity_tokens: Array<UserTokenPolicy>,
    /// The transport that it speaks.
    pub transport_profile_uri: UaString,
    /// How secure it is beside the other endpoints of the server; 0 where nobody recommends it.
    pub security_level: u8,
}

type EndpointDescriptionFields = (
    UaString,
    (
        ApplicationDescription,
        (
            UaBytes,
            (i32, (UaString, (Array<UserTokenPolicy>, (UaString, u8)))),
        ),
    ),
);

#[tactic(auto, unfolding(crate::specs::Endpoint::endpoint_description))]
impl Wire for EndpointDescription {
    ghost format = { endpoint_description };

    ghost most = { 2305843030688530480 };

    ghost Grows = { Unit {0} };

    fn len(&self) -> u64 {
        self.endpoint_url.len()
            + self.server.len()
            + self.server_certificate.len()
            + self.security_mode.len()
            + self.security_policy_uri.len()
            + self.user_identity_tokens.len()
            + self.transport_profile_uri.len()
            + self.security_level.len()
    }

    fn emit<S: Sink>(&self, out: &mut S) -> Result<(), NoMemory> {
        (
            &self.endpoint_url,
            (
                &self.server,
                (
                    &self.server_certificate,
                    (
                        &self.security_mode,
                        (
                            &self.security_policy_uri,
                            (
                                &self.user_identity_tokens,
                                (&self.transport_profile_uri, &self.security_level),
                            ),
                        ),
                    ),
                ),
            ),
        )
            .emit_parts(out)
    }

    fn copy(&self) -> Result<EndpointDescription, NoMemory> {
        let (security_policy_uri, user_identity_tokens, transport_profile_uri) = copy_three(
            &self.security_policy_uri,
            &self.user_identity_tokens,
            &self.transport_profile_uri,
        )?;
        let (endpoint_url, server, server_certificate) = copy_three(
            &self.endpoint_url,
            &self.server,
            &self.server_certificate,
        )?;
        Ok(EndpointDescription {
            endpoint_url,
            server,
            server_certificate,
            security_mode: self.security_mode,
            security_policy_uri,
            user_identity_tokens,
            transport_profile_uri,
            security_level: self.security_level,
        })
    }

    fn read_front(alloc: Global, input: &[u8]) -> Result<(EndpointDescription, &[u8]), ReadFault> {
        match EndpointDescriptionFields::read_fields(alloc, input) {
            Ok(
                (
                    (
                        endpoint_url,
                        (
                            server,
                            (
                                server_certificate,
                                (
                                    security_mode,
                                    (
                                        security_policy_uri,
                                        (
                                            user_identity_tokens,
                                            (transport_profile_uri, security_level),
                                        ),
                                    ),
                                ),
                            ),
                        ),
                    ),
                    rest,
                ),
            ) => Ok((
                EndpointDescription {
                    endpoint_url,
                    server,
                    server_certificate,
                    security_mode,
                    security_policy_uri,
                    user_identity_tokens,
                    transport_profile_uri,
                    security_level,
                },
                rest,
            )),
            Err(fault) => Err(fault),
        }
    }

    fn read_items(
        alloc: Global,
        count: u32,
        input: &[u8],
    ) -> Result<(Vec<EndpointDescription>, &[u8]), ReadFault> {
        // None takes fewer than 50 bytes.
        Self::read_each(alloc, 0, input.len() / 50, count, input)
    }

    ghost laws = { lawful_endpoint_description };
}
