//! The endpoints of a server, as they are set up.

ghost use Rattle.std.specs.Prelude.{◌≡◌, ◌≤◌, ◌++◌, length, IfOk, OnOk, OnErr};
ghost use Rattle.ua_value.specs.Format.{AppendsPart};
ghost use Rattle.ua_disco.specs.Answers.{described_endpoint};
ghost use Rattle.ua_disco.specs.Spelled.{behind_server};

use crate::application::Application;
use ua_service::{EndpointDescription, UserTokenPolicy};
use ua_value::plumbing::{Parts, copy_three, copy_two};
use ua_value::{Array, LocalizedText, NoMemory, Sink, UaBytes, UaString, Wire};

/// An endpoint as it is set up (OPC 10000-4, 7.14).
#[derive(Drop)]
pub(crate) struct Endpoint {
    pub(crate) url: UaString,
    /// 1 for none, 2 to sign, 3 to sign and encrypt.
    pub(crate) mode: i32,
    pub(crate) policy: UaString,
    pub(crate) certificate: UaBytes,
    pub(crate) transport: UaString,
    pub(crate) level: u8,
    pub(crate) tokens: Array<UserTokenPolicy>,
}

impl Endpoint {
    /// Its description as an endpoint of the application, under one of its names.
    pub(crate) fn describe(
        &self,
        application: &Application,
        name: &LocalizedText,
    ) -> Result<EndpointDescription, NoMemory>
        ensures { IfOk result (λ d. d ≡ described_endpoint application.now name.now self.now) }
    {
        let (endpoint_url, server_certificate) = copy_two(&self.url, &self.certificate)?;
        let (security_policy_uri, user_identity_tokens, transport_profile_uri) = copy_three(
            &self.policy,
            &self.tokens,
            &self.transport,
        )?;
        let server = application.describe(name)?;
        Ok(EndpointDescription {
            endpoint_url,
            server,
            server_certificate,
            security_mode: self.mode,
            security_policy_uri,
            user_identity_tokens,
            transport_profile_uri,
            security_level: self.level,
        })
    }

    /// The length of what stands behind its server in its description, in bytes.
    pub(crate) fn len_behind(&self) -> u64
        ensures length { result ≡ length (behind_server self.now) }
        ensures few { result ≤ 1152921511049297938 }
    {
        self.certificate.len()
            + self.mode.len()
            + self.policy.len()
            + self.tokens.len()
            + self.transport.len()
            + self.level.len()
    }

    /// Puts what stands behind its server in its description.
    ///
    /// # Errors
    ///
    /// `NoMemory` where a growth was refused; a beginning of it may have been put.
    pub(crate) fn put_behind<S: Sink>(&self, out: &mut S) -> Result<(), NoMemory>
        ensures ok { OnOk result (S.contents out.new ≡ S.contents out.old ++ behind_server self.now) }
        ensures err { OnErr result (AppendsPart (S.contents out.old) (S.contents out.new) (behind_server self.now)) }
    {
        (
            &self.certificate,
            (
                &self.mode,
                (&self.policy, (&self.tokens, (&self.transport, &self.level))),
            ),
        )
            .emit_parts(out)
    }
}
