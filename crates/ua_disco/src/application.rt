//! The application of a server, as it is set up.

ghost use Rattle.std.specs.Prelude.{◌≡◌, ◌≤◌, ◌++◌, length, IfOk, OnOk, OnErr};
ghost use Rattle.ua_value.specs.Format.{AppendsPart};
ghost use Rattle.ua_disco.specs.Answers.{described};
ghost use Rattle.ua_disco.specs.Spelled.{before_name, behind_name};

use ua_choice::Names;
use ua_service::ApplicationDescription;
use ua_value::plumbing::{Parts, copy_three};
use ua_value::{Array, LocalizedText, NoMemory, Sink, UaString, Wire};

/// An application as it is set up (OPC 10000-4, 7.2), with its name in several languages.
#[derive(Drop)]
pub(crate) struct Application {
    pub(crate) uri: UaString,
    pub(crate) product_uri: UaString,
    /// 0 for a server, 1 for a client, 2 for both, 3 for a discovery server.
    pub(crate) kind: i32,
    pub(crate) names: Names,
    pub(crate) gateway_uri: UaString,
    pub(crate) profile_uri: UaString,
    pub(crate) discovery_urls: Array<UaString>,
}

impl Application {
    /// Its description under one of its names.
    pub(crate) fn describe(&self, name: &LocalizedText) -> Result<ApplicationDescription, NoMemory>
        ensures { IfOk result (λ d. d ≡ described self.now name.now) }
    {
        let (application_uri, product_uri, application_name) = copy_three(
            &self.uri,
            &self.product_uri,
            name,
        )?;
        let (gateway_server_uri, discovery_profile_uri, discovery_urls) = copy_three(
            &self.gateway_uri,
            &self.profile_uri,
            &self.discovery_urls,
        )?;
        Ok(ApplicationDescription {
            application_uri,
            product_uri,
            application_name,
            application_type: self.kind,
            gateway_server_uri,
            discovery_profile_uri,
            discovery_urls,
        })
    }

    /// The length of what stands before its name in its description, in bytes.
    pub(crate) fn len_front(&self) -> u64
        ensures length { result ≡ length (before_name self.now) }
        ensures few { result ≤ 4294967302 }
    {
        self.uri.len() + self.product_uri.len()
    }

    /// Puts what stands before its name in its description.
    ///
    /// # Errors
    ///
    /// `NoMemory` where a growth was refused; a beginning of it may have been put.
    pub(crate) fn put_front<S: Sink>(&self, out: &mut S) -> Result<(), NoMemory>
        ensures ok { OnOk result (S.contents out.new ≡ S.contents out.old ++ before_name self.now) }
        ensures err { OnErr result (AppendsPart (S.contents out.old) (S.contents out.new) (before_name self.now)) }
    {
        (&self.uri, &self.product_uri).emit_parts(out)
    }

    /// The length of what stands behind its name in its description, in bytes.
    pub(crate) fn len_behind(&self) -> u64
        ensures length { result ≡ length (behind_name self.now) }
        ensures few { result ≤ 1152921508901814286 }
    {
        self.kind.len()
            + self.gateway_uri.len()
            + self.profile_uri.len()
            + self.discovery_urls.len()
    }

    /// Puts what stands behind its name in its description.
    ///
    /// # Errors
    ///
    /// `NoMemory` where a growth was refused; a beginning of it may have been put.
    pub(crate) fn put_behind<S: Sink>(&self, out: &mut S) -> Result<(), NoMemory>
        ensures ok { OnOk result (S.contents out.new ≡ S.contents out.old ++ behind_name self.now) }
        ensures err { OnErr result (AppendsPart (S.contents out.old) (S.contents out.new) (behind_name self.now)) }
    {
        (
            &self.kind,
            (&self.gateway_uri, (&self.profile_uri, &self.discovery_urls)),
        )
            .emit_parts(out)
    }
}
