//! Applications and endpoints with the bytes that they are put as.

ghost use Rattle.std.specs.Prelude.{◌≡◌, ◌≤◌, ◌++◌, ℕ, List, length, IfOk, OnOk, OnErr};
ghost use Rattle.ua_value.specs.Format.{AppendsPart};
ghost use Rattle.ua_service.specs.Endpoint.{endpoint_description};
ghost use Rattle.ua_service.specs.Application.{application_description};
ghost use Rattle.ua_disco.specs.Answers.{described, described_endpoint};
ghost use Rattle.ua_disco.specs.Spelled.{before_name, behind_name, behind_server};

use crate::application::Application;
use crate::endpoint::Endpoint;
use std::alloc::Global;
use std::marker::Model;
use ua_value::plumbing::{Parts, Then, let_go};
use ua_value::{LocalizedText, NoMemory, Sink, Wire};

/// An application, and what stands before and behind its name in its description (OPC 10000-4, 7.2): these bytes are the
/// same in each answer, so they are spelled once.
#[derive(Drop)]
pub(crate) struct SpelledApplication {
    application: Application,
    front: Vec<u8>,
    behind: Vec<u8>,
}

impl Model for SpelledApplication {
    ghost use Rattle.std.specs.Prelude.{◌≡◌, ◌≤◌, length};
    ghost use Rattle.ua_disco.specs.declared.application.Application.{Application};
    ghost use Rattle.ua_disco.specs.Spelled.{before_name, behind_name};

    ghost Value = { Application };

    ghost view = { λ s. s.application };

    ghost invariant = { λ s. (s.front.items ≡ before_name s.application) × (length s.front.items ≤ 4294967302) × (s.behind.items ≡ behind_name s.application) × (length s.behind.items ≤ 1152921508901814286) };
}

impl SpelledApplication {
    /// The application, spelled.
    ///
    /// # Errors
    ///
    /// `NoMemory` where the room for its bytes was refused; the application is then dropped.
    pub(crate) fn new(
        alloc: Global,
        application: Application,
    ) -> Result<SpelledApplication, NoMemory>
        ensures { IfOk result (λ s. s ≡ application) }
    {
        match around_name(alloc, &application) {
            Ok((front, behind)) => Ok(SpelledApplication {
                application,
                front,
                behind,
            }),
            Err(e) => {
                let_go(application);
                Err(e)
            }
        }
    }

    /// The application.
    pub(crate) fn get(&self) -> &Application
        ensures { result.now ≡ self.now }
    {
        &self.application
    }
}

/// What stands before and behind the name of an application.
fn around_name(alloc: Global, application: &Application) -> Result<(Vec<u8>, Vec<u8>), NoMemory>
    ensures front { IfOk result (λ v. v.0.items ≡ before_name application.now) }
    ensures few_front { IfOk result (λ v. length v.0.items ≤ 4294967302) }
    ensures behind { IfOk result (λ v. v.1.items ≡ behind_name application.now) }
    ensures few_behind { IfOk result (λ v. length v.1.items ≤ 1152921508901814286) }
{
    let mut front = Vec::with_capacity(alloc, application.len_front() as usize)?;
    application.put_front(&mut front)?;
    let mut behind = Vec::with_capacity(alloc, application.len_behind() as usize)?;
    application.put_behind(&mut behind)?;
    Ok((front, behind))
}

/// What stands spelled, and is put at once.
trait SpelledOnce {
    // its bytes
    ghost spelled: { Self → List ℕ };

    /// The bytes, as they stand spelled.
    fn bytes(&self) -> &[u8]
        ensures { result.now ≡ spelled self.now };

    /// Puts the parts of which they were spelled, one after another.
    ///
    /// # Errors
    ///
    /// `NoMemory` where a growth was refused; a beginning of the bytes may have been put.
    fn put_parts<S: Sink>(&self, out: &mut S) -> Result<(), NoMemory>
        ensures ok { OnOk result (S.contents out.new ≡ S.contents out.old ++ spelled self.now) }
        ensures err { OnErr result (AppendsPart (S.contents out.old) (S.contents out.new) (spelled self.now)) };
}

/// What is put at once; a sink that refuses it as a whole gets the parts that it takes, as it would if they had not been
/// spelled before.
#[derive(Clone, Copy)]
struct AtOnce<T> {
    whole: T,
}

impl<T: SpelledOnce> Parts for AtOnce<T> {
    ghost spelling = { λ p. T.spelled p.whole };

    fn emit_parts<S: Sink>(&self, out: &mut S) -> Result<(), NoMemory> {
        match out.put(self.whole.bytes()) {
            Ok(()) => Ok(()),
            Err(_) => self.whole.put_parts(out),
        }
    }
}

/// What stands before the name of an application.
#[derive(Clone, Copy)]
struct BeforeName<'a> {
    application: &'a SpelledApplication,
}

impl<'a> SpelledOnce for BeforeName<'a> {
    ghost spelled = { λ p. before_name p.application.now };

    fn bytes(&self) -> &[u8] {
        let application = self.application;
        &application.front
    }

    fn put_parts<S: Sink>(&self, out: &mut S) -> Result<(), NoMemory> {
        let application = self.application;
        application.application.put_front(out)
    }
}

/// What stands behind the name of an application.
#[derive(Clone, Copy)]
struct BehindName<'a> {
    application: &'a SpelledApplication,
}

impl<'a> SpelledOnce for BehindName<'a> {
    ghost spelled = { λ p. behind_name p.application.now };

    fn bytes(&self) -> &[u8] {
        let application = self.application;
        &application.behind
    }

    fn put_parts<S: Sink>(&self, out: &mut S) -> Result<(), NoMemory> {
        let application = self.application;
        application.application.put_behind(out)
    }
}

/// An application under one of its names, both lent: what its description is written as, with none made.
#[derive(Clone, Copy)]
pub(crate) struct NamedApplication<'a> {
    pub(crate) application: &'a SpelledApplication,
    pub(crate) name: &'a LocalizedText,
}

impl<'a> NamedApplication<'a> {
    /// The length of what its description is written as, in bytes.
    #[tactic(auto, unfolding(ua_service::specs::Application::application_description))]
    pub(crate) fn len(&self) -> u64
        ensures length { result ≡ length (application_description.canon (described self.now.application.now self.now.name.now)) }
        ensures few { result ≤ 1152921517491748891 }
    {
        let application = self.application;
        application.front.len() as u64 + self.name.len() + application.behind.len() as u64
    }
}

#[tactic(auto, unfolding(ua_service::specs::Application::application_description))]
impl<'a> Parts for NamedApplication<'a> {
    ghost spelling = { λ p. application_description.canon (described p.application.now p.name.now) };

    fn emit_parts<S: Sink>(&self, out: &mut S) -> Result<(), NoMemory> {
        let application = self.application;
        let first = AtOnce {
            whole: BeforeName { application },
        };
        let behind = AtOnce {
            whole: BehindName { application },
        };
        Then {
            first,
            behind: (self.name, behind),
        }
        .emit_parts(out)
    }
}

/// An endpoint, and what stands behind its server in its description (OPC 10000-4, 7.14): these bytes are the same in
/// each answer, so they are spelled once.
#[derive(Drop)]
pub(crate) struct SpelledEndpoint {
    endpoint: Endpoint,
    behind: Vec<u8>,
}

impl Model for SpelledEndpoint {
    ghost use Rattle.std.specs.Prelude.{◌≡◌, ◌≤◌, length};
    ghost use Rattle.ua_disco.specs.declared.endpoint.Endpoint.{Endpoint};
    ghost use Rattle.ua_disco.specs.Spelled.{behind_server};

    ghost Value = { Endpoint };

    ghost view = { λ s. s.endpoint };

    ghost invariant = { λ s. (s.behind.items ≡ behind_server s.endpoint) × (length s.behind.items ≤ 1152921511049297938) };
}

impl SpelledEndpoint {
    /// The endpoint, spelled.
    ///
    /// # Errors
    ///
    /// `NoMemory` where the room for its bytes was refused; the endpoint is then dropped.
    pub(crate) fn new(alloc: Global, endpoint: Endpoint) -> Result<SpelledEndpoint, NoMemory>
        ensures { IfOk result (λ s. s ≡ endpoint) }
    {
        match behind_of(alloc, &endpoint) {
            Ok(behind) => Ok(SpelledEndpoint { endpoint, behind }),
            Err(e) => {
                let_go(endpoint);
                Err(e)
            }
        }
    }

    /// The endpoint.
    pub(crate) fn get(&self) -> &Endpoint
        ensures { result.now ≡ self.now }
    {
        &self.endpoint
    }

    /// The length of what its description is written as, as an endpoint of the application, in bytes.
    #[tactic(auto, unfolding(ua_service::specs::Endpoint::endpoint_description))]
    pub(crate) fn len(&self, server: &NamedApplication<'_>) -> u64
        ensures length { result ≡ length (endpoint_description.canon (described_endpoint server.now.application.now server.now.name.now self.now)) }
        ensures few { result ≤ 2305843030688530480 }
    {
        self.endpoint.url.len() + server.len() + self.behind.len() as u64
    }

    /// Puts what its description is written as, as an endpoint of the application, with none made.
    ///
    /// # Errors
    ///
    /// `NoMemory` where a growth was refused; a beginning of it may have been put.
    #[tactic(auto, unfolding(ua_service::specs::Endpoint::endpoint_description))]
    pub(crate) fn put<S: Sink>(
        &self,
        server: &NamedApplication<'_>,
        out: &mut S,
    ) -> Result<(), NoMemory>
        ensures ok { OnOk result (S.contents out.new ≡ S.contents out.old ++ endpoint_description.canon (described_endpoint server.now.application.now server.now.name.now self.now)) }
        ensures err { OnErr result (AppendsPart (S.contents out.old) (S.contents out.new) (endpoint_description.canon (described_endpoint server.now.application.now server.now.name.now self.now))) }
    {
        let behind = AtOnce {
            whole: BehindServer { endpoint: self },
        };
        (
            &self.endpoint.url,
            Then {
                first: *server,
                behind,
            },
        )
            .emit_parts(out)
    }
}

/// What stands behind the server of an endpoint.
#[derive(Clone, Copy)]
struct BehindServer<'a> {
    endpoint: &'a SpelledEndpoint,
}

impl<'a> SpelledOnce for BehindServer<'a> {
    ghost spelled = { λ p. behind_server p.endpoint.now };

    fn bytes(&self) -> &[u8] {
        let endpoint = self.endpoint;
        &endpoint.behind
    }

    fn put_parts<S: Sink>(&self, out: &mut S) -> Result<(), NoMemory> {
        let endpoint = self.endpoint;
        endpoint.endpoint.put_behind(out)
    }
}

/// The bytes of what stands behind the server of an endpoint.
fn behind_of(alloc: Global, endpoint: &Endpoint) -> Result<Vec<u8>, NoMemory>
    ensures bytes { IfOk result (λ v. v.items ≡ behind_server endpoint.now) }
    ensures few { IfOk result (λ v. length v.items ≤ 1152921511049297938) }
{
    let mut behind = Vec::with_capacity(alloc, endpoint.len_behind() as usize)?;
    match endpoint.put_behind(&mut behind) {
        Ok(()) => Ok(behind),
        Err(e) => Err(e),
    }
}
