//! The settings of a server.

ghost use Rattle.std.specs.Prelude.{◌≡◌, option_copied};
ghost use Rattle.ua_disco.specs.Bounds.{IsLimits, IsConfiguration};
ghost use Rattle.ua_disco.specs.Settings.{first_application, first_uri_of, first_url_of};
ghost use Rattle.ua_disco.specs.Values.{AreSettings};

use crate::spelled::{SpelledApplication, SpelledEndpoint};
use std::alloc::Global;
use std::marker::Model;
use ua_frame::Limits;
use ua_value::UaString;

/// What a server is set up to be: its limits, its applications, of which the first is the server of its endpoints, and
/// these endpoints.
#[derive(Drop)]
pub struct Settings {
    pub(crate) limits: Limits,
    pub(crate) applications: Vec<SpelledApplication>,
    pub(crate) endpoints: Vec<SpelledEndpoint>,
}

impl Model for Settings {
    ghost use Rattle.ua_disco.specs.Configuration.{Configuration};
    ghost use Rattle.ua_disco.specs.Values.{AreSettings};

    ghost Value = { Configuration };

    ghost view = { λ a. record { limits = a.limits; applications = a.applications.items; endpoints = a.endpoints.items } };

    ghost invariant = { λ a. AreSettings (record { limits = a.limits; applications = a.applications.items; endpoints = a.endpoints.items }) };
}

impl Settings {
    /// The limits of the server. As of all settings, contracts know of these that they are within their bounds, that
    /// their texts are UTF-8 and that their numbers fit.
    pub fn limits(&self) -> Limits
        ensures limits { result ≡ self.now.limits }
        ensures within { IsLimits result }
        ensures settings { AreSettings self.now }
    {
        self.limits
    }

    pub(crate) fn applications(&self) -> &[SpelledApplication]
        ensures applications { result.now ≡ self.now.applications }
        ensures within { IsConfiguration self.now }
    {
        self.applications.as_slice()
    }

    /// The first application, which is the server of each endpoint.
    pub(crate) fn first(&self) -> &SpelledApplication
        ensures application { result.now ≡ first_application self.now.applications }
        ensures within { IsConfiguration self.now }
    {
        &self.applications[0]
    }

    /// Where the memory of the settings is taken from.
    pub(crate) fn alloc(&self) -> Global {
        *self.applications.allocator()
    }

    pub(crate) fn endpoints(&self) -> &[SpelledEndpoint]
        ensures endpoints { result.now ≡ self.now.endpoints }
        ensures within { IsConfiguration self.now }
    {
        self.endpoints.as_slice()
    }

    /// The URI of its first application.
    pub fn first_uri(&self) -> &UaString
        ensures { result.now ≡ first_uri_of self.now.applications }
    {
        &self.first().get().uri
    }

    /// The url of its first endpoint; `None` where it has none.
    pub fn first_url(&self) -> Option<&UaString>
        ensures { option_copied result ≡ first_url_of self.now.endpoints }
    {
        match self.endpoints.first() {
            Some(endpoint) => Some(&endpoint.get().url),
            None => None,
        }
    }
}
