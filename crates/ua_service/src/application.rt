//! Applications that can be found.

ghost use Rattle.ua_service.specs.Application.{application_description, lawful_application_description};

use std::alloc::Global;
use ua_value::plumbing::{Fields, Parts, copy_three};
use ua_value::{Array, LocalizedText, NoMemory, ReadFault, Sink, UaString, Wire};

/// An application that can be found (OPC 10000-4, 7.2).
#[derive(Debug, PartialEq, Eq, Drop)]
pub struct ApplicationDescription {
    /// The globally unique name of this instance.
    pub application_uri: UaString,
    /// The globally unique name of the product.
    pub product_uri: UaString,
    /// The name for a reader, in some language.
    pub application_name: LocalizedText,
    /// 0 for a server, 1 for a client, 2 for both, 3 for a discovery server; as it came.
    pub application_type: i32,
    /// The application of the gateway before it; null where there is none.
    pub gateway_server_uri: UaString,
    /// The discovery profile that its urls support; null for the usual one.
    pub discovery_profile_uri: UaString,
    /// The urls of its discovery endpoints.
    pub discovery_urls: Array<UaString>,
}

type ApplicationDescriptionFields = (
    UaString,
    (
        UaString,
        (
            LocalizedText,
            (i32, (UaString, (UaString, Array<UaString>))),
        ),
    ),
);

#[tactic(auto, unfolding(crate::specs::Application::application_description))]
impl Wire for ApplicationDescription {
    ghost format = { application_description };

    ghost most = { 1152921517491748891 };

    ghost Grows = { Unit {0} };

    fn len(&self) -> u64 {
        self.application_uri.len()
            + self.product_uri.len()
            + self.application_name.len()
            + self.application_type.len()
            + self.gateway_server_uri.len()
            + self.discovery_profile_uri.len()
            + self.discovery_urls.len()
    }

    fn emit<S: Sink>(&self, out: &mut S) -> Result<(), NoMemory> {
        (
            &self.application_uri,
            (
                &self.product_uri,
                (
                    &self.application_name,
                    (
                        &self.application_type,
                        (
                            &self.gateway_server_uri,
                            (&self.discovery_profile_uri, &self.discovery_urls),
                        ),
                    ),
                ),
            ),
        )
            .emit_parts(out)
    }

    fn copy(&self) -> Result<ApplicationDescription, NoMemory> {
        let (application_uri, product_uri, application_name) = copy_three(
            &self.application_uri,
            &self.product_uri,
            &self.application_name,
        )?;
        let (gateway_server_uri, discovery_profile_uri, discovery_urls) = copy_three(
            &self.gateway_server_uri,
            &self.discovery_profile_uri,
            &self.discovery_urls,
        )?;
        Ok(ApplicationDescription {
            application_uri,
            product_uri,
            application_name,
            application_type: self.application_type,
            gateway_server_uri,
            discovery_profile_uri,
            discovery_urls,
        })
    }

    fn read_front(
        alloc: Global,
        input: &[u8],
    ) -> Result<(ApplicationDescription, &[u8]), ReadFault> {
        match ApplicationDescriptionFields::read_fields(alloc, input) {
            Ok(
                (
                    (
                        application_uri,
                        (
                            product_uri,
                            (
                                application_name,
                                (
                                    application_type,
                                    (gateway_server_uri, (discovery_profile_uri, discovery_urls)),
                                ),
                            ),
                        ),
                    ),
                    rest,
                ),
            ) => Ok((
                ApplicationDescription {
                    application_uri,
                    product_uri,
                    application_name,
                    application_type,
                    gateway_server_uri,
                    discovery_profile_uri,
                    discovery_urls,
                },
                rest,
            )),
            Err(fault) => Err(fault),
        }
    }

    fn read_items(
        alloc: Global,
        count: u32,
        input: &[u8],
    ) -> Result<(Vec<ApplicationDescription>, &[u8]), ReadFault> {
        // None takes fewer than 25 bytes.
        Self::read_each(alloc, 0, input.len() / 25, count, input)
    }

    ghost laws = { lawful_application_description };
}
