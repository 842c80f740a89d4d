//! Applications that can be found.

ghost use Rattle.std.specs.Prelude.{◌≡◌, OnOk, OnErr, string_bytes};
ghost use Rattle.ua_json.specs.Lines.{AppendsLine};
ghost use Rattle.ua_json.specs.Nesting.{AddsMembers};

use crate::line::Line;
use crate::put::Put;
use std::alloc::Global;
use ua_service::ApplicationDescription;
use ua_value::NoMemory;

/// The fields of an application (OPC 10000-4, 7.2).
fn put_application(line: &mut Line, application: &ApplicationDescription) -> Result<(), NoMemory>
    ensures { OnOk result (AddsMembers line.old.json.tokens line.new.json.tokens) }
{
    line.field("ApplicationUri", &application.application_uri)?;
    line.field("ProductUri", &application.product_uri)?;
    line.field("ApplicationName", &application.application_name)?;
    line.field("ApplicationType", &application.application_type)?;
    line.field("GatewayServerUri", &application.gateway_server_uri)?;
    line.field("DiscoveryProfileUri", &application.discovery_profile_uri)?;
    line.field("DiscoveryUrls", &application.discovery_urls)
}

impl Put for ApplicationDescription {
    fn put(&self, line: &mut Line) -> Result<(), NoMemory> {
        line.begin_object()?;
        put_application(line, self)?;
        line.end_object()
    }
}

/// Appends the line of an application, under the names of OPC 10000-4, 7.2.
///
/// # Errors
///
/// `NoMemory` where a growth was refused; the text is then as it was.
pub fn add_application(
    alloc: Global,
    text: &mut String,
    application: &ApplicationDescription,
) -> Result<(), NoMemory>
    ensures line { OnOk result (AppendsLine (string_bytes text.old) (string_bytes text.new)) }
    ensures refused { OnErr result (string_bytes text.new ≡ string_bytes text.old) }
{
    let mut line = Line::new(alloc)?;
    let put = put_application(&mut line, application);
    line.add_to(text, put)
}
