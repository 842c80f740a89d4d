//! Applications (OPC 10000-4, 7.2), by their ApplicationUri.

ghost use Rattle.std.specs.Prelude.{◌↔◌, IfOk, IsTrue, OnOk, string_bytes};
ghost use Rattle.ua_compare.specs.Offer.{IsSameOffer};
ghost use Rattle.ua_compare.specs.Said.{Says};
ghost use Rattle.ua_compare.specs.Same.{same_text, same_back, same_but_uri};
ghost use Rattle.ua_compare.specs.SameLaws.{application_decides};

use crate::described::Described;
use crate::differing::add_differences;
use crate::field::{add_name_fields, add_number_field, add_text_field, add_where};
use crate::value::{Value, add_text};
use std::alloc::Global;
use ua_service::ApplicationDescription;
use ua_value::NoMemory;

/// Appends a line for each of the fields from the GatewayServerUri on that differs.
fn add_back(
    wanted: &ApplicationDescription,
    found: &ApplicationDescription,
    start: &str,
    text: &mut String,
) -> Result<(), NoMemory>
    ensures { OnOk result (Says (same_back wanted.now found.now) (string_bytes text.old) (string_bytes text.new)) }
{
    add_text_field(
        start,
        "GatewayServerUri",
        &wanted.gateway_server_uri,
        &found.gateway_server_uri,
        text,
    )?;
    add_text_field(
        start,
        "DiscoveryProfileUri",
        &wanted.discovery_profile_uri,
        &found.discovery_profile_uri,
        text,
    )?;
    let (wanted, found) = (&wanted.discovery_urls, &found.discovery_urls);
    let same = wanted == found;
    add_where(
        same,
        start,
        "DiscoveryUrls",
        Value::Texts(wanted),
        Value::Texts(found),
        text,
    )
}

/// Appends a line for each field that differs, but for the ApplicationUri.
pub(crate) fn add_but_uri(
    wanted: &ApplicationDescription,
    found: &ApplicationDescription,
    start: &str,
    text: &mut String,
) -> Result<(), NoMemory>
    ensures { OnOk result (Says (same_but_uri wanted.now found.now) (string_bytes text.old) (string_bytes text.new)) }
{
    add_text_field(
        start,
        "ProductUri",
        &wanted.product_uri,
        &found.product_uri,
        text,
    )?;
    add_name_fields(
        start,
        &wanted.application_name,
        &found.application_name,
        text,
    )?;
    add_number_field(
        start,
        "ApplicationType",
        wanted.application_type,
        found.application_type,
        text,
    )?;
    add_back(wanted, found, start, text)
}

impl Described for ApplicationDescription {
    ghost named = { λ a b. same_text a.application_uri b.application_uri };

    fn is_named_as(&self, other: &ApplicationDescription) -> bool {
        self.application_uri == other.application_uri
    }

    fn add_name(&self, text: &mut String) -> Result<(), NoMemory> {
        text.push_str("application ")?;
        add_text(&self.application_uri, text)
    }

    fn add_fields(
        &self,
        _alloc: Global,
        found: &ApplicationDescription,
        start: &str,
        text: &mut String,
    ) -> Result<(), NoMemory> {
        add_but_uri(self, found, start, text)
    }

    ghost decides = { application_decides };
}

/// Appends a line for each difference between the applications that are wanted and those that were found (OPC 10000-4,
/// 5.5.2 and 7.2), and says whether there is none. Their order says nothing: those that are the same in each field are
/// paired first; of the rest the first of one ApplicationUri is laid beside the first found of it, the second beside the
/// second, and so on, and what has no other is missing or extra. Nothing is appended exactly where there is no difference.
///
/// # Errors
///
/// `NoMemory` where a growth was refused; a beginning of the lines may have been appended.
pub fn add_application_differences(
    alloc: Global,
    wanted: &[ApplicationDescription],
    found: &[ApplicationDescription],
    text: &mut String,
) -> Result<bool, NoMemory>
    ensures same { IfOk result (λ same. IsTrue same ↔ IsSameOffer wanted.now found.now) }
    ensures said { IfOk result (λ same. Says same (string_bytes text.old) (string_bytes text.new)) }
{
    add_differences(alloc, "", wanted, found, text)
}
