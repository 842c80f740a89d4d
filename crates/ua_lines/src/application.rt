//! The lines of an application.

use crate::margin::Margin;
use crate::naming::{Named, add_text_line, shown};
use ua_service::{ApplicationDescription, ApplicationType};
use ua_value::{NoMemory, UaString};

/// The name of an application's type (OPC 10000-4, 7.4).
fn type_name(number: i32) -> Option<&'static str> {
    match ApplicationType::named(number)? {
        ApplicationType::Server => Some("Server"),
        ApplicationType::Client => Some("Client"),
        ApplicationType::ClientAndServer => Some("ClientAndServer"),
        ApplicationType::DiscoveryServer => Some("DiscoveryServer"),
    }
}

/// Appends a word and what tells an application from others.
fn add_head(
    text: &mut String,
    margin: Margin,
    word: &str,
    application: &ApplicationDescription,
) -> Result<(), NoMemory> {
    let uri = shown(&application.application_uri);
    let kind = application.application_type;
    let name = shown(&application.application_name.text);
    writeln!(text, "{margin}{word} {uri} type={kind} name={name}")
}

fn add_urls(
    text: &mut String,
    margin: Margin,
    application: &ApplicationDescription,
) -> Result<(), NoMemory> {
    for url in application.discovery_urls.get().unwrap_or(&[]) {
        add_text_line(text, margin, "url", url)?;
    }
    Ok(())
}

/// Appends a line for each other field.
fn add_fields(
    text: &mut String,
    margin: Margin,
    application: &ApplicationDescription,
) -> Result<(), NoMemory> {
    add_text_line(text, margin, "product", &application.product_uri)?;
    add_text_line(text, margin, "locale", &application.application_name.locale)?;
    let kind = Named {
        number: application.application_type,
        name: type_name(application.application_type),
    };
    writeln!(text, "{margin}type {kind}")?;
    add_text_line(text, margin, "gateway", &application.gateway_server_uri)?;
    add_text_line(text, margin, "profile", &application.discovery_profile_uri)?;
    add_urls(text, margin, application)
}

/// Appends the lines of an application under a word.
pub(crate) fn add_described(
    text: &mut String,
    margin: Margin,
    word: &str,
    application: &ApplicationDescription,
) -> Result<(), NoMemory> {
    add_head(text, margin, word, application)?;
    add_fields(text, margin.deeper(), application)
}

/// Appends the line `application TEXT type=N name=TEXT`: the ApplicationUri, the number of the type, and the text of the
/// name (OPC 10000-4, 7.2).
///
/// # Errors
///
/// `NoMemory` where a growth was refused; a beginning of the line may stand there then.
pub fn add_application_line(
    text: &mut String,
    application: &ApplicationDescription,
) -> Result<(), NoMemory> {
    add_head(text, Margin::new(0), "application", application)
}

/// Appends the line of a discovery url under that of its application: two blanks, and `url TEXT`.
///
/// # Errors
///
/// `NoMemory` where a growth was refused; a beginning of the line may stand there then.
pub fn add_url_line(text: &mut String, url: &UaString) -> Result<(), NoMemory> {
    add_text_line(text, Margin::new(2), "url", url)
}

/// Appends all that is said of an application (OPC 10000-4, 7.2), behind `indent` blanks: the line of
/// [`add_application_line`], and under it, two blanks further, lines of the product, the locale of the name, the name of
/// the type or the number that has none, the gateway, the profile, and each discovery url.
///
/// # Errors
///
/// `NoMemory` where a growth was refused; a beginning of the lines may stand there then.
pub fn add_application(
    text: &mut String,
    application: &ApplicationDescription,
    indent: usize,
) -> Result<(), NoMemory> {
    add_described(text, Margin::new(indent), "application", application)
}
