//! Reads a document of settings.

ghost use Rattle.toml.specs.View.{table_view};
ghost use Rattle.ua_disco.specs.Faults.{Gives};
ghost use Rattle.ua_disco.specs.Tables.{body_of, table_settings, settings_of};

use crate::fault::SettingsFault;
use crate::path::top;
use crate::read_application::read_applications;
use crate::read_endpoint::read_endpoints_key;
use crate::read_limits::read_limits_key;
use crate::reading::{check_keys, read_integer};
use crate::settings::Settings;
use crate::valid::{applications_are_values, endpoints_are_values};
use std::alloc::Global;
use toml::Table;

/// The text of the settings `default`.
pub const DEFAULT: &str = "version = 1
[application]
uri = \"urn:a\"
product_uri = \"urn:p\"
discovery_urls = [\"opc.tcp://localhost:4840\"]
[[application.names]]
locale = \"en\"
text = \"Press\"
[[endpoint]]
url = \"opc.tcp://localhost:4840\"
[[endpoint.tokens]]
id = \"0\"
";

#[tactic(auto, unfolding(crate::specs::Tables::body_of))]
fn read_body(alloc: Global, table: &Table, version: u32) -> Result<Settings, SettingsFault>
    ensures { Gives (λ s. s) (body_of version (table_view table.now)) result }
{
    let applications = read_applications(alloc, table, version)?;
    let endpoints = read_endpoints_key(alloc, table)?;
    let limits = read_limits_key(alloc, table)?;
    applications_are_values(&applications);
    endpoints_are_values(&endpoints);
    Ok(Settings {
        limits,
        applications,
        endpoints,
    })
}

#[tactic(auto, unfolding(crate::specs::Tables::table_settings))]
fn read_table(alloc: Global, table: &Table) -> Result<Settings, SettingsFault>
    ensures { Gives (λ s. s) (table_settings (table_view table.now)) result }
{
    let known = ["version", "application", "endpoint", "limits"];
    check_keys(alloc, table, &top(), &known)?;
    let version = read_integer(alloc, table, &top(), "version", (1, 2), None)?;
    read_body(alloc, table, version)
}

impl Settings {
    /// The settings that a text in TOML gives (docs/FORMATS.md has its keys).
    ///
    /// # Errors
    ///
    /// The first fault of the text, or `NoMemory` where a growth was refused. `NotToml` stands
    /// before all others, and comes where the bytes are no UTF-8 too. A table is then checked so:
    /// its least unknown key is an `UnknownKey`; then its keys in their order, each for `Missing`,
    /// `WrongKind` and `BadValue`, and a table or an array whole in its place.
    pub fn from_toml(alloc: Global, text: &[u8]) -> Result<Settings, SettingsFault>
        ensures { Gives (λ s. s) (settings_of text.now) result }
    {
        match toml::table_from_slice(alloc, text) {
            Ok(table) => read_table(alloc, &table),
            Err(error) => {
                if error.is_memory() {
                    return Err(SettingsFault::NoMemory);
                }
                Err(SettingsFault::NotToml)
            }
        }
    }
}
