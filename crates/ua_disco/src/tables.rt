//! Reads the tables of a document of settings, in the order of their keys.

ghost use Rattle.std.specs.Prelude.{◌≤◌, Some, length, IfOk};
ghost use Rattle.std.specs.List.{AllByRecursion};
ghost use Rattle.toml.specs.View.{table_view};
ghost use Rattle.ua_disco.specs.Bounds.{IsShort};
ghost use Rattle.ua_disco.specs.Faults.{Gives};
ghost use Rattle.ua_disco.specs.Paths.{path_text};
ghost use Rattle.ua_disco.specs.Tables.{text_or_null, text_or, array_key};

use crate::fault::SettingsFault;
use crate::path::Path;
use crate::reading::{FromValue, Listed, read_integer, read_optional};
use std::alloc::Global;
use toml::Table;
use ua_value::UaString;

/// The text at a key, null where it is absent.
#[tactic(auto, unfolding(crate::specs::Reading::defaulted))]
pub(crate) fn read_text_or_null(
    alloc: Global,
    table: &Table,
    prefix: &Path<'_>,
    key: &str,
) -> Result<UaString, SettingsFault>
    ensures gives { Gives (λ t. t) (text_or_null (path_text prefix.now) key.now (table_view table.now)) result }
    ensures kept { IfOk result IsShort }
{
    match read_optional::<UaString>(alloc, table, prefix, key) {
        Ok(Some(text)) => Ok(text),
        Ok(None) => Ok(UaString::null()),
        Err(fault) => Err(fault),
    }
}

/// The text at a key, or the default where it is absent.
#[tactic(auto, unfolding(crate::specs::Reading::defaulted))]
pub(crate) fn read_text_or(
    alloc: Global,
    table: &Table,
    prefix: &Path<'_>,
    key: &str,
    default: &str,
) -> Result<UaString, SettingsFault>
    requires { length default.now ≤ 4095 }
    ensures gives { Gives (λ t. t) (text_or default.now (path_text prefix.now) key.now (table_view table.now)) result }
    ensures kept { IfOk result IsShort }
{
    match read_optional::<UaString>(alloc, table, prefix, key) {
        Ok(Some(text)) => Ok(text),
        Ok(None) => match UaString::new(alloc, default) {
            Ok(text) => Ok(text),
            Err(_) => Err(SettingsFault::NoMemory),
        },
        Err(fault) => Err(fault),
    }
}

/// The items of the array at a key, none where it is absent.
#[tactic(auto, unfolding(crate::specs::Reading::defaulted))]
pub(crate) fn read_list<T: FromValue>(
    alloc: Global,
    table: &Table,
    prefix: &Path<'_>,
    key: &str,
) -> Result<Vec<T>, SettingsFault>
    ensures gives { Gives (λ v. v.items) (array_key T.rule (path_text prefix.now) key.now (table_view table.now)) result }
    ensures count { IfOk result (λ v. length v.items ≤ 65535) }
    ensures kept { IfOk result (λ v. AllByRecursion T.keeps v.items) }
{
    match read_optional::<Listed<T>>(alloc, table, prefix, key) {
        Ok(Some(listed)) => Ok(listed.into_items()),
        Ok(None) => Ok(Vec::new(alloc)),
        Err(fault) => Err(fault),
    }
}
