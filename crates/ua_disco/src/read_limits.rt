//! Reads the limits of settings.

ghost use Rattle.std.specs.Prelude.{◌≤◌, IfOk};
ghost use Rattle.toml.specs.View.{table_view};
ghost use Rattle.ua_disco.specs.Bounds.{IsLimits};
ghost use Rattle.ua_disco.specs.Faults.{Gives};
ghost use Rattle.ua_disco.specs.Paths.{path_text};
ghost use Rattle.ua_disco.specs.Reading.{table_value, defaulted};
ghost use Rattle.ua_frame.specs.Sizes.{least_buffer, most_buffer};
ghost use Rattle.ua_disco.specs.Tables.{sizes, messages, limit_fields, limits_of, limits_key, default_limits};

use crate::fault::SettingsFault;
use crate::path::{Path, prefix_of, top};
use crate::reading::{FromValue, check_keys, is_wrong_kind, read_integer, read_optional};
use std::alloc::Global;
use toml::{Table, Value};
use ua_frame::{LEAST_BUFFER, Limits, MOST_BUFFER};

/// The limits where settings name none.
const DEFAULT_LIMITS: Limits = Limits {
    receive: 65_535,
    send: 65_535,
    max_message: 1_048_576,
    max_chunks: 64,
};

#[tactic(auto, unfolding(crate::specs::Tables::sizes))]
fn read_sizes(alloc: Global, table: &Table, prefix: &Path<'_>) -> Result<(u32, u32), SettingsFault>
    ensures gives { Gives (λ r. (r.0, r.1)) (sizes (path_text prefix.now) (table_view table.now)) result }
    ensures kept { IfOk result (λ r. (least_buffer ≤ r.0) × (r.0 ≤ most_buffer) × (least_buffer ≤ r.1) × (r.1 ≤ most_buffer)) }
{
    let range = (LEAST_BUFFER, MOST_BUFFER);
    let receive = read_integer(
        alloc,
        table,
        prefix,
        "receive",
        range,
        Some(DEFAULT_LIMITS.receive),
    )?;
    let send = read_integer(
        alloc,
        table,
        prefix,
        "send",
        range,
        Some(DEFAULT_LIMITS.send),
    )?;
    Ok((receive, send))
}

#[tactic(auto, unfolding(crate::specs::Tables::messages))]
fn read_messages(
    alloc: Global,
    table: &Table,
    prefix: &Path<'_>,
) -> Result<(u32, u32), SettingsFault>
    ensures gives { Gives (λ r. (r.0, r.1)) (messages (path_text prefix.now) (table_view table.now)) result }
    ensures kept { IfOk result (λ r. (1 ≤ r.0) × (r.0 ≤ 16777216) × (1 ≤ r.1) × (r.1 ≤ 65535)) }
{
    let bytes = (1, 16_777_216);
    let max_message = read_integer(
        alloc,
        table,
        prefix,
        "max_message",
        bytes,
        Some(DEFAULT_LIMITS.max_message),
    )?;
    let max_chunks = read_integer(
        alloc,
        table,
        prefix,
        "max_chunks",
        (1, 65_535),
        Some(DEFAULT_LIMITS.max_chunks),
    )?;
    Ok((max_message, max_chunks))
}

#[tactic(auto, unfolding(crate::specs::Tables::limit_fields))]
fn read_limit_fields(
    alloc: Global,
    table: &Table,
    prefix: &Path<'_>,
) -> Result<Limits, SettingsFault>
    ensures gives { Gives (λ l. l) (limit_fields (path_text prefix.now) (table_view table.now)) result }
    ensures kept { IfOk result IsLimits }
{
    let (receive, send) = read_sizes(alloc, table, prefix)?;
    let (max_message, max_chunks) = read_messages(alloc, table, prefix)?;
    Ok(Limits {
        receive,
        send,
        max_message,
        max_chunks,
    })
}

#[tactic(auto, unfolding(crate::specs::Tables::limits_of))]
fn read_limits(alloc: Global, table: &Table, prefix: &Path<'_>) -> Result<Limits, SettingsFault>
    ensures gives { Gives (λ l. l) (limits_of (path_text prefix.now) (table_view table.now)) result }
    ensures kept { IfOk result IsLimits }
{
    let known = ["receive", "send", "max_message", "max_chunks"];
    check_keys(alloc, table, prefix, &known)?;
    read_limit_fields(alloc, table, prefix)
}

#[tactic(auto, unfolding(crate::specs::Reading::table_value))]
impl FromValue for Limits {
    ghost rule = { table_value limits_of };

    ghost keeps = { IsLimits };

    fn from_value(alloc: Global, path: &Path<'_>, value: &Value) -> Result<Limits, SettingsFault> {
        let Some(table) = value.as_table() else {
            return Err(is_wrong_kind(alloc, path));
        };
        let prefix = prefix_of(path);
        read_limits(alloc, table, &prefix)
    }
}

/// The limits at a key, those by default where it is absent.
#[tactic(auto, unfolding(crate::specs::Reading::defaulted))]
fn read_limits_or_default(
    alloc: Global,
    table: &Table,
    prefix: &Path<'_>,
    key: &str,
) -> Result<Limits, SettingsFault>
    ensures gives { Gives (λ l. l) (defaulted (table_value limits_of) default_limits (path_text prefix.now) key.now (table_view table.now)) result }
    ensures kept { IfOk result IsLimits }
{
    match read_optional::<Limits>(alloc, table, prefix, key) {
        Ok(Some(limits)) => Ok(limits),
        Ok(None) => Ok(DEFAULT_LIMITS),
        Err(fault) => Err(fault),
    }
}

/// The limits of a document.
#[tactic(auto, unfolding(crate::specs::Tables::limits_key))]
pub(crate) fn read_limits_key(alloc: Global, table: &Table) -> Result<Limits, SettingsFault>
    ensures gives { Gives (λ l. l) (limits_key (table_view table.now)) result }
    ensures kept { IfOk result IsLimits }
{
    read_limits_or_default(alloc, table, &top(), "limits")
}
