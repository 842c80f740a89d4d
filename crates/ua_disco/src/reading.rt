//! Reads values of a table under their rules.

ghost use Rattle.std.specs.Prelude.{◌≡◌, ◌≤◌, ◌++◌, ◌⊎◌, [], ℕ, List, Option, Result, Some, None, IfOk, IfErr, IfSome, length, map, option_map};
ghost use Rattle.std.specs.List.{AllByRecursion};
ghost use Rattle.hex.specs.Hex.{decode_of};
ghost use Rattle.hex.specs.declared.error.FromHexError.TheVariants.{OutOfMemory};
ghost use Rattle.toml.specs.Data.{Data, get_member};
ghost use Rattle.toml.specs.View.{view, table_view, array_view};
ghost use Rattle.ua_disco.specs.Bounds.{IsShort, IsCertificate};
ghost use Rattle.ua_disco.specs.Faults.{Fault, IsFault, Gives, missing, wrong_kind, bad_value, unknown_key};
ghost use Rattle.ua_disco.specs.Paths.{path_text};
ghost use Rattle.ua_disco.specs.Reading.{text_value, certificate_value, items_value, counted_items, list_value, optional, required, integer, is_known, least_unknown, keys_known};

use crate::fault::SettingsFault;
use crate::path::{Path, item_path, path_of, text_of};
use hex::FromHexError;
use std::alloc::Global;
use std::marker::Model;
use toml::value::Array as Values;
use toml::{Table, Value};
use ua_value::{UaBytes, UaString, ValueFault};

/// The most bytes of a text.
const MOST_TEXT: usize = 4095;

/// The most digits of a certificate.
const MOST_DIGITS: usize = 131_072;

/// The most items of an array.
const MOST_ITEMS: usize = 65_535;

/// What is read from a value of a document.
pub(crate) trait FromValue: Sized + Drop {
    // what a value gives at a path
    ghost rule: { List ℕ → Data → Result Self Fault };

    // what holds of each value that is read
    ghost keeps: { Self → Type 0 };

    fn from_value(alloc: Global, path: &Path<'_>, value: &Value) -> Result<Self, SettingsFault>
        ensures gives { Gives (λ v. v) (rule (path_text path.now) (view value.now)) result }
        ensures kept { IfOk result keeps };
}

// ---- faults

fn is_missing(alloc: Global, prefix: &Path<'_>, key: &str) -> SettingsFault
    ensures { IsFault result (missing (path_text prefix.now ++ key.now)) }
{
    let path = path_of(prefix, key);
    match text_of(alloc, &path) {
        Ok(path) => SettingsFault::Missing(path),
        Err(_) => SettingsFault::NoMemory,
    }
}

pub(crate) fn is_wrong_kind(alloc: Global, path: &Path<'_>) -> SettingsFault
    ensures { IsFault result (wrong_kind (path_text path.now)) }
{
    match text_of(alloc, path) {
        Ok(path) => SettingsFault::WrongKind(path),
        Err(_) => SettingsFault::NoMemory,
    }
}

pub(crate) fn is_bad_value(alloc: Global, path: &Path<'_>) -> SettingsFault
    ensures { IsFault result (bad_value (path_text path.now)) }
{
    match text_of(alloc, path) {
        Ok(path) => SettingsFault::BadValue(path),
        Err(_) => SettingsFault::NoMemory,
    }
}

fn is_unknown(alloc: Global, prefix: &Path<'_>, key: &str) -> SettingsFault
    ensures { IsFault result (unknown_key (path_text prefix.now ++ key.now)) }
{
    let path = path_of(prefix, key);
    match text_of(alloc, &path) {
        Ok(path) => SettingsFault::UnknownKey(path),
        Err(_) => SettingsFault::NoMemory,
    }
}

// ---- values

#[tactic(auto, unfolding(crate::specs::Reading::text_value))]
impl FromValue for UaString {
    ghost rule = { text_value };

    ghost keeps = { IsShort };

    fn from_value(
        alloc: Global,
        path: &Path<'_>,
        value: &Value,
    ) -> Result<UaString, SettingsFault> {
        let Some(text) = value.as_str() else {
            return Err(is_wrong_kind(alloc, path));
        };
        if text.len() > MOST_TEXT {
            return Err(is_bad_value(alloc, path));
        }
        match copied(alloc, text) {
            Ok(text) => Ok(text),
            Err(_) => Err(SettingsFault::NoMemory),
        }
    }
}

/// A copy of a text whose length was judged: one that is too long takes no memory.
fn copied(alloc: Global, text: &str) -> Result<UaString, ValueFault>
    requires { length text.now ≤ 4095 }
    ensures { IfOk result (λ copy. copy ≡ Some text.now) }
{
    UaString::new(alloc, text)
}

/// The bytes of digits whose number was judged.
fn decoded(alloc: Global, digits: &str) -> Result<Vec<u8>, FromHexError>
    requires { length digits.now ≤ 131072 }
    ensures ok { IfOk result (λ bytes. decode_of digits.now ≡ Ok bytes.items) }
    ensures err { IfErr result (λ e. (e ≡ OutOfMemory) ⊎ (decode_of digits.now ≡ Err e)) }
{
    ua_hex::decode(alloc, digits.as_bytes())
}

#[tactic(auto, unfolding(crate::specs::Reading::certificate_value))]
impl FromValue for UaBytes {
    ghost rule = { certificate_value };

    ghost keeps = { IsCertificate };

    fn from_value(alloc: Global, path: &Path<'_>, value: &Value) -> Result<UaBytes, SettingsFault> {
        let Some(text) = value.as_str() else {
            return Err(is_wrong_kind(alloc, path));
        };
        if text.len() > MOST_DIGITS {
            return Err(is_bad_value(alloc, path));
        }
        let bytes = match decoded(alloc, text) {
            Ok(bytes) => bytes,
            Err(FromHexError::OutOfMemory) => return Err(SettingsFault::NoMemory),
            Err(_) => return Err(is_bad_value(alloc, path)),
        };
        match UaBytes::from_vec(bytes) {
            Ok(bytes) => Ok(bytes),
            Err(_) => Err(SettingsFault::NoMemory),
        }
    }
}

/// The items of an array of settings.
#[derive(Drop)]
pub(crate) struct Listed<T: FromValue> {
    items: Vec<T>,
}

impl<T: FromValue> Model for Listed<T> {
    ghost use Rattle.std.specs.Prelude.{List};

    ghost Value = { List T };

    ghost view = { λ a. a.items.items };
}

impl<T: FromValue> Listed<T> {
    pub(crate) fn empty(alloc: Global) -> Listed<T>
        ensures { result ≡ [] }
    {
        Listed {
            items: Vec::new(alloc),
        }
    }

    pub(crate) fn into_items(self) -> Vec<T>
        ensures { result.items ≡ self }
    {
        self.items
    }
}

/// The items of an array whose count was judged.
fn read_items<T: FromValue>(
    alloc: Global,
    path: &Path<'_>,
    values: &Values,
) -> Result<Vec<T>, SettingsFault>
    requires { length values.now.items ≤ 65535 }
    ensures gives { Gives (λ v. v.items) (items_value T.rule (path_text path.now) 0 (array_view values.now)) result }
    ensures kept { IfOk result (λ v. AllByRecursion T.keeps v.items) }
    ensures count { IfOk result (λ v. length v.items ≡ length values.now.items) }
{
    let mut items = Vec::new(alloc);
    for index in 0..values.len() {
        let at = item_path(&*path, index);
        let item = T::from_value(alloc, &at, &values[index])?;
        let Ok(()) = items.push(item) else {
            return Err(SettingsFault::NoMemory);
        };
    }
    Ok(items)
}

fn read_counted<T: FromValue>(
    alloc: Global,
    path: &Path<'_>,
    values: &Values,
) -> Result<Listed<T>, SettingsFault>
    ensures gives { Gives (λ v. v) (counted_items T.rule (path_text path.now) (Some (array_view values.now))) result }
    ensures kept { IfOk result (λ v. (length v ≤ 65535) × AllByRecursion T.keeps v) }
{
    if values.len() > MOST_ITEMS {
        return Err(is_bad_value(alloc, path));
    }
    match read_items(alloc, path, values) {
        Ok(items) => Ok(Listed { items }),
        Err(fault) => Err(fault),
    }
}

#[tactic(auto, unfolding(crate::specs::Reading::list_value))]
impl<T: FromValue> FromValue for Listed<T> {
    ghost rule = { list_value T.rule };

    ghost keeps = { λ v. (length v ≤ 65535) × AllByRecursion T.keeps v };

    fn from_value(
        alloc: Global,
        path: &Path<'_>,
        value: &Value,
    ) -> Result<Listed<T>, SettingsFault> {
        let Some(values) = value.as_array() else {
            return Err(is_wrong_kind(alloc, path));
        };
        read_counted(alloc, path, values)
    }
}

// ---- keys

/// The value at a key.
fn value_at<'a>(table: &'a Table, key: &str) -> Option<&'a Value>
    ensures { option_map (λ v. view v.now) result ≡ get_member key.now (table_view table.now) }
{
    table.get(key)
}

/// What a key gives, where it is there.
#[tactic(auto, unfolding(crate::specs::Reading::optional))]
pub(crate) fn read_optional<T: FromValue>(
    alloc: Global,
    table: &Table,
    prefix: &Path<'_>,
    key: &str,
) -> Result<Option<T>, SettingsFault>
    ensures gives { Gives (λ o. o) (optional T.rule (path_text prefix.now) key.now (table_view table.now)) result }
    ensures kept { IfOk result (λ o. IfSome o T.keeps) }
{
    let Some(value) = value_at(table, key) else {
        return Ok(None);
    };
    let path = path_of(prefix, key);
    match T::from_value(alloc, &path, value) {
        Ok(value) => Ok(Some(value)),
        Err(fault) => Err(fault),
    }
}

/// What a key gives that has to be there.
#[tactic(auto, unfolding(crate::specs::Reading::required))]
pub(crate) fn read_required<T: FromValue>(
    alloc: Global,
    table: &Table,
    prefix: &Path<'_>,
    key: &str,
) -> Result<T, SettingsFault>
    ensures gives { Gives (λ v. v) (required T.rule (path_text prefix.now) key.now (table_view table.now)) result }
    ensures kept { IfOk result T.keeps }
{
    match read_optional(alloc, table, prefix, key) {
        Ok(Some(value)) => Ok(value),
        Ok(None) => Err(is_missing(alloc, prefix, key)),
        Err(fault) => Err(fault),
    }
}

/// A whole number from `least` to `most`, or the default where the key is absent.
#[tactic(auto, unfolding(crate::specs::Reading::integer))]
pub(crate) fn read_integer(
    alloc: Global,
    table: &Table,
    prefix: &Path<'_>,
    key: &str,
    range: (u32, u32),
    default: Option<u32>,
) -> Result<u32, SettingsFault>
    requires { IfSome default (λ n. (range.0 ≤ n) × (n ≤ range.1)) }
    ensures gives { Gives (λ n. n) (integer range.0 range.1 default (path_text prefix.now) key.now (table_view table.now)) result }
    ensures within { IfOk result (λ n. (range.0 ≤ n) × (n ≤ range.1)) }
{
    let Some(value) = value_at(table, key) else {
        return match default {
            Some(n) => Ok(n),
            None => Err(is_missing(alloc, prefix, key)),
        };
    };
    let path = path_of(prefix, key);
    let Some(found) = value.as_integer() else {
        return Err(is_wrong_kind(alloc, &path));
    };
    match u32::try_from(found) {
        Ok(n) if range.0 <= n && n <= range.1 => Ok(n),
        _ => Err(is_bad_value(alloc, &path)),
    }
}

/// The same where the greatest number is at most that of a byte.
pub(crate) fn read_byte(
    alloc: Global,
    table: &Table,
    prefix: &Path<'_>,
    key: &str,
    range: (u8, u8),
    default: u8,
) -> Result<u8, SettingsFault>
    requires { (range.0 ≤ default) × (default ≤ range.1) }
    ensures { Gives (λ n. n) (integer range.0 range.1 (Some default) (path_text prefix.now) key.now (table_view table.now)) result }
{
    let range = (u32::from(range.0), u32::from(range.1));
    match read_integer(alloc, table, prefix, key, range, Some(u32::from(default))) {
        Ok(n) => Ok(n as u8),
        Err(fault) => Err(fault),
    }
}

fn is_one_of(known: &[&str], key: &str) -> bool
    ensures { result ≡ is_known (map (λ k. k.now) known.now) key.now }
{
    for word in known {
        if *word == key {
            return true;
        }
    }
    false
}

/// The least key of a table that is not among the known ones.
#[tactic(auto, using(crate::proofs::Least::first_is_least))]
fn unknown_in<'a>(table: &'a Table, known: &[&str]) -> Option<&'a str>
    ensures { option_map (λ k. k.now) result ≡ least_unknown (map (λ k. k.now) known.now) (table_view table.now) }
{
    for (key, _) in table.iter() {
        if !is_one_of(known, key.as_str()) {
            return Some(key.as_str());
        }
    }
    None
}

/// That a table has no other keys than the known ones.
#[tactic(auto, unfolding(crate::specs::Reading::keys_known))]
pub(crate) fn check_keys(
    alloc: Global,
    table: &Table,
    prefix: &Path<'_>,
    known: &[&str],
) -> Result<(), SettingsFault>
    ensures { Gives (λ u. u) (keys_known (map (λ k. k.now) known.now) (path_text prefix.now) (table_view table.now)) result }
{
    match unknown_in(table, known) {
        None => Ok(()),
        Some(key) => Err(is_unknown(alloc, prefix, key)),
    }
}
