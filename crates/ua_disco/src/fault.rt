//! Why settings are refused.

use thiserror::Error;

/// Why a text gives no settings. A key is the path to it: the keys and the numbers of items from 0,
/// with dots between them, as `endpoint.1.mode`. The first fault counts: of a table first its least
/// unknown key in the order of bytes, then its keys in the order of docs/FORMATS.md.
#[derive(Debug, Drop, Error)]
pub enum SettingsFault {
    /// The text is no TOML, or no UTF-8.
    #[error("settings 1")]
    NotToml,
    /// A key that is required is absent.
    #[error("settings 2 {0}")]
    Missing(String),
    /// The value at the key is of another kind.
    #[error("settings 3 {0}")]
    WrongKind(String),
    /// The value at the key is out of its range, too long, or no text of its kind.
    #[error("settings 4 {0}")]
    BadValue(String),
    /// The key is none of those of its table.
    #[error("settings 5 {0}")]
    UnknownKey(String),
    /// A growth was refused.
    #[error("memory")]
    NoMemory,
}
