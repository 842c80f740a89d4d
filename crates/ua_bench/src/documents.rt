//! Settings by number.

use crate::giving::{BAD, NO_MEMORY, REFUSED};
use std::alloc::Global;
use ua_disco::{DEFAULT, Settings, SettingsFault};
use ua_value::NoMemory;

/// The endpoint of the settings `default`.
const ENDPOINT: &str = "[[endpoint]]
url = \"opc.tcp://localhost:4840\"
[[endpoint.tokens]]
id = \"0\"
";

const MANY_CHUNKS: &str = "[limits]
max_chunks = 65535
";

/// `default` with so many more endpoints, and a last part.
fn document(alloc: Global, more: u32, last: &str) -> Result<Vec<u8>, NoMemory> {
    let mut text = DEFAULT.as_bytes().to_vec(alloc)?;
    for _ in 0..more {
        text.extend_from_slice(ENDPOINT.as_bytes())?;
    }
    text.extend_from_slice(last.as_bytes())?;
    Ok(text)
}

fn settings_of(alloc: Global, more: u32, last: &str) -> Result<Settings, i64> {
    let Ok(text) = document(alloc, more, last) else {
        return Err(NO_MEMORY);
    };
    match Settings::from_toml(alloc, &text) {
        Ok(settings) => Ok(settings),
        Err(SettingsFault::NoMemory) => Err(NO_MEMORY),
        Err(_) => Err(REFUSED),
    }
}

/// The settings of that number: 0 is `default`, 1 has its endpoint a hundred times, 2 takes 65535 chunks.
pub(crate) fn settings_numbered(alloc: Global, number: u32) -> Result<Settings, i64> {
    match number {
        0 => settings_of(alloc, 0, ""),
        1 => settings_of(alloc, 99, ""),
        2 => settings_of(alloc, 0, MANY_CHUNKS),
        _ => Err(BAD),
    }
}
