//! Settings by which nothing can open a connection.

use std::alloc::{AllocError, Global};

/// Settings without an endpoint.
pub const NO_ENDPOINT: &str =
    "version = 1\n[application]\nuri = \"u\"\nnames = [{ text = \"n\" }]\n";

fn add_so_many(text: &mut String, letter: &str) -> Result<(), AllocError> {
    for _ in 0..4095 {
        text.push_str(letter)?;
    }
    Ok(())
}

/// Settings whose URI and url have 4095 bytes each.
pub fn long_settings(alloc: Global) -> Result<String, AllocError> {
    let mut text = String::from_str(alloc, "version = 1\n[application]\nuri = \"")?;
    add_so_many(&mut text, "a")?;
    text.push_str("\"\nnames = [{ text = \"n\" }]\n[[endpoint]]\nurl = \"")?;
    add_so_many(&mut text, "b")?;
    text.push_str("\"\n")?;
    Ok(text)
}
