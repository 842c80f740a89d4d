//! Settings that are read here, and lent to what judges them.

use std::alloc::{AllocError, Global};
use ua_disco::{DEFAULT, Settings};
use ua_test_shared::lending::passes;

/// Whether settings of the text are read, and pass the test.
pub fn by_settings<F: FnOnce(Global, &Settings) -> bool + Drop>(
    alloc: Global,
    text: &str,
    test: F,
) -> bool
    requires { F.IsAlwaysCallable test }
{
    let settings = Settings::from_toml(alloc, text.as_bytes()).ok();
    passes(settings, |settings| test(alloc, settings))
}

/// Whether the settings by default pass the test.
pub fn by_default<F: FnOnce(Global, &Settings) -> bool + Drop>(alloc: Global, test: F) -> bool
    requires { F.IsAlwaysCallable test }
{
    by_settings(alloc, DEFAULT, test)
}

/// One more endpoint of the settings by default.
const ENDPOINT: &str = "[[endpoint]]
url = \"opc.tcp://localhost:4840\"
[[endpoint.tokens]]
id = \"0\"
";

/// The settings by default with their endpoint a hundred times.
pub fn hundred_endpoints(alloc: Global) -> Result<String, AllocError> {
    let mut text = String::from_str(alloc, DEFAULT)?;
    for _ in 1..100 {
        text.push_str(ENDPOINT)?;
    }
    Ok(text)
}
