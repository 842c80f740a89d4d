//! The settings by which the command `answer` answers.

ghost use Rattle.std.specs.Prelude.{◌≡◌, Ok, IfOk, IfErr};
ghost use Rattle.ua_disco.specs.Tables.{settings_of as given};
ghost use Rattle.ua_command.specs.Settings.{IsSettings};
ghost use Rattle.ua_command.specs.Stop.{IsTextStop, IsSettingsStop};

use crate::file::read_file;
use crate::stop::Stop;
use std::alloc::Global;
use std::rt::Files;
use ua_disco::{DEFAULT, Settings};
use ua_words::Source;

/// The settings that a text in TOML gives.
fn settings_of(alloc: Global, text: &[u8]) -> Result<Settings, Stop>
    ensures ok { IfOk result (λ settings. given text.now ≡ Ok settings) }
    ensures err { IfErr result (IsTextStop text.now) }
{
    Ok(Settings::from_toml(alloc, text)?)
}

/// The settings of a source.
///
/// `File` where its file can't be read to its end, then `Settings` with the first fault of its
/// text, and `NoMemory` where a growth was refused.
pub fn settings_in<R: Files + AllocGlobal>(rt: &R, source: &Source) -> Result<Settings, Stop>
    ensures ok { IfOk result (IsSettings source.now) }
    ensures err { IfErr result (IsSettingsStop source.now) }
{
    match source {
        Source::Default => settings_of(rt.alloc(), DEFAULT.as_bytes()),
        Source::File(path) => {
            let text = read_file(rt, path.as_str())?;
            settings_of(rt.alloc(), text.as_slice())
        }
    }
}
