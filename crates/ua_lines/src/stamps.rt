//! What a DataValue says beside its value.

use crate::date::Moment;
use crate::margin::Margin;
use ua_print::NamedCode;
use ua_value::{DateTime, NoMemory, StatusCode};
use ua_variant::DataValue;

/// There is neither a status nor a moment.
pub(crate) fn has_no_stamps(value: &DataValue) -> bool {
    value.status().is_none()
        && value.source_timestamp().is_none()
        && value.source_picoseconds().is_none()
        && value.server_timestamp().is_none()
        && value.server_picoseconds().is_none()
}

/// Appends the line of a status, if there is one.
pub(crate) fn add_status_line(
    text: &mut String,
    margin: Margin,
    word: &str,
    status: Option<StatusCode>,
) -> Result<(), NoMemory> {
    match status {
        Some(status) => writeln!(text, "{margin}{word} {}", NamedCode(status.0)),
        None => Ok(()),
    }
}

/// Appends the line of a moment, if there is one.
fn add_moment_line(
    text: &mut String,
    margin: Margin,
    word: &str,
    moment: Option<DateTime>,
) -> Result<(), NoMemory> {
    match moment {
        Some(moment) => writeln!(text, "{margin}{word} {}", Moment(moment)),
        None => Ok(()),
    }
}

/// Appends the line of a part of a tick in picoseconds, if there is one. A value has it in tens of them.
fn add_picoseconds_line(
    text: &mut String,
    margin: Margin,
    word: &str,
    tens: Option<u16>,
) -> Result<(), NoMemory> {
    match tens {
        Some(tens) => {
            let picoseconds = u32::from(tens) * 10;
            writeln!(text, "{margin}{word} {picoseconds}")
        }
        None => Ok(()),
    }
}

/// Appends a line for each part that is there. Its frame is apart from those of the recursion.
#[inline(never)]
pub(crate) fn add_stamps(
    text: &mut String,
    margin: Margin,
    value: &DataValue,
) -> Result<(), NoMemory> {
    add_status_line(text, margin, "status", value.status())?;
    add_moment_line(text, margin, "source", value.source_timestamp())?;
    add_picoseconds_line(
        text,
        margin,
        "source-picoseconds",
        value.source_picoseconds(),
    )?;
    add_moment_line(text, margin, "server", value.server_timestamp())?;
    add_picoseconds_line(
        text,
        margin,
        "server-picoseconds",
        value.server_picoseconds(),
    )
}
