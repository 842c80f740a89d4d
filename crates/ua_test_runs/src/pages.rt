//! Pages of memory that runs of the command are printed on, and what stands on them.

use std::io;
use std::io::{Read, Write};
use std::net::Net;
use std::rt::{Clock, Files};
use ua_command::Why;
use ua_command::run::run;

/// A writer with room for so many bytes, which takes no memory and fails behind them.
#[derive(Drop)]
pub struct Page {
    bytes: [u8; 4096],
    pub len: usize,
    room: usize,
}

impl Page {
    /// A writer of nothing yet, with room for so many bytes, at most 4096.
    pub fn new(room: usize) -> Page {
        Page {
            bytes: [0; 4096],
            len: 0,
            room,
        }
    }

    /// What was written.
    pub fn text(&self) -> &[u8] {
        &self.bytes[..self.len.min(4096)]
    }
}

impl Write for Page {
    fn write(&mut self, buf: &[u8]) -> io::Result<usize> {
        let start = self.len.min(4096);
        let n = buf.len().min(self.room).min(4096 - start);
        if n == 0 && !buf.is_empty() {
            return Err(io::Error::from(io::ErrorKind::Other));
        }
        self.bytes[start..start + n].copy_from_slice(&buf[..n]);
        self.len = start + n;
        self.room -= n;
        Ok(n)
    }

    fn flush(&mut self) -> io::Result<()> {
        Ok(())
    }
}

/// Whether just this stands on the two pages.
pub fn are_written(printed: &Page, told: &Page, output: &str, errors: &str) -> bool {
    printed.text() == output.as_bytes() && told.text() == errors.as_bytes()
}

/// Whether a run of the words on an input ends with the status, and prints and tells just this.
pub fn ends_so<R: Files + Net + Clock + AllocGlobal, I: Read>(
    rt: &R,
    words: &[&str],
    input: &mut I,
    status: u8,
    output: &str,
    errors: &str,
) -> bool {
    let mut printed = Page::new(4096);
    let mut told = Page::new(4096);
    let came = run(rt, words, input, &mut printed, &mut told);
    came == status && are_written(&printed, &told, output, errors)
}

/// Whether it is known that standard output could not be written.
pub fn is_output(why: &Why) -> bool {
    matches!(why, Why::Output)
}

/// Whether some bytes have this text in them.
pub fn has(bytes: &[u8], part: &str) -> bool {
    for at in 0..bytes.len() {
        if bytes[at..].starts_with(part.as_bytes()) {
            return true;
        }
    }
    false
}
