//! What the command takes of its streams: settings whole, of standard input nothing where it needs none, and its output flushed before it ends.

use crate::runs::expect;
use std::alloc::{AllocError, Global};
use std::io::{Read, Write};
use std::net::Net;
use std::rt::{Clock, Files};
use std::{fs, io};
use ua_command::run::run;
use ua_disco::DEFAULT;
use ua_test_runs::pages::Page;

/// The built-in settings behind a comment, 70000 bytes in all.
fn long_settings(alloc: Global) -> Result<Vec<u8>, AllocError> {
    let comment = 70_000usize.saturating_sub(DEFAULT.len());
    let mut text = Vec::with_capacity(alloc, 70_000)?;
    for _ in 1..comment {
        text.extend_from_slice(b"#")?;
    }
    text.extend_from_slice(b"\n")?;
    text.extend_from_slice(DEFAULT.as_bytes())?;
    Ok(text)
}

fn is_put<R: Files + AllocGlobal>(rt: &R) -> bool {
    match long_settings(rt.alloc()) {
        Ok(text) => text.len() == 70_000 && fs::write(rt, "long.toml", text.as_slice()).is_ok(),
        Err(_) => false,
    }
}

#[test]
fn long_settings_are_read_whole(rt: HostRuntime) {
    assert!(rt; is_put(&rt));
    expect(
        &rt,
        &["answer", "long.toml"],
        "",
        0,
        "\nend input-ended\n",
        "",
    );
}

/// A reader that counts its reads, each of which fails.
#[derive(Drop)]
struct Counted {
    reads: u32,
}

impl Read for Counted {
    fn read(&mut self, _buf: &mut [u8]) -> io::Result<usize> {
        self.reads = self.reads.saturating_add(1);
        Err(io::Error::from(io::ErrorKind::Other))
    }
}

/// A page that knows how much of it was flushed.
#[derive(Drop)]
struct Flushed {
    page: Page,
    flushed: usize,
}

impl Write for Flushed {
    fn write(&mut self, buf: &[u8]) -> io::Result<usize> {
        self.page.write(buf)
    }

    fn flush(&mut self) -> io::Result<()> {
        self.flushed = self.page.len;
        Ok(())
    }
}

/// Whether the words are done without a read, and all that is printed is flushed.
fn is_done_alone<R: Files + Net + Clock + AllocGlobal>(rt: &R, words: &[&str]) -> bool {
    let mut input = Counted { reads: 0 };
    let mut printed = Flushed {
        page: Page::new(4096),
        flushed: 0,
    };
    let mut told = Page::new(4096);
    let status = run(rt, words, &mut input, &mut printed, &mut told);
    status == 0 && input.reads == 0 && printed.flushed > 0 && printed.flushed == printed.page.len
}

#[test]
fn no_input_is_read_without_need(rt: HostRuntime) {
    assert!(rt; is_done_alone(&rt, &["value", "Boolean", "01"]));
    assert!(rt; is_done_alone(&rt, &["--help"]));
    assert!(rt; is_done_alone(&rt, &["--version"]));
}

/// Whether the answer to nothing is flushed whole.
fn answer_is_flushed<R: Files + Net + Clock + AllocGlobal>(rt: &R) -> bool {
    let mut input: &[u8] = b"";
    let mut printed = Flushed {
        page: Page::new(4096),
        flushed: 0,
    };
    let mut told = Page::new(4096);
    let status = run(
        rt,
        &["answer", "default"],
        &mut input,
        &mut printed,
        &mut told,
    );
    status == 0 && printed.flushed > 0 && printed.flushed == printed.page.len
}

#[test]
fn answers_are_flushed(rt: HostRuntime) {
    assert!(rt; answer_is_flushed(&rt));
}
