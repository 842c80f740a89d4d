//! The words of `serve` and `ask`, and what stops them before a byte is sent.

use crate::runs::expect;
use crate::words::{expect_reason, expect_refusal};
use std::alloc::{AllocError, Global};
use ua_test_runs::addresses::left_address;
use ua_test_runs::pages::ends_so;

/// A url of so many bytes.
pub(crate) fn url_of(alloc: Global, len: usize) -> Result<String, AllocError> {
    let mut url = String::new(alloc);
    for _ in 0..len {
        url.push_str("u")?;
    }
    Ok(url)
}

#[test]
fn refuses_words_of_links(rt: HostRuntime) {
    for number in ["0", "4294967296", "x", "", "-1", "1.0"] {
        expect_refusal(
            &rt,
            &["serve", "default", "127.0.0.1:0", "--connections", number],
        );
    }
    expect_refusal(&rt, &["serve", "default", "127.0.0.1:0"]);
    expect_refusal(&rt, &["serve", "default", "--connections", "1"]);
    expect_refusal(&rt, &["ask", "servers", "127.0.0.1:4840", "u"]);
    expect_reason(
        &rt,
        &["serve", "default", "127.0.0.1:0", "--connections", "0"],
        "0 is not in 1..=4294967295",
    );
    expect_reason(&rt, &["ask", "endpoint", "a", "u"], "'endpoints'");
}

#[test]
fn refuses_times(rt: HostRuntime) {
    for seconds in ["0", "86401", "x", "", "-1", "1.5", "1s"] {
        expect_refusal(&rt, &["ask", "find", "a:1", "u", "--timeout", seconds]);
    }
    expect_refusal(&rt, &["ask", "find", "a:1", "u", "--timeout"]);
    expect_refusal(
        &rt,
        &[
            "serve",
            "default",
            "a:1",
            "--connections",
            "1",
            "--timeout",
            "1",
        ],
    );
    expect_reason(
        &rt,
        &["ask", "find", "a:1", "u", "--timeout", "0"],
        "0 is not in 1..=86400",
    );
}

/// The settings are judged before the address, and the address before anything is told.
#[test]
fn serves_nothing_where_it_cannot(rt: HostRuntime) {
    for (settings, address, errors) in [
        ("absent.toml", "nowhere", "file\n"),
        ("default", "nowhere", "link\n"),
        ("default", "127.0.0.1:65536", "link\n"),
        ("default", "", "link\n"),
    ] {
        let words = ["serve", settings, address, "--connections", "1"];
        expect(&rt, &words, "", 3, "", errors);
    }
}

/// Whether the question at an address fails for its link at once.
fn is_without_link(rt: &HostRuntime, address: &str, url: &str) -> bool {
    let mut input = b"".as_slice();
    ends_so(
        rt,
        &["ask", "find", address, url],
        &mut input,
        3,
        "",
        "link\n",
    )
}

fn finds_nobody(rt: &HostRuntime) -> bool {
    let Some(address) = left_address(rt) else {
        return false;
    };
    let Ok(url) = url_of(rt.alloc(), 4095) else {
        return false;
    };
    match address.to_string(rt.alloc()) {
        Ok(text) => {
            is_without_link(rt, text.as_str(), url.as_str())
                && is_without_link(rt, "nowhere", "u")
                && is_without_link(rt, "", "")
        }
        Err(_) => false,
    }
}

#[test]
fn nobody_listens(rt: HostRuntime) {
    assert!(rt; finds_nobody(&rt));
}

/// Whether a url of 4096 bytes is refused with the words, before the address is judged.
fn refuses_long_url(rt: &HostRuntime) -> bool {
    let Ok(url) = url_of(rt.alloc(), 4096) else {
        return false;
    };
    let mut input = b"".as_slice();
    let words = ["ask", "find", "nowhere", url.as_str()];
    ends_so(rt, &words, &mut input, 2, "", "words\n")
}

#[test]
fn refuses_a_long_url(rt: HostRuntime) {
    assert!(rt; refuses_long_url(&rt));
}
