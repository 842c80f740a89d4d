//! Settings that are refused, and the text of their first fault.

use std::alloc::{AllocError, Global};
use ua_disco::{DEFAULT, Settings};

/// Whether this is shown of the second application of a list where the fault is one of the only application; any other is
/// shown as it is.
fn is_of_second(shown: &[u8], fault: &[u8]) -> bool {
    let (Some(kind), Some(key)) = (fault.get(..23), fault.get(23..)) else {
        return shown == fault;
    };
    if !kind.ends_with(b"application.") {
        return shown == fault;
    }
    match shown.strip_prefix(kind) {
        Some(rest) => rest.strip_prefix(b"1.".as_slice()) == Some(key),
        None => false,
    }
}

fn is_shown(shown: &str, fault: &str, second: bool) -> bool {
    if second {
        is_of_second(shown.as_bytes(), fault.as_bytes())
    } else {
        shown == fault
    }
}

/// Whether the first fault of the text is shown so, of the second application or as it is; empty where there is none.
fn has_fault(alloc: Global, text: &[u8], fault: &str, second: bool) -> bool {
    match Settings::from_toml(alloc, text) {
        Ok(_) => fault.is_empty(),
        Err(found) => match found.to_string(alloc) {
            Ok(shown) => is_shown(shown.as_str(), fault, second),
            Err(_) => false,
        },
    }
}

fn with_more(alloc: Global, front: &str, more: &str) -> Result<String, AllocError> {
    let mut text = String::from_str(alloc, front)?;
    text.push_str(more)?;
    Ok(text)
}

/// Whether the text behind the front has this first fault.
fn is_refused(alloc: Global, front: &str, more: &str, fault: &str, second: bool) -> bool {
    match with_more(alloc, front, more) {
        Ok(text) => has_fault(alloc, text.as_str().as_bytes(), fault, second),
        Err(_) => false,
    }
}

fn other_of<'a>(
    alloc: Global,
    front: &str,
    rows: &[(&'a str, &str)],
    second: bool,
) -> Option<&'a str> {
    for (more, fault) in rows {
        if !is_refused(alloc, front, more, fault, second) {
            return Some(*more);
        }
    }
    None
}

/// The first text of the rows that, behind the front, has another first fault.
pub(crate) fn other<'a>(alloc: Global, front: &str, rows: &[(&'a str, &str)]) -> Option<&'a str> {
    other_of(alloc, front, rows, false)
}

/// The same behind a front that ends in a second application, where the rows say what is told of the only one.
pub(crate) fn other_of_second<'a>(
    alloc: Global,
    front: &str,
    rows: &[(&'a str, &str)],
) -> Option<&'a str> {
    other_of(alloc, front, rows, true)
}

const WHOLE: [(&str, &str); 24] = [
    ("version =", "settings 1"),
    ("version = 1\nversion = 1", "settings 1"),
    ("version = 9223372036854775808", "settings 1"),
    ("x = 1\nversion =", "settings 1"),
    ("", "settings 2 version"),
    ("application = 1", "settings 2 version"),
    ("version = \"1\"", "settings 3 version"),
    ("version = 1.0", "settings 3 version"),
    ("version = 3", "settings 4 version"),
    ("version = 0", "settings 4 version"),
    ("version = -1", "settings 4 version"),
    ("version = 4294967297", "settings 4 version"),
    ("x = 1", "settings 5 x"),
    ("version = 2\nb = 1\na = 1\nB = 1", "settings 5 B"),
    ("version = 1", "settings 2 application"),
    ("version = 1\napplication = 1", "settings 3 application"),
    ("version = 1\napplication = []", "settings 3 application"),
    (
        "version = 1\nlimits = 1\n[application]",
        "settings 2 application.uri",
    ),
    (
        "version = 1\n[limits]\nx = 1\n[[endpoint]]",
        "settings 2 application",
    ),
    (
        "version = 1\nlimits = 1\n[application]\nuri = \"u\"\nnames = [{ text = \"n\" }]",
        "settings 3 limits",
    ),
    (
        "version = 1\nlimits = 1\nendpoint = 1\n[application]\nuri = \"u\"\nnames = [{ text = \"n\" }]",
        "settings 3 endpoint",
    ),
    (
        "version = 1\nendpoint = []\n[application]\nuri = \"u\"\nnames = [{ text = \"n\" }]",
        "",
    ),
    (
        "version = 1\nendpoint = [1]\n[application]\nuri = \"u\"\nnames = [{ text = \"n\" }]",
        "settings 3 endpoint.0",
    ),
    (DEFAULT, ""),
];

const SECOND_ENDPOINT: [(&str, &str); 1] = [(
    "[[endpoint]]\nurl = \"u\"\nmode = 4\n",
    "settings 4 endpoint.1.mode",
)];

#[test]
fn texts_are_refused_at_their_first_fault(rt: HostRuntime) {
    let alloc = rt.alloc();
    assert_eq!(rt; other(alloc, "", &WHOLE), None);
    assert!(rt; has_fault(alloc, b"version = 1 # \xFF", "settings 1", false));
    assert_eq!(rt; other(alloc, DEFAULT, &SECOND_ENDPOINT), None);
}

/// An application that is still without names.
const APPLICATION: &str = "version = 1\n[application]\nuri = \"u\"\n";

pub(crate) const NAMES: [(&str, &str); 13] = [
    ("", "settings 2 application.names"),
    ("discovery_urls = 1", "settings 2 application.names"),
    ("type = 4", "settings 4 application.type"),
    (
        "type = 4\nproduct_uri = 1",
        "settings 3 application.product_uri",
    ),
    ("type = 4\nurl = 1", "settings 5 application.url"),
    ("names = 1", "settings 3 application.names"),
    ("names = []", "settings 4 application.names"),
    ("names = [1]", "settings 3 application.names.0"),
    ("names = [{}]", "settings 2 application.names.0.text"),
    (
        "names = [{ text = \"n\" }, { text = 1 }]",
        "settings 3 application.names.1.text",
    ),
    (
        "names = [{ text = 1, locale = 1 }]",
        "settings 3 application.names.0.locale",
    ),
    (
        "names = [{ locale = \"en\", lang = \"en\" }]",
        "settings 5 application.names.0.lang",
    ),
    ("names = [{ text = \"n\" }]", ""),
];

/// The least settings, of which the application can go on.
const LEAST: &str = "version = 1\n[application]\nuri = \"u\"\nnames = [{ text = \"n\" }]\n";

pub(crate) const FIELDS: [(&str, &str); 14] = [
    ("type = 3", ""),
    ("type = 4", "settings 4 application.type"),
    ("type = -1", "settings 4 application.type"),
    ("type = 256", "settings 4 application.type"),
    ("type = \"0\"", "settings 3 application.type"),
    ("product_uri = 1", "settings 3 application.product_uri"),
    (
        "profile_uri = 1\ngateway_uri = 1",
        "settings 3 application.gateway_uri",
    ),
    (
        "discovery_urls = 1\nprofile_uri = 1",
        "settings 3 application.profile_uri",
    ),
    (
        "discovery_urls = \"u\"",
        "settings 3 application.discovery_urls",
    ),
    (
        "discovery_urls = [1]",
        "settings 3 application.discovery_urls.0",
    ),
    (
        "discovery_urls = [\"\", \"\", \"\", \"\", \"\", \"\", \"\", \"\", \"\", \"\", [], 1]",
        "settings 3 application.discovery_urls.10",
    ),
    ("[endpoint]", "settings 3 endpoint"),
    ("[[endpoint]]", "settings 2 endpoint.0.url"),
    (
        "[[endpoint]]\nmode = 4\n[[endpoint]]\nx = 1",
        "settings 2 endpoint.0.url",
    ),
];

#[test]
fn applications_are_refused_at_their_first_fault(rt: HostRuntime) {
    assert_eq!(rt; other(rt.alloc(), APPLICATION, &NAMES), None);
    assert_eq!(rt; other(rt.alloc(), LEAST, &FIELDS), None);
}

const ENDPOINT: &str =
    "version = 1\n[application]\nuri = \"u\"\nnames = [{ text = \"n\" }]\n[[endpoint]]\nurl = \"u\"\n";

pub(crate) const ENDPOINTS: [(&str, &str); 22] = [
    ("mode = 1", ""),
    ("mode = 3\nlevel = 255", ""),
    ("mode = 0", "settings 4 endpoint.0.mode"),
    ("mode = 4", "settings 4 endpoint.0.mode"),
    ("mode = \"1\"", "settings 3 endpoint.0.mode"),
    ("level = 256", "settings 4 endpoint.0.level"),
    ("level = -1", "settings 4 endpoint.0.level"),
    ("level = 256\nmode = 4", "settings 4 endpoint.0.mode"),
    ("policy = 1\nmode = 4", "settings 4 endpoint.0.mode"),
    ("policy = 1", "settings 3 endpoint.0.policy"),
    ("transport = 1\npolicy = 1", "settings 3 endpoint.0.policy"),
    ("certificate = 1", "settings 3 endpoint.0.certificate"),
    ("certificate = \"0\"", "settings 4 endpoint.0.certificate"),
    ("certificate = \"0g\"", "settings 4 endpoint.0.certificate"),
    ("certificate = \"\"", ""),
    (
        "transport = 1\ncertificate = \"0x00\"",
        "settings 4 endpoint.0.certificate",
    ),
    (
        "level = 256\ntransport = 1",
        "settings 3 endpoint.0.transport",
    ),
    ("tokens = 1\nlevel = 256", "settings 4 endpoint.0.level"),
    ("mod = 4", "settings 5 endpoint.0.mod"),
    ("tokens = 1", "settings 3 endpoint.0.tokens"),
    ("tokens = []", ""),
    ("tokens = [1]", "settings 3 endpoint.0.tokens.0"),
];

pub(crate) const TOKENS: [(&str, &str); 8] = [
    ("tokens = [{}]", "settings 2 endpoint.0.tokens.0.id"),
    (
        "tokens = [{ id = \"i\" }, { id = \"i\", type = 4 }]",
        "settings 4 endpoint.0.tokens.1.type",
    ),
    (
        "tokens = [{ id = \"i\", policy = 1, issuer_url = 1, issued_type = 1 }]",
        "settings 3 endpoint.0.tokens.0.issued_type",
    ),
    (
        "tokens = [{ id = \"i\", policy = 1, issuer_url = 1 }]",
        "settings 3 endpoint.0.tokens.0.issuer_url",
    ),
    (
        "tokens = [{ id = \"i\", policy = 1 }]",
        "settings 3 endpoint.0.tokens.0.policy",
    ),
    (
        "tokens = [{ kind = 1 }]",
        "settings 5 endpoint.0.tokens.0.kind",
    ),
    ("tokens = [{ id = 1 }]", "settings 3 endpoint.0.tokens.0.id"),
    ("tokens = [{ id = \"\", type = 3 }]", ""),
];

pub(crate) const LIMITS: [(&str, &str); 17] = [
    ("", ""),
    ("receive = 8192\nsend = 8192", ""),
    ("receive = 1048576\nsend = 1048576", ""),
    ("receive = 8191", "settings 4 limits.receive"),
    ("receive = 1048577", "settings 4 limits.receive"),
    ("receive = 65535.0", "settings 3 limits.receive"),
    ("send = 8191", "settings 4 limits.send"),
    ("send = 1048577", "settings 4 limits.send"),
    ("send = 1\nreceive = 1", "settings 4 limits.receive"),
    ("max_message = 1\nmax_chunks = 1", ""),
    ("max_message = 0", "settings 4 limits.max_message"),
    ("max_message = 16777217", "settings 4 limits.max_message"),
    ("max_chunks = 0", "settings 4 limits.max_chunks"),
    ("max_chunks = 65536", "settings 4 limits.max_chunks"),
    (
        "max_chunks = 0\nmax_message = 0",
        "settings 4 limits.max_message",
    ),
    ("max_message = 0\nsend = 0", "settings 4 limits.send"),
    ("receive = 0\nchunks = 1", "settings 5 limits.chunks"),
];

/// The least settings up to their limits.
const LIMITED: &str =
    "version = 1\n[application]\nuri = \"u\"\nnames = [{ text = \"n\" }]\n[limits]\n";

#[test]
fn endpoints_and_limits_are_refused_at_their_first_fault(rt: HostRuntime) {
    assert_eq!(rt; other(rt.alloc(), ENDPOINT, &ENDPOINTS), None);
    assert_eq!(rt; other(rt.alloc(), ENDPOINT, &TOKENS), None);
    assert_eq!(rt; other(rt.alloc(), LIMITED, &LIMITS), None);
}

/// A text in which a part stands so often between two others.
fn repeated(
    alloc: Global,
    front: &str,
    part: &str,
    times: usize,
    back: &str,
) -> Result<String, AllocError> {
    let mut text = String::from_str(alloc, front)?;
    for _ in 0..times {
        text.push_str(part)?;
    }
    text.push_str(back)?;
    Ok(text)
}

/// What stands before a text, a certificate and an array, and behind it.
const NAMED: &str = "version = 1\n[application]\nnames = [{ text = \"n\" }]\nuri = \"";

const CERTIFIED: &str =
    "version = 1\n[application]\nuri = \"u\"\nnames = [{ text = \"n\" }]\n[[endpoint]]\nurl = \"u\"\ncertificate = \"";

const LISTED: &str =
    "version = 1\n[application]\nuri = \"u\"\nnames = [{ text = \"n\" }]\ndiscovery_urls = [";

/// The front, the part, how often it stands there, the back, and the fault. Texts are counted in bytes, and an array before its items.
const LONG: [(&str, &str, usize, &str, &str); 8] = [
    (NAMED, "u", 4095, "\"", ""),
    (NAMED, "u", 4096, "\"", "settings 4 application.uri"),
    (NAMED, "\u{E9}", 2047, "\"", ""),
    (NAMED, "\u{E9}", 2048, "\"", "settings 4 application.uri"),
    (CERTIFIED, "aB", 65536, "\"", ""),
    (
        CERTIFIED,
        "aB",
        65537,
        "\"",
        "settings 4 endpoint.0.certificate",
    ),
    (LISTED, "'',", 65535, "]", ""),
    (
        LISTED,
        "1,",
        65536,
        "]",
        "settings 4 application.discovery_urls",
    ),
];

pub(crate) fn is_bounded(
    alloc: Global,
    front: &str,
    part: &str,
    times: usize,
    back: &str,
    fault: &str,
) -> bool {
    match repeated(alloc, front, part, times, back) {
        Ok(text) => has_fault(alloc, text.as_str().as_bytes(), fault, false),
        Err(_) => false,
    }
}

#[test]
fn long_values_are_refused(rt: HostRuntime) {
    for (front, part, times, back, fault) in LONG {
        assert!(rt;
            is_bounded(rt.alloc(), front, part, times, back, fault),
            "{part} {times}"
        );
    }
}
