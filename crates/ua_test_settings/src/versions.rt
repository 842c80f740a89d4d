//! Settings of both versions: what each takes for `application`, and the faults of a list.

use crate::settings::{
    ENDPOINTS, FIELDS, LIMITS, NAMES, TOKENS, is_bounded, other, other_of_second,
};

/// Whole documents, and their first fault; empty where there is none.
const DOCUMENTS: [(&str, &str); 12] = [
    ("version = 2", "settings 2 application"),
    ("version = 2\nx = 1", "settings 5 x"),
    ("version = 2\napplication = 1", "settings 3 application"),
    (
        "version = 2\n[application]\nuri = \"u\"\nnames = [{ text = \"n\" }]",
        "settings 3 application",
    ),
    (
        "version = 1\n[[application]]\nuri = \"u\"\nnames = [{ text = \"n\" }]",
        "settings 3 application",
    ),
    ("version = 2\napplication = []", "settings 4 application"),
    ("version = 2\napplication = [1]", "settings 3 application.0"),
    (
        "version = 2\n[[application]]",
        "settings 2 application.0.uri",
    ),
    (
        "version = 2\n[[application]]\nuri = \"u\"\nnames = [{}]\n[[application]]\nx = 1",
        "settings 2 application.0.names.0.text",
    ),
    (
        "version = 2\nlimits = 1\nendpoint = 1\n[[application]]\nuri = \"u\"\nnames = []",
        "settings 4 application.0.names",
    ),
    (
        "version = 2\nlimits = 1\nendpoint = 1\n[[application]]\nuri = \"u\"\nnames = [{ text = \"n\" }]",
        "settings 3 endpoint",
    ),
    (
        "version = 2\n[[application]]\nuri = \"u\"\nnames = [{ text = \"n\" }]",
        "",
    ),
];

/// A whole application, and the begin of a second one.
const SECOND: &str =
    "version = 2\n[[application]]\nuri = \"u\"\nnames = [{ text = \"n\" }]\n[[application]]\n";

const SECONDS: [(&str, &str); 12] = [
    ("", "settings 2 application.1.uri"),
    ("uri = 1", "settings 3 application.1.uri"),
    ("uri = \"u\"", "settings 2 application.1.names"),
    ("uri = \"u\"\nnames = 1", "settings 3 application.1.names"),
    ("uri = \"u\"\nnames = []", "settings 4 application.1.names"),
    (
        "uri = \"u\"\nnames = [{ text = \"n\" }, {}]",
        "settings 2 application.1.names.1.text",
    ),
    (
        "uri = \"u\"\nproduct_uri = 1",
        "settings 3 application.1.product_uri",
    ),
    ("uri = \"u\"\ntype = 4", "settings 4 application.1.type"),
    (
        "uri = \"u\"\nnames = [{ text = \"n\" }]\ndiscovery_urls = [\"\", 1]",
        "settings 3 application.1.discovery_urls.1",
    ),
    ("url = 1", "settings 5 application.1.url"),
    (
        "uri = \"u\"\nnames = [{ text = \"n\" }]\n[[application]]\nuri = \"u\"",
        "settings 2 application.2.names",
    ),
    ("uri = \"u\"\nnames = [{ text = \"n\" }]", ""),
];

#[test]
fn each_version_has_its_kind_of_application(rt: HostRuntime) {
    assert_eq!(rt; other(rt.alloc(), "", &DOCUMENTS), None);
}

#[test]
fn faults_of_a_list_name_their_application(rt: HostRuntime) {
    assert_eq!(rt; other(rt.alloc(), SECOND, &SECONDS), None);
}

/// A second application that is still without names, one that can go on, and what stands behind it.
const NAMELESS: &str =
    "version = 2\n[[application]]\nuri = \"u\"\nnames = [{ text = \"n\" }]\n[[application]]\nuri = \"u\"\n";

const WHOLE: &str =
    "version = 2\n[[application]]\nuri = \"u\"\nnames = [{ text = \"n\" }]\n[[application]]\nuri = \"u\"\nnames = [{ text = \"n\" }]\n";

const ENDPOINT: &str =
    "version = 2\n[[application]]\nuri = \"u\"\nnames = [{ text = \"n\" }]\n[[endpoint]]\nurl = \"u\"\n";

const LIMITED: &str =
    "version = 2\n[[application]]\nuri = \"u\"\nnames = [{ text = \"n\" }]\n[limits]\n";

/// Each row of version 1, with the number of the application in its fault.
#[test]
fn a_second_application_has_the_faults_of_the_only_one(rt: HostRuntime) {
    let alloc = rt.alloc();
    assert_eq!(rt; other_of_second(alloc, NAMELESS, &NAMES), None);
    assert_eq!(rt; other_of_second(alloc, WHOLE, &FIELDS), None);
}

/// Each row of version 1, as it is.
#[test]
fn endpoints_and_limits_of_version_2_have_the_same_faults(rt: HostRuntime) {
    let alloc = rt.alloc();
    assert_eq!(rt; other(alloc, ENDPOINT, &ENDPOINTS), None);
    assert_eq!(rt; other(alloc, ENDPOINT, &TOKENS), None);
    assert_eq!(rt; other(alloc, LIMITED, &LIMITS), None);
}

/// The second application up to a text, and up to an array.
const URI: &str =
    "version = 2\n[[application]]\nuri = \"u\"\nnames = [{ text = \"n\" }]\n[[application]]\nnames = [{ text = \"n\" }]\nuri = \"";

const URLS: &str =
    "version = 2\n[[application]]\nuri = \"u\"\nnames = [{ text = \"n\" }]\n[[application]]\nuri = \"u\"\nnames = [{ text = \"n\" }]\ndiscovery_urls = [";

#[test]
fn texts_and_arrays_of_a_second_application_are_bounded(rt: HostRuntime) {
    let alloc = rt.alloc();
    let (uri, urls) = (
        "settings 4 application.1.uri",
        "settings 4 application.1.discovery_urls",
    );
    assert!(rt; is_bounded(alloc, URI, "u", 4095, "\"", ""));
    assert!(rt; is_bounded(alloc, URI, "u", 4096, "\"", uri));
    assert!(rt; is_bounded(alloc, URLS, "'',", 65535, "]", ""));
    assert!(rt; is_bounded(alloc, URLS, "1,", 65536, "]", urls));
}

const LISTED: &str = "version = 2\napplication = [";

const ONE: &str = "{uri=\"u\",names=[{text=\"n\"}]},";

#[test]
fn a_list_has_few_applications(rt: HostRuntime) {
    let alloc = rt.alloc();
    assert!(rt; is_bounded(alloc, LISTED, ONE, 65535, "]", ""));
    assert!(rt; is_bounded(alloc, LISTED, "1,", 65536, "]", "settings 4 application"));
}
