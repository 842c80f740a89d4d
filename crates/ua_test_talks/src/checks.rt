//! What a server offers, laid beside settings, over links of memory.

use std::alloc::Global;
use std::net::Net;
use std::process::Abort;
use std::rt::{Clock as HostClock, Files};
use ua_command::run::run;
use ua_command::{Question, Why, check_over};
use ua_disco::{DEFAULT, Settings};
use ua_link::{Clock, MemoryLink};
use ua_test_runs::pages::{Page, is_output};
use ua_test_runs::vectors::{
    ABORT_TOO_LARGE, ACKNOWLEDGE, BOTH_FOUND, ENDPOINTS_RESPONSE, FAULT_RESPONSE, FIND_RESPONSE,
    OPEN_RESPONSE,
};
use ua_value::plumbing::let_go;

const URL: &str = "opc.tcp://localhost:4840";

/// A clock that stands still.
#[derive(Clone, Copy)]
struct StillClock;

impl Clock for StillClock {
    fn now(&mut self) -> i64 {
        0
    }
}

/// What a server that says these pieces comes to, laid beside these settings: the exit status, what is printed, which
/// finds so much room, and what is told; `why` says what is known of that.
fn laid_beside(
    alloc: Global,
    settings: &Settings,
    question: Question,
    pieces: &[&[u8]],
    room: usize,
    why: &mut Why,
) -> (u8, Page, Page) {
    let mut link = MemoryLink::new(alloc, pieces, 100);
    let (mut printed, mut told) = (Page::new(room), Page::new(4096));
    let came = check_over(
        alloc,
        settings,
        &mut link,
        &mut StillClock,
        question,
        URL,
        &mut printed,
        &mut told,
        why,
    );
    (came, printed, told)
}

/// Whether a server that answers a question so, laid beside these settings, has this status, and what is printed then.
fn differs_from(
    alloc: Global,
    settings: &Settings,
    question: Question,
    said: &[u8],
    status: u8,
    output: &str,
) -> bool {
    let pieces = [ACKNOWLEDGE, OPEN_RESPONSE, said];
    let mut why = Why::Unknown;
    let (came, printed, told) = laid_beside(alloc, settings, question, &pieces, 4096, &mut why);
    came == status && printed.text() == output.as_bytes() && told.text().is_empty()
}

/// The same of settings in TOML.
fn differs(
    alloc: Global,
    toml: &str,
    question: Question,
    said: &[u8],
    status: u8,
    output: &str,
) -> bool {
    let Ok(settings) = Settings::from_toml(alloc, toml.as_bytes()) else {
        return false;
    };
    let is_so = differs_from(alloc, &settings, question, said, status, output);
    let_go(settings);
    is_so
}

/// Settings of which the application has another name and another type.
const OTHER_APPLICATION: &str = "version = 1
[application]
uri = \"urn:a\"
product_uri = \"urn:p\"
type = 3
discovery_urls = [\"opc.tcp://localhost:4840\"]
[[application.names]]
locale = \"en\"
text = \"Presse\"
";

const OTHER_APPLICATION_LINES: &str =
    "application \"urn:a\" ApplicationName.Text wanted=\"Presse\" found=\"Press\"\napplication \"urn:a\" ApplicationType wanted=3 found=0\n";

/// Settings of which the endpoint has another level and another token.
const OTHER_ENDPOINT: &str = "version = 1
[application]
uri = \"urn:a\"
product_uri = \"urn:p\"
discovery_urls = [\"opc.tcp://localhost:4840\"]
[[application.names]]
locale = \"en\"
text = \"Press\"
[[endpoint]]
url = \"opc.tcp://localhost:4840\"
level = 3
[[endpoint.tokens]]
id = \"1\"
";

const OTHER_ENDPOINT_LINES: &str =
    "endpoint \"opc.tcp://localhost:4840\" mode=1 policy=\"http://opcfoundation.org/UA/SecurityPolicy#None\" transport=\"http://opcfoundation.org/UA-Profile/Transport/uatcp-uasc-uabinary\" UserIdentityTokens missing \"1\"\nendpoint \"opc.tcp://localhost:4840\" mode=1 policy=\"http://opcfoundation.org/UA/SecurityPolicy#None\" transport=\"http://opcfoundation.org/UA-Profile/Transport/uatcp-uasc-uabinary\" UserIdentityTokens extra \"0\"\nendpoint \"opc.tcp://localhost:4840\" mode=1 policy=\"http://opcfoundation.org/UA/SecurityPolicy#None\" transport=\"http://opcfoundation.org/UA-Profile/Transport/uatcp-uasc-uabinary\" SecurityLevel wanted=3 found=0\n";

#[test]
fn a_server_that_offers_what_it_should_has_no_line(rt: HostRuntime) {
    let alloc = rt.alloc();
    assert!(rt; differs(alloc, DEFAULT, Question::Find, FIND_RESPONSE, 0, ""));
    assert!(rt;
        differs(
            alloc,
            DEFAULT,
            Question::Endpoints,
            ENDPOINTS_RESPONSE,
            0,
            ""
        )
    );
}

#[test]
fn each_difference_has_a_line(rt: HostRuntime) {
    let alloc = rt.alloc();
    let application = OTHER_APPLICATION_LINES;
    assert!(rt;
        differs(
            alloc,
            OTHER_APPLICATION,
            Question::Find,
            FIND_RESPONSE,
            1,
            application
        )
    );
    let endpoint = OTHER_ENDPOINT_LINES;
    assert!(rt;
        differs(
            alloc,
            OTHER_ENDPOINT,
            Question::Endpoints,
            ENDPOINTS_RESPONSE,
            1,
            endpoint
        )
    );
}

#[test]
fn a_server_that_nobody_set_up_is_extra(rt: HostRuntime) {
    let alloc = rt.alloc();
    let extra = "extra application \"urn:b\"\n";
    assert!(rt; differs(alloc, DEFAULT, Question::Find, BOTH_FOUND, 1, extra));
}

#[test]
fn what_comes_in_the_place_of_an_answer_is_no_offer(rt: HostRuntime) {
    let alloc = rt.alloc();
    let fault = "fault 800B0000\n";
    let aborted = "aborted 80B90000\n";
    assert!(rt; differs(alloc, DEFAULT, Question::Find, FAULT_RESPONSE, 1, fault));
    assert!(rt;
        differs(
            alloc,
            DEFAULT,
            Question::Endpoints,
            ABORT_TOO_LARGE,
            1,
            aborted
        )
    );
}

/// Whether a server that says these pieces, laid beside the settings `default`, has this status, and what is printed,
/// which finds so much room, and told then, and whether that is known to be the output.
fn stops(alloc: Global, pieces: &[&[u8]], room: usize, status: u8, told: &str) -> bool {
    let Ok(settings) = Settings::from_toml(alloc, DEFAULT.as_bytes()) else {
        return false;
    };
    let mut why = Why::Unknown;
    let (came, printed, errors) = laid_beside(
        alloc,
        &settings,
        Question::Find,
        pieces,
        room,
        &mut why,
    );
    let_go(settings);
    came == status
        && printed.len == room.min(17)
        && errors.text() == told.as_bytes()
        && is_output(&why) == (told == "file\n")
}

#[test]
fn a_link_or_a_line_of_a_check_may_fail(rt: HostRuntime) {
    let alloc = rt.alloc();
    assert!(rt; stops(alloc, &[], 0, 3, "link\n"));
    assert!(rt; stops(alloc, &[ACKNOWLEDGE, OPEN_RESPONSE], 0, 3, "link\n"));
    let both = [ACKNOWLEDGE, OPEN_RESPONSE, BOTH_FOUND];
    assert!(rt; stops(alloc, &both, 0, 3, "file\n"));
    assert!(rt; stops(alloc, &both, 17, 3, "file\n"));
}

/// Whether a server that knows one server more is told so, or nothing is, where memory is wanting, or the link finds no
/// room for what is sent.
fn differs_or_not(alloc: Global) -> bool {
    let Ok(settings) = Settings::from_toml(alloc, DEFAULT.as_bytes()) else {
        return true;
    };
    let pieces = [ACKNOWLEDGE, OPEN_RESPONSE, BOTH_FOUND];
    let mut why = Why::Unknown;
    let (came, printed, told) = laid_beside(
        alloc,
        &settings,
        Question::Find,
        &pieces,
        4096,
        &mut why,
    );
    let_go(settings);
    match came {
        1 => {
            printed.text() == b"extra application \"urn:b\"\n".as_slice() && told.text().is_empty()
        }
        3 => printed.text().is_empty() && told.text() == b"link\n".as_slice(),
        4 => printed.text().is_empty() && told.text() == b"memory\n".as_slice(),
        _ => false,
    }
}

#[test]
fn a_difference_is_told_or_no_memory(rt: HostRuntime) {
    assert!(rt; differs_or_not(rt.alloc()));
}

/// The exit status of these words, and whether this is all that is told, and nothing printed.
fn tells<R: Files + Net + HostClock + AllocGlobal>(rt: &R, words: &[&str], told: &str) -> u8 {
    let mut input = b"4g".as_slice();
    let (mut printed, mut errors) = (Page::new(4096), Page::new(4096));
    let status = run(rt, words, &mut input, &mut printed, &mut errors);
    let alone = printed.len == 0 && input == b"4g".as_slice();
    if alone && errors.text() == told.as_bytes() {
        status
    } else {
        99
    }
}

fn expect_told<R: Files + Net + HostClock + AllocGlobal + Abort>(
    rt: &R,
    words: &[&str],
    status: u8,
    told: &str,
) {
    assert!(rt; tells(rt, words, told) == status, "{told}");
}

#[test]
fn settings_and_addresses_of_a_check_may_be_bad(rt: HostRuntime) {
    expect_told(&rt, &["check", "default", "127.0.0.1:1"], 2, "words\n");
    expect_told(&rt, &["check", "/no/such/file", URL], 3, "file\n");
    expect_told(
        &rt,
        &["check", "default", "opc.tcp://127.0.0.1:0"],
        3,
        "link\n",
    );
}
