//! Answers and values in the forms of `--all`, `--show` and `--json`, and requests with locales and filters.

use std::alloc::Global;
use std::net::Net;
use std::process::Abort;
use std::rt::{Clock as HostClock, Files};
use ua_command::run::run;
use ua_command::{Command, Form, Inquiry, Question, Why, ask_as, command_of};
use ua_link::{Clock, MemoryLink};
use ua_test_runs::pages::Page;
use ua_test_runs::vectors::{
    ABORT_TOO_LARGE, ACKNOWLEDGE, ENDPOINTS_RESPONSE, FAULT_RESPONSE, FIND_RESPONSE, OPEN_RESPONSE,
};
use ua_value::Array;
use ua_value::plumbing::let_go;

const URL: &str = "opc.tcp://localhost:4840";

/// A clock that stands still.
#[derive(Clone, Copy)]
struct StillClock;

impl Clock for StillClock {
    fn now(&mut self) -> i64 {
        0
    }
}

/// What an answer to a question comes to in this form: the exit status, what is printed, and what is told.
fn said_of(alloc: Global, question: Question, form: Form, said: &[u8]) -> (u8, Page, Page) {
    let inquiry = Inquiry {
        question,
        locales: Array::null(),
        filter: Array::null(),
        form,
    };
    let pieces = [ACKNOWLEDGE, OPEN_RESPONSE, said];
    let mut link = MemoryLink::new(alloc, &pieces, 100);
    let (mut printed, mut told) = (Page::new(4096), Page::new(4096));
    let url = Some(URL);
    let came = ask_as(
        alloc,
        &mut link,
        &mut StillClock,
        &inquiry,
        url,
        &mut printed,
        &mut told,
        &mut Why::Unknown,
    );
    (came, printed, told)
}

/// Whether an answer to a question is printed so in this form, with this status.
fn prints(
    alloc: Global,
    question: Question,
    form: Form,
    said: &[u8],
    status: u8,
    output: &str,
) -> bool {
    let (came, printed, told) = said_of(alloc, question, form, said);
    came == status && printed.text() == output.as_bytes() && told.text().is_empty()
}

/// The same, or nothing printed where memory is wanting, or the link finds no room for what is sent.
fn prints_or_not(alloc: Global, form: Form, output: &str) -> bool {
    let (came, printed, told) = said_of(alloc, Question::Find, form, FIND_RESPONSE);
    match came {
        0 => printed.text() == output.as_bytes() && told.text().is_empty(),
        3 => printed.text().is_empty() && told.text() == b"link\n".as_slice(),
        4 => printed.text().is_empty() && told.text() == b"memory\n".as_slice(),
        _ => false,
    }
}

pub(crate) const WHOLE_APPLICATION: &str = "application \"urn:a\" type=0 name=\"Press\"
  product \"urn:p\"
  locale \"en\"
  type Server
  gateway null
  profile null
  url \"opc.tcp://localhost:4840\"
";

pub(crate) const WHOLE_ENDPOINT: &str =
    "endpoint \"opc.tcp://localhost:4840\" mode=1 policy=\"http://opcfoundation.org/UA/SecurityPolicy#None\" transport=\"http://opcfoundation.org/UA-Profile/Transport/uatcp-uasc-uabinary\" level=0
  mode None
  certificate null
  token \"0\" type=0 Anonymous issued=null issuer=null policy=null
  server \"urn:a\" type=0 name=\"Press\"
    product \"urn:p\"
    locale \"en\"
    type Server
    gateway null
    profile null
    url \"opc.tcp://localhost:4840\"
";

const JSON_APPLICATION: &str =
    "{\"ApplicationUri\":\"urn:a\",\"ProductUri\":\"urn:p\",\"ApplicationName\":{\"Locale\":\"en\",\"Text\":\"Press\"},\"ApplicationType\":0,\"GatewayServerUri\":null,\"DiscoveryProfileUri\":null,\"DiscoveryUrls\":[\"opc.tcp://localhost:4840\"]}\n";

const JSON_ENDPOINT: &str =
    "{\"EndpointUrl\":\"opc.tcp://localhost:4840\",\"Server\":{\"ApplicationUri\":\"urn:a\",\"ProductUri\":\"urn:p\",\"ApplicationName\":{\"Locale\":\"en\",\"Text\":\"Press\"},\"ApplicationType\":0,\"GatewayServerUri\":null,\"DiscoveryProfileUri\":null,\"DiscoveryUrls\":[\"opc.tcp://localhost:4840\"]},\"ServerCertificate\":null,\"SecurityMode\":1,\"SecurityPolicyUri\":\"http://opcfoundation.org/UA/SecurityPolicy#None\",\"UserIdentityTokens\":[{\"PolicyId\":\"0\",\"TokenType\":0,\"IssuedTokenType\":null,\"IssuerEndpointUrl\":null,\"SecurityPolicyUri\":null}],\"TransportProfileUri\":\"http://opcfoundation.org/UA-Profile/Transport/uatcp-uasc-uabinary\",\"SecurityLevel\":0}\n";

#[test]
fn all_that_a_server_said_is_printed(rt: HostRuntime) {
    let alloc = rt.alloc();
    let (find, endpoints) = (Question::Find, Question::Endpoints);
    assert!(rt;
        prints(
            alloc,
            find,
            Form::Whole,
            FIND_RESPONSE,
            0,
            WHOLE_APPLICATION
        )
    );
    assert!(rt;
        prints(
            alloc,
            endpoints,
            Form::Whole,
            ENDPOINTS_RESPONSE,
            0,
            WHOLE_ENDPOINT
        )
    );
    assert!(rt;
        prints(
            alloc,
            find,
            Form::Whole,
            FAULT_RESPONSE,
            1,
            "fault 800B0000\n"
        )
    );
}

#[test]
fn answers_are_printed_in_json(rt: HostRuntime) {
    let alloc = rt.alloc();
    let (find, endpoints) = (Question::Find, Question::Endpoints);
    assert!(rt; prints(alloc, find, Form::Json, FIND_RESPONSE, 0, JSON_APPLICATION));
    assert!(rt;
        prints(
            alloc,
            endpoints,
            Form::Json,
            ENDPOINTS_RESPONSE,
            0,
            JSON_ENDPOINT
        )
    );
}

#[test]
fn all_that_a_server_said_or_no_memory(rt: HostRuntime) {
    assert!(rt; prints_or_not(rt.alloc(), Form::Whole, WHOLE_APPLICATION));
}

#[test]
fn an_answer_in_json_or_no_memory(rt: HostRuntime) {
    assert!(rt; prints_or_not(rt.alloc(), Form::Json, JSON_APPLICATION));
}

#[test]
fn what_comes_in_the_place_of_an_answer_is_printed_in_json(rt: HostRuntime) {
    for (said, output) in [
        (
            FAULT_RESPONSE,
            "{\"ServiceResult\":{\"Code\":2148204544,\"Symbol\":\"BadServiceUnsupported\"}}\n",
        ),
        (
            ABORT_TOO_LARGE,
            "{\"Abort\":{\"Code\":2159607808,\"Symbol\":\"BadResponseTooLarge\"}}\n",
        ),
        (
            b"ERRF\x12\0\0\0\0\0\x7E\x80\x02\0\0\0no".as_slice(),
            "{\"Error\":{\"Code\":2155741184,\"Symbol\":\"BadTcpMessageTypeInvalid\"},\"Reason\":\"no\"}\n",
        ),
        (
            b"GET / HTTP/1.1\r\n".as_slice(),
            "{\"Refused\":{\"Code\":2155741184,\"Symbol\":\"BadTcpMessageTypeInvalid\"}}\n",
        ),
    ] {
        assert!(rt;
            prints(rt.alloc(), Question::Find, Form::Json, said, 1, output),
            "{output}"
        );
    }
}

/// What a FindServers request of handle 2 that names the locales `de` and `en` and the server `urn:a` has behind its url.
const WISHED: &[u8] = b"\x02\0\0\0\x02\0\0\0de\x02\0\0\0en\x01\0\0\0\x05\0\0\0urn:a";

/// The same for the locale `de` alone and two transport profiles, which GetEndpoints names.
const PROFILED: &[u8] = b"\x01\0\0\0\x02\0\0\0de\x02\0\0\0\x05\0\0\0urn:q\x05\0\0\0urn:r";

/// Whether the question that the words ask sends this at the end of its request.
fn sends(alloc: Global, words: &[&str], tail: &[u8]) -> bool {
    match command_of(alloc, words) {
        Ok(
            Command::Ask {
                question,
                locales,
                filter,
                address,
                url,
                seconds: _,
                form,
            },
        ) => {
            let_go(address);
            let_go(url);
            let inquiry = Inquiry {
                question,
                locales,
                filter,
                form,
            };
            sent_by(alloc, &inquiry, tail)
        }
        _ => false,
    }
}

/// Whether an inquiry sends this at the end of its request, to a server that then says no more.
fn sent_by(alloc: Global, inquiry: &Inquiry, tail: &[u8]) -> bool {
    let pieces = [ACKNOWLEDGE, OPEN_RESPONSE];
    let mut link = MemoryLink::new(alloc, &pieces, 100);
    let (mut printed, mut told) = (Page::new(4096), Page::new(4096));
    let status = ask_as(
        alloc,
        &mut link,
        &mut StillClock,
        inquiry,
        Some(URL),
        &mut printed,
        &mut told,
        &mut Why::Unknown,
    );
    status == 3 && link.sent().ends_with(tail)
}

#[test]
fn locales_and_filters_go_into_the_request(rt: HostRuntime) {
    let find = [
        "ask",
        "find",
        "127.0.0.1:1",
        URL,
        "--locale",
        "de",
        "--server",
        "urn:a",
        "--locale",
        "en",
    ];
    assert!(rt; sends(rt.alloc(), &find, WISHED));
    let endpoints = [
        "ask",
        "endpoints",
        URL,
        "--profile",
        "urn:q",
        "--profile",
        "urn:r",
        "--locale",
        "de",
    ];
    assert!(rt; sends(rt.alloc(), &endpoints, PROFILED));
}

/// Whether the words are refused with `words`.
fn are_refused<R: Files + Net + HostClock + AllocGlobal>(rt: &R, words: &[&str]) -> bool {
    runs(rt, words, 2, "", "words\n")
}

/// Whether the words have this status, print this and tell this.
fn runs<R: Files + Net + HostClock + AllocGlobal>(
    rt: &R,
    words: &[&str],
    status: u8,
    output: &str,
    errors: &str,
) -> bool {
    let mut input = b"".as_slice();
    let (mut printed, mut told) = (Page::new(4096), Page::new(4096));
    let came = run(rt, words, &mut input, &mut printed, &mut told);
    came == status && printed.text() == output.as_bytes() && told.text() == errors.as_bytes()
}

fn expect_run<R: Files + Net + HostClock + AllocGlobal + Abort>(
    rt: &R,
    words: &[&str],
    status: u8,
    output: &str,
) {
    assert!(rt; runs(rt, words, status, output, ""), "{output}");
}

#[test]
fn filters_of_the_other_question_are_refused(rt: HostRuntime) {
    assert!(rt; are_refused(&rt, &["ask", "find", URL, "--profile", "urn:q"]));
    assert!(rt; are_refused(&rt, &["ask", "endpoints", URL, "--server", "urn:a"]));
}

#[test]
fn values_are_printed_in_each_form(rt: HostRuntime) {
    let lines = "used 4 of 4\ncanon 2a000000\n";
    expect_run(&rt, &["value", "Int32", "2A000000"], 0, lines);
    let whole = "used 4 of 4\ncanon 2a000000\nvalue 42\n";
    expect_run(&rt, &["value", "Int32", "2A000000", "--show"], 0, whole);
    expect_run(&rt, &["value", "Int32", "2A0000", "--show"], 1, "refused\n");
    let json =
        "{\"Type\":\"Int32\",\"Used\":4,\"Size\":5,\"Canonical\":\"2a000000\",\"Value\":42}\n";
    expect_run(&rt, &["value", "Int32", "2A000000FF", "--json"], 0, json);
    let both = &["value", "Int32", "2A000000FF", "--json", "--show"];
    expect_run(&rt, both, 0, json);
    let refused = "{\"Type\":\"Int32\",\"Size\":3,\"Refused\":true}\n";
    expect_run(&rt, &["value", "Int32", "2A0000", "--json"], 1, refused);
}
