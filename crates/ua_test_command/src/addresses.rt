//! Addresses as people write them: a url in the place of one, or alone.

use crate::link_words::url_of;
use crate::runs::expect;
use std::alloc::{AllocError, Global};
use ua_address::{address_of, is_url};
use ua_command::{Command, WordsFault, command_of};
use ua_test_runs::addresses::left_address;
use ua_test_runs::pages::ends_so;

/// Texts, and the addresses that they name, by the url's generic syntax (RFC 3986, 3.2) and the registered port.
const ADDRESSES: [(&str, &str); 14] = [
    ("opc.tcp://press:4840", "press:4840"),
    ("opc.tcp://press", "press:4840"),
    ("opc.tcp://press/", "press:4840"),
    ("opc.tcp://press:4855/line/7", "press:4855"),
    (
        "opc.tcp://press-7.example/UA/Server?x#y",
        "press-7.example:4840",
    ),
    ("opc.tcp://press?a:1", "press:4840"),
    ("opc.tcp://press#a:1", "press:4840"),
    ("opc.tcp://192.0.2.7", "192.0.2.7:4840"),
    ("opc.tcp://[2001:db8::7]", "[2001:db8::7]:4840"),
    ("opc.tcp://[2001:db8::7]:4841/", "[2001:db8::7]:4841"),
    ("127.0.0.1:4840", "127.0.0.1:4840"),
    ("press", "press"),
    ("http://press:80", "http://press:80"),
    ("", ""),
];

/// Whether a text names this address.
fn names(alloc: Global, text: &str, address: &str) -> bool {
    match address_of(alloc, text) {
        Ok(found) => found.as_str() == address,
        Err(_) => false,
    }
}

#[test]
fn a_text_names_an_address(rt: HostRuntime) {
    for (text, address) in ADDRESSES {
        assert!(rt; names(rt.alloc(), text, address), "{text}");
        assert!(rt; is_url(text) == text.starts_with("opc.tcp://"), "{text}");
    }
}

/// Whether the words ask at this address by this url, or by none, within so many seconds.
fn asks(alloc: Global, words: &[&str], at: &str, by: Option<&str>, within: u32) -> bool {
    match command_of(alloc, words) {
        Ok(
            Command::Ask {
                question: _,
                locales: _,
                filter: _,
                address,
                url,
                seconds,
                form: _,
            },
        ) => address.as_str() == at && url.as_deref() == by && seconds == within,
        _ => false,
    }
}

#[test]
fn a_url_is_an_address_too(rt: HostRuntime) {
    let alloc = rt.alloc();
    let url = "opc.tcp://press:4855/a";
    let other = "opc.tcp://gateway";
    assert!(rt; asks(alloc, &["ask", "find", url], "press:4855", Some(url), 30));
    assert!(rt;
        asks(
            alloc,
            &["ask", "find", other],
            "gateway:4840",
            Some(other),
            30
        )
    );
    assert!(rt;
        asks(
            alloc,
            &["ask", "find", url, other],
            "press:4855",
            Some(other),
            30
        )
    );
    assert!(rt;
        asks(
            alloc,
            &["ask", "find", "press:1", other],
            "press:1",
            Some(other),
            30
        )
    );
    assert!(rt;
        asks(
            alloc,
            &["ask", "find", other, "u"],
            "gateway:4840",
            Some("u"),
            30
        )
    );
    assert!(rt;
        asks(
            alloc,
            &["ask", "find", other, "--reverse"],
            "gateway:4840",
            None,
            30
        )
    );
    assert!(rt;
        asks(
            alloc,
            &["ask", "--timeout", "86400", "find", url],
            "press:4855",
            Some(url),
            86400
        )
    );
}

/// Words without a url that are none: an address that is no url, and one of 4096 bytes that is.
#[test]
fn an_address_that_is_no_url_is_not_alone(rt: HostRuntime) {
    for address in ["press:4840", "opc.tcp:/press", "OPC.TCP://press", ""] {
        expect(&rt, &["ask", "find", address], "", 2, "", "words\n");
    }
    assert!(rt; refuses_long_url(&rt));
}

/// A url of so many bytes.
fn long_url(alloc: Global, len: usize) -> Result<String, AllocError> {
    let mut url = String::from_str(alloc, "opc.tcp://")?;
    let rest = url_of(alloc, len.saturating_sub(10))?;
    url.push_str(rest.as_str())?;
    Ok(url)
}

/// Whether a url of 4096 bytes in the place of an address is refused, and one of 4095 taken.
fn refuses_long_url(rt: &HostRuntime) -> bool {
    let (Ok(long), Ok(short)) = (long_url(rt.alloc(), 4096), long_url(rt.alloc(), 4095)) else {
        return false;
    };
    let mut input = b"".as_slice();
    let refused = ends_so(
        rt,
        &["ask", "find", long.as_str()],
        &mut input,
        2,
        "",
        "words\n",
    );
    refused && command_of(rt.alloc(), &["ask", "find", short.as_str()]).is_ok()
}

/// Words with a url alone are a command, or there is no memory.
fn is_command_or_no_memory(alloc: Global) -> bool {
    match command_of(alloc, &["ask", "find", "opc.tcp://press/a"]) {
        Ok(Command::Ask { address, .. }) => address.as_str() == "press:4840",
        Err(WordsFault::NoMemory) => true,
        _ => false,
    }
}

#[test]
fn a_url_alone_is_asked_or_no_memory(rt: HostRuntime) {
    assert!(rt; is_command_or_no_memory(rt.alloc()));
}

/// Whether nobody is found at the address of a url.
fn finds_nobody(rt: &HostRuntime) -> bool {
    let Some(address) = left_address(rt) else {
        return false;
    };
    let Ok(url) = format!(in rt.alloc(); "opc.tcp://{address}/a") else {
        return false;
    };
    let mut input = b"".as_slice();
    ends_so(
        rt,
        &["ask", "find", url.as_str()],
        &mut input,
        3,
        "",
        "link\n",
    )
}

#[test]
fn nobody_listens_at_a_url(rt: HostRuntime) {
    assert!(rt; finds_nobody(&rt));
}
