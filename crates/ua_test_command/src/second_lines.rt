//! The second line of a fault, for people: which file or address it was, what the system said, and what to try.

use crate::runs::{Signs, fails_with};
use std::test::Fail;
use std::{fs, io};
use ua_command::{Why, say_why};
use ua_disco::DEFAULT;
use ua_socket::Reason;
use ua_test_runs::addresses::left_address;
use ua_test_runs::pages::Page;

/// Words whose output finds no room.
fn fails(rt: &HostRuntime, words: &[&str], said: &str) -> bool {
    let mut input = b"".as_slice();
    fails_with(rt, words, &mut input, 0, said)
}

/// Words whose input can't be read.
fn fails_to_read(rt: &HostRuntime, words: &[&str], said: &str) -> bool {
    let mut input = Signs {
        left: 0,
        fails: true,
    };
    fails_with(rt, words, &mut input, 4096, said)
}

const OUTPUT: &str =
    "file\n  standard output could not be written: is its disk full, or did the program end that reads it?\n";

const STREAMS: &str =
    "file\n  standard input could not be read, or standard output could not be written\n";

const SETTINGS: &str =
    "file\n  good.toml: it can be opened; a read of it or of standard input failed, or a write to standard output\n";

const CAPTURE: &str =
    "file\n  good.toml: it can be opened; a read of it failed, or a write to standard output\n";

const ABSENT: &str = "file\n  absent.toml: No such file or directory (os error 2)\n";

const FOLDER: &str = "file\n  .: Is a directory (os error 21)\n";

#[test]
fn a_file_or_a_stream_fails(rt: HostRuntime) {
    fs::write(&rt, "good.toml", DEFAULT).expect(&rt, "a file is written");
    assert!(rt; fails(&rt, &["value", "Boolean", "01"], OUTPUT));
    assert!(rt; fails(&rt, &["--version"], OUTPUT));
    assert!(rt; fails(&rt, &["answer", "--help"], OUTPUT));
    assert!(rt; fails(&rt, &["answer", "default"], STREAMS));
    assert!(rt; fails(&rt, &["answer", "good.toml"], SETTINGS));
    assert!(rt; fails(&rt, &["show", "good.toml"], CAPTURE));
    assert!(rt; fails_to_read(&rt, &["answer", "default"], STREAMS));
    assert!(rt; fails_to_read(&rt, &["answer", "good.toml"], SETTINGS));
    assert!(rt; fails_to_read(&rt, &["show", "-"], STREAMS));
    assert!(rt; fails(&rt, &["answer", "absent.toml"], ABSENT));
    assert!(rt; fails(&rt, &["show", "absent.toml"], ABSENT));
    assert!(rt;
        fails(
            &rt,
            &["serve", "absent.toml", "a:1", "--connections", "1"],
            ABSENT
        )
    );
    assert!(rt; fails(&rt, &["check", "absent.toml", "opc.tcp://a"], ABSENT));
    assert!(rt; fails(&rt, &["show", "."], FOLDER));
    assert!(rt; fails(&rt, &["answer", "."], FOLDER));
}

/// Whether a server that is to connect to where nobody listens says so.
fn connects_to_nobody(rt: &HostRuntime) -> Result<bool, Fail> {
    let Some(address) = left_address(rt) else {
        return Ok(false);
    };
    let text = format!(in rt.alloc(); "{address}")?;
    let said = format!(in rt.alloc();
        "link\n  {address}: Connection refused (os error 111): nothing listens there; is the client started, and is this its port?\n"
    )?;
    let words = [
        "serve",
        "default",
        text.as_str(),
        "--connections",
        "2",
        "--reverse",
    ];
    Ok(fails(rt, &words, said.as_str()))
}

const NOWHERE: &str =
    "link\n  nowhere: invalid socket address: an address is a host and a port, as press:4840\n";

#[test]
fn a_server_makes_no_connection(rt: HostRuntime) -> Result<(), Fail> {
    let words = [
        "serve",
        "default",
        "nowhere",
        "--connections",
        "1",
        "--reverse",
    ];
    assert!(rt; fails(&rt, &words, NOWHERE));
    assert!(rt; fails(&rt, &words[..5], NOWHERE));
    let nobody = connects_to_nobody(&rt)?;
    assert!(rt; nobody);
    Ok(())
}

/// Whether this is what is said of that reason behind these words.
fn says(rt: &HostRuntime, words: &[&str], why: &Why, said: &str) -> bool {
    let mut told = Page::new(4096);
    say_why(rt, words, why, &mut told);
    told.text() == said.as_bytes()
}

#[test]
fn each_reason_has_its_words(rt: HostRuntime) {
    let serve = ["serve", "default", "a:1", "--connections", "1"];
    let ask = ["ask", "find", "a:1", "u"];
    let check = ["check", "default", "opc.tcp://a"];
    let error = io::Error::from(io::ErrorKind::Other);
    let output = &OUTPUT[5..];
    assert!(rt; says(&rt, &serve, &Why::Output, output));
    assert!(rt; says(&rt, &ask, &Why::Output, output));
    assert!(rt; says(&rt, &check, &Why::Output, output));
    assert!(rt; says(&rt, &serve, &Why::Unknown, ""));
    assert!(rt; says(&rt, &["serve"], &Why::Output, ""));
    assert!(rt;
        says(
            &rt,
            &serve,
            &Why::NotAccepted(error),
            "  a:1: a connection could not be accepted: other error; `ulimit -n` says how many files may be open\n"
        )
    );
    assert!(rt;
        says(
            &rt,
            &serve,
            &Why::NoneAccepted,
            "  a:1: no connection could be accepted, again and again: `ulimit -n` says how many files may be open\n"
        )
    );
    assert!(rt;
        says(
            &rt,
            &serve,
            &Why::NotWaited,
            "  a:1: the system refused to wait for connections: try one after the other, without --at-once and --patience\n"
        )
    );
    assert!(rt;
        says(
            &rt,
            &ask,
            &Why::Unanswered(7),
            "  a:1: 7 bytes came and no whole answer, in as many reads as a question has: is it an OPC UA server?\n"
        )
    );
}

/// What the system says is advised on as is fit for who is at the address.
#[test]
fn advice_is_that_of_who_is_there(rt: HostRuntime) {
    let serve = ["serve", "default", "a:1", "--connections", "1"];
    let refused = Reason::System(io::Error::from(io::ErrorKind::ConnectionRefused));
    let denied = Reason::System(io::Error::from(io::ErrorKind::PermissionDenied));
    assert!(rt;
        says(
            &rt,
            &serve,
            &Why::NotListening(denied),
            "  a:1: permission denied: ports below 1024 are for those who may\n"
        )
    );
    assert!(rt;
        says(
            &rt,
            &serve,
            &Why::NotMade(denied),
            "  a:1: permission denied\n"
        )
    );
    assert!(rt;
        says(
            &rt,
            &serve,
            &Why::NotReached(denied, 30),
            "  a:1: permission denied\n"
        )
    );
    assert!(rt;
        says(
            &rt,
            &serve,
            &Why::NotReached(refused, 30),
            "  a:1: connection refused: nothing listens there; is the server started, and is this its port?\n"
        )
    );
    assert!(rt;
        says(
            &rt,
            &serve,
            &Why::NotMade(refused),
            "  a:1: connection refused: nothing listens there; is the client started, and is this its port?\n"
        )
    );
}
