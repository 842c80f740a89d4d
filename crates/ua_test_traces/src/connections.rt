//! Which connections are shown, and what they say.

use crate::making::{
    ACKNOWLEDGE, HELLO, MESSAGE_FRONT, MESSAGE_REST, START, Sent, back, file_of, out,
};
use crate::showing::{ALL, shows};
use std::test::Fail;
use ua_trace::Choice;

/// A conversation in both directions, whose last frame comes in two segments.
pub(crate) fn talk() -> [Sent<'static>; 6] {
    [
        Sent {
            at: (START, 1),
            from: 50000,
            to: 4840,
            sequence: 99,
            flags: 2,
            payload: b"",
        },
        back(0, 199, 18, b""),
        out(1, 100, 24, HELLO),
        Sent {
            at: (START + 2, 123456789),
            from: 4840,
            to: 50000,
            sequence: 200,
            flags: 24,
            payload: ACKNOWLEDGE,
        },
        out(3, 132, 24, MESSAGE_FRONT),
        out(4, 142, 24, MESSAGE_REST),
    ]
}

pub(crate) const TALK_LINES: &str =
    "stream 0 2026-11-29T01:02:03.000000001Z 192.0.2.1:50000 > 192.0.2.2:4840
0> 2026-11-29T01:02:04.000000000Z 0 HEL 32 version=0 receive=65535 send=65535 message=0 chunks=0 url=null
0< 2026-11-29T01:02:05.123456789Z 0 ACK 28 version=0 receive=65535 send=65535 message=0 chunks=0
0> 2026-11-29T01:02:07.000000000Z 32 MSG F 26 channel=1 token=1 sequence=2 request=2 body=2
0> 2026-11-29T01:02:07.000000000Z   message request=2 type=i=72 size=2
";

const TALK_ALONE: &str = "stream 0 2026-11-29T01:02:03.000000001Z 192.0.2.1:50000 > 192.0.2.2:4840
> 0 HEL 32 version=0 receive=65535 send=65535 message=0 chunks=0 url=null
< 0 ACK 28 version=0 receive=65535 send=65535 message=0 chunks=0
> 32 MSG F 26 channel=1 token=1 sequence=2 request=2 body=2
>   message request=2 type=i=72 size=2
";

/// One connection alone.
fn alone(stream: u32) -> Choice {
    Choice {
        stream: Some(stream),
        ..ALL
    }
}

/// The connections of a port.
fn of_port(port: u16) -> Choice {
    Choice {
        port: Some(port),
        ..ALL
    }
}

#[test]
fn a_conversation_is_shown_in_both_directions(rt: HostRuntime) -> Result<(), Fail> {
    let alloc = rt.alloc();
    let file = file_of(alloc, &talk())?;
    assert!(rt; shows(alloc, ALL, file.as_slice(), TALK_LINES, 0));
    assert!(rt; shows(alloc, alone(0), file.as_slice(), TALK_ALONE, 0));
    assert!(rt; shows(alloc, alone(1), file.as_slice(), "", 0));
    assert!(rt; shows(alloc, of_port(4841), file.as_slice(), "", 0));
    assert!(rt; shows(alloc, of_port(50000), file.as_slice(), TALK_LINES, 0));
    Ok(())
}

/// A segment between a client's port and another one of the server.
fn other(seconds: u32, ports: (u16, u16), flags: u8, payload: &[u8]) -> Sent<'_> {
    Sent {
        at: (START.saturating_add(seconds), 0),
        from: ports.0,
        to: ports.1,
        sequence: 7,
        flags,
        payload,
    }
}

/// A connection of the web beside one of OPC UA on another port, whose Acknowledge was captured before its Hello.
fn ports() -> [Sent<'static>; 5] {
    [
        other(0, (50001, 80), 24, b"GET / HTTP/1.1"),
        other(1, (50002, 4841), 16, b""),
        other(2, (4841, 50002), 24, ACKNOWLEDGE),
        other(3, (80, 50001), 24, b"HTTP/1.1 200"),
        other(4, (50002, 4841), 24, HELLO),
    ]
}

const HELLO_LINES: &str = "stream 1 2026-11-29T01:02:04.000000000Z 192.0.2.1:50002 > 192.0.2.2:4841
1< 2026-11-29T01:02:05.000000000Z 0 ACK 28 version=0 receive=65535 send=65535 message=0 chunks=0
1> 2026-11-29T01:02:07.000000000Z 0 HEL 32 version=0 receive=65535 send=65535 message=0 chunks=0 url=null
";

const WEB_LINES: &str = "stream 0 2026-11-29T01:02:03.000000000Z 192.0.2.1:50001 > 192.0.2.2:80
0> 2026-11-29T01:02:03.000000000Z 0 bad 807E0000
0< 2026-11-29T01:02:06.000000000Z 0 bad 807E0000
";

const WEB_ALONE: &str = "stream 0 2026-11-29T01:02:03.000000000Z 192.0.2.1:50001 > 192.0.2.2:80
> 0 bad 807E0000
< 0 bad 807E0000
";

#[test]
fn connections_are_chosen_by_port_number_and_first_bytes(rt: HostRuntime) -> Result<(), Fail> {
    let alloc = rt.alloc();
    let file = file_of(alloc, &ports())?;
    assert!(rt; shows(alloc, ALL, file.as_slice(), HELLO_LINES, 0));
    assert!(rt; shows(alloc, of_port(4841), file.as_slice(), HELLO_LINES, 0));
    assert!(rt; shows(alloc, of_port(80), file.as_slice(), WEB_LINES, 1));
    assert!(rt; shows(alloc, alone(0), file.as_slice(), WEB_ALONE, 1));
    Ok(())
}

#[test]
fn one_connection_of_another_port_is_not_shown(rt: HostRuntime) -> Result<(), Fail> {
    let alloc = rt.alloc();
    let file = file_of(alloc, &ports())?;
    let neither = Choice {
        stream: Some(1),
        ..of_port(80)
    };
    assert!(rt; shows(alloc, neither, file.as_slice(), "", 0));
    Ok(())
}

/// Two connections at once, one of which is opened by the server, with a ReverseHello of 16 bytes.
fn two() -> [Sent<'static>; 6] {
    [
        out(0, 99, 2, b""),
        other(0, (4842, 50003), 2, b""),
        out(1, 100, 24, HELLO_FRONT),
        other(2, (4842, 50003), 24, b""),
        Sent {
            at: (START + 3, 0),
            from: 4842,
            to: 50003,
            sequence: 8,
            flags: 24,
            payload: b"RHEF\x10\0\0\0\xff\xff\xff\xff\xff\xff\xff\xff",
        },
        out(4, 108, 24, HELLO_REST),
    ]
}

const HELLO_FRONT: &[u8] = b"HELF\x20\0\0\0";

const HELLO_REST: &[u8] = b"\0\0\0\0\xff\xff\0\0\xff\xff\0\0\0\0\0\0\0\0\0\0\xff\xff\xff\xff";

const TWO_LINES: &str = "stream 0 2026-11-29T01:02:03.000000000Z 192.0.2.1:50000 > 192.0.2.2:4840
stream 1 2026-11-29T01:02:03.000000000Z 192.0.2.2:4842 > 192.0.2.1:50003
1> 2026-11-29T01:02:06.000000000Z 0 RHE 16 server=null url=null
0> 2026-11-29T01:02:07.000000000Z 0 HEL 32 version=0 receive=65535 send=65535 message=0 chunks=0 url=null
";

#[test]
fn two_connections_are_told_apart(rt: HostRuntime) -> Result<(), Fail> {
    let alloc = rt.alloc();
    let file = file_of(alloc, &two())?;
    assert!(rt; shows(alloc, ALL, file.as_slice(), TWO_LINES, 0));
    Ok(())
}
