//! Files that are cut or have faults, fragments, version 6, and packets without a moment.

use crate::connections::talk;
use crate::making::{
    HELLO, START, file_of, length_of, out, put, put_32, put_four, put_header, put_packet, put_sent,
    put_six,
};
use crate::showing::{ALL, shows};
use std::alloc::{AllocError, Global};
use std::test::Fail;
use ua_trace::is_capture;

#[test]
fn files_of_packets_are_known_by_their_first_bytes(rt: HostRuntime) {
    let known: &[[u8; 4]] = &[
        [0xa1, 0xb2, 0xc3, 0xd4],
        [0xd4, 0xc3, 0xb2, 0xa1],
        [0xa1, 0xb2, 0x3c, 0x4d],
        [0x4d, 0x3c, 0xb2, 0xa1],
        [0x0a, 0x0d, 0x0d, 0x0a],
    ];
    for first in known {
        assert!(rt; is_capture(first));
        assert!(rt; !is_capture(&first[..3]));
    }
    assert!(rt; is_capture(&[0x0a, 0x0d, 0x0d, 0x0a, 0]));
    assert!(rt; !is_capture(HELLO));
    assert!(rt; !is_capture(b""));
    assert!(rt; !is_capture(&[0xa1, 0xb2, 0xc3, 0xd5]));
}

const HELLO_LINES: &str = "stream 0 2026-11-29T01:02:03.000000000Z 192.0.2.1:50000 > 192.0.2.2:4840
0> 2026-11-29T01:02:03.000000000Z 0 HEL 32 version=0 receive=65535 send=65535 message=0 chunks=0 url=null
file 112 cut 20
";

/// A file whose second packet is cut: 24 bytes of header, a packet of 88, and 20 of the next.
fn is_cut(alloc: Global) -> Result<bool, AllocError> {
    let file = file_of(alloc, &[out(0, 100, 24, HELLO), out(1, 132, 24, HELLO)])?;
    let front = &file[..132.min(file.len())];
    Ok(shows(alloc, ALL, front, HELLO_LINES, 1))
}

const LONG_LINES: &str = "stream 0 2026-11-29T01:02:03.000000000Z 192.0.2.1:50000 > 192.0.2.2:4840
0> 2026-11-29T01:02:03.000000000Z 0 HEL 32 version=0 receive=65535 send=65535 message=0 chunks=0 url=null
file 112 too-long
";

/// A file whose second packet is said to have more than 16 MiB, with what looks like one behind it.
fn is_refused(alloc: Global) -> Result<bool, AllocError> {
    let mut file = file_of(alloc, &[out(0, 100, 24, HELLO)])?;
    put_32(&mut file, START)?;
    put_32(&mut file, 0)?;
    put_32(&mut file, 0x0100_0001)?;
    put_32(&mut file, 0x0100_0001)?;
    put_sent(alloc, &mut file, &out(1, 132, 24, HELLO), 0x4000)?;
    Ok(shows(alloc, ALL, file.as_slice(), LONG_LINES, 1))
}

#[test]
fn a_file_that_is_cut_or_refused_shows_what_is_whole(rt: HostRuntime) -> Result<(), Fail> {
    let alloc = rt.alloc();
    assert!(rt; is_cut(alloc)?);
    assert!(rt; is_refused(alloc)?);
    assert!(rt; shows(alloc, ALL, b"HELF\x20\0\0\0", "file 0 magic\n", 1));
    assert!(rt; shows(alloc, ALL, &[0xd4, 0xc3], "file 0 cut 2\n", 1));
    assert!(rt;
        shows(
            alloc,
            ALL,
            b"\n\r\r\n\x1c\0\0\0\x4d\x3c\x2b\x1b",
            "file 0 order\n",
            1
        )
    );
    assert!(rt; shows(alloc, ALL, b"", "", 0));
    Ok(())
}

const FRAGMENT_LINES: &str =
    "stream 0 2026-11-29T01:02:04.000000000Z 192.0.2.1:50000 > 192.0.2.2:4840
0> 2026-11-29T01:02:04.000000000Z 0 HEL 32 version=0 receive=65535 send=65535 message=0 chunks=0 url=null
fragments 2
";

/// Two fragments, of which the first has the header of a segment, in front of a whole segment.
fn is_fragmented(alloc: Global) -> Result<bool, AllocError> {
    let mut file = Vec::new(alloc);
    put_header(&mut file)?;
    put_sent(alloc, &mut file, &out(0, 7, 24, HELLO), 0x2000)?;
    put_sent(alloc, &mut file, &out(0, 7, 24, HELLO), 0x0008)?;
    put_sent(alloc, &mut file, &out(1, 100, 24, HELLO), 0)?;
    Ok(shows(alloc, ALL, file.as_slice(), FRAGMENT_LINES, 0))
}

const SIX_LINES: &str =
    "stream 0 2026-11-29T01:02:03.000000000Z [2001:db8::1]:50000 > [2001:db8::2]:4840
0> 2026-11-29T01:02:03.000000000Z 0 HEL 32 version=0 receive=65535 send=65535 message=0 chunks=0 url=null
";

/// A segment in a datagram of version 6.
fn is_six(alloc: Global) -> Result<bool, AllocError> {
    let sent = out(0, 100, 24, HELLO);
    let mut bytes = Vec::new(alloc);
    put_six(&mut bytes, &sent)?;
    let mut file = Vec::new(alloc);
    put_header(&mut file)?;
    put_packet(&mut file, sent.at, bytes.as_slice())?;
    Ok(shows(alloc, ALL, file.as_slice(), SIX_LINES, 0))
}

const NO_MOMENT_LINES: &str = "stream 0 - 192.0.2.1:50000 > 192.0.2.2:4840
0> - 0 HEL 32 version=0 receive=65535 send=65535 message=0 chunks=0 url=null
";

/// A file of pcapng with a packet of which no moment is said (draft-ietf-opsawg-pcapng, 4.4): 72 bytes, by a block of 88.
fn is_without_moment(alloc: Global) -> Result<bool, AllocError> {
    let mut file = Vec::new(alloc);
    put(&mut file, b"\n\r\r\n\x1c\0\0\0\x4d\x3c\x2b\x1a\x01\0\0\0")?;
    put(&mut file, b"\xff\xff\xff\xff\xff\xff\xff\xff\x1c\0\0\0")?;
    put(
        &mut file,
        b"\x01\0\0\0\x14\0\0\0\x65\0\0\0\0\0\0\0\x14\0\0\0",
    )?;
    let mut bytes = Vec::new(alloc);
    put_four(&mut bytes, &out(0, 100, 24, HELLO), 0x4000)?;
    put(&mut file, b"\x03\0\0\0\x58\0\0\0")?;
    put_32(&mut file, length_of(bytes.as_slice()))?;
    put(&mut file, bytes.as_slice())?;
    put(&mut file, b"\x58\0\0\0")?;
    Ok(shows(alloc, ALL, file.as_slice(), NO_MOMENT_LINES, 0))
}

#[test]
fn fragments_version_6_and_no_moment_are_told(rt: HostRuntime) -> Result<(), Fail> {
    let alloc = rt.alloc();
    assert!(rt; is_fragmented(alloc)?);
    assert!(rt; is_six(alloc)?);
    assert!(rt; is_without_moment(alloc)?);
    Ok(())
}

#[test]
fn nothing_is_shown_of_a_header_alone(rt: HostRuntime) -> Result<(), Fail> {
    let alloc = rt.alloc();
    let file = file_of(alloc, &talk()[..0])?;
    assert!(rt; shows(alloc, ALL, file.as_slice(), "", 0));
    Ok(())
}
