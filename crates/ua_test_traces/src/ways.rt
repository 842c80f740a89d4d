//! Segments out of order, again and missing, and frames that are refused or cut.

use crate::making::{
    ACKNOWLEDGE, HELLO, MESSAGE, MESSAGE_FRONT, MESSAGE_REST, Sent, back, file_of, out,
};
use crate::showing::{ALL, shows};
use std::test::Fail;

/// The second half of a frame comes before the first, which comes twice.
fn mixed() -> [Sent<'static>; 6] {
    [
        out(0, 100, 24, HELLO),
        out(1, 142, 24, MESSAGE_REST),
        back(2, 200, 24, ACKNOWLEDGE),
        out(3, 132, 24, MESSAGE_FRONT),
        out(4, 132, 24, MESSAGE_FRONT),
        out(5, 158, 24, MESSAGE),
    ]
}

const MIXED_LINES: &str = "stream 0 2026-11-29T01:02:03.000000000Z 192.0.2.1:50000 > 192.0.2.2:4840
0> 2026-11-29T01:02:03.000000000Z 0 HEL 32 version=0 receive=65535 send=65535 message=0 chunks=0 url=null
0< 2026-11-29T01:02:05.000000000Z 0 ACK 28 version=0 receive=65535 send=65535 message=0 chunks=0
0> 2026-11-29T01:02:06.000000000Z 32 MSG F 26 channel=1 token=1 sequence=2 request=2 body=2
0> 2026-11-29T01:02:06.000000000Z   message request=2 type=i=72 size=2
0> 2026-11-29T01:02:08.000000000Z 58 MSG F 26 channel=1 token=1 sequence=2 request=2 body=2
0> 2026-11-29T01:02:08.000000000Z   message request=2 type=i=72 size=2
";

/// What comes behind a gap comes again with another last byte, and the first stays.
fn differing() -> [Sent<'static>; 5] {
    [
        out(0, 100, 24, HELLO),
        out(1, 142, 24, MESSAGE_REST),
        out(2, 142, 24, b"\0\0\x01\0\0\0\x02\0\0\0\x02\0\0\0\0\x49"),
        out(3, 142, 24, b"\0\0\x01\0\0\0\x02\0\0\0\x02\0\0\0\0\x50"),
        out(4, 132, 24, MESSAGE_FRONT),
    ]
}

const DIFFERING_LINES: &str =
    "stream 0 2026-11-29T01:02:03.000000000Z 192.0.2.1:50000 > 192.0.2.2:4840
0> 2026-11-29T01:02:03.000000000Z 0 HEL 32 version=0 receive=65535 send=65535 message=0 chunks=0 url=null
0> 2026-11-29T01:02:05.000000000Z 32 differs
0> 2026-11-29T01:02:07.000000000Z 32 MSG F 26 channel=1 token=1 sequence=2 request=2 body=2
0> 2026-11-29T01:02:07.000000000Z   message request=2 type=i=72 size=2
";

/// A frame is cut by a gap that nothing fills, and in the other direction nothing is.
fn gap() -> [Sent<'static>; 4] {
    [
        out(0, 100, 24, HELLO),
        out(1, 132, 24, MESSAGE_FRONT),
        back(2, 200, 24, ACKNOWLEDGE),
        out(3, 150, 24, b"abc"),
    ]
}

const GAP_LINES: &str = "stream 0 2026-11-29T01:02:03.000000000Z 192.0.2.1:50000 > 192.0.2.2:4840
0> 2026-11-29T01:02:03.000000000Z 0 HEL 32 version=0 receive=65535 send=65535 message=0 chunks=0 url=null
0< 2026-11-29T01:02:05.000000000Z 0 ACK 28 version=0 receive=65535 send=65535 message=0 chunks=0
0> 2026-11-29T01:02:06.000000000Z 32 rest 10
0> 2026-11-29T01:02:06.000000000Z 42 gap
";

/// A frame of no known type, behind which the way is not shown, and fields that have not the layout of their type.
fn refused() -> [Sent<'static>; 5] {
    [
        out(0, 100, 24, HELLO),
        out(1, 132, 24, b"XYZF\x1a\0\0\0"),
        out(2, 140, 24, HELLO),
        back(3, 200, 24, b"ACKF\x0a\0\0\0\0\0"),
        back(4, 210, 24, ACKNOWLEDGE),
    ]
}

const REFUSED_LINES: &str =
    "stream 0 2026-11-29T01:02:03.000000000Z 192.0.2.1:50000 > 192.0.2.2:4840
0> 2026-11-29T01:02:03.000000000Z 0 HEL 32 version=0 receive=65535 send=65535 message=0 chunks=0 url=null
0> 2026-11-29T01:02:04.000000000Z 32 bad 807E0000
0< 2026-11-29T01:02:06.000000000Z 0 bad 80070000
";

/// A frame is cut by the end of the file.
fn cut() -> [Sent<'static>; 2] {
    [out(0, 100, 24, HELLO), back(1, 200, 24, b"ACKF\x1c")]
}

const CUT_LINES: &str = "stream 0 2026-11-29T01:02:03.000000000Z 192.0.2.1:50000 > 192.0.2.2:4840
0> 2026-11-29T01:02:03.000000000Z 0 HEL 32 version=0 receive=65535 send=65535 message=0 chunks=0 url=null
0< 2026-11-29T01:02:04.000000000Z 0 rest 5
";

#[test]
fn segments_are_shown_in_order_and_once(rt: HostRuntime) -> Result<(), Fail> {
    let alloc = rt.alloc();
    let mixed = file_of(alloc, &mixed())?;
    assert!(rt; shows(alloc, ALL, mixed.as_slice(), MIXED_LINES, 0));
    let differing = file_of(alloc, &differing())?;
    assert!(rt; shows(alloc, ALL, differing.as_slice(), DIFFERING_LINES, 0));
    Ok(())
}

#[test]
fn what_is_no_whole_frame_is_told(rt: HostRuntime) -> Result<(), Fail> {
    let alloc = rt.alloc();
    let gap = file_of(alloc, &gap())?;
    assert!(rt; shows(alloc, ALL, gap.as_slice(), GAP_LINES, 1));
    let refused = file_of(alloc, &refused())?;
    assert!(rt; shows(alloc, ALL, refused.as_slice(), REFUSED_LINES, 1));
    let cut = file_of(alloc, &cut())?;
    assert!(rt; shows(alloc, ALL, cut.as_slice(), CUT_LINES, 1));
    Ok(())
}
