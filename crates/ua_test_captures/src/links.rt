//! What packets carry, at each link layer.

use crate::making::{four_of, put, put_four, put_segment, six_of};
use std::alloc::{AllocError, Global};
use std::test::Fail;
use ua_capture::{Address, Packet, packet_in};

/// Whether the packet is the segment of the four bytes, from and to the addresses of its version.
fn is_the_segment(link: u16, bytes: &[u8], version: u8) -> bool {
    match packet_in(link, bytes) {
        Packet::Segment(segment) => {
            let addressed = match (segment.from().address, segment.to().address) {
                (Address::Four(from), Address::Four(to)) => {
                    version == 4 && from == [192, 0, 2, 1] && to == [192, 0, 2, 2]
                }
                (Address::Six(from), Address::Six(to)) => {
                    version == 6 && from[0] == 0x20 && from[15] == 1 && to[15] == 2
                }
                _ => false,
            };
            addressed
                && segment.from().port == 50000
                && segment.to().port == 4840
                && segment.sequence() == 7
                && segment.is_acknowledge()
                && !segment.is_syn()
                && !segment.is_fin()
                && !segment.is_reset()
                && segment.payload() == b"HELF".as_slice()
        }
        _ => false,
    }
}

fn is_fragment(link: u16, bytes: &[u8]) -> bool {
    matches!(packet_in(link, bytes), Packet::Fragment)
}

fn is_other(link: u16, bytes: &[u8]) -> bool {
    matches!(packet_in(link, bytes), Packet::Other)
}

/// Whether the segment is found behind this front of the link layer, in version 4.
fn is_found(alloc: Global, link: u16, front: &[u8]) -> Result<bool, AllocError> {
    let bytes = four_of(alloc, front)?;
    Ok(is_the_segment(link, bytes.as_slice(), 4))
}

/// The same in version 6, behind these headers.
fn is_found_six(
    alloc: Global,
    link: u16,
    front: &[u8],
    next: u8,
    headers: &[u8],
) -> Result<bool, AllocError> {
    let bytes = six_of(alloc, front, next, headers)?;
    Ok(is_the_segment(link, bytes.as_slice(), 6))
}

const ETHERNET: &[u8] = &[2, 0, 0, 0, 0, 2, 2, 0, 0, 0, 0, 1, 0x08, 0x00];

const TAGGED: &[u8] = &[
    2, 0, 0, 0, 0, 2, 2, 0, 0, 0, 0, 1, 0x81, 0x00, 0x00, 0x05, 0x08, 0x00,
];

const TAGGED_TWICE: &[u8] = &[
    2, 0, 0, 0, 0, 2, 2, 0, 0, 0, 0, 1, 0x88, 0xa8, 0x00, 0x05, 0x81, 0x00, 0x00, 0x06, 0x08, 0x00,
];

const ETHERNET_SIX: &[u8] = &[2, 0, 0, 0, 0, 2, 2, 0, 0, 0, 0, 1, 0x86, 0xdd];

const COOKED: &[u8] = &[0, 0, 0, 1, 0, 6, 2, 0, 0, 0, 0, 1, 0, 0, 0x08, 0x00];

const COOKED_2: &[u8] = &[
    0x08, 0x00, 0, 0, 0, 0, 0, 2, 0, 1, 0, 6, 2, 0, 0, 0, 0, 1, 0, 0,
];

#[test]
fn a_segment_is_found_at_each_link_layer(rt: HostRuntime) -> Result<(), Fail> {
    let alloc = rt.alloc();
    assert!(rt; is_found(alloc, 1, ETHERNET)?);
    assert!(rt; is_found(alloc, 1, TAGGED)?);
    assert!(rt; is_found(alloc, 1, TAGGED_TWICE)?);
    assert!(rt; is_found(alloc, 113, COOKED)?);
    assert!(rt; is_found(alloc, 276, COOKED_2)?);
    assert!(rt; is_found(alloc, 0, &[2, 0, 0, 0])?);
    assert!(rt; is_found(alloc, 0, &[0, 0, 0, 2])?);
    assert!(rt; is_found(alloc, 108, &[0, 0, 0, 2])?);
    assert!(rt; is_found(alloc, 101, &[])?);
    assert!(rt; is_found(alloc, 228, &[])?);
    Ok(())
}

#[test]
fn a_segment_is_found_in_version_6(rt: HostRuntime) -> Result<(), Fail> {
    let alloc = rt.alloc();
    let options = [6, 0, 1, 4, 0, 0, 0, 0];
    let whole = [6, 0, 0, 0, 0, 0, 0, 9];
    assert!(rt; is_found_six(alloc, 1, ETHERNET_SIX, 6, &[])?);
    assert!(rt; is_found_six(alloc, 101, &[], 6, &[])?);
    assert!(rt; is_found_six(alloc, 229, &[], 6, &[])?);
    assert!(rt; is_found_six(alloc, 0, &[30, 0, 0, 0], 6, &[])?);
    assert!(rt; is_found_six(alloc, 0, &[0, 0, 0, 24], 6, &[])?);
    assert!(rt; is_found_six(alloc, 101, &[], 0, &options)?);
    assert!(rt; is_found_six(alloc, 101, &[], 60, &options)?);
    assert!(rt; is_found_six(alloc, 101, &[], 44, &whole)?);
    Ok(())
}

/// A datagram of this protocol, fragment field and length, with a segment behind it and two bytes of padding.
fn datagram(
    alloc: Global,
    protocol: u8,
    fragment: u16,
    length: u16,
) -> Result<Vec<u8>, AllocError> {
    let mut out = Vec::new(alloc);
    put_four(&mut out, protocol, fragment, length)?;
    put_segment(&mut out, (50000, 4840), 7, 24, b"HELF")?;
    put(&mut out, &[0, 0])?;
    Ok(out)
}

/// How many bytes the segment of such a datagram has.
fn payload_of(alloc: Global, length: u16) -> Result<usize, AllocError> {
    let bytes = datagram(alloc, 6, 0, length)?;
    let counted = match packet_in(101, bytes.as_slice()) {
        Packet::Segment(segment) => segment.payload().len(),
        _ => 999,
    };
    Ok(counted)
}

#[test]
fn padding_is_none_of_the_segment(rt: HostRuntime) -> Result<(), Fail> {
    let alloc = rt.alloc();
    assert!(rt; payload_of(alloc, 44)? == 4);
    assert!(rt; payload_of(alloc, 43)? == 3);
    assert!(rt; payload_of(alloc, 2000)? == 6);
    assert!(rt; payload_of(alloc, 0)? == 6);
    Ok(())
}

/// Whether the datagram is told as a fragment, and whether it is told as none of a stream.
fn told(alloc: Global, protocol: u8, fragment: u16) -> Result<(bool, bool), AllocError> {
    let bytes = datagram(alloc, protocol, fragment, 44)?;
    Ok((
        is_fragment(101, bytes.as_slice()),
        is_other(101, bytes.as_slice()),
    ))
}

#[test]
fn fragments_are_told_and_what_is_no_segment_is_passed_over(rt: HostRuntime) -> Result<(), Fail> {
    let alloc = rt.alloc();
    assert!(rt; told(alloc, 6, 0x2000)? == (true, false));
    assert!(rt; told(alloc, 6, 0x0001)? == (true, false));
    assert!(rt; told(alloc, 17, 0x0000)? == (false, true));
    assert!(rt; told(alloc, 17, 0x2000)? == (false, true));
    assert!(rt; told(alloc, 6, 0x8000)? == (false, false));
    let arp = [2, 0, 0, 0, 0, 2, 2, 0, 0, 0, 0, 1, 0x08, 0x06, 0, 1];
    assert!(rt; is_other(1, &arp));
    assert!(rt; is_other(1, &[]));
    assert!(rt; is_other(9999, &arp));
    Ok(())
}

/// Whether each beginning of a packet is none of a stream, up to the end of its TCP header.
fn is_other_where_cut(bytes: &[u8], header: usize) -> bool {
    for n in 0..bytes.len() {
        let front = &bytes[..n];
        if n < header && !is_other(1, front) {
            return false;
        }
    }
    true
}

#[test]
fn a_packet_that_is_cut_in_its_headers_is_none_of_a_stream(rt: HostRuntime) -> Result<(), Fail> {
    let bytes = four_of(rt.alloc(), TAGGED)?;
    assert!(rt; is_other_where_cut(bytes.as_slice(), 58));
    Ok(())
}
