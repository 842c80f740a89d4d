//! How a file of packets begins.

ghost use Rattle.std.specs.Prelude.{◌≡◌};
ghost use Rattle.ua_capture.specs.Beginning.{is_capture};

use crate::number::network_32;
use crate::pcap::magic_of;
use crate::pcapng::SECTION;

/// Whether bytes begin as a file of packets does, by the first four: the block that begins a section of pcapng
/// (draft-ietf-opsawg-pcapng, 4.1), or a magic number of pcap (draft-ietf-opsawg-pcap, 4). Fewer are no such file.
pub fn is_capture(bytes: &[u8]) -> bool
    ensures { result ≡ is_capture bytes.now }
{
    if bytes.len() < 4 {
        return false;
    }
    let first = network_32(bytes, 0);
    first == SECTION || magic_of(first).is_some()
}
