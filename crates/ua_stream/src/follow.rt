//! From the bytes of a file to those of its streams.

ghost use Rattle.std.specs.Prelude.{◌≡◌, Some, OnOk, IfOk};
ghost use Rattle.ua_capture.specs.declared.reader.Found.{Found};
ghost use Rattle.ua_capture.specs.Reading.{step_of, after_step, found_of};
ghost use Rattle.ua_stream.specs.Follow.{is_of_port, IsPacketTold, IsTold};

use crate::connection::Way;
use crate::streams::Streams;
use std::alloc::Global;
use ua_capture::{Found, Packet, ReadFault, Reader, Record, Segment, packet_in};

/// What stood in front of the bytes of a file.
#[derive(Clone, Copy, Debug, PartialEq, Eq)]
pub enum Event {
    /// A segment, whose bytes were added to a way of a connection.
    Segment {
        /// The number of the connection.
        number: usize,
        /// The way that the segment goes.
        way: Way,
        /// The moment of its packet in nanoseconds since 1970, where the file says one.
        moment: Option<u64>,
    },
    /// A fragment of one, which is passed over.
    Fragment,
    /// A packet that is none of a stream, or one of another port.
    Other,
    /// A segment that would begin one connection more than are followed.
    Full,
    /// Something that is no packet.
    Passed,
    /// The beginning of something, or nothing: more bytes are needed.
    More,
}

/// Whether a segment goes from or to the port, where one is named.
fn is_of_port(segment: &Segment, port: Option<u16>) -> bool
    ensures { result ≡ is_of_port port segment.now }
{
    match port {
        Some(port) => segment.from().port == port || segment.to().port == port,
        None => true,
    }
}

/// Adds what a packet carries to the stream that it is of.
fn add_packet(
    packet: Record,
    bytes: &[u8],
    streams: &mut Streams,
    alloc: Global,
    port: Option<u16>,
) -> Result<Event, ReadFault>
    ensures { IfOk result (λ told. IsPacketTold port packet bytes.now told) }
{
    match packet_in(packet.link, bytes) {
        Packet::Segment(segment) => {
            if !is_of_port(&segment, port) {
                return Ok(Event::Other);
            }
            match streams.take(alloc, &segment) {
                Ok(Some((number, way))) => Ok(Event::Segment {
                    number,
                    way,
                    moment: packet.moment,
                }),
                Ok(None) => Ok(Event::Full),
                Err(_) => Err(ReadFault::NoMemory),
            }
        }
        Packet::Fragment => Ok(Event::Fragment),
        Packet::Other => Ok(Event::Other),
    }
}

/// Takes what stands in front of the bytes of a file, and adds the bytes of a segment to the stream that it is of. Where
/// a port is named, only segments from it or to it are.
///
/// # Errors
///
/// Those of [`Reader::next`], where nothing changed but that call's packet; and `ReadFault::NoMemory` where memory for a
/// stream is refused, as [`Streams::take`] says: the packet is passed over then.
pub fn next_event(
    reader: &mut Reader,
    streams: &mut Streams,
    alloc: Global,
    port: Option<u16>,
) -> Result<Event, ReadFault>
    ensures told { IfOk result (λ event. (found : Found) → found_of (step_of reader.old) ≡ Some found → IsTold port found (after_step reader.old (step_of reader.old)).packet event) }
    ensures after { OnOk result (reader.new ≡ after_step reader.old (step_of reader.old)) }
{
    match reader.next() {
        Ok(Found::Packet(record)) => add_packet(record, reader.packet(), streams, alloc, port),
        Ok(Found::Passed) => Ok(Event::Passed),
        Ok(Found::More) => Ok(Event::More),
        Err(fault) => Err(fault),
    }
}
