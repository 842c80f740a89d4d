//! A file that comes in pieces, cut anywhere, and its packets one by one.

ghost use Rattle.std.specs.Prelude.{◌≡◌, ◌≤◌, ◌<◌, [], ◌∷◌, ◌++◌, length, drop, Some, OnOk, OnErr, IfOk, IfErr, vec_len};
ghost use Rattle.ua_capture.specs.Pcap.{IsWithin};
ghost use Rattle.ua_capture.specs.Reading.{no_file, with_piece, passed, taken, front_step, step_of, after_step, found_of, IsFaultOf, IsTooMany};

use crate::file::{Fault, Interface, Record};
use crate::form::Form;
use crate::number::network_32;
use crate::pcap::{file_step, packet_step};
use crate::pcapng::{SECTION, block_step, section_step};
use crate::step::Step;
use std::alloc::{AllocError, Global};
use std::marker::Model;

/// What stood in front of the bytes of a file.
#[derive(Clone, Copy, Debug, PartialEq, Eq)]
pub enum Found {
    /// A packet, whose bytes are lent until the next call.
    Packet(Record),
    /// Something that is no packet.
    Passed,
    /// The beginning of something, or nothing: more bytes are needed.
    More,
}

/// Why no packet is given.
#[derive(Clone, Copy, Debug, PartialEq, Eq)]
pub enum ReadFault {
    /// The file is not read on.
    File(Fault),
    /// Memory was refused.
    NoMemory,
}

/// A file of packets, pcap or pcapng, of which bytes came and are not used yet. It holds at most one block beside the
/// last piece, and of a section of pcapng what it says of its interfaces.
#[derive(Drop)]
pub struct Reader {
    bytes: Vec<u8>,
    start: usize,
    from: usize,
    to: usize,
    place: u64,
    form: Form,
    interfaces: Vec<Interface>,
}

impl Model for Reader {
    ghost use Rattle.std.specs.Prelude.{◌≤◌, drop, length, slice_range};
    ghost use Rattle.ua_capture.specs.File.{Reading};

    ghost Value = { Reading };

    ghost view = { λ a. record { form = a.form; interfaces = a.interfaces.items; rest = drop a.start a.bytes.items; packet = slice_range a.bytes.items a.from a.to; place = a.place } };

    ghost invariant = { λ a. (a.start ≤ length a.bytes.items) × (a.from ≤ a.to) × (a.to ≤ length a.bytes.items) };
}

/// The most interfaces that one section describes.
const MOST_INTERFACES: usize = 65536;

/// What stands in front of these bytes of a file.
pub(crate) fn front_step(form: Form, interfaces: &[Interface], bytes: &[u8]) -> Step
    ensures step { result ≡ front_step form interfaces.now bytes.now }
    ensures within { IsWithin bytes.now result }
{
    match form {
        Form::Unknown => {
            if bytes.len() < 4 {
                return Step::More;
            }
            if network_32(bytes, 0) == SECTION {
                section_step(bytes)
            } else {
                file_step(bytes)
            }
        }
        Form::Pcap(header) => packet_step(header, bytes),
        Form::Section(order) => block_step(order, interfaces, bytes),
    }
}

impl Reader {
    /// A file of which nothing came. It takes no memory.
    pub fn new(alloc: Global) -> Reader
        ensures { result ≡ no_file }
    {
        Reader {
            bytes: Vec::new(alloc),
            start: 0,
            from: 0,
            to: 0,
            place: 0,
            form: Form::Unknown,
            interfaces: Vec::new(alloc),
        }
    }

    /// The piece that comes next, from a byte to more than one block: where it is cut changes nothing. The packet that
    /// was lent is given up.
    ///
    /// # Errors
    ///
    /// Where memory is refused: the piece is not taken, and all else is as before.
    pub fn push(&mut self, piece: &[u8]) -> Result<(), AllocError>
        ensures taken { OnOk result (self.new ≡ with_piece self.old piece.now) }
        ensures refused { OnErr result (self.new ≡ with_piece self.old []) }
    {
        remove_front(&mut self.bytes, self.start);
        self.start = 0;
        self.from = 0;
        self.to = 0;
        self.bytes.extend_from_slice(piece)?;
        Ok(())
    }

    /// What stands in front, which is passed over; of a packet the bytes are lent by [`Reader::packet`].
    ///
    /// pcap of both orders of bytes, with microseconds and nanoseconds (draft-ietf-opsawg-pcap), and pcapng with its
    /// Enhanced and Simple Packet Blocks, the Packet Block that these replaced, and the options `if_tsresol` and
    /// `if_tsoffset` of its interfaces (draft-ietf-opsawg-pcapng). Other blocks are passed over. It tells of one packet
    /// or block at a time; `More` says that none is whole, and that nothing changed.
    ///
    /// # Errors
    ///
    /// `ReadFault::File` with what is wrong with what stands in front, and each further call says the same;
    /// `ReadFault::NoMemory` where memory for an interface is refused. Nothing changed then.
    pub fn next(&mut self) -> Result<Found, ReadFault>
        ensures found { IfOk result (λ found. found_of (step_of self.old) ≡ Some found) }
        ensures after { OnOk result (self.new ≡ after_step self.old (step_of self.old)) }
        ensures refused { IfErr result (λ fault. IsFaultOf (step_of self.old) fault) }
        ensures unchanged { OnErr result (self.new ≡ self.old) }
    {
        match front_step(self.form, &self.interfaces, &self.bytes[self.start..]) {
            Step::More => Ok(Found::More),
            Step::Fault(fault) => Err(ReadFault::File(fault)),
            Step::File(header) => {
                self.form = Form::Pcap(header);
                self.pass(24);
                Ok(Found::Passed)
            }
            Step::Section(order, size) => {
                self.interfaces.clear();
                self.form = Form::Section(order);
                self.pass(size);
                Ok(Found::Passed)
            }
            Step::Interface(interface, size) => {
                self.describe(interface)?;
                self.pass(size);
                Ok(Found::Passed)
            }
            Step::Packet(record, size) => {
                self.take(record.from, record.to, size);
                Ok(Found::Packet(record))
            }
            Step::Passed(size) => {
                self.pass(size);
                Ok(Found::Passed)
            }
        }
    }

    /// Puts an interface behind the others of its section.
    fn describe(&mut self, interface: Interface) -> Result<(), ReadFault>
        ensures described { OnOk result (self.new ≡ record self.old { interfaces = self.old.interfaces ++ interface ∷ [] }) }
        ensures room { OnOk result (length self.old.interfaces < 65536) }
        ensures refused { IfErr result (λ fault. IsTooMany (length self.old.interfaces) fault) }
        ensures unchanged { OnErr result (self.new ≡ self.old) }
    {
        if self.interfaces.len() >= MOST_INTERFACES {
            return Err(ReadFault::File(Fault::Interfaces));
        }
        match self.interfaces.push(interface) {
            Ok(()) => Ok(()),
            Err(_) => Err(ReadFault::NoMemory),
        }
    }

    /// The bytes of the packet that the last `next` told of; none behind any other answer, and behind a piece that was
    /// pushed. They are as many as the file kept, of the packet's `length`.
    pub fn packet(&self) -> &[u8]
        ensures { result.now ≡ self.now.packet }
    {
        &self.bytes[self.from..self.to]
    }

    /// The place in the file, from 0, of the first byte that is not used yet.
    pub fn place(&self) -> u64
        ensures { result ≡ self.now.place }
    {
        self.place
    }

    /// How many bytes came that are not used yet: behind the last piece, those of what the end of the file cut.
    pub fn left(&self) -> usize
        ensures { result ≡ length self.now.rest }
    {
        self.bytes.len() - self.start
    }

    /// Passes over so many bytes in front.
    fn pass(&mut self, size: usize)
        requires { size ≤ length self.old.rest }
        ensures { self.new ≡ passed self.old size }
    {
        self.start += size;
        self.from = 0;
        self.to = 0;
        self.place = self.place.saturating_add(size as u64);
    }

    /// Passes over so many bytes in front, and lends some of them.
    fn take(&mut self, from: usize, to: usize, size: usize)
        requires begins { from ≤ to }
        requires within { to ≤ size }
        requires there { size ≤ length self.old.rest }
        ensures { self.new ≡ taken self.old from to size }
    {
        self.from = self.start + from;
        self.to = self.start + to;
        self.start += size;
        self.place = self.place.saturating_add(size as u64);
    }
}

/// Drops the first `n` bytes, and keeps the room.
fn remove_front(bytes: &mut Vec<u8>, n: usize)
    requires { n ≤ vec_len bytes.old }
    ensures { bytes.new.items ≡ drop n bytes.old.items }
{
    if n > 0 {
        let left = bytes.len() - n;
        bytes.copy_within(n.., 0);
        bytes.truncate(left);
    }
}
