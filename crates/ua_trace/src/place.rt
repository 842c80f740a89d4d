//! Lines with what stands in front of each: the connection, the way and the moment.

use crate::answer::add_under;
use std::alloc::Global;
use std::fmt;
use std::mem::replace;
use std::net::{IpAddr, SocketAddr};
use ua_capture::{Address, Endpoint};
use ua_chunk::Content;
use ua_json::{FrameLines, Moment, Origin, Sender};
use ua_print::{add_bad, add_frame, add_long, add_parts, add_rest};
use ua_stream::{Connection, Way};
use ua_value::NoMemory;
use ua_walk::{Teller, Walker};

/// How lines are written.
#[derive(Clone, Copy)]
pub(crate) struct Form {
    /// Lines are objects of JSON.
    pub(crate) json: bool,
    /// One connection is shown alone, so that only its ways are told apart.
    pub(crate) alone: bool,
    /// Under the line of an answer stands all that the server said, where lines are no objects.
    pub(crate) all: bool,
}

/// Where a line comes from.
#[derive(Clone, Copy)]
pub(crate) struct Place {
    pub(crate) form: Form,
    /// The number of the connection.
    pub(crate) number: usize,
    pub(crate) way: Way,
    /// The moment in nanoseconds since 1970, where the file says one.
    pub(crate) moment: Option<u64>,
}

/// What a line says beside frames of a place in the bytes of a way.
#[derive(Clone, Copy)]
pub(crate) enum Note {
    /// Bytes are missing from there on.
    Gap,
    /// Segments brought different bytes there or behind it.
    Differs,
}

impl Note {
    fn word(self) -> &'static str {
        match self {
            Note::Gap => "gap",
            Note::Differs => "differs",
        }
    }
}

/// A moment, or a hyphen where none is known.
#[derive(Clone, Copy)]
struct When(Option<u64>);

impl fmt::Display for When {
    fn fmt<W: fmt::Write>(&self, f: &mut fmt::Formatter<W>) -> fmt::Result {
        match self.0 {
            Some(nanoseconds) => write!(f, "{}", Moment(nanoseconds)),
            None => f.write_str("-"),
        }
    }
}

/// An end of a connection: its address, of version 6 in brackets (RFC 5952), and its port.
#[derive(Clone, Copy)]
struct End(Endpoint);

impl fmt::Display for End {
    fn fmt<W: fmt::Write>(&self, f: &mut fmt::Formatter<W>) -> fmt::Result {
        let address = match self.0.address {
            Address::Four(bytes) => IpAddr::from(bytes),
            Address::Six(bytes) => IpAddr::from(bytes),
        };
        write!(f, "{}", SocketAddr::new(address, self.0.port))
    }
}

/// Adds the first line of a connection: its number, the moment in which it begins, and its ends, the opener first.
pub(crate) fn add_first(
    alloc: Global,
    text: &mut String,
    form: Form,
    number: usize,
    began: Option<u64>,
    connection: &Connection,
) -> Result<(), NoMemory> {
    let opener = End(connection.first());
    let other = End(connection.other());
    if form.json {
        return ua_json::add_stream(alloc, text, number, began, &opener, &other);
    }
    writeln!(text, "stream {number} {} {opener} > {other}", When(began))
}

fn sender_of(way: Way) -> Sender {
    match way {
        Way::Forth => Sender::Client,
        Way::Back => Sender::Server,
    }
}

fn arrow_of(way: Way) -> char {
    match way {
        Way::Forth => '>',
        Way::Back => '<',
    }
}

impl Place {
    fn origin(self) -> Origin {
        Origin {
            stream: self.number,
            sender: sender_of(self.way),
            moment: self.moment,
        }
    }

    /// Adds what stands in front of a line.
    fn add_front(self, text: &mut String) -> Result<(), NoMemory> {
        let arrow = arrow_of(self.way);
        if self.form.alone {
            write!(text, "{arrow} ")
        } else {
            write!(text, "{}{arrow} {} ", self.number, When(self.moment))
        }
    }

    /// Takes the next bytes of its way, and adds the lines of what they complete.
    pub(crate) fn feed(
        self,
        alloc: Global,
        walker: &mut Walker,
        bytes: &[u8],
        text: &mut String,
    ) -> Result<(), NoMemory> {
        let lines = replace(text, String::new(alloc));
        if self.form.json {
            let mut teller = self.objects(alloc, lines);
            let fed = walker.feed(bytes, &mut teller);
            *text = teller.text;
            fed
        } else {
            let mut teller = self.lines(alloc, lines);
            let fed = walker.feed(bytes, &mut teller);
            *text = teller.text;
            fed
        }
    }

    /// Adds the lines of what is left at the end of its way, and says whether all of it was whole.
    pub(crate) fn end(
        self,
        alloc: Global,
        walker: &mut Walker,
        text: &mut String,
    ) -> Result<bool, NoMemory> {
        let lines = replace(text, String::new(alloc));
        if self.form.json {
            let mut teller = self.objects(alloc, lines);
            let ended = walker.end(&mut teller);
            *text = teller.text;
            ended
        } else {
            let mut teller = self.lines(alloc, lines);
            let ended = walker.end(&mut teller);
            *text = teller.text;
            ended
        }
    }

    fn objects(self, alloc: Global, text: String) -> FrameLines {
        FrameLines {
            alloc,
            origin: Some(self.origin()),
            text,
        }
    }

    fn lines(self, alloc: Global, text: String) -> PlacedLines {
        PlacedLines {
            alloc,
            place: self,
            text,
        }
    }

    /// Adds the line of a note on a place.
    pub(crate) fn add_note(
        self,
        alloc: Global,
        text: &mut String,
        offset: usize,
        note: Note,
    ) -> Result<(), NoMemory> {
        let word = note.word();
        if self.form.json {
            return ua_json::add_note(alloc, text, Some(self.origin()), offset, word);
        }
        self.add_front(text)?;
        writeln!(text, "{offset} {word}")
    }
}

/// The lines of all that is told of a place, where they are no objects of JSON.
#[derive(Drop)]
struct PlacedLines {
    alloc: Global,
    place: Place,
    text: String,
}

impl Teller for PlacedLines {
    ghost heard = { λ _ _. Unit {0} };

    fn tell_frame(
        &mut self,
        offset: usize,
        size: usize,
        content: &Content,
    ) -> Result<(), NoMemory> {
        self.place.add_front(&mut self.text)?;
        add_frame(&mut self.text, offset, size, content)
    }

    fn tell_message(&mut self, request_id: u32, parts: &[&[u8]]) -> Result<(), NoMemory> {
        self.place.add_front(&mut self.text)?;
        add_parts(self.alloc, &mut self.text, request_id, parts)?;
        if self.place.form.all {
            add_under(self.alloc, &mut self.text, parts)?;
        }
        Ok(())
    }

    fn tell_long(&mut self, offset: usize) -> Result<(), NoMemory> {
        self.place.add_front(&mut self.text)?;
        add_long(&mut self.text, offset)
    }

    fn tell_bad(&mut self, offset: usize, status: u32) -> Result<(), NoMemory> {
        self.place.add_front(&mut self.text)?;
        add_bad(&mut self.text, offset, status)
    }

    fn tell_rest(&mut self, offset: usize, left: usize) -> Result<(), NoMemory> {
        self.place.add_front(&mut self.text)?;
        add_rest(&mut self.text, offset, left)
    }
}
