//! A file of packets, and the lines of what it completes.

ghost use Rattle.std.specs.Prelude.{◌≡◌, ◌≤◌, ◌++◌, OnOk, OnErr, IfOk, string_bytes};
ghost use Rattle.ua_trace.specs.Lines.{Appends};

use crate::choice::{Choice, Shown};
use crate::place::{Form, Place, add_first};
use crate::talk::Talk;
use std::alloc::{AllocError, Global};
use std::mem::replace;
use ua_capture::{Fault, ReadFault, Reader};
use ua_stream::{Event, Streams, Way, next_event};
use ua_value::NoMemory;

/// A file of packets that comes in pieces, and what the connections in it say.
///
/// It keeps what is not in order yet, the frame that is cut and the parts of a message that is not whole of each way of
/// a connection that is shown, and of the file at most one block beside the last piece. Of a way that has ended, and of a
/// connection that is not shown, nothing is kept but that it is one. While the first bytes of a connection do not tell
/// whether it is shown, its lines are held: those of at most 1048576 bytes of both ways, which are at most 16 MiB in any form.
#[derive(Drop)]
pub struct Trace {
    alloc: Global,
    choice: Choice,
    reader: Reader,
    streams: Streams,
    talks: Vec<Talk>,
    fragments: u64,
    /// Segments of connections that are not followed.
    unfollowed: u64,
    fault: Option<Fault>,
    /// Lines that are not handed out yet.
    lines: String,
}

/// The name of a fault in lines.
fn fault_name(fault: Fault) -> &'static str {
    match fault {
        Fault::Magic => "magic",
        Fault::Order => "order",
        Fault::Version => "version",
        Fault::TooLong => "too-long",
        Fault::Length => "length",
        Fault::Interface => "interface",
        Fault::Interfaces => "interfaces",
        Fault::Resolution => "resolution",
    }
}

impl Trace {
    /// A file of which nothing came.
    ///
    /// # Errors
    ///
    /// `NoMemory` where memory is refused; today it takes none.
    pub fn new(alloc: Global, choice: Choice) -> Result<Trace, NoMemory> {
        Ok(Trace {
            alloc,
            choice,
            reader: Reader::new(alloc),
            streams: Streams::new(alloc),
            talks: Vec::new(alloc),
            fragments: 0,
            unfollowed: 0,
            fault: None,
            lines: String::new(alloc),
        })
    }

    fn form(&self) -> Form {
        Form {
            json: self.choice.json,
            alone: self.choice.stream.is_some(),
            all: self.choice.all,
        }
    }

    /// Appends the lines that are not handed out yet.
    fn hand_out(&mut self, text: &mut String) -> Result<(), NoMemory>
        ensures appended { OnOk result (string_bytes text.new ≡ string_bytes text.old ++ string_bytes self.old.lines) }
        ensures refused { OnErr result (string_bytes text.new ≡ string_bytes text.old) }
    {
        text.push_str(self.lines.as_str())?;
        self.lines.clear();
        Ok(())
    }

    /// Takes the next bytes of the file, cut anywhere, and appends the lines of what they complete. Where the file has
    /// a fault, what stands behind it is not looked at.
    ///
    /// # Errors
    ///
    /// `NoMemory` where memory is refused: the text is as before then, and what the trace says from then on may lack
    /// something.
    pub fn feed(&mut self, bytes: &[u8], text: &mut String) -> Result<(), NoMemory>
        ensures appended { OnOk result (Appends (string_bytes text.old) (string_bytes text.new)) }
        ensures refused { OnErr result (string_bytes text.new ≡ string_bytes text.old) }
    {
        let mut lines = replace(&mut self.lines, String::new(self.alloc));
        let taken = self.take_in(bytes, &mut lines);
        self.lines = lines;
        taken?;
        self.hand_out(text)
    }

    /// Takes the next bytes of the file.
    fn take_in(&mut self, bytes: &[u8], text: &mut String) -> Result<(), NoMemory> {
        if self.fault.is_some() {
            return Ok(());
        }
        self.reader.push(bytes)?;
        // each step but the last takes a byte at least
        for _ in 0..self.reader.left().saturating_add(1) {
            if !self.step(text)? {
                return Ok(());
            }
        }
        Ok(())
    }

    /// Takes what stands in front of the bytes that came. `false` says that more are needed, or that none are read.
    fn step(&mut self, text: &mut String) -> Result<bool, NoMemory> {
        match next_event(&mut self.reader, &mut self.streams, self.alloc, None) {
            Ok(
                Event::Segment {
                    number,
                    way,
                    moment,
                },
            ) => {
                self.take(number, way, moment, text)?;
                return Ok(true);
            }
            Ok(Event::Fragment) => self.fragments = self.fragments.saturating_add(1),
            Ok(Event::Full) => self.unfollowed = self.unfollowed.saturating_add(1),
            Ok(Event::Other) | Ok(Event::Passed) => {}
            Ok(Event::More) => return Ok(false),
            Err(ReadFault::File(fault)) => {
                self.fault = Some(fault);
                return Ok(false);
            }
            Err(ReadFault::NoMemory) => return Err(AllocError),
        }
        Ok(true)
    }

    /// Takes in the connections up to this number, which begin with a packet of this moment.
    fn begin(
        &mut self,
        number: usize,
        moment: Option<u64>,
        text: &mut String,
    ) -> Result<(), NoMemory> {
        let form = self.form();
        for next in self.talks.len()..number.saturating_add(1) {
            let Some(connection) = self.streams.get(next) else {
                return Ok(());
            };
            let shown = self.choice.shows(next, connection);
            self.talks.push(Talk::new(self.alloc, shown, moment))?;
            if shown == Shown::Yes {
                add_first(self.alloc, text, form, next, moment, connection)?;
            }
        }
        Ok(())
    }

    /// Takes the bytes that a packet made ready in a way of a connection.
    fn take(
        &mut self,
        number: usize,
        way: Way,
        moment: Option<u64>,
        text: &mut String,
    ) -> Result<(), NoMemory> {
        self.begin(number, moment, text)?;
        let place = Place {
            form: self.form(),
            number,
            way,
            moment,
        };
        self.show(place, text)?;
        self.streams.clear(number, way);
        self.forget(number, Way::Forth);
        self.forget(number, Way::Back);
        Ok(())
    }

    /// Adds the lines of what a packet completes.
    fn show(&mut self, place: Place, text: &mut String) -> Result<(), NoMemory> {
        let number = place.number;
        if number >= self.talks.len() {
            return Ok(());
        }
        match self.streams.get(number) {
            Some(connection) => self.talks[number].take(self.alloc, place, connection, text),
            None => Ok(()),
        }
    }

    /// Lets a way go of which nothing more is shown.
    fn forget(&mut self, number: usize, way: Way) {
        if number < self.talks.len() && self.talks[number].has_ended(way) {
            self.streams.give_up(number, way);
        }
    }

    /// Appends the lines of what is left at the end of the file, and gives the exit status: 0 where every frame of every
    /// connection that is shown was whole and none was refused, and the file was whole; else 1. It is called once, and
    /// behind it nothing is fed.
    ///
    /// # Errors
    ///
    /// `NoMemory` where memory is refused: the text is as before then.
    pub fn end(&mut self, text: &mut String) -> Result<u8, NoMemory>
        ensures appended { OnOk result (Appends (string_bytes text.old) (string_bytes text.new)) }
        ensures refused { OnErr result (string_bytes text.new ≡ string_bytes text.old) }
        ensures status { IfOk result (λ status. status ≤ 1) }
    {
        let mut lines = replace(&mut self.lines, String::new(self.alloc));
        let ended = self.end_all(&mut lines);
        self.lines = lines;
        let is_whole = ended?;
        self.hand_out(text)?;
        Ok(if is_whole { 0 } else { 1 })
    }

    /// Adds the lines of all that is left, and says whether all was whole.
    fn end_all(&mut self, text: &mut String) -> Result<bool, NoMemory> {
        let mut is_broken = false;
        for number in 0..self.talks.len() {
            self.end_talk(number, text)?;
            is_broken = is_broken || self.is_broken(number);
        }
        self.add_counts(text)?;
        self.add_file(text)?;
        let is_whole = self.fault.is_none() && self.reader.left() == 0 && self.unfollowed == 0;
        Ok(is_whole && !is_broken)
    }

    fn is_broken(&self, number: usize) -> bool {
        number < self.talks.len() && self.talks[number].is_broken()
    }

    /// Adds the lines of the end of a connection.
    fn end_talk(&mut self, number: usize, text: &mut String) -> Result<(), NoMemory> {
        let form = self.form();
        if number >= self.talks.len() {
            return Ok(());
        }
        match self.streams.get(number) {
            Some(connection) => self.talks[number].end(self.alloc, form, number, connection, text),
            None => Ok(()),
        }
    }

    /// Adds the lines of what was passed over.
    fn add_counts(&self, text: &mut String) -> Result<(), NoMemory> {
        if self.fragments > 0 {
            if self.choice.json {
                ua_json::add_fragments(self.alloc, text, self.fragments)?;
            } else {
                writeln!(text, "fragments {}", self.fragments)?;
            }
        }
        if self.unfollowed > 0 {
            if self.choice.json {
                ua_json::add_unfollowed(self.alloc, text, self.unfollowed)?;
            } else {
                writeln!(text, "unfollowed {}", self.unfollowed)?;
            }
        }
        Ok(())
    }

    /// Adds the line of a file that is cut or has a fault.
    fn add_file(&self, text: &mut String) -> Result<(), NoMemory> {
        let at = self.reader.place();
        let left = self.reader.left();
        match self.fault {
            Some(fault) if self.choice.json => {
                ua_json::add_file_fault(self.alloc, text, at, fault_name(fault))
            }
            Some(fault) => writeln!(text, "file {at} {}", fault_name(fault)),
            None if left == 0 => Ok(()),
            None if self.choice.json => ua_json::add_cut_file(self.alloc, text, at, left),
            None => writeln!(text, "file {at} cut {left}"),
        }
    }
}
