//! One object of JSON on a line of its own.

ghost use Rattle.std.specs.Prelude.{◌≡◌, [], IsTrue, IfOk, OnOk, OnErr, string_bytes};
ghost use Rattle.std.specs.Float.{float_is_finite};
ghost use Rattle.ua_json.specs.Lines.{AppendsLine};
ghost use Rattle.ua_json.specs.Nesting.{place, keyed, object, array, closed_object, closed_array, AddsValue, AddsMembers, IsOpen};

use crate::put::Put;
use base64::engine::general_purpose::STANDARD;
use json::Writer;
use ryu::Float;
use std::alloc::Global;
use std::fmt;
use ua_print::{add_node, status_name};
use ua_value::plumbing::let_go;
use ua_value::{NoMemory, NodeId, StatusCode};

/// The room of a line at first: most have no more bytes.
const ROOM: usize = 256;

/// A line that is being written. Its calls are out of line, so that what is nested deep is written on little stack.
#[derive(Drop)]
pub(crate) struct Line {
    json: Writer,
    /// Room for a text before it is escaped.
    room: String,
    ghost alone: { json.before ≡ [] },
}

impl Line {
    /// A line whose object begins.
    pub(crate) fn new(alloc: Global) -> Result<Line, NoMemory>
        ensures { IfOk result (λ line. IsOpen line.json.tokens) }
    {
        let bytes = Vec::with_capacity(alloc, ROOM)?;
        let mut json = Writer::new(bytes);
        json.begin_object()?;
        Ok(Line {
            json,
            room: String::new(alloc),
        })
    }

    /// Ends the object and appends its line to the text, where all members were written. Where they were not, and where a
    /// growth is refused, the text stays as it is.
    pub(crate) fn add_to(self, text: &mut String, put: Result<(), NoMemory>) -> Result<(), NoMemory>
        requires { OnOk put (IsOpen self.json.tokens) }
        ensures line { OnOk result (AppendsLine (string_bytes text.old) (string_bytes text.new)) }
        ensures refused { OnErr result (string_bytes text.new ≡ string_bytes text.old) }
    {
        let Line { mut json, room } = self;
        let_go(room);
        put?;
        json.end_object()?;
        let mut bytes = json.into_inner();
        bytes.push(b'\n')?;
        text.push_str(unsafe { std::str::from_utf8_unchecked(&bytes) })
    }

    #[inline(never)]
    pub(crate) fn null(&mut self) -> Result<(), NoMemory>
        ensures { OnOk result (AddsValue self.old.json.tokens self.new.json.tokens) }
    {
        self.json.null()
    }

    #[inline(never)]
    pub(crate) fn boolean(&mut self, value: bool) -> Result<(), NoMemory>
        ensures { OnOk result (AddsValue self.old.json.tokens self.new.json.tokens) }
    {
        self.json.boolean(value)
    }

    #[inline(never)]
    pub(crate) fn unsigned(&mut self, n: u64) -> Result<(), NoMemory>
        ensures { OnOk result (AddsValue self.old.json.tokens self.new.json.tokens) }
    {
        self.json.u64(n)
    }

    #[inline(never)]
    pub(crate) fn signed(&mut self, n: i64) -> Result<(), NoMemory>
        ensures { OnOk result (AddsValue self.old.json.tokens self.new.json.tokens) }
    {
        self.json.i64(n)
    }

    /// The digits of the number as a text.
    #[inline(never)]
    pub(crate) fn unsigned_text(&mut self, n: u64) -> Result<(), NoMemory>
        ensures { OnOk result (AddsValue self.old.json.tokens self.new.json.tokens) }
    {
        self.json.quoted_u64(n)
    }

    /// The digits of the number as a text.
    #[inline(never)]
    pub(crate) fn signed_text(&mut self, n: i64) -> Result<(), NoMemory>
        ensures { OnOk result (AddsValue self.old.json.tokens self.new.json.tokens) }
    {
        self.json.quoted_i64(n)
    }

    #[inline(never)]
    pub(crate) fn float<F: Float>(&mut self, x: F) -> Result<(), NoMemory>
        requires { IsTrue (float_is_finite (F.value x)) }

        ensures { OnOk result (AddsValue self.old.json.tokens self.new.json.tokens) }
    {
        self.json.float(x)
    }

    #[inline(never)]
    pub(crate) fn text(&mut self, text: &str) -> Result<(), NoMemory>
        ensures { OnOk result (AddsValue self.old.json.tokens self.new.json.tokens) }
    {
        self.json.string(text)
    }

    /// What the value shows itself as, as a text.
    #[inline(never)]
    pub(crate) fn shown<T: fmt::Display>(&mut self, value: &T) -> Result<(), NoMemory>
        ensures { OnOk result (AddsValue self.old.json.tokens self.new.json.tokens) }
    {
        self.room.clear();
        write!(self.room, "{value}")?;
        self.json.string(self.room.as_str())
    }

    #[inline(never)]
    pub(crate) fn node(&mut self, node: &NodeId) -> Result<(), NoMemory>
        ensures { OnOk result (AddsValue self.old.json.tokens self.new.json.tokens) }
    {
        self.room.clear();
        add_node(&mut self.room, node)?;
        self.json.string(self.room.as_str())
    }

    /// Bytes in base64 (OPC 10000-6, 5.4.2.8).
    #[inline(never)]
    pub(crate) fn base64(&mut self, bytes: &[u8]) -> Result<(), NoMemory>
        ensures { OnOk result (AddsValue self.old.json.tokens self.new.json.tokens) }
    {
        self.room.clear();
        STANDARD.encode_string(bytes, &mut self.room)?;
        self.json.string(self.room.as_str())
    }

    /// Bytes as hex digits in lower case.
    #[inline(never)]
    pub(crate) fn hex(&mut self, bytes: &[u8]) -> Result<(), NoMemory>
        ensures { OnOk result (AddsValue self.old.json.tokens self.new.json.tokens) }
    {
        let digits = hex::encode(*self.room.allocator(), bytes)?;
        self.json.string(digits.as_str())
    }

    /// The field with the name of the status, where it is known.
    #[inline(never)]
    pub(crate) fn symbol(&mut self, status: StatusCode) -> Result<(), NoMemory>
        ensures { OnOk result (AddsMembers self.old.json.tokens self.new.json.tokens) }
    {
        match status_name(status.0) {
            None => Ok(()),
            Some(name) => {
                self.json.key("Symbol")?;
                self.json.string(name)
            }
        }
    }

    #[inline(never)]
    pub(crate) fn begin_object(&mut self) -> Result<(), NoMemory>
        ensures { OnOk result (place self.new.json.tokens ≡ object (place self.old.json.tokens)) }
    {
        self.json.begin_object()
    }

    #[inline(never)]
    pub(crate) fn end_object(&mut self) -> Result<(), NoMemory>
        ensures { OnOk result (place self.new.json.tokens ≡ closed_object (place self.old.json.tokens)) }
    {
        self.json.end_object()
    }

    #[inline(never)]
    pub(crate) fn begin_array(&mut self) -> Result<(), NoMemory>
        ensures { OnOk result (place self.new.json.tokens ≡ array (place self.old.json.tokens)) }
    {
        self.json.begin_array()
    }

    #[inline(never)]
    pub(crate) fn end_array(&mut self) -> Result<(), NoMemory>
        ensures { OnOk result (place self.new.json.tokens ≡ closed_array (place self.old.json.tokens)) }
    {
        self.json.end_array()
    }

    /// The name of a field, whose value comes next.
    #[inline(never)]
    pub(crate) fn key(&mut self, name: &str) -> Result<(), NoMemory>
        ensures { OnOk result (place self.new.json.tokens ≡ keyed (place self.old.json.tokens)) }
    {
        self.json.key(name)
    }

    /// A field with its value.
    #[inline(never)]
    pub(crate) fn field<T: Put>(&mut self, name: &str, value: &T) -> Result<(), NoMemory>
        ensures { OnOk result (AddsMembers self.old.json.tokens self.new.json.tokens) }
    {
        self.json.key(name)?;
        value.put(self)
    }

    /// A field where there is a value.
    #[inline(never)]
    pub(crate) fn part<T: Put>(&mut self, name: &str, value: &Option<T>) -> Result<(), NoMemory>
        ensures { OnOk result (AddsMembers self.old.json.tokens self.new.json.tokens) }
    {
        match value {
            None => Ok(()),
            Some(value) => self.field(name, value),
        }
    }

    /// A field with a number of bytes or a place among them.
    #[inline(never)]
    pub(crate) fn count(&mut self, name: &str, n: usize) -> Result<(), NoMemory>
        ensures { OnOk result (AddsMembers self.old.json.tokens self.new.json.tokens) }
    {
        self.json.key(name)?;
        self.json.u64(n as u64)
    }
}
