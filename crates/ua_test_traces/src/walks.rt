//! What is told of the bytes of one direction, however they are cut; and of a message that is too long.

use std::alloc::{AllocError, Global};
use std::test::Fail;
use ua_chunk::Content;
use ua_json::frames_json;
use ua_print::lines_of;
use ua_trace::whole_lines_of;
use ua_value::NoMemory;
use ua_walk::{Teller, Walker, walk_whole};

/// A line for all that is told, of which so many are taken and the next one is refused.
#[derive(Drop)]
struct Words {
    text: String,
    taken: usize,
}

impl Words {
    fn new(alloc: Global, taken: usize) -> Words {
        Words {
            text: String::new(alloc),
            taken,
        }
    }

    fn take(&mut self) -> Result<(), NoMemory> {
        match self.taken.checked_sub(1) {
            Some(left) => {
                self.taken = left;
                Ok(())
            }
            None => Err(AllocError),
        }
    }
}

impl Teller for Words {
    ghost heard = { λ _ _. Unit {0} };

    fn tell_frame(
        &mut self,
        offset: usize,
        size: usize,
        _content: &Content,
    ) -> Result<(), NoMemory> {
        self.take()?;
        writeln!(self.text, "frame {offset} {size}")
    }

    fn tell_message(&mut self, request_id: u32, parts: &[&[u8]]) -> Result<(), NoMemory> {
        self.take()?;
        write!(self.text, "message {request_id} ")?;
        for part in parts {
            for byte in *part {
                write!(self.text, "{byte:02x}")?;
            }
        }
        self.text.push_str("\n")
    }

    fn tell_long(&mut self, offset: usize) -> Result<(), NoMemory> {
        self.take()?;
        writeln!(self.text, "long {offset}")
    }

    fn tell_bad(&mut self, offset: usize, status: u32) -> Result<(), NoMemory> {
        self.take()?;
        writeln!(self.text, "bad {offset} {status:08x}")
    }

    fn tell_rest(&mut self, offset: usize, left: usize) -> Result<(), NoMemory> {
        self.take()?;
        writeln!(self.text, "rest {offset} {left}")
    }
}

/// An ERR; a message in three parts; one of which a part came, and that is given up; one in one part; less than a frame.
const FRAMES: &[u8] = b"ERRF\x10\0\0\0\0\0\x01\x80\xff\xff\xff\xff\
MSGC\x1a\0\0\0\x01\0\0\0\x01\0\0\0\x02\0\0\0\x02\0\0\0ab\
MSGC\x1a\0\0\0\x01\0\0\0\x01\0\0\0\x03\0\0\0\x02\0\0\0cd\
MSGF\x1a\0\0\0\x01\0\0\0\x01\0\0\0\x04\0\0\0\x02\0\0\0ef\
MSGC\x1a\0\0\0\x01\0\0\0\x01\0\0\0\x05\0\0\0\x03\0\0\0xy\
MSGA\x20\0\0\0\x01\0\0\0\x01\0\0\0\x06\0\0\0\x03\0\0\0\0\0\x80\x80\xff\xff\xff\xff\
MSGF\x1a\0\0\0\x01\0\0\0\x01\0\0\0\x07\0\0\0\x04\0\0\0zz\
MSG";

const TOLD: &str = "frame 0 16
frame 16 26
frame 42 26
frame 68 26
message 2 616263646566
frame 94 26
frame 120 32
frame 152 26
message 4 7a7a
rest 178 3
";

/// How many bytes the frames have.
const WHOLE: usize = 178;

/// Whether a walker is told so of these pieces, and whether it was whole.
fn tells(alloc: Global, pieces: &[&[u8]], wanted: &str, is_whole: bool) -> bool {
    let mut walker = Walker::new(alloc);
    let mut words = Words::new(alloc, 100);
    for piece in pieces {
        if walker.feed(piece, &mut words).is_err() {
            return false;
        }
    }
    let ended = walker.end(&mut words);
    ended == Ok(is_whole) && words.text.as_str() == wanted
}

/// The first cut at which it tells otherwise, if there is one.
fn first_cut_told_otherwise(alloc: Global) -> Option<usize> {
    for cut in 0..FRAMES.len() + 1 {
        if !tells(alloc, &[&FRAMES[..cut], &FRAMES[cut..]], TOLD, false) {
            return Some(cut);
        }
    }
    None
}

#[test]
fn each_cut_tells_the_same(rt: HostRuntime) {
    assert!(rt; first_cut_told_otherwise(rt.alloc()).is_none());
}

fn tells_byte_by_byte(alloc: Global) -> bool {
    let mut walker = Walker::new(alloc);
    let mut words = Words::new(alloc, 100);
    for at in 0..FRAMES.len() {
        if walker.feed(&FRAMES[at..at + 1], &mut words).is_err() {
            return false;
        }
    }
    walker.end(&mut words) == Ok(false) && words.text.as_str() == TOLD
}

#[test]
fn bytes_one_by_one_tell_the_same(rt: HostRuntime) {
    assert!(rt; tells_byte_by_byte(rt.alloc()));
}

/// Whether whole frames are told as whole, and all at once as in pieces.
fn tells_whole(alloc: Global) -> bool {
    let mut words = Words::new(alloc, 100);
    let walked = walk_whole(alloc, &FRAMES[..WHOLE], &mut words);
    walked == Ok(true)
        && TOLD.starts_with(words.text.as_str())
        && words.text.len() + 11 == TOLD.len()
}

#[test]
fn whole_frames_are_told_as_whole(rt: HostRuntime) {
    assert!(rt; tells_whole(rt.alloc()));
}

/// Whether nothing more is told behind a teller's refusal, whichever call it refuses.
fn ends_with_a_refusal(alloc: Global, taken: usize) -> bool {
    let mut walker = Walker::new(alloc);
    let mut words = Words::new(alloc, taken);
    let fed = walker.feed(FRAMES, &mut words);
    let length = words.text.len();
    words.taken = 100;
    let again = walker.feed(FRAMES, &mut words);
    fed.is_err() && walker.has_ended() && again.is_ok() && words.text.len() == length
}

#[test]
fn a_refusal_ends_it(rt: HostRuntime) {
    for taken in 0..9usize {
        assert!(rt; ends_with_a_refusal(rt.alloc(), taken));
    }
}

#[test]
fn bad_frame_ends_it(rt: HostRuntime) {
    assert!(rt;
        tells(
            rt.alloc(),
            &[b"GET / HTTP/1.1\r\n", FRAMES],
            "bad 0 807e0000\n",
            false
        )
    );
}

/// So many frames, each a part of one message with the longest body that a frame has.
fn long_message(alloc: Global, parts: u32) -> Result<Vec<u8>, AllocError> {
    let mut bytes = Vec::new(alloc);
    for _ in 0..parts {
        bytes.extend_from_slice(b"MSGC\0\0\x10\0\x01\0\0\0\x01\0\0\0\x02\0\0\0\x02\0\0\0")?;
        for _ in 0..131_069u32 {
            bytes.extend_from_slice(b"abcdefgh")?;
        }
    }
    Ok(bytes)
}

/// Whether the last of the lines of these bytes is this one, and the status that of bytes that are not whole.
fn is_last(lines: Result<(String, u8), NoMemory>, wanted: &str) -> bool {
    match lines {
        Ok((text, status)) => status == 1 && text.as_str().ends_with(wanted),
        Err(_) => false,
    }
}

/// Whether the seventeenth part of 1 MiB is told to be too much, in each form.
fn is_too_long(alloc: Global) -> Result<bool, AllocError> {
    let bytes = long_message(alloc, 18)?;
    let bytes = bytes.as_slice();
    Ok(
        is_last(lines_of(alloc, bytes), "\n16777216 message-too-long\n")
            && is_last(
                whole_lines_of(alloc, bytes),
                "\n16777216 message-too-long\n",
            )
            && is_last(
                frames_json(alloc, bytes),
                "\n{\"Offset\":16777216,\"Note\":\"message-too-long\"}\n",
            ),
    )
}

#[test]
fn message_of_raw_bytes_is_too_long(rt: HostRuntime) -> Result<(), Fail> {
    assert!(rt; is_too_long(rt.alloc())?);
    Ok(())
}
