//! The same lines as objects of JSON.

use crate::connections::talk;
use crate::making::{HELLO, MESSAGE_FRONT, MESSAGE_REST, Sent, back, file_of, out, put_sent};
use crate::showing::{JSON, shows};
use std::alloc::{AllocError, Global};
use std::test::Fail;

const TALK_LINES: &str =
    r#"{"Stream":0,"Moment":"2026-11-29T01:02:03.000000001Z","Client":"192.0.2.1:50000","Server":"192.0.2.2:4840"}
{"Stream":0,"From":"Client","Moment":"2026-11-29T01:02:04.000000000Z","Offset":0,"MessageType":"HEL","MessageSize":32,"ProtocolVersion":0,"ReceiveBufferSize":65535,"SendBufferSize":65535,"MaxMessageSize":0,"MaxChunkCount":0,"EndpointUrl":null}
{"Stream":0,"From":"Server","Moment":"2026-11-29T01:02:05.123456789Z","Offset":0,"MessageType":"ACK","MessageSize":28,"ProtocolVersion":0,"ReceiveBufferSize":65535,"SendBufferSize":65535,"MaxMessageSize":0,"MaxChunkCount":0}
{"Stream":0,"From":"Client","Moment":"2026-11-29T01:02:07.000000000Z","Offset":32,"MessageType":"MSG","MessageSize":26,"IsFinal":"F","SecureChannelId":1,"TokenId":1,"SequenceNumber":2,"RequestId":2,"BodySize":2}
{"Stream":0,"From":"Client","Moment":"2026-11-29T01:02:07.000000000Z","RequestId":2,"TypeId":"i=72","BodySize":2}
"#;

#[test]
fn a_conversation_is_shown_as_json(rt: HostRuntime) -> Result<(), Fail> {
    let alloc = rt.alloc();
    let file = file_of(alloc, &talk())?;
    assert!(rt; shows(alloc, JSON, file.as_slice(), TALK_LINES, 0));
    Ok(())
}

/// All that is no whole frame.
pub(crate) fn trouble() -> [Sent<'static>; 4] {
    [
        out(0, 100, 24, MESSAGE_FRONT),
        out(1, 120, 24, MESSAGE_REST),
        out(2, 120, 24, HELLO),
        back(3, 200, 24, b"XYZF\x1a\0\0\0"),
    ]
}

pub(crate) const TROUBLE_LINES: &str =
    r#"{"Stream":0,"Moment":"2026-11-29T01:02:03.000000000Z","Client":"192.0.2.1:50000","Server":"192.0.2.2:4840"}
{"Stream":0,"From":"Client","Moment":"2026-11-29T01:02:05.000000000Z","Offset":10,"Note":"differs"}
{"Stream":0,"From":"Server","Moment":"2026-11-29T01:02:06.000000000Z","Offset":0,"Refused":{"Code":2155741184,"Symbol":"BadTcpMessageTypeInvalid"}}
{"Stream":0,"From":"Client","Moment":"2026-11-29T01:02:05.000000000Z","Offset":0,"Rest":10}
{"Stream":0,"From":"Client","Moment":"2026-11-29T01:02:05.000000000Z","Offset":10,"Note":"gap"}
{"Fragments":1}
{"FileOffset":402,"Cut":1}
"#;

/// The troubles of connections, a fragment, and a file that is cut: 24 bytes of header, packets of 66, 72, 88, 64 and 88
/// bytes, and one byte.
pub(crate) fn trouble_of(alloc: Global, all: &[Sent]) -> Result<Vec<u8>, AllocError> {
    let mut file = file_of(alloc, all)?;
    put_sent(alloc, &mut file, &out(4, 7, 24, HELLO), 0x2000)?;
    file.push(7)?;
    Ok(file)
}

fn is_trouble(alloc: Global) -> Result<bool, AllocError> {
    let file = trouble_of(alloc, &trouble())?;
    Ok(shows(alloc, JSON, file.as_slice(), TROUBLE_LINES, 1))
}

const MAGIC_LINES: &str = "{\"FileOffset\":0,\"Fault\":\"magic\"}\n";

#[test]
fn troubles_are_shown_as_json(rt: HostRuntime) -> Result<(), Fail> {
    let alloc = rt.alloc();
    assert!(rt; is_trouble(alloc)?);
    assert!(rt; shows(alloc, JSON, b"HELF", MAGIC_LINES, 1));
    Ok(())
}
