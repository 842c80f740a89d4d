//! Captures.

use crate::lines::are_json;
use crate::spelled::{CAPTURE, CAPTURE_LINES};
use std::alloc::Global;
use ua_json::frames_json;

/// Whether the bytes are shown as these lines, with this exit status.
fn is_shown(alloc: Global, bytes: &[u8], lines: &str, status: u8) -> bool {
    match frames_json(alloc, bytes) {
        Ok((text, shown)) => {
            text.as_str() == lines && shown == status && are_json(alloc, text.as_str())
        }
        Err(_) => false,
    }
}

#[test]
fn each_frame_is_shown(rt: HostRuntime) {
    assert!(rt; is_shown(rt.alloc(), CAPTURE, CAPTURE_LINES, 1));
}

#[test]
fn nothing_is_shown_of_no_bytes(rt: HostRuntime) {
    assert!(rt; is_shown(rt.alloc(), &[], "", 0));
}

/// A type that is none, and an Acknowledge that is too short behind one that is whole.
#[test]
fn refused_frames_are_told(rt: HostRuntime) {
    assert!(rt;
        is_shown(
            rt.alloc(),
            b"GET / HTTP/1.1\r\n\r\n",
            "{\"Offset\":0,\"Refused\":{\"Code\":2155741184,\"Symbol\":\"BadTcpMessageTypeInvalid\"}}\n",
            1
        )
    );
    assert!(rt;
        is_shown(
            rt.alloc(),
            b"CLOF\x18\0\0\0\x01\0\0\0\x02\0\0\0\x03\0\0\0\x04\0\0\0ACKF\x08\0\0\0",
            "{\"Offset\":0,\"MessageType\":\"CLO\",\"MessageSize\":24,\"IsFinal\":\"F\",\"SecureChannelId\":1,\"TokenId\":2,\"SequenceNumber\":3,\"RequestId\":4,\"BodySize\":0}\n{\"RequestId\":4,\"TypeId\":null,\"BodySize\":0}\n{\"Offset\":24,\"Refused\":{\"Code\":2147942400,\"Symbol\":\"BadDecodingError\"}}\n",
            1
        )
    );
}
