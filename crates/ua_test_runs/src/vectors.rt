//! Frames as other programs write them.

/// What a client sends that opens a channel, asks for servers and closes: 338 bytes.
pub const CALLS: &[u8] =
    b"HELF8\0\0\0\0\0\0\0\xFF\xFF\0\0\xFF\xFF\0\0\0\0\0\0\0\0\0\0\x18\0\0\0opc.tcp://localhost:4840OPNF\x84\0\0\0\0\0\0\0/\0\0\0http://opcfoundation.org/UA/SecurityPolicy#None\xFF\xFF\xFF\xFF\xFF\xFF\xFF\xFF\x01\0\0\0\x01\0\0\0\x01\0\xBE\x01\0\0\0\0\0\0\0\0\0\0\x01\0\0\0\0\0\0\0\xFF\xFF\xFF\xFF\0\0\0\0\0\0\0\0\0\0\0\0\0\0\0\x01\0\0\0\xFF\xFF\xFF\xFF\0\0\0\0MSGF]\0\0\0\x01\0\0\0\x01\0\0\0\x02\0\0\0\x02\0\0\0\x01\0\xA6\x01\0\0\0\0\0\0\0\0\0\0\x02\0\0\0\0\0\0\0\xFF\xFF\xFF\xFF\0\0\0\0\0\0\0\x18\0\0\0opc.tcp://localhost:4840\xFF\xFF\xFF\xFF\xFF\xFF\xFF\xFFCLOF9\0\0\0\x01\0\0\0\x01\0\0\0\x03\0\0\0\x03\0\0\0\x01\0\xC4\x01\0\0\0\0\0\0\0\0\0\0\x03\0\0\0\0\0\0\0\xFF\xFF\xFF\xFF\0\0\0\0\0\0\0";

/// What a server says first by the settings `default` that opened the connection: the URI of its application, and the
/// url of its endpoint.
pub const REVERSE_HELLO: &[u8] = b"RHEF\x2D\0\0\0\x05\0\0\0urn:a\x18\0\0\0opc.tcp://localhost:4840";

/// The Acknowledge of a server that takes and sends 65535 bytes, messages of 1048576 bytes and 64 chunks.
pub const ACKNOWLEDGE: &[u8] =
    b"ACKF\x1C\0\0\0\0\0\0\0\xFF\xFF\0\0\xFF\xFF\0\0\0\0\x10\0\x40\0\0\0";

/// The answer to the open request: channel 1, token 1, an hour of life.
pub const OPEN_RESPONSE: &[u8] =
    b"OPNF\x87\0\0\0\x01\0\0\0\x2F\0\0\0http://opcfoundation.org/UA/SecurityPolicy#None\xFF\xFF\xFF\xFF\xFF\xFF\xFF\xFF\x01\0\0\0\x01\0\0\0\x01\0\xC1\x01\0\0\0\0\0\0\0\0\x01\0\0\0\0\0\0\0\0\xFF\xFF\xFF\xFF\0\0\0\0\0\0\0\x01\0\0\0\x01\0\0\0\0\0\0\0\0\0\0\0\x80\xEE\x36\0\xFF\xFF\xFF\xFF";

/// A MSG with a FindServers request of handle 2, under request id 2 and with number 2.
pub const FIND_REQUEST: &[u8] =
    b"MSGF\x5D\0\0\0\x01\0\0\0\x01\0\0\0\x02\0\0\0\x02\0\0\0\x01\0\xA6\x01\0\0\0\0\0\0\0\0\0\0\x02\0\0\0\0\0\0\0\xFF\xFF\xFF\xFF\0\0\0\0\0\0\0\x18\0\0\0opc.tcp://localhost:4840\xFF\xFF\xFF\xFF\xFF\xFF\xFF\xFF";

/// The same without a url.
pub const FIND_REQUEST_WITHOUT_URL: &[u8] =
    b"MSGF\x45\0\0\0\x01\0\0\0\x01\0\0\0\x02\0\0\0\x02\0\0\0\x01\0\xA6\x01\0\0\0\0\0\0\0\0\0\0\x02\0\0\0\0\0\0\0\xFF\xFF\xFF\xFF\0\0\0\0\0\0\0\xFF\xFF\xFF\xFF\xFF\xFF\xFF\xFF\xFF\xFF\xFF\xFF";

/// Its answer by the settings `default`: one application.
pub const FIND_RESPONSE: &[u8] =
    b"MSGF\x86\0\0\0\x01\0\0\0\x01\0\0\0\x02\0\0\0\x02\0\0\0\x01\0\xA9\x01\0\0\0\0\0\0\0\0\x02\0\0\0\0\0\0\0\0\xFF\xFF\xFF\xFF\0\0\0\x01\0\0\0\x05\0\0\0urn:a\x05\0\0\0urn:p\x03\x02\0\0\0en\x05\0\0\0Press\0\0\0\0\xFF\xFF\xFF\xFF\xFF\xFF\xFF\xFF\x01\0\0\0\x18\0\0\0opc.tcp://localhost:4840";

/// The answer of a server of two applications.
pub const BOTH_FOUND: &[u8] =
    b"MSGF\xAC\0\0\0\x01\0\0\0\x01\0\0\0\x02\0\0\0\x02\0\0\0\x01\0\xA9\x01\0\0\0\0\0\0\0\0\x02\0\0\0\0\0\0\0\0\xFF\xFF\xFF\xFF\0\0\0\x02\0\0\0\x05\0\0\0urn:a\x05\0\0\0urn:p\x03\x02\0\0\0en\x05\0\0\0Press\0\0\0\0\xFF\xFF\xFF\xFF\xFF\xFF\xFF\xFF\x01\0\0\0\x18\0\0\0opc.tcp://localhost:4840\x05\0\0\0urn:b\xFF\xFF\xFF\xFF\x02\x04\0\0\0Oven\0\0\0\0\xFF\xFF\xFF\xFF\xFF\xFF\xFF\xFF\0\0\0\0";

/// The answer to GetEndpoints: one endpoint of that application.
pub const ENDPOINTS_RESPONSE: &[u8] =
    b"MSGF\x3C\x01\0\0\x01\0\0\0\x01\0\0\0\x02\0\0\0\x02\0\0\0\x01\0\xAF\x01\0\0\0\0\0\0\0\0\x02\0\0\0\0\0\0\0\0\xFF\xFF\xFF\xFF\0\0\0\x01\0\0\0\x18\0\0\0opc.tcp://localhost:4840\x05\0\0\0urn:a\x05\0\0\0urn:p\x03\x02\0\0\0en\x05\0\0\0Press\0\0\0\0\xFF\xFF\xFF\xFF\xFF\xFF\xFF\xFF\x01\0\0\0\x18\0\0\0opc.tcp://localhost:4840\xFF\xFF\xFF\xFF\x01\0\0\0\x2F\0\0\0http://opcfoundation.org/UA/SecurityPolicy#None\x01\0\0\0\x01\0\0\0\x30\0\0\0\0\xFF\xFF\xFF\xFF\xFF\xFF\xFF\xFF\xFF\xFF\xFF\xFF\x41\0\0\0http://opcfoundation.org/UA-Profile/Transport/uatcp-uasc-uabinary\0";

/// A ServiceFault in its place: the service is not offered.
pub const FAULT_RESPONSE: &[u8] =
    b"MSGF\x34\0\0\0\x01\0\0\0\x01\0\0\0\x02\0\0\0\x02\0\0\0\x01\0\x8D\x01\0\0\0\0\0\0\0\0\x02\0\0\0\0\0\x0B\x80\0\xFF\xFF\xFF\xFF\0\0\0";

/// An abort in its place: the answer is larger than the client takes.
pub const ABORT_TOO_LARGE: &[u8] =
    b"MSGA\x20\0\0\0\x01\0\0\0\x01\0\0\0\x02\0\0\0\x02\0\0\0\0\0\xB9\x80\xFF\xFF\xFF\xFF";

/// A CLO with number 3 and request id 3.
pub const CLOSE_REQUEST: &[u8] =
    b"CLOF\x39\0\0\0\x01\0\0\0\x01\0\0\0\x03\0\0\0\x03\0\0\0\x01\0\xC4\x01\0\0\0\0\0\0\0\0\0\0\x03\0\0\0\0\0\0\0\xFF\xFF\xFF\xFF\0\0\0\0\0\0\0";
