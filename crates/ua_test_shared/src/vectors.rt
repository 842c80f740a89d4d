//! Frames as other programs write them, and parts of them.

/// A Hello with buffers of 65535 bytes, no limits on messages, and a url.
pub const HELLO: &[u8] =
    b"HELF\x38\0\0\0\0\0\0\0\xFF\xFF\0\0\xFF\xFF\0\0\0\0\0\0\0\0\0\0\x18\0\0\0opc.tcp://localhost:4840";

/// The Acknowledge of a server that takes and sends 65535 bytes, messages of 1048576 bytes and 64 chunks.
pub const ACKNOWLEDGE: &[u8] =
    b"ACKF\x1C\0\0\0\0\0\0\0\xFF\xFF\0\0\xFF\xFF\0\0\0\0\x10\0\x40\0\0\0";

/// The ReverseHello of a server by the settings `default` that opened the connection itself.
pub const REVERSE_HELLO: &[u8] = b"RHEF\x2D\0\0\0\x05\0\0\0urn:a\x18\0\0\0opc.tcp://localhost:4840";

/// An OPN with number 1 and request id 1 that asks for a channel and a token of any lifetime.
pub const OPEN_REQUEST: &[u8] =
    b"OPNF\x84\0\0\0\0\0\0\0\x2F\0\0\0http://opcfoundation.org/UA/SecurityPolicy#None\xFF\xFF\xFF\xFF\xFF\xFF\xFF\xFF\x01\0\0\0\x01\0\0\0\x01\0\xBE\x01\0\0\0\0\0\0\0\0\0\0\x01\0\0\0\0\0\0\0\xFF\xFF\xFF\xFF\0\0\0\0\0\0\0\0\0\0\0\0\0\0\0\x01\0\0\0\xFF\xFF\xFF\xFF\0\0\0\0";

/// Its answer: channel 1, token 1, created at 0, an hour of life.
pub const OPEN_RESPONSE: &[u8] =
    b"OPNF\x87\0\0\0\x01\0\0\0\x2F\0\0\0http://opcfoundation.org/UA/SecurityPolicy#None\xFF\xFF\xFF\xFF\xFF\xFF\xFF\xFF\x01\0\0\0\x01\0\0\0\x01\0\xC1\x01\0\0\0\0\0\0\0\0\x01\0\0\0\0\0\0\0\0\xFF\xFF\xFF\xFF\0\0\0\0\0\0\0\x01\0\0\0\x01\0\0\0\0\0\0\0\0\0\0\0\x80\xEE\x36\0\xFF\xFF\xFF\xFF";

/// The Hello and the open request.
pub const OPENING: &[u8] =
    b"HELF8\0\0\0\0\0\0\0\xFF\xFF\0\0\xFF\xFF\0\0\0\0\0\0\0\0\0\0\x18\0\0\0opc.tcp://localhost:4840OPNF\x84\0\0\0\0\0\0\0/\0\0\0http://opcfoundation.org/UA/SecurityPolicy#None\xFF\xFF\xFF\xFF\xFF\xFF\xFF\xFF\x01\0\0\0\x01\0\0\0\x01\0\xBE\x01\0\0\0\0\0\0\0\0\0\0\x01\0\0\0\0\0\0\0\xFF\xFF\xFF\xFF\0\0\0\0\0\0\0\0\0\0\0\0\0\0\0\x01\0\0\0\xFF\xFF\xFF\xFF\0\0\0\0";

/// What they are answered.
pub const OPENED: &[u8] =
    b"ACKF\x1C\0\0\0\0\0\0\0\xFF\xFF\0\0\xFF\xFF\0\0\0\0\x10\0@\0\0\0OPNF\x87\0\0\0\x01\0\0\0/\0\0\0http://opcfoundation.org/UA/SecurityPolicy#None\xFF\xFF\xFF\xFF\xFF\xFF\xFF\xFF\x01\0\0\0\x01\0\0\0\x01\0\xC1\x01\0\0\0\0\0\0\0\0\x01\0\0\0\0\0\0\0\0\xFF\xFF\xFF\xFF\0\0\0\0\0\0\0\x01\0\0\0\x01\0\0\0\0\0\0\0\0\0\0\0\x80\xEE6\0\xFF\xFF\xFF\xFF";

/// A MSG with a FindServers request of handle 2, under request id 2 and with number 2.
pub const FIND_REQUEST: &[u8] =
    b"MSGF\x5D\0\0\0\x01\0\0\0\x01\0\0\0\x02\0\0\0\x02\0\0\0\x01\0\xA6\x01\0\0\0\0\0\0\0\0\0\0\x02\0\0\0\0\0\0\0\xFF\xFF\xFF\xFF\0\0\0\0\0\0\0\x18\0\0\0opc.tcp://localhost:4840\xFF\xFF\xFF\xFF\xFF\xFF\xFF\xFF";

/// Its answer by the settings `default`: one application.
pub const FIND_RESPONSE: &[u8] =
    b"MSGF\x86\0\0\0\x01\0\0\0\x01\0\0\0\x02\0\0\0\x02\0\0\0\x01\0\xA9\x01\0\0\0\0\0\0\0\0\x02\0\0\0\0\0\0\0\0\xFF\xFF\xFF\xFF\0\0\0\x01\0\0\0\x05\0\0\0urn:a\x05\0\0\0urn:p\x03\x02\0\0\0en\x05\0\0\0Press\0\0\0\0\xFF\xFF\xFF\xFF\xFF\xFF\xFF\xFF\x01\0\0\0\x18\0\0\0opc.tcp://localhost:4840";

/// The same MSG with a GetEndpoints request.
pub const ENDPOINTS_REQUEST: &[u8] =
    b"MSGF\x5D\0\0\0\x01\0\0\0\x01\0\0\0\x02\0\0\0\x02\0\0\0\x01\0\xAC\x01\0\0\0\0\0\0\0\0\0\0\x02\0\0\0\0\0\0\0\xFF\xFF\xFF\xFF\0\0\0\0\0\0\0\x18\0\0\0opc.tcp://localhost:4840\xFF\xFF\xFF\xFF\xFF\xFF\xFF\xFF";

/// Its answer by the settings `default`: one endpoint of that application.
pub const ENDPOINTS_RESPONSE: &[u8] =
    b"MSGF\x3C\x01\0\0\x01\0\0\0\x01\0\0\0\x02\0\0\0\x02\0\0\0\x01\0\xAF\x01\0\0\0\0\0\0\0\0\x02\0\0\0\0\0\0\0\0\xFF\xFF\xFF\xFF\0\0\0\x01\0\0\0\x18\0\0\0opc.tcp://localhost:4840\x05\0\0\0urn:a\x05\0\0\0urn:p\x03\x02\0\0\0en\x05\0\0\0Press\0\0\0\0\xFF\xFF\xFF\xFF\xFF\xFF\xFF\xFF\x01\0\0\0\x18\0\0\0opc.tcp://localhost:4840\xFF\xFF\xFF\xFF\x01\0\0\0\x2F\0\0\0http://opcfoundation.org/UA/SecurityPolicy#None\x01\0\0\0\x01\0\0\0\x30\0\0\0\0\xFF\xFF\xFF\xFF\xFF\xFF\xFF\xFF\xFF\xFF\xFF\xFF\x41\0\0\0http://opcfoundation.org/UA-Profile/Transport/uatcp-uasc-uabinary\0";

/// A MSG with a request of another service, of handle 2 and with two bytes behind its header, under request id 2 and with number 2.
pub const OTHER_REQUEST: &[u8] =
    b"MSGF\x3B\0\0\0\x01\0\0\0\x01\0\0\0\x02\0\0\0\x02\0\0\0\x01\0\xCD\x01\0\0\0\0\0\0\0\0\0\0\x02\0\0\0\0\0\0\0\xFF\xFF\xFF\xFF\0\0\0\0\0\0\0\xAA\xBB";

/// The answer to the first: a ServiceFault that says that the service is not offered.
pub const FAULT_RESPONSE: &[u8] =
    b"MSGF\x34\0\0\0\x01\0\0\0\x01\0\0\0\x02\0\0\0\x02\0\0\0\x01\0\x8D\x01\0\0\0\0\0\0\0\0\x02\0\0\0\0\0\x0B\x80\0\xFF\xFF\xFF\xFF\0\0\0";

/// A CLO with number 3 and request id 3.
pub const CLOSE_REQUEST: &[u8] =
    b"CLOF\x39\0\0\0\x01\0\0\0\x01\0\0\0\x03\0\0\0\x03\0\0\0\x01\0\xC4\x01\0\0\0\0\0\0\0\0\0\0\x03\0\0\0\0\0\0\0\xFF\xFF\xFF\xFF\0\0\0\0\0\0\0";

/// An abort in the place of an answer that is larger than the client takes.
pub const ABORT_TOO_LARGE: &[u8] =
    b"MSGA\x20\0\0\0\x01\0\0\0\x01\0\0\0\x02\0\0\0\x02\0\0\0\0\0\xB9\x80\xFF\xFF\xFF\xFF";

/// The open request that asks for the next token: channel 1, number 2, request id 2.
pub const RENEW_REQUEST: &[u8] =
    b"OPNF\x84\0\0\0\x01\0\0\0/\0\0\0http://opcfoundation.org/UA/SecurityPolicy#None\xFF\xFF\xFF\xFF\xFF\xFF\xFF\xFF\x02\0\0\0\x02\0\0\0\x01\0\xBE\x01\0\0\0\0\0\0\0\0\0\0\x02\0\0\0\0\0\0\0\xFF\xFF\xFF\xFF\0\0\0\0\0\0\0\0\0\0\0\x01\0\0\0\x01\0\0\0\xFF\xFF\xFF\xFF\0\0\0\0";

/// Its answer: token 2, created at 0, an hour of life.
pub const RENEW_RESPONSE: &[u8] =
    b"OPNF\x87\0\0\0\x01\0\0\0/\0\0\0http://opcfoundation.org/UA/SecurityPolicy#None\xFF\xFF\xFF\xFF\xFF\xFF\xFF\xFF\x02\0\0\0\x02\0\0\0\x01\0\xC1\x01\0\0\0\0\0\0\0\0\x02\0\0\0\0\0\0\0\0\xFF\xFF\xFF\xFF\0\0\0\0\0\0\0\x01\0\0\0\x02\0\0\0\0\0\0\0\0\0\0\0\x80\xEE6\0\xFF\xFF\xFF\xFF";

/// The open request for a channel that is signed.
pub const SIGNED_REQUEST: &[u8] =
    b"OPNF\x8E\0\0\0\0\0\0\09\0\0\0http://opcfoundation.org/UA/SecurityPolicy#Basic256Sha256\xFF\xFF\xFF\xFF\xFF\xFF\xFF\xFF\x01\0\0\0\x01\0\0\0\x01\0\xBE\x01\0\0\0\0\0\0\0\0\0\0\x01\0\0\0\0\0\0\0\xFF\xFF\xFF\xFF\0\0\0\0\0\0\0\0\0\0\0\0\0\0\0\x01\0\0\0\xFF\xFF\xFF\xFF\0\0\0\0";

/// The body of the FindServers request.
pub const FIND_BODY: &[u8] =
    b"\x01\0\xA6\x01\0\0\0\0\0\0\0\0\0\0\x02\0\0\0\0\0\0\0\xFF\xFF\xFF\xFF\0\0\0\0\0\0\0\x18\0\0\0opc.tcp://localhost:4840\xFF\xFF\xFF\xFF\xFF\xFF\xFF\xFF";

/// The body of the GetEndpoints request.
pub const ENDPOINTS_BODY: &[u8] =
    b"\x01\0\xAC\x01\0\0\0\0\0\0\0\0\0\0\x02\0\0\0\0\0\0\0\xFF\xFF\xFF\xFF\0\0\0\0\0\0\0\x18\0\0\0opc.tcp://localhost:4840\xFF\xFF\xFF\xFF\xFF\xFF\xFF\xFF";

/// The body of the request of another service.
pub const OTHER_BODY: &[u8] =
    b"\x01\0\xCD\x01\0\0\0\0\0\0\0\0\0\0\x02\0\0\0\0\0\0\0\xFF\xFF\xFF\xFF\0\0\0\0\0\0\0\xAA\xBB";

/// What stands between the id of a request for servers or endpoints and its lists: the header with handle 2, and the url.
pub const ASKED: &[u8] =
    b"\0\0\0\0\0\0\0\0\0\0\x02\0\0\0\0\0\0\0\xFF\xFF\xFF\xFF\0\0\0\0\0\0\0\x18\0\0\0opc.tcp://localhost:4840";

/// What stands before the servers of an answer at the moment 0: the id, the header with handle 2 and a good result.
pub const SERVERS_FOUND: &[u8] =
    b"\x01\0\xA9\x01\0\0\0\0\0\0\0\0\x02\0\0\0\0\0\0\0\0\xFF\xFF\xFF\xFF\0\0\0";

/// The same before endpoints.
pub const ENDPOINTS_FOUND: &[u8] =
    b"\x01\0\xAF\x01\0\0\0\0\0\0\0\0\x02\0\0\0\0\0\0\0\0\xFF\xFF\xFF\xFF\0\0\0";

/// The id of a request for servers.
pub const FIND: &[u8] = b"\x01\0\xA6\x01";

/// The id of a request for endpoints.
pub const ENDPOINTS: &[u8] = b"\x01\0\xAC\x01";

/// A list that is none.
pub const NULL: &[u8] = b"\xFF\xFF\xFF\xFF";

/// A list of no items.
pub const EMPTY: &[u8] = b"\0\0\0\0";

/// The URI of SecurityPolicy None.
pub const POLICY_NONE: &[u8] = b"\x2F\0\0\0http://opcfoundation.org/UA/SecurityPolicy#None";

/// The URI of the profile of UA TCP, UA Secure Conversation and UA Binary.
pub const BINARY_PROFILE: &[u8] =
    b"\x41\0\0\0http://opcfoundation.org/UA-Profile/Transport/uatcp-uasc-uabinary";

/// The Hello to the url that the ReverseHello names, with limits of 1048576 bytes and 64 chunks: 56 bytes.
pub const HELLO_TO_URL: &[u8] =
    b"HELF\x38\0\0\0\0\0\0\0\xFF\xFF\0\0\xFF\xFF\0\0\0\0\x10\0\x40\0\0\0\x18\0\0\0opc.tcp://localhost:4840";

/// A client that opens a channel, asks for servers and closes: 338 bytes.
pub const CALLS: [&[u8]; 4] = [HELLO, OPEN_REQUEST, FIND_REQUEST, CLOSE_REQUEST];

/// What it is answered: 297 bytes.
pub const REPLIES: [&[u8]; 3] = [ACKNOWLEDGE, OPEN_RESPONSE, FIND_RESPONSE];
