//! Bodies of messages, as other programs write them.

/// A request for a channel and its first token.
pub(crate) const OPEN_REQUEST_BODY: &[u8] =
    b"\x01\0\xBE\x01\0\0\0\0\0\0\0\0\0\0\x01\0\0\0\0\0\0\0\xFF\xFF\xFF\xFF\0\0\0\0\0\0\0\0\0\0\0\0\0\0\0\x01\0\0\0\xFF\xFF\xFF\xFF\0\0\0\0";

/// Its answer.
pub(crate) const OPEN_RESPONSE_BODY: &[u8] =
    b"\x01\0\xC1\x01\0\0\0\0\0\0\0\0\x01\0\0\0\0\0\0\0\0\xFF\xFF\xFF\xFF\0\0\0\0\0\0\0\x01\0\0\0\x01\0\0\0\0\0\0\0\0\0\0\0\x80\xEE\x36\0\xFF\xFF\xFF\xFF";

/// A request that the channel is closed.
pub(crate) const CLOSE_REQUEST_BODY: &[u8] =
    b"\x01\0\xC4\x01\0\0\0\0\0\0\0\0\0\0\x03\0\0\0\0\0\0\0\xFF\xFF\xFF\xFF\0\0\0\0\0\0\0";

/// A request for servers.
pub(crate) const FIND_REQUEST_BODY: &[u8] =
    b"\x01\0\xA6\x01\0\0\0\0\0\0\0\0\0\0\x02\0\0\0\0\0\0\0\xFF\xFF\xFF\xFF\0\0\0\0\0\0\0\x18\0\0\0opc.tcp://localhost:4840\xFF\xFF\xFF\xFF\xFF\xFF\xFF\xFF";

/// Its answer, with one application.
pub(crate) const FIND_RESPONSE_BODY: &[u8] =
    b"\x01\0\xA9\x01\0\0\0\0\0\0\0\0\x02\0\0\0\0\0\0\0\0\xFF\xFF\xFF\xFF\0\0\0\x01\0\0\0\x05\0\0\0urn:a\x05\0\0\0urn:p\x03\x02\0\0\0en\x05\0\0\0Press\0\0\0\0\xFF\xFF\xFF\xFF\xFF\xFF\xFF\xFF\x01\0\0\0\x18\0\0\0opc.tcp://localhost:4840";

/// A request for endpoints.
pub(crate) const ENDPOINTS_REQUEST_BODY: &[u8] =
    b"\x01\0\xAC\x01\0\0\0\0\0\0\0\0\0\0\x02\0\0\0\0\0\0\0\xFF\xFF\xFF\xFF\0\0\0\0\0\0\0\x18\0\0\0opc.tcp://localhost:4840\xFF\xFF\xFF\xFF\xFF\xFF\xFF\xFF";

/// Its answer, with one endpoint.
pub(crate) const ENDPOINTS_RESPONSE_BODY: &[u8] =
    b"\x01\0\xAF\x01\0\0\0\0\0\0\0\0\x02\0\0\0\0\0\0\0\0\xFF\xFF\xFF\xFF\0\0\0\x01\0\0\0\x18\0\0\0opc.tcp://localhost:4840\x05\0\0\0urn:a\x05\0\0\0urn:p\x03\x02\0\0\0en\x05\0\0\0Press\0\0\0\0\xFF\xFF\xFF\xFF\xFF\xFF\xFF\xFF\x01\0\0\0\x18\0\0\0opc.tcp://localhost:4840\xFF\xFF\xFF\xFF\x01\0\0\0\x2F\0\0\0http://opcfoundation.org/UA/SecurityPolicy#None\x01\0\0\0\x01\0\0\0\x30\0\0\0\0\xFF\xFF\xFF\xFF\xFF\xFF\xFF\xFF\xFF\xFF\xFF\xFF\x41\0\0\0http://opcfoundation.org/UA-Profile/Transport/uatcp-uasc-uabinary\0";

/// A request for a session, as far as its header, and two bytes more.
pub(crate) const OTHER_REQUEST_BODY: &[u8] =
    b"\x01\0\xCD\x01\0\0\0\0\0\0\0\0\0\0\x02\0\0\0\0\0\0\0\xFF\xFF\xFF\xFF\0\0\0\0\0\0\0\xAA\xBB";

/// The answer of a server that has no such service.
pub(crate) const FAULT_RESPONSE_BODY: &[u8] =
    b"\x01\0\x8D\x01\0\0\0\0\0\0\0\0\x02\0\0\0\0\0\x0B\x80\0\xFF\xFF\xFF\xFF\0\0\0";

/// A request's header with the handle 2.
pub(crate) const REQUEST_HEADER: &[u8] =
    b"\0\0\0\0\0\0\0\0\0\0\x02\0\0\0\0\0\0\0\xFF\xFF\xFF\xFF\0\0\0\0\0\0\0";
