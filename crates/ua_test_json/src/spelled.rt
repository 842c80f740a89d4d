//! An application, an endpoint and frames as bytes, and the JSON of each.

pub(crate) const APPLICATION: &[u8] =
    b"\x05\0\0\0urn:a\x05\0\0\0urn:p\x03\x02\0\0\0en\x05\0\0\0Press\0\0\0\0\xFF\xFF\xFF\xFF\xFF\xFF\xFF\xFF\x01\0\0\0\x18\0\0\0opc.tcp://localhost:4840";

pub(crate) const APPLICATION_LINE: &str =
    "{\"ApplicationUri\":\"urn:a\",\"ProductUri\":\"urn:p\",\"ApplicationName\":{\"Locale\":\"en\",\"Text\":\"Press\"},\"ApplicationType\":0,\"GatewayServerUri\":null,\"DiscoveryProfileUri\":null,\"DiscoveryUrls\":[\"opc.tcp://localhost:4840\"]}";

/// With a certificate of one byte and two user identities.
pub(crate) const ENDPOINT: &[u8] =
    b"\x01\0\0\0c\xFF\xFF\xFF\xFF\xFF\xFF\xFF\xFF\0\x03\0\0\0\xFF\xFF\xFF\xFF\xFF\xFF\xFF\xFF\xFF\xFF\xFF\xFF\x01\0\0\0\xFF\x03\0\0\0\x01\0\0\0p\x02\0\0\0\x01\0\0\0a\0\0\0\0\xFF\xFF\xFF\xFF\xFF\xFF\xFF\xFF\xFF\xFF\xFF\xFF\x01\0\0\0b\x03\0\0\0\x01\0\0\0i\x01\0\0\0u\x01\0\0\0s\x01\0\0\0t\x14";

pub(crate) const ENDPOINT_LINE: &str =
    "{\"EndpointUrl\":\"c\",\"Server\":{\"ApplicationUri\":null,\"ProductUri\":null,\"ApplicationName\":{\"Locale\":null,\"Text\":null},\"ApplicationType\":3,\"GatewayServerUri\":null,\"DiscoveryProfileUri\":null,\"DiscoveryUrls\":null},\"ServerCertificate\":\"/w==\",\"SecurityMode\":3,\"SecurityPolicyUri\":\"p\",\"UserIdentityTokens\":[{\"PolicyId\":\"a\",\"TokenType\":0,\"IssuedTokenType\":null,\"IssuerEndpointUrl\":null,\"SecurityPolicyUri\":null},{\"PolicyId\":\"b\",\"TokenType\":3,\"IssuedTokenType\":\"i\",\"IssuerEndpointUrl\":\"u\",\"SecurityPolicyUri\":\"s\"}],\"TransportProfileUri\":\"t\",\"SecurityLevel\":20}";

/// A frame of each type, a message in two parts, one that is given up, one of no encoding id, and nine bytes more.
pub(crate) const CAPTURE: &[u8] =
    b"HELF\x38\0\0\0\0\0\0\0\xFF\xFF\0\0\xFF\xFF\0\0\0\0\0\0\0\0\0\0\x18\0\0\0opc.tcp://localhost:4840ACKF\x1C\0\0\0\0\0\0\0\xFF\xFF\0\0\xFF\xFF\0\0\0\0\x10\0\x40\0\0\0RHEF\x2D\0\0\0\x05\0\0\0urn:a\x18\0\0\0opc.tcp://localhost:4840ERRF\x12\0\0\0\0\0\x7E\x80\x02\0\0\0noOPNF\x3C\0\0\0\0\0\0\0\x1C\0\0\0http://example.org/none#None\xFF\xFF\xFF\xFF\xFF\xFF\xFF\xFF\x01\0\0\0\x05\0\0\0MSGC\x1A\0\0\0\x01\0\0\0\x02\0\0\0\x02\0\0\0\x06\0\0\0\x01\0MSGF\x1B\0\0\0\x01\0\0\0\x02\0\0\0\x03\0\0\0\x06\0\0\0\xA6\x01\x09MSGA\x20\0\0\0\x01\0\0\0\x02\0\0\0\x04\0\0\0\x07\0\0\0\0\0\xB9\x80\xFF\xFF\xFF\xFFMSGF\x19\0\0\0\x01\0\0\0\x02\0\0\0\x05\0\0\0\x08\0\0\0\xFFCLOF\x1C\0\0\0\x01\0\0\0\x02\0\0\0\x06\0\0\0\x09\0\0\0\x01\0\xC4\x01HELF\x38\0\0\0\0";

pub(crate) const CAPTURE_LINES: &str = "\
{\"Offset\":0,\"MessageType\":\"HEL\",\"MessageSize\":56,\"ProtocolVersion\":0,\"ReceiveBufferSize\":65535,\"SendBufferSize\":65535,\"MaxMessageSize\":0,\"MaxChunkCount\":0,\"EndpointUrl\":\"opc.tcp://localhost:4840\"}\n\
{\"Offset\":56,\"MessageType\":\"ACK\",\"MessageSize\":28,\"ProtocolVersion\":0,\"ReceiveBufferSize\":65535,\"SendBufferSize\":65535,\"MaxMessageSize\":1048576,\"MaxChunkCount\":64}\n\
{\"Offset\":84,\"MessageType\":\"RHE\",\"MessageSize\":45,\"ServerUri\":\"urn:a\",\"EndpointUrl\":\"opc.tcp://localhost:4840\"}\n\
{\"Offset\":129,\"MessageType\":\"ERR\",\"MessageSize\":18,\"Error\":{\"Code\":2155741184,\"Symbol\":\"BadTcpMessageTypeInvalid\"},\"Reason\":\"no\"}\n\
{\"Offset\":147,\"MessageType\":\"OPN\",\"MessageSize\":60,\"SecureChannelId\":0,\"SecurityPolicyUri\":\"http://example.org/none#None\",\"SequenceNumber\":1,\"RequestId\":5,\"BodySize\":0}\n\
{\"RequestId\":5,\"TypeId\":null,\"BodySize\":0}\n\
{\"Offset\":207,\"MessageType\":\"MSG\",\"MessageSize\":26,\"IsFinal\":\"C\",\"SecureChannelId\":1,\"TokenId\":2,\"SequenceNumber\":2,\"RequestId\":6,\"BodySize\":2}\n\
{\"Offset\":233,\"MessageType\":\"MSG\",\"MessageSize\":27,\"IsFinal\":\"F\",\"SecureChannelId\":1,\"TokenId\":2,\"SequenceNumber\":3,\"RequestId\":6,\"BodySize\":3}\n\
{\"RequestId\":6,\"TypeId\":\"i=422\",\"BodySize\":5}\n\
{\"Offset\":260,\"MessageType\":\"MSG\",\"MessageSize\":32,\"IsFinal\":\"A\",\"SecureChannelId\":1,\"TokenId\":2,\"SequenceNumber\":4,\"RequestId\":7,\"BodySize\":8}\n\
{\"Offset\":292,\"MessageType\":\"MSG\",\"MessageSize\":25,\"IsFinal\":\"F\",\"SecureChannelId\":1,\"TokenId\":2,\"SequenceNumber\":5,\"RequestId\":8,\"BodySize\":1}\n\
{\"RequestId\":8,\"TypeId\":null,\"BodySize\":1}\n\
{\"Offset\":317,\"MessageType\":\"CLO\",\"MessageSize\":28,\"IsFinal\":\"F\",\"SecureChannelId\":1,\"TokenId\":2,\"SequenceNumber\":6,\"RequestId\":9,\"BodySize\":4}\n\
{\"RequestId\":9,\"TypeId\":\"i=452\",\"BodySize\":4}\n\
{\"Offset\":345,\"Rest\":9}\n";
