//! Settings of two applications, and what they are found as.

use crate::vectors::SERVERS_FOUND;

/// The settings by default under version 2, and a second application.
pub const PRESS_AND_OVEN: &str = "version = 2
[[application]]
uri = \"urn:a\"
product_uri = \"urn:p\"
discovery_urls = [\"opc.tcp://localhost:4840\"]
[[application.names]]
locale = \"en\"
text = \"Press\"
[[application]]
uri = \"urn:b\"
[[application.names]]
text = \"Oven\"
[[endpoint]]
url = \"opc.tcp://localhost:4840\"
[[endpoint.tokens]]
id = \"0\"
";

/// The first application: 78 bytes.
const PRESS: &[u8] =
    b"\x05\0\0\0urn:a\x05\0\0\0urn:p\x03\x02\0\0\0en\x05\0\0\0Press\0\0\0\0\xFF\xFF\xFF\xFF\xFF\xFF\xFF\xFF\x01\0\0\0\x18\0\0\0opc.tcp://localhost:4840";

/// The second application: 38 bytes.
pub const OVEN: &[u8] =
    b"\x05\0\0\0urn:b\xFF\xFF\xFF\xFF\x02\x04\0\0\0Oven\0\0\0\0\xFF\xFF\xFF\xFF\xFF\xFF\xFF\xFF\0\0\0\0";

/// Both of them: a body of 148 bytes.
pub const BOTH_FOUND: [&[u8]; 4] = [SERVERS_FOUND, b"\x02\0\0\0", PRESS, OVEN];
