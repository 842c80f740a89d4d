//! The types of frames.

ghost use Rattle.std.specs.Prelude.{◌≡◌, length};
ghost use Rattle.ua_frame.specs.Layout.{name_of, kind_of};
ghost use Rattle.ua_frame.specs.HeaderRows.{flag_fits};

/// The type of a frame, which its first three bytes name. OPC 10000-6, 7.1.2.2 and 6.7.2.2.
#[derive(Clone, Copy, Debug, PartialEq, Eq)]
pub enum Kind {
    /// `HEL`, the client's first frame.
    Hello,
    /// `ACK`, the server's answer to it.
    Acknowledge,
    /// `ERR`, an end's last frame before it gives up the connection.
    Error,
    /// `RHE`, by which a server that opened the connection asks for a Hello.
    ReverseHello,
    /// `OPN`, which opens or renews a secure channel.
    Open,
    /// `MSG`, a chunk of a message.
    Message,
    /// `CLO`, which closes the secure channel.
    Close,
}

impl Kind {
    /// The type that these three bytes name.
    #[inline(always)]
    #[tactic(auto, unfolding(crate::specs::Layout::kind_of))]
    pub(crate) fn named(name: &[u8]) -> Option<Kind>
        requires { length name.now ≡ 3 }
        ensures { result ≡ kind_of name.now }
    {
        // Most frames are chunks of messages: these three bytes, `MSG`, are compared as one number, the least first.
        if u32::from_le_bytes([name[0], name[1], name[2], 0]) == u32::from_le_bytes(*b"MSG\0") {
            return Some(Kind::Message);
        }
        match name {
            b"HEL" => Some(Kind::Hello),
            b"ACK" => Some(Kind::Acknowledge),
            b"ERR" => Some(Kind::Error),
            b"RHE" => Some(Kind::ReverseHello),
            b"OPN" => Some(Kind::Open),
            b"CLO" => Some(Kind::Close),
            _ => None,
        }
    }

    /// The three bytes that name this type. OPC 10000-6, 7.1.2.2 and 6.7.2.2.
    pub fn name(self) -> &'static [u8]
        ensures { result.now ≡ name_of self }
    {
        match self {
            Kind::Hello => b"HEL",
            Kind::Acknowledge => b"ACK",
            Kind::Error => b"ERR",
            Kind::ReverseHello => b"RHE",
            Kind::Open => b"OPN",
            Kind::Message => b"MSG",
            Kind::Close => b"CLO",
        }
    }

    /// Whether a frame of this type may have this flag: `C`, `F` or `A` for a message's chunk, `F` for any other.
    pub(crate) fn allows(self, flag: u8) -> bool
        ensures { result ≡ flag_fits self flag }
    {
        match self {
            Kind::Message => flag == b'C' || flag == b'F' || flag == b'A',
            _ => flag == b'F',
        }
    }
}
