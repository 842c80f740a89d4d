//! Tokens and their lifetimes. OPC 10000-4, 5.6.2.

ghost use Rattle.std.specs.Prelude.{◌≡◌, ◌<◌};
ghost use Rattle.ua_channel.specs.Token.{revised, is_alive};
ghost use Rattle.ua_channel.specs.ClientChannel.{is_due};

/// A token that a channel issued.
#[derive(Clone, Copy, Debug, PartialEq, Eq)]
pub struct Token {
    /// The number that chunks name it by.
    pub id: u32,
    /// The moment of the frame that asked for it, in ticks of 100 nanoseconds.
    pub issued: u64,
    /// Its lifetime in milliseconds.
    pub lifetime: u32,
}

const TICKS_PER_MILLISECOND: u64 = 10000;

/// The shortest and the longest lifetime that is granted, in milliseconds.
const SHORTEST: u32 = 10000;

const LONGEST: u32 = 3600000;

impl Token {
    /// Whether chunks with this token are still admitted at the moment `now`, in ticks of 100 ns since 1601-01-01 UTC:
    /// for its lifetime and a quarter of it more. OPC 10000-4, 5.6.2.1.
    pub fn is_alive(&self, now: u64) -> bool
        ensures { result ≡ is_alive self.now now }
    {
        let lifetime = u64::from(self.lifetime) * TICKS_PER_MILLISECOND;
        now.saturating_sub(self.issued) < lifetime + lifetime / 4
    }

    /// Whether the token is to be renewed at the moment `now`, in ticks of 100 ns since 1601-01-01 UTC: three quarters
    /// of its lifetime are over. OPC 10000-6, 6.7.4.
    pub fn is_due(&self, now: u64) -> bool
        ensures { result ≡ is_due self.now now }
    {
        let lifetime = u64::from(self.lifetime) * TICKS_PER_MILLISECOND;
        now.saturating_sub(self.issued) / 3 >= lifetime / 4
    }
}

/// The lifetime that is granted where `asked` is asked, both in milliseconds.
pub(crate) fn revised(asked: u32) -> u32
    ensures { result ≡ revised asked }
{
    if asked == 0 {
        LONGEST
    } else {
        asked.min(LONGEST).max(SHORTEST)
    }
}
