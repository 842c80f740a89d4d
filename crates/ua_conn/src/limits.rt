//! Limits on frames and messages.

ghost use Rattle.std.specs.Prelude.{◌≡◌};
ghost use Rattle.ua_conn.specs.server.Replies.{is_over as passes};

/// Bytes of the longest frame that an end takes, or says, before an Acknowledge. OPC 10000-6, 7.1.2.3, 7.1.2.4 and
/// 7.1.2.6.
pub(crate) const GREATEST_FIRST_FRAME: u32 = 8192;

/// Whether a limit of a Hello or an Acknowledge, of which 0 is none, is passed. OPC 10000-6, 7.1.2.3 and 7.1.2.4.
pub(crate) fn is_over(limit: u32, n: u64) -> bool
    ensures { result ≡ passes limit n }
{
    limit != 0 && n > u64::from(limit)
}
