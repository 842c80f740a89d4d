//! Sends bytes until all are out.

ghost use Rattle.std.specs.Prelude.{◌≡◌, ◌+◌, ◌-◌, ◌<◌, ◌≤◌, ◌^◌, length, take, OnOk, IfErr};
ghost use Rattle.std.specs.Io.KnownBytes.{Appends};
ghost use Rattle.ua_link.specs.Link.{Counts, sent_of};

use crate::link::Link;

/// Sends bytes until all are out, or the link fails: `Err` says how many went out before.
pub(crate) fn send_all<L: Link>(link: &mut L, bytes: &[u8]) -> Result<(), usize>
    requires { L.fault_count link.old < 2 ^ 64 - 1 }
    ensures sent { Appends (L.output link.old) (L.output link.new) (take (sent_of result (length bytes.now)) bytes.now) }
    ensures within { IfErr result (λ n. n ≤ length bytes.now) }
    ensures kept { L.input link.new ≡ L.input link.old }
    ensures counted { Counts result (L.fault_count link.old) (L.fault_count link.new) }
{
    let mut sent = 0;
    'sends: while sent < bytes.len() {
        match link.send(&bytes[sent..]) {
            Ok(n) => sent += n,
            Err(_) => return Err(sent),
        }
    }
    Ok(())
}
