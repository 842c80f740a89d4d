//! One turn of a client over a link.

ghost use Rattle.std.specs.Prelude.{◌≡◌, ◌-◌, ◌<◌, ◌^◌, false, OnOk, OnErr};
ghost use Rattle.ua_link.specs.Turns.{Seen};
ghost use Rattle.ua_link.specs.ClientTurns.{Spoken, Broken, ClientTurns, client_faults};

use crate::clock::Clock;
use crate::link::{Link, LinkFault};
use crate::sending::send_all;
use crate::turn::MOST_READ;
use ua_conn::{Answer, Client, ClientFault};

/// What one turn of a client came to.
#[derive(Drop)]
pub enum ClientTurn {
    /// Bytes came, and these are the answers that they made whole; there may be none.
    Answers(Vec<Answer>),
    /// The input ended.
    InputEnded,
    /// A call of the link failed.
    LinkFailed,
    /// Bytes came, and the client failed.
    Fault(ClientFault),
}

/// Sends all of a client's output, whether the client has failed or not, and drops from the output what went out.
/// Nothing else of the client changes. Fewer than 2^64 - 1 calls of the link failed before. OPC 10000-6, 7.1.
///
/// # Errors
///
/// `LinkFault` where the link failed before all of the output was out. What went out before is dropped from it all the
/// same.
pub fn send_output<L: Link>(client: &mut Client, link: &mut L) -> Result<(), LinkFault>
    requires { L.fault_count link.old < 2 ^ 64 - 1 }
    ensures spoken { let before : Seen = record { input = L.input link.old; output = L.output link.old; faults = L.fault_count link.old } in
        let after : Seen = record { input = L.input link.new; output = L.output link.new; faults = L.fault_count link.new } in
        OnOk result (Spoken client.old client.new before after) }
    ensures broken { let before : Seen = record { input = L.input link.old; output = L.output link.old; faults = L.fault_count link.old } in
        let after : Seen = record { input = L.input link.new; output = L.output link.new; faults = L.fault_count link.new } in
        OnErr result (Broken client.old client.new before after) }
{
    match send_all(link, client.output()) {
        Ok(()) => {
            let len = client.output().len();
            client.sent(len);
            Ok(())
        }
        Err(sent) => {
            client.sent(sent);
            Err(LinkFault)
        }
    }
}

/// One turn of a client: its output is sent until none is left, then one read of at most 4096 bytes follows, after
/// which the clock is asked, and the client takes what came.
///
/// `Answers` has the answers that the bytes made whole, and `Fault` says why the client takes no more; at least one
/// byte was read then. `InputEnded` says that the input ended, and the client heard nothing. `LinkFailed` says that a
/// send or the read failed: what went out before is dropped from the output, and the client heard nothing. A client
/// that had failed before takes nothing: its fault is `Ended`. Fewer than 2^64 - 1 calls of the link failed before.
/// OPC 10000-6, 6.7 and 7.1.
pub fn pump_client<L: Link, C: Clock>(
    client: &mut Client,
    link: &mut L,
    clock: &mut C,
) -> ClientTurn
    requires { L.fault_count link.old < 2 ^ 64 - 1 }
    ensures turns { let before : Seen = record { input = L.input link.old; output = L.output link.old; faults = L.fault_count link.old } in
        let after : Seen = record { input = L.input link.new; output = L.output link.new; faults = L.fault_count link.new } in
        client.old.failed ≡ false → ClientTurns client.old client.new before after (C.answered clock.old) (C.answered clock.new) result }
    ensures counted { L.fault_count link.new ≡ client_faults result (L.fault_count link.old) }
{
    let Ok(()) = send_output(client, link) else {
        return ClientTurn::LinkFailed;
    };
    let mut piece = [0u8; MOST_READ];
    let Ok(n) = link.recv(&mut piece) else {
        return ClientTurn::LinkFailed;
    };
    let now = clock.now();
    if n == 0 {
        return ClientTurn::InputEnded;
    }
    match client.feed(now, &piece[..n]) {
        Ok(answers) => ClientTurn::Answers(answers),
        Err(fault) => ClientTurn::Fault(fault),
    }
}
