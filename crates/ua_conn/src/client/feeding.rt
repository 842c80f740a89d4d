//! What a piece of the server's bytes brings.

ghost use Rattle.std.specs.Prelude.{◌≡◌, ◌≤◌, ◌↔◌, true, false, IfOk, IfErr, OnErr, IsErrOf};
ghost use Rattle.ua_frame.specs.Streams.{moment_of as counted};
ghost use Rattle.ua_conn.specs.client.Bound.{held_bytes, most_held};
ghost use Rattle.ua_conn.specs.client.Feeding.{HandsAll, FailsAll};

use crate::client::hearing::take_frames;
use crate::client::{Answer, Client, ClientFault};
use ua_frame::later;

impl Client {
    /// Takes one more piece of the server's bytes, which came at `now`: ticks of 100 ns since 1601-01-01 UTC. A moment
    /// before 0, or before that of an earlier call, counts as that. OPC 10000-6, 6.7 and 7.1.2; OPC 10000-4, 5.6.2 and
    /// 7.35.
    ///
    /// The result has the answers that the piece made whole, each with the request that was asked under its id. Where the
    /// server opens the connection, the output gains the Hello once the ReverseHello came; and it gains the first open
    /// request once the Acknowledge came.
    ///
    /// # Errors
    ///
    /// `Ended` exactly where the client had failed before; nothing has changed then. After each of the others it has
    /// failed and takes no more, and the answers that came whole in the same piece are given up.
    ///
    /// `ServerSaid` where the server gave up: by an ERR, with its status and reason, or by an open response whose
    /// result is bad, with that result and no reason. `Broken` where a frame is refused, with the status that the
    /// client's refusals in docs/PROTOCOL.md give it. The first such frame decides between the two, and the output has
    /// gained what the frames before it ask for.
    ///
    /// `NoMemory` where a growth was refused; the output has then gained whole frames that begin what the piece asks
    /// for.
    pub fn feed(&mut self, now: i64, piece: &[u8]) -> Result<Vec<Answer>, ClientFault>
        ensures hands { IfOk result (λ answers. HandsAll self.old (record { moment = counted now; bytes = piece.now }) self.new answers.items) }
        ensures fails { IfErr result (λ fault. self.old.failed ≡ false → FailsAll self.old (record { moment = counted now; bytes = piece.now }) self.new fault) }
        ensures failed { OnErr result (self.new.failed ≡ true) }
        ensures ended { IsErrOf result ClientFault.Ended ↔ (self.old.failed ≡ true) }
        ensures unchanged { self.old.failed ≡ true → self.new ≡ self.old }

        // What is held of the input fits the room that was reserved once.
        ensures bound { held_bytes self.new.held ≤ most_held self.new.config }
    {
        if self.failed {
            return Err(ClientFault::Ended);
        }
        self.failed = true;
        let now = later(self.moment, now);
        let mut answers = Vec::new(self.alloc);
        let heard = take_frames(
            &mut self.connection,
            now,
            &mut self.buffer,
            piece,
            &mut answers,
            &mut self.output,
        );
        self.connection.keeps_limits();
        match heard {
            Ok(()) => {
                self.moment = now;
                self.failed = false;
                Ok(answers)
            }
            Err(fault) => Err(fault),
        }
    }
}
