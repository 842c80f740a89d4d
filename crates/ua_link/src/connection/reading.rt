//! The read of a turn.

ghost use Rattle.std.specs.Prelude.{◌≡◌, ◌-◌, ◌<◌, ◌^◌, [], true, None, IfOk, IfErr};
ghost use Rattle.std.specs.Io.KnownBytes.{Keeps};
ghost use Rattle.ua_link.specs.Link.{Counts};
ghost use Rattle.ua_link.specs.Clock.{Answered};
ghost use Rattle.ua_link.specs.ReadyLink.{Tries};
ghost use Rattle.ua_link.specs.Reads.{moment_of_read};
ghost use Rattle.ua_link.specs.Connections.{Reads, is_read, reads_of};

use crate::clock::Clock;
use crate::connection::{MOST_OWED, ServerConnection};
use crate::link::LinkFault;
use crate::ready_link::ReadyLink;

impl<'a> ServerConnection<'a> {
    /// Whether it is read: no end came, nothing waits, and not too much is owed.
    fn is_read(&self) -> bool
        ensures { result ≡ is_read self.now }
    {
        self.ending.is_none() && self.waiting.len() == 0 && self.owed().len() <= MOST_OWED
    }

    /// Reads once, where it is read, and asks the clock where something came. The end of the input is its end.
    pub(super) fn read<L: ReadyLink, C: Clock>(
        &mut self,
        link: &mut L,
        clock: &mut C,
    ) -> Result<Option<(i64, usize)>, LinkFault>
        requires countable { L.fault_count link.old < 2 ^ 64 - 1 }
        ensures reads { IfOk result (λ cut. Reads self.old self.new (L.input link.old) (L.input link.new) cut) }
        ensures asked { IfOk result (λ cut. Answered (C.answered clock.old) (C.answered clock.new) (moment_of_read cut)) }
        ensures failed { IfErr result (λ _. (self.new ≡ self.old) × (is_read self.old ≡ true) × Keeps (L.input link.old) (L.input link.new)) }
        ensures unasked { IfErr result (λ _. clock.new ≡ clock.old) }
        ensures kept { L.output link.new ≡ L.output link.old }
        ensures counted { Counts result (L.fault_count link.old) (L.fault_count link.new) }
        ensures tried { Tries (L.tried link.old) (L.tried link.new) (reads_of (is_read self.old)) }
    {
        if !self.is_read() {
            return Ok(None);
        }
        let Some(n) = self.waiting.read(link)? else {
            return Ok(None);
        };
        let moment = clock.now();
        self.came = moment;
        self.left -= 1;
        if n == 0 {
            self.ending = Some(self.server.end_of_input());
        }
        Ok(Some((moment, n)))
    }
}
