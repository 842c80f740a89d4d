//! The end of a turn: what goes out, and whether the connection is over.

ghost use Rattle.std.specs.Prelude.{◌≡◌, ◌+◌, ◌-◌, ◌<◌, ◌≤◌, ◌^◌, ℕ, List, true, false, [], drop, take, length, None, Some, IfOk, IfErr, if◌then◌else◌, ◌⊎◌};
ghost use Rattle.std.specs.Io.KnownBytes.{Appends, Keeps};
ghost use Rattle.ua_conn.specs.server.Site.{Site};
ghost use Rattle.ua_conn.specs.declared.outcome.End.{End};
ghost use Rattle.ua_link.specs.Link.{Counts};
ghost use Rattle.ua_link.specs.ReadyLink.{Tries};
ghost use Rattle.ua_link.specs.Reads.{Cut};
ghost use Rattle.ua_link.specs.Turns.{Seen};
ghost use Rattle.ua_link.specs.Connections.{Standing, Leaves, Judges, has_moved, is_due, writes_of};
ghost use Rattle.ua_link.specs.declared.ready_link.Call.{Call};

use crate::connection::{Over, ReadyTurn, ServerConnection, frame_patience, has_moved};
use crate::link::LinkFault;
use crate::ready_link::ReadyLink;
use ua_conn::End;

impl<'a> ServerConnection<'a> {
    /// Drops the first `n` of the bytes that are owed. What is out is given up once it is the greater part, so that for
    /// each byte that goes out one is moved at the most.
    fn drop_sent(&mut self, n: usize)
        requires { n ≤ length self.old.owed }
        ensures { self.new ≡ record self.old { owed = drop n self.old.owed } }
    {
        self.out += n;
        let left = self.said.len() - self.out;
        if self.out >= left {
            self.said.rotate_left(self.out);
            self.said.truncate(left);
            self.out = 0;
        }
    }

    /// Writes once, where anything is owed, and says how many bytes went out.
    fn send<L: ReadyLink>(&mut self, link: &mut L) -> Result<usize, LinkFault>
        requires countable { L.fault_count link.old < 2 ^ 64 - 1 }
        ensures within { IfOk result (λ n. n ≤ length self.old.owed) }
        ensures sent { IfOk result (λ n. Appends (L.output link.old) (L.output link.new) (take n self.old.owed)) }
        ensures dropped { IfOk result (λ n. self.new ≡ record self.old { owed = drop n self.old.owed }) }
        ensures unsent { IfErr result (λ _. Keeps (L.output link.old) (L.output link.new)) }
        ensures unchanged { IfErr result (λ _. self.new ≡ self.old) }
        ensures kept { L.input link.new ≡ L.input link.old }
        ensures counted { Counts result (L.fault_count link.old) (L.fault_count link.new) }
        ensures tried { Tries (L.tried link.old) (L.tried link.new) (writes_of (length self.old.owed)) }
        ensures failed { IfErr result (λ _. 0 < length self.old.owed) }
    {
        let owed = self.owed();
        if owed.is_empty() {
            return Ok(0);
        }
        match link.send_now(owed) {
            Ok(Some(n)) => {
                self.drop_sent(n);
                Ok(n)
            }
            Ok(None) => Ok(0),
            Err(fault) => Err(fault),
        }
    }

    /// Whether nothing is owed.
    fn is_all_out(&self) -> bool
        ensures none { result ≡ true → self.now.owed ≡ [] }
        ensures some { result ≡ false → self.now.owed ≡ [] → ⊥ }
    {
        self.owed().is_empty()
    }

    /// Whether it is over for its client's sake.
    fn is_due(&self, moved: bool, patience: u64) -> bool
        ensures { result ≡ is_due self.now moved patience }
    {
        let is_quiet = !moved && self.latest - self.active >= patience;
        let is_unopened = self.is_opening() && self.latest - self.begun >= patience;
        let frame = frame_patience(patience);
        is_quiet || is_unopened || (self.is_within_frame() && self.latest - self.frame >= frame)
    }

    /// How the connection is over behind a turn in which no call failed, if it is.
    fn over(&mut self, moved: bool, patience: u64) -> Option<Over>
        ensures judged { Judges self.old moved patience result }
        ensures active { self.new ≡ record self.old { active = if moved then self.old.latest else self.old.active } }
    {
        let is_due = self.is_due(moved, patience);
        if moved {
            self.active = self.latest;
        }
        let ending = if self.is_all_out() { self.ending } else { None };
        match ending {
            Some(end) => Some(Over::Ended(end)),
            None if is_due => Some(Over::TimedOut),
            None => None,
        }
    }

    /// The second half of a turn: one write, and whether the connection is over.
    pub(super) fn finish_turn<L: ReadyLink>(
        &mut self,
        link: &mut L,
        moment: i64,
        cut: Option<(i64, usize)>,
        patience: u64,
    ) -> ReadyTurn
        requires countable { L.fault_count link.old < 2 ^ 64 - 1 }
        ensures moment { result.moment ≡ moment }
        ensures cut { result.cut ≡ cut }
        ensures within { result.written ≤ length self.old.owed }
        ensures rest { self.new ≡ record self.old { owed = drop result.written self.old.owed; active = self.new.active } }
        ensures active { result.over ≡ None → self.new.active ≡ (if has_moved cut result.written then self.old.latest else self.old.active) }
        ensures patient { result.over ≡ None → is_due self.old (has_moved cut result.written) patience ≡ false }
        ensures impatient { result.over ≡ Some Over.TimedOut → is_due self.old (has_moved cut result.written) patience ≡ true }
        ensures tried { Tries (L.tried link.old) (L.tried link.new) (writes_of (length self.old.owed)) }
        ensures counted { (L.fault_count link.new ≡ L.fault_count link.old) ⊎ ((L.fault_count link.new ≡ L.fault_count link.old + 1) × (0 < length self.old.owed)) }
        ensures leaves { let before : Seen = record { input = L.input link.old; output = L.output link.old; faults = L.fault_count link.old } in
            let after : Seen = record { input = L.input link.new; output = L.output link.new; faults = L.fault_count link.new } in
            (site : Site) (turns : ℕ) (cuts : List Cut) (n : ℕ) (begun : Seen) → Standing site turns self.old cuts n begun before → Leaves site turns self.new cuts (n + result.written) begun after result.over }
    {
        match self.send(link) {
            Ok(written) => {
                let over = self.over(has_moved(cut, written), patience);
                ReadyTurn {
                    moment,
                    cut,
                    written,
                    over,
                }
            }
            Err(_) => ReadyTurn::ended(moment, cut, End::LinkFailed),
        }
    }
}
