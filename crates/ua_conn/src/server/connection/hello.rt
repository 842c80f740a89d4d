//! The first frame.

ghost use Rattle.std.specs.Prelude.{◌≡◌, ◌≤◌, Some, List, option_map};
ghost use Rattle.ua_frame.specs.Hello.{hello_of, hello_rows};
ghost use Rattle.ua_service.specs.declared.request.Request.{Request as Asked};
ghost use Rattle.ua_disco.specs.Bounds.{IsLimits};
ghost use Rattle.ua_conn.specs.Past.{agreed_by};
ghost use Rattle.ua_conn.specs.server.Ranges.{IsBuffer};
ghost use Rattle.ua_conn.specs.server.Effects.{hello_effect, Does, Judges};

use crate::server::agreed::Agreed;
use crate::server::connection::Connection;
use crate::server::fault::Fault;
use std::alloc::Global;
use ua_frame::{Frame, Hello, Kind, Limits, negotiate};

/// What the Hello that a frame is and the limits agree on.
fn agree(alloc: Global, limits: &Limits, frame: &Frame) -> Result<Agreed, Fault>
    requires kind { frame.now.kind ≡ Kind.Hello }
    requires ranges { IsLimits limits.now }
    ensures { Judges (hello_rows (hello_of frame.now.fields)) (λ a. (option_map (agreed_by limits.now) (hello_of frame.now.fields) ≡ Some a) × IsBuffer a.ack.send × (a.ack.receive ≤ limits.now.receive)) result }
{
    let hello = Hello::read(alloc, frame)?;
    let ack = negotiate(&hello, limits)?;
    Ok(Agreed {
        ack,
        answer_bytes: hello.max_message,
        answer_parts: hello.max_chunks,
    })
}

impl<'a> Connection<'a> {
    /// Acknowledges a Hello. OPC 10000-6, 7.1.2.3 and 7.1.2.4.
    #[inline(never)]
    pub(crate) fn hello(&mut self, frame: &Frame, out: &mut Vec<u8>) -> Result<(), Fault>
        requires { frame.now.kind ≡ Kind.Hello }
        ensures does { (asked : List Asked) → Does (hello_effect self.old.site self.old.known (hello_of frame.now.fields)) self.old self.new
            (record { bytes = out.old.items; asked = asked }) (record { bytes = out.new.items; asked = asked }) result }
        ensures moment { self.new.moment ≡ self.old.moment }
        ensures site { self.new.site ≡ self.old.site }
    {
        let limits = self.settings.limits();
        let agreed = agree(self.alloc, &limits, frame)?;
        agreed.ack.write(out)?;
        self.agreed = Some(agreed);
        Ok(())
    }
}
