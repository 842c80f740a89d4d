//! The frame that closes the channel.

ghost use Rattle.std.specs.Prelude.{◌≡◌, ◌<◌, ◌≤◌, ◌^◌, ℕ, List};
ghost use Rattle.ua_chunk.specs.Layout.{chunk_of};
ghost use Rattle.ua_service.specs.declared.request.Request.{Request as Asked};
ghost use Rattle.ua_conn.specs.server.Effects.{close_effect, Does};

use crate::server::connection::Connection;
use crate::server::connection::admission::admitted_chunk;
use crate::server::fault::Fault;
use ua_frame::{Frame, Kind};
use ua_service::read_close;
use ua_value::plumbing::let_go;

impl<'a> Connection<'a> {
    /// Takes a close request, which has no answer. OPC 10000-4, 5.6.3.
    pub(crate) fn close(&mut self, frame: &Frame, now: u64) -> Result<(), Fault>
        requires kind { frame.now.kind ≡ Kind.Close }
        requires stamp { now < 2 ^ 63 }
        requires later { self.old.moment ≤ now }
        ensures does { (bytes : List ℕ) (asked : List Asked) → Does (close_effect self.old.site self.old.known now (chunk_of frame.now.fields)) self.old self.new
            (record { bytes = bytes; asked = asked }) (record { bytes = bytes; asked = asked }) result }
        ensures moment { self.new.moment ≤ now }
        ensures site { self.new.site ≡ self.old.site }
    {
        let chunk = admitted_chunk(&mut self.channel, frame, now)?;
        let_go(read_close(self.alloc, chunk.body())?);
        Ok(())
    }
}
