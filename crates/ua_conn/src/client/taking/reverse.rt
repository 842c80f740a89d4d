//! The first frame of a server that opened the connection.

ghost use Rattle.std.specs.Prelude.{◌≡◌, List, Some};
ghost use Rattle.ua_frame.specs.Hello.{reverse_hello_of};
ghost use Rattle.ua_frame.specs.declared.reverse_hello.ReverseHello as declared;
ghost use Rattle.ua_conn.specs.client.Faults.{broken, reverse_rows};
ghost use Rattle.ua_conn.specs.client.Effects.{reverse_effect, Does, Judges};
ghost use Rattle.ua_conn.specs.declared.client.answer.Answer.{Answer as Given};

use crate::client::connection::Connection;
use crate::client::fault::ClientFault;
use crate::client::questions::write_hello;
use std::alloc::Global;
use ua_frame::status::BAD_TCP_ENDPOINT_URL_INVALID;
use ua_frame::{Frame, Kind, ReverseHello, is_long_url};
use ua_value::UaString;
use ua_value::plumbing::let_go;

/// The url that a ReverseHello names, where it is not too long. OPC 10000-6, 7.1.2.6.
fn named_url(alloc: Global, frame: &Frame) -> Result<UaString, ClientFault>
    requires { frame.now.kind ≡ Kind.ReverseHello }
    ensures { Judges (broken (reverse_rows (reverse_hello_of frame.now.fields))) (λ url. (hello : declared.ReverseHello) × (reverse_hello_of frame.now.fields ≡ Some hello) × (url ≡ hello.endpoint_url)) result }
{
    let ReverseHello {
        server_uri,
        endpoint_url,
    } = ReverseHello::read(alloc, frame)?;
    let_go(server_uri);
    if is_long_url(&endpoint_url) {
        let_go(endpoint_url);
        return Err(ClientFault::Broken(BAD_TCP_ENDPOINT_URL_INVALID));
    }
    Ok(endpoint_url)
}

impl Connection {
    /// Takes the server's ReverseHello, and answers with a Hello that names its url. OPC 10000-6, 7.1.2.3 and 7.1.2.6.
    pub(crate) fn reverse_hello(
        &mut self,
        frame: &Frame,
        out: &mut Vec<u8>,
    ) -> Result<(), ClientFault>
        requires { frame.now.kind ≡ Kind.ReverseHello }
        ensures does { (answers : List Given) → Does (reverse_effect self.old.config self.old.waits (reverse_hello_of frame.now.fields)) self.old self.new
            (record { bytes = out.old.items; answers = answers }) (record { bytes = out.new.items; answers = answers }) result }
        ensures moment { self.new.moment ≡ self.old.moment }
        ensures config { self.new.config ≡ self.old.config }
    {
        let url = named_url(self.alloc, frame)?;
        write_hello(&self.config, url, out)?;
        self.reverse = false;
        Ok(())
    }
}
