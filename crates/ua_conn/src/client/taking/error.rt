//! The frame by which a server gives up the connection.

ghost use Rattle.std.specs.Prelude.{◌≡◌};
ghost use Rattle.ua_frame.specs.Rows.{first_row};
ghost use Rattle.ua_frame.specs.Hello.{error_of};
ghost use Rattle.ua_conn.specs.client.Faults.{error_rows};
ghost use Rattle.ua_conn.specs.client.Effects.{FaultIs};

use crate::client::fault::ClientFault;
use std::alloc::Global;
use ua_frame::{ErrorFrame, Frame, Kind};

/// What the server says of its failure. OPC 10000-6, 7.1.2.5.
pub(crate) fn server_said(alloc: Global, frame: &Frame) -> ClientFault
    requires { frame.now.kind ≡ Kind.Error }
    ensures { FaultIs (first_row (error_rows (error_of frame.now.fields))) result }
{
    match ErrorFrame::read(alloc, frame) {
        Ok(error) => ClientFault::ServerSaid(error.status, error.reason),
        Err(fault) => ClientFault::from(fault),
    }
}
