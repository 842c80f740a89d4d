//! Addresses of this host.

use std::net::{SocketAddr, TcpListener};

/// An address of this host at which nobody listens any more.
pub fn left_address(rt: &HostRuntime) -> Option<SocketAddr> {
    let Ok(listener) = TcpListener::bind(rt, "127.0.0.1:0") else {
        return None;
    };
    listener.local_addr().ok()
}
