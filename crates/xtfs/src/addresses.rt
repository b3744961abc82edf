//! Addresses that can't be reached as they are written.

use std::io;
use std::net::{SocketAddr, UdpSocket};

/// How an address is written.
#[derive(Clone, Copy, PartialEq, Eq)]
pub enum Writing {
    /// A number and a port: it can be sent to.
    Numeric,
    /// A name and a port. A name isn't looked up for sending.
    Named,
    /// Something else.
    Malformed,
}

/// How this address is written.
pub fn writing_of(text: &str) -> Writing {
    if text.parse::<SocketAddr>().is_ok() {
        return Writing::Numeric;
    }
    match text.rsplit_once(':') {
        Some((host, port)) if is_name(host) && port.parse::<u16>().is_ok() => Writing::Named,
        _ => Writing::Malformed,
    }
}

/// Whether this can be the name of a machine.
fn is_name(host: &str) -> bool {
    !host.is_empty()
        && host.as_bytes().iter().all(|byte| byte.is_ascii_alphanumeric()
            || *byte == b'-'
            || *byte == b'.')
}

/// Tells which ports of this machine, from the first one on, another process has.
pub fn tell_taken_ports(rt: &HostRuntime, first: u16, count: u16) -> io::Result<()> {
    for place in 0..count {
        let port = first.saturating_add(place);
        if let Err(error) = UdpSocket::bind(rt, ("127.0.0.1", port)) {
            eprintln!(rt; "xtfs: cannot bind 127.0.0.1:{port}: {error}")?;
        }
    }
    Ok(())
}
