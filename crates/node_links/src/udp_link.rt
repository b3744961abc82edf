ghost use Rattle.std.specs.Prelude.{◌≡◌, ◌≤◌, None, length, IfOk, is_err};
ghost use Rattle.node_links.specs.Links.{IsGot};
ghost use Rattle.xt_base.specs.Faults.{fault_count_after};

use crate::link::{Got, Link};
use std::alloc::Global;
use std::io::{self, ErrorKind};
use std::net::{Net, SocketAddr, UdpSocket};
use std::os::fd::AsRawFd;
use std::time::Duration;
use xt_base::{Address, Failed};

/// Flags of a receive: the datagram stays, and the call doesn't wait for one.
const PEEK_AT_ONCE: i32 = libc::net::MSG_PEEK | libc::net::MSG_DONTWAIT;

/// A UDP socket. What it gives and takes isn't known.
#[derive(Drop)]
pub struct UdpLink<R: Net> {
    rt: R,
    alloc: Global,
    socket: Option<UdpSocket>,
    /// How long the socket waits now, in milliseconds.
    waits: u64,
    faults: u64,
    losses: u64,
}

impl<R: Net> UdpLink<R> {
    /// A link without an address yet, of which nothing has failed.
    pub fn new(alloc: Global, rt: R) -> UdpLink<R>
        ensures { (result.faults ≡ 0) × (result.losses ≡ 0) }
    {
        UdpLink {
            rt,
            alloc,
            socket: None,
            waits: 0,
            faults: 0,
            losses: 0,
        }
    }
}

/// Counts a failure.
fn counted<T>(faults: &mut u64, outcome: io::Result<T>) -> Result<T, Failed>
    ensures { faults.new ≡ fault_count_after (is_err result) faults.old }
{
    match outcome {
        Ok(value) => Ok(value),
        Err(_) => {
            *faults = faults.saturating_add(1);
            Err(Failed)
        }
    }
}

/// The text of an address.
fn address_of(alloc: Global, peer: SocketAddr) -> io::Result<Address> {
    let text = format!(in alloc; "{peer}")?;
    match Address::of(text.as_str()) {
        Some(address) => Ok(address),
        None => Err(ErrorKind::InvalidData.into()),
    }
}

/// Room for more than the six full parts that the system's own setting takes. It is lent as far as the system lends it.
fn widen(socket: &UdpSocket) {
    let mut value = [0u8; 16];
    value[..4].copy_from_slice(&4_194_304i32.to_ne_bytes());
    let _ = unsafe { libc::net::setsockopt(socket.as_raw_fd(), 1, 8, &value, 4) };
}

fn bound<R: Net>(rt: &R, address: &str) -> io::Result<UdpSocket> {
    let socket = UdpSocket::bind(rt, address)?;
    widen(&socket);
    Ok(socket)
}

/// Whether a datagram is there, which stays. It doesn't wait. Where it fails, none is there, and the next receive that waits fails too.
fn is_there(socket: &UdpSocket) -> bool {
    let mut first = [0u8; 1];
    unsafe { libc::net::recv(socket.as_raw_fd(), &mut first, PEEK_AT_ONCE) >= 0 }
}

fn received(
    alloc: Global,
    socket: &Option<UdpSocket>,
    waits: &mut u64,
    wait: u64,
    buf: &mut [u8],
) -> io::Result<Got>
    ensures long { length buf.new ≡ length buf.old }
    ensures fits { IfOk result (IsGot None None buf.new) }
{
    let Some(socket) = socket else {
        return Err(ErrorKind::NotConnected.into());
    };
    if wait == 0 {
        if !is_there(socket) {
            return Ok(Got::NothingYet);
        }
    } else if *waits != wait {
        socket.set_read_timeout(Some(Duration::from_millis(wait)))?;
        *waits = wait;
    }
    match socket.recv_from(buf) {
        Ok((len, peer)) => Ok(Got::Piece {
            from: address_of(alloc, peer)?,
            len,
        }),
        Err(e) => {
            let kind = e.kind();
            if kind == ErrorKind::WouldBlock
                || kind == ErrorKind::TimedOut
                || kind == ErrorKind::Interrupted
            {
                Ok(Got::NothingYet)
            } else {
                Err(e)
            }
        }
    }
}

/// A name isn't looked up here: that may take seconds.
fn sent(socket: &Option<UdpSocket>, to: &Address, piece: &[u8]) -> io::Result<()> {
    let Some(socket) = socket else {
        return Err(ErrorKind::NotConnected.into());
    };
    let Ok(peer) = to.as_str().parse::<SocketAddr>() else {
        return Err(ErrorKind::InvalidInput.into());
    };
    if socket.send_to(piece, peer)? == piece.len() {
        Ok(())
    } else {
        Err(ErrorKind::WriteZero.into())
    }
}

impl<R: Net> Link for UdpLink<R> {
    ghost given = { λ _. None };

    ghost sent = { λ _. None };

    ghost fault_count = { λ l. l.faults };

    ghost loss_count = { λ l. l.losses };

    fn faults(&self) -> u64 {
        self.faults
    }

    fn losses(&self) -> u64 {
        self.losses
    }

    fn bind(&mut self, address: &str) -> Result<(), Failed> {
        self.waits = 0;
        self.socket = None;
        self.socket = Some(counted(&mut self.faults, bound(&self.rt, address))?);
        Ok(())
    }

    fn send(&mut self, to: &Address, piece: &[u8]) -> Result<(), Failed> {
        counted(&mut self.losses, sent(&self.socket, to, piece))
    }

    fn receive(&mut self, wait: u64, buf: &mut [u8]) -> Result<Got, Failed> {
        match received(self.alloc, &self.socket, &mut self.waits, wait, buf) {
            Ok(got) => Ok(got),
            Err(_) => {
                self.faults = self.faults.saturating_add(1);
                Err(Failed)
            }
        }
    }
}
