ghost use Rattle.std.specs.Prelude.{◌≤◌, length};

use crate::OTHERWISE;
use node_links::{Got, Link, UdpLink};
use std::alloc::Global;
use std::io;
use std::net::{Net, UdpSocket};
use std::test::*;
use xt_base::Address;

/// An address of the loopback that nobody has bound.
fn free_address<R: Net>(rt: &R, alloc: Global) -> io::Result<String> {
    let socket = UdpSocket::bind(rt, "127.0.0.1:0")?;
    let address = socket.local_addr()?;
    Ok(format!(in alloc; "{address}")?)
}

/// Whether a link receives these four bytes within a second, and nothing after them.
fn receives<L: Link>(link: &mut L, bytes: &[u8], buf: &mut [u8]) -> bool
    requires { 65536 ≤ length buf.old }
{
    matches!(link.receive(1000, buf), Ok(Got::Piece { from: _, len: 4 }))
        && buf.starts_with(bytes)
        && matches!(link.receive(1, buf), Ok(Got::NothingYet))
}

/// Whether a link receives these four bytes without waiting, in one of a million looks: the system may take its time to deliver them.
fn finds<L: Link>(link: &mut L, bytes: &[u8], buf: &mut [u8]) -> bool
    requires { 65536 ≤ length buf.old }
{
    for _ in 0..1_000_000u32 {
        match link.receive(0, buf) {
            Ok(Got::Piece { from: _, len }) => return len == 4 && buf.starts_with(bytes),
            Ok(Got::NothingYet) => {}
            Err(_) => return false,
        }
    }
    false
}

/// Whether one link reaches another one at this address, which doesn't wait where it isn't to.
fn reaches<L: Link>(one: &mut L, other: &mut L, address: &str, buf: &mut [u8]) -> bool
    requires { 65536 ≤ length buf.old }
{
    let Some(to) = Address::of(address) else {
        return false;
    };
    one.bind("127.0.0.1:0").is_ok()
        && other.bind(address).is_ok()
        && matches!(other.receive(0, buf), Ok(Got::NothingYet))
        && one.send(&to, b"sent").is_ok()
        && receives(other, b"sent", buf)
        && one.send(&to, b"next").is_ok()
        && finds(other, b"next", buf)
}

/// Whether an address that a link has is refused to another one, which counts that.
fn is_refused<L: Link>(third: &mut L, address: &str) -> bool {
    third.bind(address).is_err() && third.faults() == 1
}

#[test]
fn a_socket_takes_what_another_one_sends(rt: HostRuntime) {
    let alloc = rt.alloc();
    let address = free_address(&rt, alloc).ok().expect(&rt, OTHERWISE);
    let mut buf = vec![in alloc; 0u8; 65536].ok().expect(&rt, OTHERWISE);
    let mut one = UdpLink::new(alloc, &rt);
    let mut other = UdpLink::new(alloc, &rt);
    let mut third = UdpLink::new(alloc, &rt);
    assert!(rt; reaches(&mut one, &mut other, address.as_str(), buf.as_mut_slice()));
    assert!(rt; is_refused(&mut third, address.as_str()));
    assert!(rt; one.faults() == 0 && one.losses() == 0);
}
