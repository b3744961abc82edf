//! The runtime, whose calls are told on standard error where they fail: the bind of a socket, and the start of a process.

ghost use Rattle.std.specs.Prelude.{◌≤◌, length, IfOk};

use std::alloc::Allocator;
use std::io;
use std::net::{Net, SocketAddr, UdpSocket};
use std::process::{Child, Command, Processes, Stdio};

/// The runtime for sockets and processes.
#[derive(Clone, Copy)]
pub struct Told<'a> {
    rt: &'a HostRuntime,
}

impl<'a> Told<'a> {
    /// The runtime, whose failed calls are told.
    pub fn new(rt: &'a HostRuntime) -> Told<'a> {
        Told { rt }
    }
}

impl Net for Told<'_> {
    type Stream = <HostRuntime as Net>::Stream;

    type Listener = <HostRuntime as Net>::Listener;

    fn bind(&self, addr: SocketAddr) -> io::Result<Self::Listener> {
        self.rt.bind(addr)
    }

    fn connect(&self, addr: SocketAddr) -> io::Result<Self::Stream> {
        self.rt.connect(addr)
    }

    fn bind_udp(&self, addr: SocketAddr) -> io::Result<UdpSocket> {
        let bound = self.rt.bind_udp(addr);
        if let Err(error) = &bound {
            let _written = eprintln!(self.rt; "xtfs: cannot bind {addr}: {error}");
        }
        bound
    }

    fn lookup_host(&self, host: &str, port: u16, found: &mut [SocketAddr]) -> io::Result<usize> {
        let count = self.rt.lookup_host(host, port, found);
        if let Err(error) = &count {
            let _written = eprintln!(self.rt; "xtfs: cannot look up {host}: {error}");
        }
        count
    }
}

impl Processes for Told<'_> {
    type Started = <HostRuntime as Processes>::Started;

    fn spawn<B: Allocator + Clone>(
        &self,
        command: &Command<B>,
        stdin: &Stdio,
        stdout: &Stdio,
        stderr: &Stdio,
    ) -> io::Result<Child<Self::Started>> {
        let started = self.rt.spawn(command, stdin, stdout, stderr);
        if let Err(error) = &started {
            let program = command.get_program();
            let _written = eprintln!(self.rt; "xtfs: cannot start {program}: {error}");
        }
        started
    }
}
