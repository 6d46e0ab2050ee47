//! Where a desk that serves is reached.

use crate::clients::{Clients, Protocol};
use crate::doors::Doors;
use crate::fault::{CausedFault, Fault};
use crate::port::Port;
use crate::timed::Timed;
use std::rt::HostRuntime;

/// Where a desk that serves is reached: at a port, and at a socket for batches where one is named.
pub trait Entrances {
    ghost use Rattle.std.specs.Prelude.{◌≡◌, IfOk, is_some};

    /// The clients of what was opened.
    type Opened: Clients + Drop;

    /// Binds a port, so that nobody else has it from then on. Whether it could be is told where it
    /// is opened.
    fn bind(&mut self, port: u16);

    /// Opens a port, the one that was bound where there is one, and where one is named a socket of
    /// the file system for batches, which come at no port.
    fn open(&mut self, port: u16, batches: Option<&str>) -> Result<Self::Opened, CausedFault>
        ensures { IfOk result (λ clients.
            Self.Opened.takes_batches clients ≡ is_some batches.entry) };
}

/// What is listened at: a port, or a port and a socket for batches.
#[derive(Drop)]
pub enum Opened<'a> {
    Port(Port<'a>),
    Both(Doors<'a>),
}

impl<'a> Clients for Opened<'a> {
    ghost use Rattle.program_clients.specs.Streams.{are_both};

    ghost takes_batches = { are_both };

    type Reader = Timed<'a, HostRuntime>;

    type Writer = Timed<'a, HostRuntime>;

    fn accept(
        &mut self,
    ) -> Result<Option<(Protocol, Timed<'a, HostRuntime>, Timed<'a, HostRuntime>)>, Fault> {
        match self {
            Opened::Port(port) => port.accept(),
            Opened::Both(doors) => doors.accept(),
        }
    }

    fn disconnect(&mut self, reader: Timed<'a, HostRuntime>, writer: Timed<'a, HostRuntime>) {
        drop(writer);
        reader.into_stream().shut_down();
    }
}

/// The ports of 127.0.0.1, and the sockets of the file system.
#[derive(Drop)]
pub struct HostEntrances<'a> {
    rt: &'a HostRuntime,
    // The port that was bound, or why it could not be.
    bound: Option<Result<Port<'a>, CausedFault>>,
}

impl<'a> HostEntrances<'a> {
    /// Those of the machine, of which nothing is bound yet.
    pub fn new(rt: &'a HostRuntime) -> HostEntrances<'a> {
        HostEntrances { rt, bound: None }
    }

    // The port that was bound, or that is bound now.
    fn take_port(&mut self, port: u16) -> Result<Port<'a>, CausedFault> {
        match self.bound.take() {
            Some(opened) => opened,
            None => Port::open(self.rt, port),
        }
    }
}

impl<'a> Entrances for HostEntrances<'a> {
    type Opened = Opened<'a>;

    fn bind(&mut self, port: u16) {
        self.bound = Some(Port::open(self.rt, port));
    }

    fn open(&mut self, port: u16, batches: Option<&str>) -> Result<Opened<'a>, CausedFault> {
        let port = self.take_port(port);
        match batches {
            None => Ok(Opened::Port(port?)),
            Some(socket) => Ok(Opened::Both(Doors::open(self.rt, port, socket)?)),
        }
    }
}
