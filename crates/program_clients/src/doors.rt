//! Where the command `serve` is reached with `--batches`: a port of 127.0.0.1, and a socket of the
//! file system.

ghost use Rattle.std.specs.Prelude.{true};
ghost use Rattle.program_clients.specs.Streams.{AcceptsStream};

use crate::clients::Protocol;
use crate::fault::{CausedFault, Fault};
use crate::port::{Port, is_lost};
use crate::sockets;
use crate::timed::{Stream, Timed};
use mio::unix::SourceFd;
use mio::{Events, Interest, Poll, Token};
use std::io::{Error, ErrorKind};
use std::net::{TcpListener, TcpStream};
use std::os::fd::{AsRawFd, RawFd};
use std::os::unix::net::{UnixListener, UnixStream};
use std::rt::HostRuntime;

/// A port and a socket for batches that are listened at, neither of which waits by itself.
#[derive(Drop)]
pub struct Doors<'a> {
    port: Port<'a>,
    socket: UnixListener,
    poll: Poll,
    events: Events,
    // Whether a batch comes next where both have a client.
    is_batch_next: bool,
}

// A client whose connection comes next.
#[derive(Drop)]
enum Client {
    /// At the port.
    Port(TcpStream),
    /// At the socket for batches.
    Batches(UnixStream),
    /// It was gone before its connection was accepted.
    Lost,
}

// What an accept that gave no connection comes to: no client yet, one that is lost, or a fault.
fn unaccepted(error: &Error, fault: Fault) -> Result<Option<Client>, Fault> {
    if error.kind() == ErrorKind::WouldBlock {
        return Ok(None);
    }
    if is_lost(error) {
        return Ok(Some(Client::Lost));
    }
    Err(fault)
}

// The next client at the port, where there is one.
fn at_port(doors: &Doors<'_>) -> Result<Option<Client>, Fault> {
    match doors.port.listener.accept() {
        Ok((stream, _)) => Ok(Some(Client::Port(stream))),
        Err(error) => unaccepted(&error, Fault::Port(doors.port.number)),
    }
}

// The next client at the socket, where there is one.
fn at_socket(doors: &Doors<'_>) -> Result<Option<Client>, Fault> {
    match doors.socket.accept() {
        Ok((stream, _)) => Ok(Some(Client::Batches(stream))),
        Err(error) => unaccepted(&error, Fault::Socket),
    }
}

// The next client at either, where there is one: that which was not served last goes first.
fn at_either(doors: &Doors<'_>) -> Result<Option<Client>, Fault> {
    if doors.is_batch_next {
        match at_socket(doors)? {
            Some(client) => Ok(Some(client)),
            None => at_port(doors),
        }
    } else {
        match at_port(doors)? {
            Some(client) => Ok(Some(client)),
            None => at_socket(doors),
        }
    }
}

// Watches the port and the socket, neither of which waits by itself then.
fn watch(rt: &HostRuntime, port: &TcpListener, socket: &UnixListener) -> Result<Poll, Error> {
    port.set_nonblocking(true)?;
    socket.set_nonblocking(true)?;
    let poll = Poll::new(rt)?;
    let port: RawFd = port.as_raw_fd();
    let socket: RawFd = socket.as_raw_fd();
    poll.registry()
        .register(&mut SourceFd(&port), Token(0), Interest::READABLE)?;
    poll.registry()
        .register(&mut SourceFd(&socket), Token(1), Interest::READABLE)?;
    Ok(poll)
}

impl<'a> Doors<'a> {
    /// Listens at a port of 127.0.0.1 that was bound, and at a socket of the file system.
    pub(crate) fn open(
        rt: &'a HostRuntime,
        port: Result<Port<'a>, CausedFault>,
        path: &str,
    ) -> Result<Doors<'a>, CausedFault> {
        let port = port?;
        let socket = sockets::listen(rt, path)?;
        let Ok(poll) = watch(rt, &port.listener, &socket) else {
            let fault = Fault::Socket;
            return Err(CausedFault { fault, why: None });
        };
        let Ok(events) = Events::with_capacity(rt.alloc(), 2) else {
            let fault = Fault::Memory;
            return Err(CausedFault { fault, why: None });
        };
        Ok(Doors {
            port,
            socket,
            poll,
            events,
            is_batch_next: false,
        })
    }

    // Waits until the port or the socket may have a client. Both had none when they were asked, so
    // each that comes since then ends the wait.
    fn wait(&mut self) -> Result<(), Fault> {
        match self.poll.poll(&mut self.events, None) {
            Ok(()) => Ok(()),
            Err(_) => Err(Fault::Socket),
        }
    }

    // Waits for the next client. Where both the port and the socket have some, they are served in
    // turn.
    fn next_client(&mut self) -> Result<Client, Fault> {
        for _ in 0..u64::MAX {
            if let Some(client) = at_either(self)? {
                self.is_batch_next = !matches!(&client, Client::Batches(_));
                return Ok(client);
            }
            self.wait()?;
        }
        Err(Fault::Socket)
    }

    /// Waits for the next client, as `Clients::accept`.
    pub(crate) fn accept(
        &mut self,
    ) -> Result<Option<(Protocol, Timed<'a, HostRuntime>, Timed<'a, HostRuntime>)>, Fault>
        ensures { AcceptsStream true result }
    {
        let (protocol, stream) = match self.next_client()? {
            Client::Port(stream) => (Protocol::Exchange, Stream::Port(stream)),
            Client::Batches(stream) => (Protocol::Batch, Stream::Socket(stream)),
            Client::Lost => return Ok(None),
        };
        match self.port.ways(stream) {
            Some((reader, writer)) => Ok(Some((protocol, reader, writer))),
            None => Ok(None),
        }
    }
}
