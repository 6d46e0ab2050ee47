//! A port of 127.0.0.1, whose clients come over sockets.

ghost use Rattle.std.specs.Prelude.{◌≡◌, IfErr, IfOk, IfSome, false};
ghost use Rattle.program_clients.specs.Streams.{AcceptsStream};
ghost use Rattle.program_clients.specs.declared.fault.Fault.{Fault};

use crate::clients::Protocol;
use crate::fault::{CausedFault, Fault};
use crate::timed::{Stream, Timed};
use std::io::{self, ErrorKind};
use std::net::{Ipv4Addr, SocketAddr, SocketAddrV4, TcpListener};
use std::rt::HostRuntime;
use std::time::Duration;

/// How many seconds a client may let the desk wait while it sends, and again while it takes what is
/// sent to it.
const CLIENT_SECONDS: u64 = 10;

/// A port that is listened at.
#[derive(Drop)]
pub struct Port<'a> {
    rt: &'a HostRuntime,
    pub(crate) number: u16,
    pub(crate) listener: TcpListener,
}

/// A client was gone before its connection was accepted.
pub(crate) fn is_lost(error: &io::Error) -> bool {
    matches!(
        error.kind(),
        ErrorKind::ConnectionAborted | ErrorKind::ConnectionReset
    )
}

impl<'a> Port<'a> {
    /// Listens at a port of 127.0.0.1.
    pub(crate) fn open(rt: &'a HostRuntime, number: u16) -> Result<Port<'a>, CausedFault>
        ensures port { IfOk result (λ port. port.number ≡ number) }
        ensures fault { IfErr result (λ caused. caused.fault ≡ Fault.Port number) }
    {
        let address = SocketAddr::V4(SocketAddrV4::new(Ipv4Addr::LOCALHOST, number));
        match TcpListener::bind(rt, address) {
            Ok(listener) => Ok(Port {
                rt,
                number,
                listener,
            }),
            Err(error) => Err(CausedFault {
                fault: Fault::Port(number),
                why: match error.kind() {
                    ErrorKind::AddrInUse => Some("in use: another program listens at it"),
                    ErrorKind::PermissionDenied => Some("permission denied"),
                    _ => None,
                },
            }),
        }
    }

    /// Both ways of a connection, limited in time, or `None` where it cannot be had twice.
    pub(crate) fn ways(
        &self,
        stream: Stream,
    ) -> Option<(Timed<'a, HostRuntime>, Timed<'a, HostRuntime>)>
        ensures { IfSome result (λ ways. ways.0.stream ≡ stream) }
    {
        Timed::both(self.rt, stream, Duration::from_secs(CLIENT_SECONDS))
    }

    /// Waits for the next client, as `Clients::accept`.
    pub(crate) fn accept(
        &mut self,
    ) -> Result<Option<(Protocol, Timed<'a, HostRuntime>, Timed<'a, HostRuntime>)>, Fault>
        ensures { AcceptsStream false result }
    {
        match self.listener.accept() {
            Ok((stream, _)) => match self.ways(Stream::Port(stream)) {
                Some((reader, writer)) => Ok(Some((Protocol::Exchange, reader, writer))),
                None => Ok(None),
            },
            Err(error) => {
                if is_lost(&error) {
                    Ok(None)
                } else {
                    Err(Fault::Port(self.number))
                }
            }
        }
    }
}
