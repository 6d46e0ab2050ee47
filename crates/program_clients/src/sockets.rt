//! The sockets of the file system at which open desks take batches.

ghost use Rattle.std.specs.Prelude.{◌≡◌};

use crate::fault::{CausedFault, Fault};
use crate::open_desks::OpenDesks;
use csv_records::streams::{WriteFault, write_whole};
use std::fs::{Metadata, Permissions, remove_file, set_permissions, symlink_metadata};
use std::io::{Error, ErrorKind};
use std::net::Shutdown;
use std::os::unix::fs::{FileTypeExt, PermissionsExt};
use std::os::unix::net::{UnixListener, UnixStream};
use std::rt::HostRuntime;

/// Who may connect: the program's user and group.
const MODE: u32 = 0o660;

const TAKEN: &str = "another program listens at it, or this user may not use it";

// The fault of a socket at which nothing can be listened.
fn unheard(why: &'static str) -> CausedFault {
    CausedFault {
        fault: Fault::Socket,
        why: Some(why),
    }
}

// Takes away a socket file at which nobody listens, as a desk that was stopped leaves it. One that
// answers belongs to a desk that is open, and any other file is not the program's.
fn take_away(rt: &HostRuntime, path: &str, found: &Metadata) -> Result<(), CausedFault> {
    if !found.file_type().is_socket() {
        return Err(unheard("a file that is not a socket"));
    }
    match UnixStream::connect(rt, path) {
        Err(error) if error.kind() == ErrorKind::ConnectionRefused => {}
        _ => return Err(unheard(TAKEN)),
    }
    match remove_file(rt, path) {
        Ok(()) => Ok(()),
        Err(_) => Err(unheard(TAKEN)),
    }
}

// Why no socket can be made at a path, by what was found there before.
fn why_unmade(found: &Result<Metadata, Error>) -> &'static str {
    match found {
        Err(error) if error.kind() != ErrorKind::NotFound => {
            "its folder is not to be used by this user"
        }
        _ => "its folder is missing, this user may make no file there, or the name is too long",
    }
}

/// Listens at a socket of the file system that the program's user and group alone may use. A socket
/// file that is left over is replaced; one that answers, or a file of another kind, is a fault.
pub(crate) fn listen(rt: &HostRuntime, path: &str) -> Result<UnixListener, CausedFault> {
    let found = symlink_metadata(rt, path);
    if let Ok(found) = &found {
        take_away(rt, path, found)?;
    }
    let Ok(listener) = UnixListener::bind(rt, path) else {
        return Err(unheard(why_unmade(&found)));
    };
    match set_permissions(rt, path, Permissions::from_mode(MODE)) {
        Ok(()) => Ok(listener),
        Err(_) => Err(unheard(TAKEN)),
    }
}

// Why a desk that is open does not answer at a socket, as it is found now.
fn why_unanswered(rt: &HostRuntime, path: &str) -> &'static str {
    match symlink_metadata(rt, path) {
        Ok(found) if found.file_type().is_socket() => {
            "no desk listens at it, this user may not use it, or the desk has met a fault"
        }
        Ok(_) => "a file that is not a socket",
        Err(error) if error.kind() == ErrorKind::NotFound => {
            "no such socket; correct the name behind --batches, or, if no desk is served, ask the file itself: onixdesk --db FILE batch"
        }
        Err(_) => "its folder is not to be used by this user",
    }
}

// Sends a text, and that it is all, so that the desk begins to answer. Whether it was sent.
fn send_whole(stream: &mut UnixStream, text: &[u8]) -> bool {
    match write_whole(stream, text) {
        Ok(()) => stream.shutdown(Shutdown::Write).is_ok(),
        Err(WriteFault) => false,
    }
}

/// The sockets of the file system.
#[derive(Clone, Copy)]
pub struct Sockets<'a> {
    rt: &'a HostRuntime,
}

impl<'a> Sockets<'a> {
    /// Those of this machine.
    pub fn new(rt: &'a HostRuntime) -> Sockets<'a> {
        Sockets { rt }
    }
}

impl<'a> OpenDesks for Sockets<'a> {
    // A socket tells nothing of what was sent, nor of what comes.
    ghost sends = { λ name text old new came. new ≡ old };

    type Reader = UnixStream;

    fn send(&mut self, name: &str, text: &[u8]) -> Result<UnixStream, &'static str> {
        let Ok(mut stream) = UnixStream::connect(self.rt, name) else {
            return Err(why_unanswered(self.rt, name));
        };
        if send_whole(&mut stream, text) {
            return Ok(stream);
        }
        Err(why_unanswered(self.rt, name))
    }
}
