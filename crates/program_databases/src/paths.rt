//! The database files at paths of the file system.

use crate::causes::{HostPlaces, cause_of_error};
use crate::databases::Databases;
use onix_records::StoreFault;
use program_desks::kept_desks::{Cause, OpenFault};
use sqlite::{FileFrom, Files, Start};
use sqlite_std_file::OpenError;
use std::io::ErrorKind;
use std::rt::HostRuntime;

/// The database files at paths. `start` says what the one that is opened and its log hold.
#[derive(Drop)]
pub struct Paths<'a, S: Start> {
    rt: &'a HostRuntime,
    start: S,
}

impl<'a, S: Start> Paths<'a, S> {
    /// Those of this machine.
    pub fn new(rt: &'a HostRuntime, start: S) -> Paths<'a, S> {
        Paths { rt, start }
    }
}

// Why the files of a name could not be opened: for want of memory, or they cannot be used.
fn fault_of(rt: &HostRuntime, name: &str, error: &OpenError) -> OpenFault {
    match error {
        OpenError::OutOfMemory => OpenFault::Store(StoreFault::Memory, Cause::Unknown),
        OpenError::Io(error) if error.kind() == ErrorKind::OutOfMemory => {
            OpenFault::Store(StoreFault::Memory, Cause::Unknown)
        }
        OpenError::Io(error) => {
            let cause = cause_of_error(rt, name, error.kind());
            OpenFault::Store(StoreFault::Unusable, cause)
        }
        OpenError::Busy => OpenFault::Store(StoreFault::Unusable, Cause::Busy),
        OpenError::HotJournal => OpenFault::Store(StoreFault::Unusable, Cause::Unknown),
    }
}

impl<'a, S: Start> Databases for Paths<'a, S> {
    ghost use Rattle.sqlite_wal.specs.Files.{image_at};

    // Whatever the name: `start` is used up by the one opening.
    ghost held = { λ paths name. image_at S.Start };

    type File = FileFrom<S>;

    type NotOpened = ();

    type Places = HostPlaces<'a>;

    fn places(&self) -> HostPlaces<'a> {
        HostPlaces::new(self.rt)
    }

    fn open(self, name: &str) -> Result<Files<FileFrom<S>>, (OpenFault, ())> {
        // SQLite keeps no file of such a name.
        if name == ":memory:" || name.starts_with("file:") {
            return Err((OpenFault::Store(StoreFault::Unusable, Cause::BadName), ()));
        }
        let rt = self.rt;
        match sqlite_std_file::open(rt, name, self.start) {
            Ok(files) => Ok(files),
            Err(error) => Err((fault_of(rt, name, &error), ())),
        }
    }
}
