//! What the files of a name, or the system, show of why no desk is opened in them.

use crate::databases::Places;
use program_desks::kept_desks::Cause;
use std::fs::{File, Metadata, canonicalize, metadata};
use std::hash::{BuildHasher, RandomState};
use std::io::{Error, ErrorKind, Read};
use std::rt::HostRuntime;

// What is missing where there is no file of a name: the file alone, or its folder.
fn missing(rt: &HostRuntime, name: &str) -> Cause {
    let Some((folder, _)) = name.rsplit_once('/') else {
        return Cause::Missing;
    };
    match metadata(rt, folder) {
        Err(error) if error.kind() == ErrorKind::NotFound && !folder.is_empty() => Cause::NoFolder,
        _ => Cause::Missing,
    }
}

// What an error of the system says of the file of a name.
fn cause_of_kind(rt: &HostRuntime, name: &str, kind: ErrorKind) -> Cause {
    match kind {
        ErrorKind::NotFound => missing(rt, name),
        ErrorKind::PermissionDenied => Cause::Denied,
        ErrorKind::IsADirectory => Cause::Folder,
        ErrorKind::NotADirectory => Cause::InFile,
        ErrorKind::StorageFull => Cause::Full,
        _ => Cause::Unknown,
    }
}

// Whether the file of a name begins as a database does. One that cannot be read does not.
fn is_database(rt: &HostRuntime, name: &str) -> bool {
    let Ok(mut file) = File::open(rt, name) else {
        return false;
    };
    let mut head = [0u8; 16];
    file.read(&mut head).is_ok() && head.starts_with(b"SQLite format 3\0")
}

// What a file shows that was found.
fn cause_of_file(rt: &HostRuntime, name: &str, found: &Metadata) -> Cause {
    if found.is_dir() {
        Cause::Folder
    } else if !found.is_file() {
        Cause::Special
    } else if found.len() == 0 {
        Cause::Empty
    } else if is_database(rt, name) {
        Cause::NoDesk
    } else {
        Cause::NoDatabase
    }
}

/// What an error of the system says of why the file of a name, or its log, is not opened. That of a
/// folder may have no kind of its own, and what is missing beside a file that is there is its log.
pub(crate) fn cause_of_error(rt: &HostRuntime, name: &str, kind: ErrorKind) -> Cause {
    match metadata(rt, name) {
        Ok(found) if found.is_dir() => Cause::Folder,
        Ok(_) if kind == ErrorKind::NotFound => Cause::NoLog,
        _ => cause_of_kind(rt, name, kind),
    }
}

// What the file of a name shows of why it is no desk's, as it is found now.
fn cause_of(rt: &HostRuntime, name: &str) -> Cause {
    match metadata(rt, name) {
        Ok(found) => cause_of_file(rt, name, &found),
        Err(error) => cause_of_kind(rt, name, error.kind()),
    }
}

/// What lies at the paths of the machine.
#[derive(Clone, Copy)]
pub struct HostPlaces<'a> {
    rt: &'a HostRuntime,
}

impl<'a> HostPlaces<'a> {
    /// What lies at those of this one.
    pub fn new(rt: &'a HostRuntime) -> HostPlaces<'a> {
        HostPlaces { rt }
    }
}

impl<'a> Places for HostPlaces<'a> {
    fn file(&self, name: &str) -> Result<Metadata, Error> {
        metadata(self.rt, name)
    }

    fn log(&self, name: &str) -> Result<Metadata, Error> {
        let real = canonicalize(self.rt, name)?;
        match format!(in self.rt.alloc(); "{}-wal", real.as_str()) {
            Ok(log) => metadata(self.rt, log.as_str()),
            Err(_) => Err(ErrorKind::OutOfMemory.into()),
        }
    }

    fn cause(&self, name: &str) -> Cause {
        cause_of(self.rt, name)
    }

    fn number(&self) -> Option<u64> {
        match RandomState::new(self.rt) {
            Ok(state) => Some(state.hash_one(&0u8)),
            Err(_) => None,
        }
    }
}
