//! Hidden names in a folder, under which the parts of a message are made.

use crate::fault::FileFault;
use crate::host_calls::{create_new, or_fault};
use crate::names::path_in;
use std::alloc::{AllocError, Global};
use std::fs::{self, File, TryLockError};
use std::os::unix::fs::MetadataExt;
use std::rt::HostRuntime;

// How many names are tried.
const TRIES: u32 = 100;

/// Hidden names that no other run takes while this one lives: it holds the lock of a file that has
/// the first of them. Those of a run that has ended, whatever ended it, are taken anew.
#[derive(Drop)]
pub struct Hidden {
    path: String,
    // Held, and let go of with the value.
    lock: File,
}

// A file that another run may have left. What is no regular file stays unopened.
fn open_left(rt: &HostRuntime, path: &str) -> Option<File> {
    match fs::symlink_metadata(rt, path) {
        Ok(found) if found.is_file() => File::open(rt, path).ok(),
        _ => None,
    }
}

// Whether a path is that of an open file: who had the lock before may have removed it.
fn is_path_of(rt: &HostRuntime, path: &str, file: &File) -> bool {
    match (fs::symlink_metadata(rt, path), file.metadata()) {
        (Ok(named), Ok(open)) => named.dev() == open.dev() && named.ino() == open.ino(),
        _ => false,
    }
}

// Whether the lock of a file could be taken. Where a file system has none, a new file is ours, and
// another one may be that of a run that lives. With a fault a run that lives has it.
fn is_locked(rt: &HostRuntime, path: &str, file: &File, is_new: bool) -> Result<bool, FileFault> {
    match file.try_lock() {
        Ok(()) => Ok(true),
        Err(TryLockError::WouldBlock) => {
            let why = "another run makes files of this NAME";
            Err(FileFault::new(rt.alloc(), path, why))
        }
        Err(TryLockError::Error(_)) => Ok(is_new),
    }
}

// The file of that name, locked. None where who had the lock has just removed it, or the name is
// that of something else. With a fault a run that lives has it.
fn take_lock(rt: &HostRuntime, path: &str) -> Result<Option<File>, FileFault> {
    let made = create_new(rt, path)?;
    let is_new = made.is_some();
    let found = match made {
        Some(file) => Some(file),
        None => open_left(rt, path),
    };
    match found {
        Some(file) if is_locked(rt, path, &file, is_new)? && is_path_of(rt, path, &file) => {
            Ok(Some(file))
        }
        _ => Ok(None),
    }
}

// The path of the file of that number which a message of that NAME may lock.
fn lock_path(alloc: Global, folder: &str, name: &str, number: u32) -> Result<String, AllocError> {
    let file_name = format!(in alloc; ".{name}.onixdesk.{number}")?;
    path_in(alloc, folder, file_name.as_str())
}

impl Hidden {
    /// The first names for a message of that NAME that nothing else has. With a fault a run that
    /// lives has them, since the two would give the same files their names.
    pub(crate) fn take(rt: &HostRuntime, folder: &str, name: &str) -> Result<Hidden, FileFault> {
        for number in 0..TRIES {
            let path = lock_path(rt.alloc(), folder, name, number)?;
            if let Some(lock) = take_lock(rt, path.as_str())? {
                return Ok(Hidden { path, lock });
            }
        }
        let why = "has too many hidden files of one NAME";
        Err(FileFault::new(rt.alloc(), folder, why))
    }

    /// A new file for the part of that number, and its path. One that a run left that has ended is
    /// removed.
    pub(crate) fn make(&self, rt: &HostRuntime, part: u32) -> Result<(String, File), FileFault> {
        let alloc = rt.alloc();
        let lock = self.path.as_str();
        let path = format!(in alloc; "{lock}.{part}")?;
        let _ = fs::remove_file(rt, path.as_str());
        let file = or_fault(rt, path.as_str(), File::create_new(rt, path.as_str()))?;
        Ok((path, file))
    }

    /// Removes the file that is locked, once no part has a hidden name.
    pub(crate) fn remove(&self, rt: &HostRuntime) {
        let _ = fs::remove_file(rt, self.path.as_str());
    }
}
