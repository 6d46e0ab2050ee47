//! Calls on the machine's files, with the name of the file in each fault.

ghost use Rattle.std.specs.Prelude.{◌≡◌, IfOk};

use crate::fault::FileFault;
use std::alloc::{AllocError, Global};
use std::fs::{self, File};
use std::io::ErrorKind;
use std::rt::HostRuntime;

// How many names are tried for a file that nobody has.
const TRIES: u32 = 100;

/// What a call on a file gave; where that is an error, the fault of the file of this name.
pub(crate) fn or_fault<T>(
    rt: &HostRuntime,
    name: &str,
    given: std::io::Result<T>,
) -> Result<T, FileFault>
    ensures { IfOk result (λ value. given ≡ Ok value) }
{
    match given {
        Ok(value) => Ok(value),
        Err(error) => Err(FileFault::of(rt.alloc(), name, &error)),
    }
}

/// A new file of that name. `None` where something has the name.
pub(crate) fn create_new(rt: &HostRuntime, path: &str) -> Result<Option<File>, FileFault> {
    match File::create_new(rt, path) {
        Ok(file) => Ok(Some(file)),
        Err(error) if error.kind() == ErrorKind::AlreadyExists => Ok(None),
        Err(error) => Err(FileFault::of(rt.alloc(), path, &error)),
    }
}

// A name, with its number behind it where it is not the first.
fn numbered(alloc: Global, path: &str, number: u32) -> Result<String, AllocError> {
    if number == 0 {
        String::from_str(alloc, path)
    } else {
        format!(in alloc; "{path}-{number}")
    }
}

/// A new file at the first of the names that nobody has: the one given, then with a number behind
/// it.
pub(crate) fn create_beside(rt: &HostRuntime, path: &str) -> Result<(String, File), FileFault> {
    for number in 0..TRIES {
        let name = numbered(rt.alloc(), path, number)?;
        if let Some(file) = create_new(rt, name.as_str())? {
            return Ok((name, file));
        }
    }
    Err(FileFault::new(rt.alloc(), path, "is there"))
}

/// Whether a name is that of an empty regular file, itself and not by a link.
pub(crate) fn is_empty(rt: &HostRuntime, name: &str) -> bool {
    match fs::symlink_metadata(rt, name) {
        Ok(found) => found.is_file() && found.len() == 0,
        Err(_) => false,
    }
}

// Whether the second is a file as long as the first.
fn has_same_length(rt: &HostRuntime, one: &str, other: &str) -> bool {
    match (fs::metadata(rt, one), fs::metadata(rt, other)) {
        (Ok(ours), Ok(theirs)) => theirs.is_file() && theirs.len() == ours.len(),
        _ => false,
    }
}

/// Whether the second is a file that has the bytes of the first, which are those of a message.
pub(crate) fn is_same(rt: &HostRuntime, one: &str, other: &str) -> bool {
    if !has_same_length(rt, one, other) {
        return false;
    }
    match (fs::read(rt, one), fs::read(rt, other)) {
        (Ok(ours), Ok(theirs)) => ours.as_slice() == theirs.as_slice(),
        _ => false,
    }
}
