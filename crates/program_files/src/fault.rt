//! Files that cannot be opened, read or written.

ghost use Rattle.std.specs.Prelude.{IfOk};
ghost use Rattle.program_files.specs.Faults.{Says};

use std::alloc::{AllocError, AllocFailed, Global};
use std::io::{Error, ErrorKind};

/// Why a file cannot be opened, read or written.
#[derive(Drop)]
pub enum FileFault {
    /// The file of this name cannot be, for this reason.
    File { name: String, why: String },
    /// Memory ran out.
    Memory,
}

impl From<AllocError> for FileFault {
    fn from(_: AllocError) -> FileFault {
        FileFault::Memory
    }
}

impl<T: Drop> From<AllocFailed<T>> for FileFault {
    fn from(_: AllocFailed<T>) -> FileFault {
        FileFault::Memory
    }
}

// The fault of the file of this name, by these words.
fn fault_of(alloc: Global, name: &str, why: &str) -> Result<FileFault, AllocError>
    ensures { IfOk result (Says name.now why.now) }
{
    Ok(FileFault::File {
        name: String::from_str(alloc, name)?,
        why: String::from_str(alloc, why)?,
    })
}

impl FileFault {
    /// That of the file of this name, by these words.
    pub fn new(alloc: Global, name: &str, why: &str) -> FileFault
        ensures { Says name.now why.now result }
    {
        match fault_of(alloc, name, why) {
            Ok(fault) => fault,
            Err(AllocError) => FileFault::Memory,
        }
    }

    /// That of the file of this name, by what the system says, without its number.
    pub fn of(alloc: Global, name: &str, error: &Error) -> FileFault {
        if error.kind() == ErrorKind::OutOfMemory {
            return FileFault::Memory;
        }
        let Ok(text) = format!(in alloc; "{error}") else {
            return FileFault::Memory;
        };
        let text = text.as_str();
        let why = match text.split_once(" (os error ") {
            Some((why, _)) => why,
            None => text,
        };
        FileFault::new(alloc, name, why)
    }
}
