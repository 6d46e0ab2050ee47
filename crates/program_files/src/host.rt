//! The files of the machine.

use crate::fault::FileFault;
use crate::files::NamedFiles;
use crate::hidden::Hidden;
use crate::host_calls::{create_beside, create_new, is_empty, is_same, or_fault};
use crate::names::path_in;
use std::env::temp_dir;
use std::fs::{self, File};
use std::io::{Error, ErrorKind, Seek, SeekFrom, Write};
use std::rt::HostRuntime;

// Of what a fault speaks that names no file.
const TEMPORARY: &str = "a temporary file";

/// The files of the machine, by their paths. Of what they hold nothing is told: no clause can say
/// it.
#[derive(Clone, Copy)]
pub struct HostFiles<'a> {
    rt: &'a HostRuntime,
}

impl<'a> HostFiles<'a> {
    /// Those of this machine.
    pub fn new(rt: &'a HostRuntime) -> HostFiles<'a> {
        HostFiles { rt }
    }
}

/// A file under a hidden path.
#[derive(Drop)]
pub struct HiddenFile {
    path: String,
}

// The path of a file for temporary use, which something may have.
fn temporary_path(rt: &HostRuntime) -> Result<String, FileFault> {
    let alloc = rt.alloc();
    let folder = or_fault(rt, TEMPORARY, temp_dir(rt))?;
    let process = std::process::id(rt.process());
    let name = format!(in alloc; ".onixdesk.{process}")?;
    Ok(path_in(alloc, folder.as_str(), name.as_str())?)
}

// A file that has no name, and so is gone with the program.
fn temporary(rt: &HostRuntime) -> Result<File, FileFault> {
    let path = temporary_path(rt)?;
    let (name, file) = create_beside(rt, path.as_str())?;
    or_fault(rt, name.as_str(), fs::remove_file(rt, name.as_str()))?;
    Ok(file)
}

// That a file is there which is not the one that is to have its name.
fn taken(rt: &HostRuntime, name: &str) -> FileFault {
    FileFault::new(rt.alloc(), name, "already exists, with different content")
}

// A fault where the file that has a name has other bytes.
fn check_same(rt: &HostRuntime, hidden: &str, name: &str) -> Result<(), FileFault> {
    if is_same(rt, hidden, name) {
        return Ok(());
    }
    Err(taken(rt, name))
}

// Whether a file system says so that gives no file a second name.
fn has_no_links(error: &Error) -> bool {
    matches!(
        error.kind(),
        ErrorKind::PermissionDenied | ErrorKind::Unsupported | ErrorKind::TooManyLinks
    )
}

// Renames a file where none can have two names. A renaming replaces what has the name, so that an
// empty file of our own takes it first. It goes where the renaming fails; a signal may leave it.
fn rename(rt: &HostRuntime, hidden: &str, name: &str) -> Result<bool, FileFault> {
    if create_new(rt, name)?.is_none() {
        return Err(taken(rt, name));
    }
    match fs::rename(rt, hidden, name) {
        Ok(()) => Ok(true),
        Err(error) => {
            let _ = fs::remove_file(rt, name);
            Err(FileFault::of(rt.alloc(), name, &error))
        }
    }
}

// Gives a file its name too. Whether it was free.
fn link(rt: &HostRuntime, hidden: &str, name: &str) -> Result<bool, FileFault> {
    match fs::hard_link(rt, hidden, name) {
        Ok(()) => Ok(true),
        Err(error) if error.kind() == ErrorKind::AlreadyExists => {
            check_same(rt, hidden, name)?;
            Ok(false)
        }
        Err(error) if has_no_links(&error) => rename(rt, hidden, name),
        Err(error) => Err(FileFault::of(rt.alloc(), name, &error)),
    }
}

// Writes a whole text to a file, and makes it outlast a loss of power. A fault names the folder.
fn write_synced(
    rt: &HostRuntime,
    file: &mut File,
    text: &[u8],
    folder: &str,
) -> Result<(), FileFault> {
    or_fault(rt, folder, file.write_all(text))?;
    or_fault(rt, folder, file.sync_all())
}

impl<'a> NamedFiles for HostFiles<'a> {
    ghost use Rattle.std.specs.Prelude.{None, ⊤};

    ghost holds = { λ files name. None };

    ghost lacks_folder = { λ files name. ⊤ };

    type Reader = File;

    type Leave = ();

    type Scratch = File;

    type Hidden = Hidden;

    type Made = HiddenFile;

    fn is_folder(&self, name: &str) -> bool {
        match fs::metadata(self.rt, name) {
            Ok(found) => found.is_dir(),
            Err(_) => false,
        }
    }

    fn size(&self, name: &str) -> Option<u64> {
        match fs::metadata(self.rt, name) {
            Ok(found) if found.is_file() => Some(found.len()),
            _ => None,
        }
    }

    fn open(&self, name: &str) -> Result<File, FileFault> {
        or_fault(self.rt, name, File::open(self.rt, name))
    }

    fn leave(&mut self) {}

    fn new_scratch(&self, _leave: &()) -> Result<File, FileFault> {
        temporary(self.rt)
    }

    fn append(&self, file: &mut File, text: &[u8]) -> Result<(), FileFault> {
        or_fault(self.rt, TEMPORARY, file.write_all(text))
    }

    fn read_scratch(&self, mut file: File) -> Result<File, FileFault> {
        or_fault(self.rt, TEMPORARY, file.seek(SeekFrom::Start(0)))?;
        Ok(file)
    }

    fn hide(&self, _leave: &(), folder: &str, name: &str) -> Result<Hidden, FileFault> {
        Hidden::take(self.rt, folder, name)
    }

    fn make(
        &self,
        hidden: &Hidden,
        folder: &str,
        number: u32,
        text: &[u8],
    ) -> Result<HiddenFile, FileFault> {
        let (path, mut file) = hidden.make(self.rt, number)?;
        match write_synced(self.rt, &mut file, text, folder) {
            Ok(()) => Ok(HiddenFile { path }),
            Err(fault) => {
                let _ = fs::remove_file(self.rt, path.as_str());
                Err(fault)
            }
        }
    }

    fn check_name(&self, made: &HiddenFile, name: &str) -> Result<(), FileFault> {
        match fs::exists(self.rt, name) {
            Ok(true) if !is_empty(self.rt, name) => check_same(self.rt, made.path.as_str(), name),
            _ => Ok(()),
        }
    }

    fn clear_name(&mut self, name: &str) {
        if is_empty(self.rt, name) {
            let _ = fs::remove_file(self.rt, name);
        }
    }

    fn give_name(&mut self, made: &HiddenFile, name: &str) -> Result<bool, FileFault> {
        link(self.rt, made.path.as_str(), name)
    }

    fn sync_folder(&self, folder: &str) -> Result<(), FileFault> {
        let file = or_fault(self.rt, folder, File::open(self.rt, folder))?;
        or_fault(self.rt, folder, file.sync_all())
    }

    fn take_name(&mut self, name: &str) {
        let _ = fs::remove_file(self.rt, name);
    }

    fn unhide(&self, made: &HiddenFile) {
        let _ = fs::remove_file(self.rt, made.path.as_str());
    }

    fn let_go(&self, hidden: &Hidden) {
        hidden.remove(self.rt);
    }
}
