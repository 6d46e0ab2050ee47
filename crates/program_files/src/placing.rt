//! Giving the files of a message their names, all of them or none.

use crate::fault::FileFault;
use crate::files::NamedFiles;
use crate::targets::Target;
use std::alloc::Global;

// A fault where a file with another text has one of the names.
fn check_names<F: NamedFiles>(files: &F, targets: &[Target<'_, F::Made>]) -> Result<(), FileFault> {
    for target in targets {
        files.check_name(target.made, target.name.as_str())?;
    }
    Ok(())
}

// Takes the names away from empty files, which count as not there.
fn clear_names<F: NamedFiles>(files: &mut F, targets: &[Target<'_, F::Made>]) {
    for target in targets {
        files.clear_name(target.name.as_str());
    }
}

// Gives each file its name, and adds the names that were free.
fn give_names<'a, F: NamedFiles>(
    files: &mut F,
    targets: &'a [Target<'_, F::Made>],
    given: &mut Vec<&'a str>,
) -> Result<(), FileFault> {
    for target in targets {
        // Before it is given, so that none is forgotten.
        given.reserve(1)?;
        if files.give_name(target.made, target.name.as_str())? {
            given.push(target.name.as_str())?;
        }
    }
    Ok(())
}

// Takes names away from their files.
fn take_names<F: NamedFiles>(files: &mut F, names: &[&str]) {
    for name in names {
        files.take_name(name);
    }
}

// Gives each file its name for good, and adds the names that were free.
fn name_for_good<'a, F: NamedFiles>(
    files: &mut F,
    folder: &str,
    targets: &'a [Target<'_, F::Made>],
    given: &mut Vec<&'a str>,
) -> Result<(), FileFault> {
    give_names(files, targets, given)?;
    files.sync_folder(folder)
}

/// Gives files of this folder their names, all of them or, with a fault, none where those that were
/// given can be taken back. A file that has a name already keeps it: that is a fault, unless it has
/// the same text, or is empty, which counts as not there.
pub(crate) fn name_all<F: NamedFiles>(
    alloc: Global,
    files: &mut F,
    folder: &str,
    targets: &[Target<'_, F::Made>],
) -> Result<(), FileFault> {
    check_names(files, targets)?;
    clear_names(files, targets);
    let mut given = Vec::new(alloc);
    match name_for_good(files, folder, targets, &mut given) {
        Ok(()) => Ok(()),
        Err(fault) => {
            take_names(files, given.as_slice());
            Err(fault)
        }
    }
}
