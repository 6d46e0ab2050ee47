//! Files that were made, with the names that they are to have.

ghost use Rattle.std.specs.Prelude.{◌≡◌, IfOk, length, map, string_bytes};
ghost use Rattle.program_files.specs.Names.{part_name, part_paths, path_in};

use crate::fault::FileFault;
use crate::names::{part_name, path_in};
use std::alloc::{AllocError, Global};

/// A file that was made, and the name that it is to have.
#[derive(Drop)]
pub struct Target<'a, M> {
    pub(crate) made: &'a M,
    pub(crate) name: String,
}

// The path that the file of the part of a number is to have, of a message of this NAME in so many.
fn path_of(
    alloc: Global,
    folder: &str,
    name: &str,
    parts: u32,
    number: u32,
) -> Result<String, AllocError>
    ensures { IfOk result (λ path. string_bytes path
        ≡ path_in folder.now (part_name name.now number parts)) }
{
    let file_name = part_name(alloc, name, number, parts)?;
    path_in(alloc, folder, file_name.as_str())
}

/// The files of the parts of a message of this NAME in so many parts, of which the first is made
/// first, with their names in a folder.
pub(crate) fn targets_of<'a, M>(
    alloc: Global,
    made: &'a [M],
    folder: &str,
    name: &str,
    parts: u32,
) -> Result<Vec<Target<'a, M>>, FileFault>
    ensures { IfOk result (λ targets. map (λ target. string_bytes target.name) targets.items
        ≡ part_paths folder.now name.now parts (length made.entry.now)) }
{
    let mut targets = Vec::new(alloc);
    let mut number = 0u32;
    for file in made {
        let Some(next) = number.checked_add(1) else {
            return Err(FileFault::new(alloc, folder, "has too many parts"));
        };
        number = next;
        let path = path_of(alloc, folder, name, parts, number)?;
        targets.push(Target {
            made: file,
            name: path,
        })?;
    }
    Ok(targets)
}
