//! What is said of files that cannot be read or written.

use crate::notes::PREFIX;
use crate::shown::SHOWN;
use program_files::FileFault;
use std::alloc::Global;
use std::io::Write;
use watched_output::shown_texts::push_shown;

/// Writes the line of a fault. What cannot be written of it is lost: there is nowhere left to say so.
pub fn write_fault<E: Write>(alloc: Global, fault: &FileFault, errors: &mut E) {
    match fault {
        FileFault::File { name, why } => {
            let mut shown = String::new(alloc);
            let _ = push_shown(&mut shown, name.as_str(), SHOWN);
            let _ = write!(errors, "{PREFIX}{shown}: {why}\n");
        }
        FileFault::Memory => {
            let _ = write!(errors, "{PREFIX}memory\n");
        }
    }
}
