//! What can go wrong while the program runs, and the line that says so.

ghost use Rattle.std.specs.Prelude.{◌≡◌, [], codes, if◌then◌else◌};

use csv_records::reading::RecordFault;
use onix_records::StoreFault;
use std::io::Write;
use thiserror::Error;

/// A fault that ends the program with status 3.
#[derive(Debug, Drop, Error)]
pub enum Fault {
    #[error("onixdesk: input: too large\n")]
    InputTooLarge,
    #[error("onixdesk: input: not UTF-8\n")]
    InputNotUtf8,
    #[error("onixdesk: input: read\n")]
    InputRead,
    #[error("onixdesk: output\n")]
    Output,
    #[error("onixdesk: port {0}\n")]
    Port(u16),
    #[error("onixdesk: socket\n")]
    Socket,
    #[error("onixdesk: memory\n")]
    Memory,
    #[error("onixdesk: storage: {0}\n")]
    Storage(#[from] StoreFault),
    #[error("onixdesk: storage: other version {0}\n")]
    StorageOtherVersion(u32),
}

/// A fault, and why it came, as far as the system says it.
#[derive(Drop)]
pub struct CausedFault {
    pub fault: Fault,
    pub why: Option<&'static str>,
}

impl From<RecordFault> for Fault {
    fn from(fault: RecordFault) -> Fault {
        match fault {
            RecordFault::TooLarge => Fault::InputTooLarge,
            RecordFault::NotUtf8 => Fault::InputNotUtf8,
            RecordFault::Memory => Fault::Memory,
        }
    }
}

/// Writes the line of a fault, and gives the status of a program that ends by it. A line that
/// cannot be written is lost: there is nowhere left to say so.
pub fn report<E: Write>(fault: &Fault, errors: &mut E) -> u8
    ensures { result ≡ 3 }
{
    let _ = write!(errors, "{fault}");
    3
}

/// Writes a second line behind that of a fault, which says why. As with `report`, it may be lost.
pub fn report_why<E: Write>(name: &str, why: &str, errors: &mut E) {
    let _ = write!(errors, "onixdesk: {name}: {why}\n");
}

/// Writes the line of a file that cannot be read, and where the system says why, a second with that
/// and what to do. As with `report`, they may be lost.
pub fn report_file<E: Write>(name: &str, why: &str, errors: &mut E) {
    let _ = write!(errors, "onixdesk: file: {name}\n");
    if !why.is_empty() {
        let cure = match why {
            "No such file or directory" => "; correct the name",
            "Is a directory" => "; write the name of a file in it",
            _ => "",
        };
        let _ = write!(errors, "onixdesk: {name}: {why}{cure}\n");
    }
}

/// What is said of a name whose file was opened and cannot be read, by whether it is a folder's.
pub fn why_unread(is_folder: bool) -> &'static str
    ensures { result.now ≡ (if is_folder then codes "Is a directory" else []) }
{
    if is_folder { "Is a directory" } else { "" }
}
