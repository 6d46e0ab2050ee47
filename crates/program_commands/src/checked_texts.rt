//! The command `check`: texts of requests are read, and no desk is asked.

ghost use Rattle.std.specs.Prelude.{◌≡◌, ◌≤◌};

use crate::malformed::{tell, tell_untold};
use crate::streams::Errors;
use crate::unread::{report_input, report_unread, wrong_byte};
use csv_records::reading::{LIMIT, RecordFault};
use csv_records::streams::{InputFault, read_input};
use desk_reasons::explaining::Reasons;
use desk_texts::request_rows::requests_in;
use program_clients::fault::Fault;
use program_files::{FileFault, NamedFiles, STANDARD_INPUT};
use std::alloc::Global;
use std::io::{Read, Write};

// Why a text was not read.
#[derive(Drop)]
enum UnreadFault {
    // For this reason, where it was not opened.
    Unreadable { why: Option<String> },
    Records(RecordFault),
}

// Adds a line for each request of a text that is malformed.
fn check_text(alloc: Global, text: &[u8], reasons: &mut Reasons<'_>) -> Result<(), RecordFault> {
    let requests = requests_in(alloc, text, reasons)?;
    match reasons.tell_all(requests.as_slice()) {
        Ok(()) => Ok(()),
        Err(_) => Err(RecordFault::Memory),
    }
}

// Writes a line for each request of the text of a reader that is malformed, and says whether one is.
fn check_reader<R: Read, E: Write>(
    alloc: Global,
    name: &str,
    reader: &mut R,
    errors: &mut Errors<E>,
) -> Result<bool, UnreadFault> {
    let bytes = match read_input(alloc, reader, LIMIT) {
        Ok(bytes) => bytes,
        Err(InputFault::Read) => return Err(UnreadFault::Unreadable { why: None }),
        Err(InputFault::TooLarge) => return Err(UnreadFault::Records(RecordFault::TooLarge)),
        Err(InputFault::Memory) => return Err(UnreadFault::Records(RecordFault::Memory)),
    };
    let text = bytes.as_slice();
    let mut reasons = Reasons::of_text(alloc, name, text, errors.room);
    let checked = check_text(alloc, text, &mut reasons);
    let malformed = tell(reasons, errors);
    match checked {
        Ok(()) => Ok(malformed > 0),
        Err(fault) => {
            errors.wrong = wrong_byte(text);
            Err(UnreadFault::Records(fault))
        }
    }
}

// The same of the text that is named: `-` is standard input, each other name a file's.
fn check_named<F: NamedFiles, R: Read, E: Write>(
    alloc: Global,
    files: &F,
    name: &str,
    input: &mut R,
    errors: &mut Errors<E>,
) -> Result<bool, UnreadFault> {
    if name == STANDARD_INPUT {
        return check_reader(alloc, name, input, errors);
    }
    match files.open(name) {
        Ok(mut file) => check_reader(alloc, name, &mut file, errors),
        Err(FileFault::Memory) => Err(UnreadFault::Records(RecordFault::Memory)),
        Err(FileFault::File { why, .. }) => Err(UnreadFault::Unreadable { why: Some(why) }),
    }
}

// Reports why the text of this name was not read.
fn report_text<F: NamedFiles, E: Write>(
    fault: UnreadFault,
    files: &F,
    name: &str,
    errors: &mut Errors<E>,
) -> u8
    ensures { result ≡ 3 }
{
    match fault {
        UnreadFault::Unreadable { why } => {
            report_unread(files, name, &why, &mut errors.writer);
            3
        }
        UnreadFault::Records(fault) => report_input(&Fault::from(fault), name, errors),
    }
}

// The exit status by whether a request is malformed.
fn checked_status(has_malformed: bool) -> u8
    ensures { result ≤ 3 }
{
    if has_malformed { 1 } else { 0 }
}

/// Reads the text of each file in turn, where `-` is standard input, and writes a line on `errors`
/// for each request that is malformed, 100 at most, and then how many more there are. Gives 0, or 1
/// where one is malformed, or 3 after a fault, which is reported and ends the command.
pub fn check_texts<F: NamedFiles, R: Read, E: Write>(
    alloc: Global,
    files: &F,
    names: &[&str],
    input: &mut R,
    errors: &mut Errors<E>,
) -> u8
    ensures { result ≤ 3 }
{
    let mut has_malformed = false;
    for name in names {
        match check_named(alloc, files, name, input, errors) {
            Ok(is_malformed) => has_malformed |= is_malformed,
            Err(fault) => {
                tell_untold(errors);
                return report_text(fault, files, name, errors);
            }
        }
    }
    tell_untold(errors);
    checked_status(has_malformed)
}
