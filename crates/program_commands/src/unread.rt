//! Why a file is not read, or a text has no records.

ghost use Rattle.std.specs.Prelude.{◌≡◌, ◌+◌, ◌==◌, ℕ, IsUtf8, MatchOption, Some, count_by, slice_get, take};
ghost use Rattle.std.specs.Str.{IsValidUpTo};

use crate::streams::Errors;
use program_clients::fault::{Fault, report, report_file, why_unread};
use program_files::{NamedFiles, STANDARD_INPUT};
use std::io::Write;

/// Writes the line of a file that cannot be read, and in a second what the system says of it: WHY,
/// where it was not opened. Of standard input it says nothing more.
pub(crate) fn report_unread<F: NamedFiles, E: Write>(
    files: &F,
    name: &str,
    why: &Option<String>,
    errors: &mut E,
) {
    match why {
        Some(why) => report_file(name, why.as_str(), errors),
        None => {
            let is_folder = name != STANDARD_INPUT && files.is_folder(name);
            report_file(name, why_unread(is_folder), errors);
        }
    }
}

/// A byte of a text that is not UTF-8, and its line, counted from 1.
#[derive(Clone, Copy)]
pub struct WrongByte {
    byte: u8,
    line: u64,
}

/// The first byte of a text that is not UTF-8.
pub(crate) fn wrong_byte(text: &[u8]) -> Option<WrongByte>
    ensures { MatchOption result (IsUtf8 text.now) (λ wrong. (place : ℕ)
        × IsValidUpTo text.now place × (slice_get text.now place ≡ Some wrong.byte)
        × (wrong.line ≡ count_by (λ b. b == 10) (take place text.now) + 1)) }
{
    let place = match std::str::from_utf8(text) {
        Ok(_) => return None,
        Err(error) => error.valid_up_to(),
    };
    let ends = text[..place].iter().filter(|byte| **byte == b'\n').count();
    Some(WrongByte {
        byte: text[place],
        line: ends as u64 + 1,
    })
}

/// Reports a fault of the input or of the text of this name, which may be empty, and in a second
/// line, of a text that has no records, where it is not UTF-8 or how long it may be.
pub(crate) fn report_input<E: Write>(fault: &Fault, name: &str, errors: &mut Errors<E>) -> u8
    ensures { result ≡ 3 }
{
    let status = report(fault, &mut errors.writer);
    let mark = if name.is_empty() { "" } else { ": " };
    let writer = &mut errors.writer;
    let _ = match (fault, errors.wrong) {
        (Fault::InputNotUtf8, Some(WrongByte { byte, line })) => write!(
            writer,
            "onixdesk: {name}{mark}line {line}: byte {byte:02X} is not UTF-8; save the text as UTF-8, or write: iconv -f WINDOWS-1252 -t UTF-8 FILE\n"
        ),
        (Fault::InputTooLarge, _) => write!(
            writer,
            "onixdesk: {name}{mark}more than 4,194,304 bytes; cut a batch between two requests, and convert a feed into more parts (onixdesk convert --parts P)\n"
        ),
        _ => Ok(()),
    };
    status
}
