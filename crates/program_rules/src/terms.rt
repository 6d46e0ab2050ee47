//! The table of the shop's terms in a file, whose faults are told with their cause.

ghost use Rattle.std.specs.Prelude.{◌≡◌, ◌≤◌, ℕ, List, Err, IfErr, IfOk, Ok};
ghost use Rattle.csv_records.specs.RecordTexts.{limit};
ghost use Rattle.csv_records.specs.Streams.{InputFits};
ghost use Rattle.feed_terms.specs.Reading.{TermsFit};
ghost use Rattle.feed_terms.specs.declared.reading.ReadFault.{ReadFault};
ghost use Rattle.program_rules.specs.TermsRead.{IsUnreadTable, ReadsTerms, terms_status};

use crate::faults::write_fault;
use crate::keys::TERMS;
use crate::unread::read_text;
use csv_records::streams::InputFault;
use feed_terms::reading::{ReadFault, terms_of};
use feed_terms::table::Terms;
use feed_terms::term::TermsFault;
use program_clients::fault::{Fault, report};
use program_files::NamedFiles;
use std::alloc::Global;
use std::io::Write;

// Reports why a file has no text, as far as that is not done, and gives the status.
fn report_unread<E: Write>(fault: &InputFault, errors: &mut E) -> u8
    ensures { (text : List ℕ) → InputFits limit text fault.now
        → (f : ReadFault) × TermsFit text (Err f) × (result ≡ terms_status f) }
{
    match fault {
        InputFault::Read => 2,
        InputFault::TooLarge => {
            let _ = write!(
                errors,
                "onixdesk: terms: not TOML: more than 4,194,304 bytes\n"
            );
            2
        }
        InputFault::Memory => report(&Fault::Memory, errors),
    }
}

// Writes why a text is no table of terms, and gives the status.
fn report_text<E: Write>(alloc: Global, text: &[u8], fault: &ReadFault, errors: &mut E) -> u8
    ensures { result ≡ terms_status fault.now }
{
    match fault {
        ReadFault::Table(TermsFault::Memory) => return report(&Fault::Memory, errors),
        ReadFault::Table(TermsFault::BadTerm { index }) => {
            write_fault(alloc, &TERMS, "terms", text, Some(*index as usize), errors);
        }
        ReadFault::Table(TermsFault::NotToml) => {
            write_fault(alloc, &TERMS, "terms", text, None, errors);
        }
        ReadFault::Unreadable => {}
    }
    2
}

/// The table of terms in the file of this name. If there is none, or the file cannot be read, that
/// is reported with its cause, and the status comes: 2, or 3 where memory ran out.
pub fn open_terms<F: NamedFiles, E: Write>(
    alloc: Global,
    files: &F,
    name: &str,
    errors: &mut E,
) -> Result<Terms, u8>
    ensures ok { IfOk result (λ terms. ReadsTerms (F.holds files.now name.now) (Ok terms)) }
    ensures err { IfErr result (IsUnreadTable (F.holds files.now name.now)) }
{
    let text = match read_text(alloc, files, name, errors) {
        Ok(text) => text,
        Err(fault) => return Err(report_unread(&fault, errors)),
    };
    match terms_of(alloc, text.as_slice()) {
        Ok(terms) => Ok(terms),
        Err(fault) => Err(report_text(alloc, text.as_slice(), &fault, errors)),
    }
}
