//! The precedence table of the shop in a file, whose faults are told with their cause.

ghost use Rattle.std.specs.Prelude.{◌≡◌, ◌≤◌, ℕ, List, Err, length};
ghost use Rattle.csv_records.specs.RecordTexts.{limit};
ghost use Rattle.csv_records.specs.Streams.{InputFits};
ghost use Rattle.program_rules.specs.RulesFile.{ReadsTable, RulesFit, status_of};

use crate::faults::write_fault;
use crate::keys::RULES;
use crate::unread::read_text;
use csv_records::streams::InputFault;
use price_rules::precedence::{Precedence, PrecedenceFault};
use program_clients::fault::{Fault, report};
use program_files::NamedFiles;
use std::alloc::Global;
use std::io::Write;

/// Why a rules file gives no precedence table.
#[derive(Drop)]
pub enum RulesFault {
    /// It cannot be opened or read.
    Unreadable,
    /// Its text is no precedence table: `NotToml` also where it has more than 4,194,304 bytes or is
    /// not UTF-8. Or memory ran out.
    Table(PrecedenceFault),
}

/// The table that these bytes are the text of.
pub fn table_of(alloc: Global, bytes: &[u8]) -> Result<Precedence, RulesFault>
    requires { length bytes.now ≤ limit }
    ensures { RulesFit bytes.now result }
{
    let Ok(text) = std::str::from_utf8(bytes) else {
        return Err(RulesFault::Table(PrecedenceFault::NotToml));
    };
    match Precedence::read(alloc, text) {
        Ok(precedence) => Ok(precedence),
        Err(fault) => Err(RulesFault::Table(fault)),
    }
}

// Reports why a file has no text, as far as that is not done.
fn report_unread<E: Write>(
    fault: InputFault,
    name: &str,
    is_option: bool,
    errors: &mut E,
) -> RulesFault
    ensures { (text : List ℕ) → InputFits limit text fault → RulesFit text (Err result) }
{
    match fault {
        InputFault::Read => RulesFault::Unreadable,
        InputFault::TooLarge => {
            if is_option {
                let _ = write!(errors, "onixdesk: rules: not TOML\n");
            }
            let _ = write!(errors, "onixdesk: {name}: more than 4,194,304 bytes\n");
            RulesFault::Table(PrecedenceFault::NotToml)
        }
        InputFault::Memory => {
            report(&Fault::Memory, errors);
            RulesFault::Table(PrecedenceFault::Memory)
        }
    }
}

// Reports why the text of a file is no precedence table, and in which line.
fn report_text<E: Write>(
    alloc: Global,
    name: &str,
    text: &[u8],
    fault: &PrecedenceFault,
    is_option: bool,
    errors: &mut E,
) {
    let number = match fault {
        PrecedenceFault::BadRule { index } => Some(*index as usize),
        PrecedenceFault::NotToml => None,
        PrecedenceFault::Memory => {
            report(&Fault::Memory, errors);
            return;
        }
    };
    if is_option {
        let _ = write!(errors, "onixdesk: rules: {fault}\n");
    }
    write_fault(alloc, &RULES, name, text, number, errors);
}

/// Reads the table in the file of this name. If there is none, or the file cannot be read, that is
/// reported with its cause, behind the line of the fault where `--rules` names the file.
pub fn open_table<F: NamedFiles, E: Write>(
    alloc: Global,
    files: &F,
    name: &str,
    is_option: bool,
    errors: &mut E,
) -> Result<Precedence, RulesFault>
    // There is a text, that of the file where it is told what files hold, of which this is the
    // table or the fault.
    ensures { ReadsTable (F.holds files.now name.now) result }
{
    let text = match read_text(alloc, files, name, errors) {
        Ok(text) => text,
        Err(fault) => return Err(report_unread(fault, name, is_option, errors)),
    };
    let read = table_of(alloc, text.as_slice());
    if let Err(RulesFault::Table(fault)) = &read {
        report_text(alloc, name, text.as_slice(), fault, is_option, errors);
    }
    read
}

/// The exit status after a fault: 3 when out of memory, else 2.
pub fn status_of(fault: &RulesFault) -> u8
    ensures { result ≡ status_of fault.now }
{
    match fault {
        RulesFault::Table(PrecedenceFault::Memory) => 3,
        _ => 2,
    }
}
