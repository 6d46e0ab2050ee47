//! The text of a file that is read whole.

ghost use Rattle.std.specs.Prelude.{◌≤◌, ℕ, List, IfErr, IfOk, length};
ghost use Rattle.csv_records.specs.RecordTexts.{limit};
ghost use Rattle.csv_records.specs.Streams.{InputFits, IsTold};

use csv_records::reading::LIMIT;
use csv_records::streams::{InputFault, read_input};
use program_clients::fault::{report_file, why_unread};
use program_files::{FileFault, NamedFiles};
use std::alloc::Global;
use std::io::{Read, Write};

/// The text of the file of this name. The fault is `Read` also where it cannot be opened, and then
/// its lines are written.
pub(crate) fn read_text<F: NamedFiles, E: Write>(
    alloc: Global,
    files: &F,
    name: &str,
    errors: &mut E,
) -> Result<Vec<u8>, InputFault>
    ensures ok { IfOk result (λ bytes. (length bytes.items ≤ limit)
        × IsTold (F.holds files.now name.now) bytes.items) }
    ensures err { IfErr result (λ f. (text : List ℕ) × IsTold (F.holds files.now name.now) text
        × InputFits limit text f) }
{
    let mut file = match files.open(name) {
        Ok(file) => file,
        Err(FileFault::Memory) => return Err(InputFault::Memory),
        Err(FileFault::File { why, .. }) => {
            report_file(name, why.as_str(), errors);
            return Err(InputFault::Read);
        }
    };
    let read = read_input(alloc, &mut file, LIMIT);
    if let Err(InputFault::Read) = &read {
        report_file(name, why_unread(files.is_folder(name)), errors);
    }
    read
}
