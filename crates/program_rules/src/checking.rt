//! The command `rules`: the precedence table of a file is read, before a desk begins with it.

ghost use Rattle.std.specs.Prelude.{◌≤◌};
ghost use Rattle.std.specs.Io.KnownBytes.{Appends};
ghost use Rattle.program_clients.specs.Printing.{PrintEnds};
ghost use Rattle.program_rules.specs.RulesFile.{CheckEnds, rules_line};

use crate::rules::{open_table, status_of};
use program_clients::fault::report;
use program_clients::printing::print_number;
use program_files::NamedFiles;
use std::alloc::Global;
use std::io::Write;

// Writes how many rules there are.
fn print_count<W: Write, E: Write>(count: usize, output: &mut W, errors: &mut E) -> u8
    ensures { PrintEnds 0 (Appends (W.contents output.old) (W.contents output.new))
        (rules_line count) result }
{
    match print_number("rules ", count as u64, output) {
        Ok(()) => 0,
        Err(fault) => report(&fault, errors),
    }
}

/// Reads the precedence table in the file of this name, and writes how many rules it has. Gives 0;
/// or 2 where it is none or cannot be read, or 3 where memory ran out or the line cannot be
/// written, which is reported, with the line of the file and the cause.
pub fn check_rules<F: NamedFiles, W: Write, E: Write>(
    alloc: Global,
    files: &F,
    name: &str,
    output: &mut W,
    errors: &mut E,
) -> u8
    ensures status { result ≤ 3 }
    ensures end { CheckEnds (Appends (W.contents output.old) (W.contents output.new))
        (F.holds files.now name.now) result }
{
    match open_table(alloc, files, name, false, errors) {
        Ok(precedence) => print_count(precedence.rules().len(), output, errors),
        Err(fault) => status_of(&fault),
    }
}
