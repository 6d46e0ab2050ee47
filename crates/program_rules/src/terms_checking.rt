//! The command `terms`: the shop's terms of a file are read, before feeds are converted with them.

ghost use Rattle.std.specs.Prelude.{◌≤◌};
ghost use Rattle.std.specs.Io.KnownBytes.{Appends};
ghost use Rattle.program_clients.specs.Printing.{PrintEnds};
ghost use Rattle.program_rules.specs.TermsRead.{CheckTermsEnds, terms_line};

use crate::terms::open_terms;
use feed_terms::precedes::first_taking;
use feed_terms::tax_doubts::{TaxDoubt, doubt_of};
use feed_terms::term::Term;
use program_clients::fault::report;
use program_clients::printing::print_number;
use program_files::NamedFiles;
use std::alloc::Global;
use std::io::Write;

// Writes a line for each term that is to be looked at again: since an earlier one always precedes
// it, or else since its types do not fit its tax.
fn write_doubts<E: Write>(terms: &[Term], errors: &mut E) {
    for at in 0..terms.len() {
        let number = at.saturating_add(1);
        if let Some(first) = first_taking(&terms[..at], &terms[at]) {
            let earlier = first.saturating_add(1);
            let _ = write!(
                errors,
                "onixdesk: terms: term {number} never counts: term {earlier} always precedes it\n"
            );
        } else if let Some(doubt) = doubt_of(&terms[at]) {
            let why = match doubt {
                TaxDoubt::Mixed => {
                    "has no tax, and its types and net are of prices with tax and without"
                }
                TaxDoubt::NoTaxToTake => {
                    "has a tax, and a type is of prices without, or net with it"
                }
            };
            let _ = write!(errors, "onixdesk: terms: term {number} {why}\n");
        }
    }
}

// Writes how many terms there are.
fn print_count<W: Write, E: Write>(count: usize, output: &mut W, errors: &mut E) -> u8
    ensures { PrintEnds 0 (Appends (W.contents output.old) (W.contents output.new))
        (terms_line count) result }
{
    match print_number("terms ", count as u64, output) {
        Ok(()) => 0,
        Err(fault) => report(&fault, errors),
    }
}

/// Reads the table of terms in the file of this name, and writes how many terms it has; each of
/// them that is to be looked at again is reported. Gives 0; or 2 where there is no table or it
/// cannot be read, or 3 where memory ran out or the line cannot be written, which is reported, with
/// the cause.
pub fn check_terms<F: NamedFiles, W: Write, E: Write>(
    alloc: Global,
    files: &F,
    name: &str,
    output: &mut W,
    errors: &mut E,
) -> u8
    ensures status { result ≤ 3 }
    ensures end { CheckTermsEnds (Appends (W.contents output.old) (W.contents output.new))
        (F.holds files.now name.now) result }
{
    match open_terms(alloc, files, name, errors) {
        Ok(terms) => {
            write_doubts(terms.terms(), errors);
            print_count(terms.terms().len(), output, errors)
        }
        Err(status) => status,
    }
}
