//! The desk in files, opened for a command; and why one is not opened.

ghost use Rattle.std.specs.Prelude.{◌≡◌};
ghost use Rattle.program_run.specs.OverFiles.{creation_by};

use onix_records::StoreFault;
use program_clients::fault::{Fault, report, report_why};
use program_desks::kept_desks::{Cause, Creation, OpenFault};
use program_words::invocation::Database;
use std::io::Write;

/// In which files the commands make a desk that may change one: by `--existing` only in empty ones.
pub(crate) fn creation_of(db: &Database<'_>) -> Creation
    ensures { result ≡ creation_by db.now.is_existing }
{
    if db.is_existing {
        Creation::InEmpty
    } else {
        Creation::Anywhere
    }
}

// A cause in words.
fn text_of(cause: Cause) -> &'static str {
    match cause {
        Cause::Unknown => "docs/RELIABILITY.md, Faults, says how to tell why",
        Cause::Missing => {
            "no such file; correct the name behind --db, or have batch make a new desk, without --existing"
        }
        Cause::NoFolder =>
            "its folder is not there; correct the name behind --db, or make the folder for a new desk with nothing in it",
        Cause::Empty => "an empty file, which has no desk",
        Cause::Folder => "a folder; write the name of a file in it behind --db",
        Cause::InFile => "a folder of its path is a file",
        Cause::Special => "not a file",
        Cause::BadName => "not the name of a file to SQLite",
        Cause::Denied => "permission denied",
        Cause::Full => "no space left on the disk",
        Cause::Busy => {
            "another program has it open; if a desk is served, send it the batch (--batches), or list a copy of it (desk-copy)"
        }
        Cause::NoLog => "no log can be made beside it",
        Cause::NoDatabase => "not a database; correct the name behind --db, or restore a copy",
        Cause::NoDesk => {
            "a database of another program, or a damaged one; docs/RELIABILITY.md, Faults"
        }
    }
}

// Why the store refused; none where the line of the fault says so itself.
fn why_refused(fault: &StoreFault, cause: Cause) -> Option<&'static str> {
    match fault {
        StoreFault::Unusable => Some(text_of(cause)),
        StoreFault::Disk => Some(
            "the disk is full or failed, or a page of the file is damaged; docs/RELIABILITY.md, Faults",
        ),
        StoreFault::Memory | StoreFault::Size => None,
    }
}

// Why the desk in the files of a name is not opened; none where the line of the fault says so.
fn why_unopened(fault: &OpenFault) -> Option<&'static str> {
    match fault {
        OpenFault::Store(fault, cause) => why_refused(fault, *cause),
        OpenFault::OtherVersion(1) => {
            Some("copy the file, and then write onixdesk --db FILE migrate")
        }
        OpenFault::OtherVersion(_) => Some("use the program that made it"),
    }
}

// The line of a desk that is not opened.
fn fault_of(fault: OpenFault) -> Fault {
    match fault {
        OpenFault::Store(fault, _) => Fault::from(fault),
        OpenFault::OtherVersion(found) => Fault::StorageOtherVersion(found),
    }
}

/// Reports that the desk in the files of a name is not opened, or not brought to the present
/// version, and in a second line why.
pub(crate) fn report_unopened<E: Write>(name: &str, fault: OpenFault, errors: &mut E) -> u8
    ensures { result ≡ 3 }
{
    let why = why_unopened(&fault);
    let status = report(&fault_of(fault), errors);
    if let Some(why) = why {
        report_why(name, why, errors);
    }
    status
}
