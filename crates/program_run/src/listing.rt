//! The commands that list what a desk in a file holds: `agreements`, `gaps` without a NAME,
//! `export`.

ghost use Rattle.std.specs.Prelude.{◌≡◌, ◌≤◌, ◌⊎◌};
ghost use Rattle.std.specs.Io.KnownBytes.{Appends};
ghost use Rattle.desk_export.specs.Asking.{IsAsked};
ghost use Rattle.desk_export.specs.ListTexts.{listed_text};
ghost use Rattle.program_clients.specs.Printing.{PrintEnds};
ghost use Rattle.program_run.specs.ListingEnds.{ListingEnds};
ghost use Rattle.program_run.specs.OverFiles.{EndsOverFiles};

use crate::closing::close_desk;
use crate::opening::report_unopened;
use csv_records::streams::WriteFault;
use desk_export::export::ExportFault;
use desk_export::list_text::{Listed, write_list};
use onix_terms::number::Number;
use onix_terms::series_name::SeriesName;
use program_clients::fault::{Fault, report};
use program_commands::streams::Streams;
use program_desks::files_left::FilesLeft;
use program_desks::kept_desks::{Creation, KeepsDesks};
use program_words::invocation::{Database, Listing};
use series_rules::listing::ListedDesk;
use std::alloc::Global;
use std::io::Write;

// Reports that a message is too large for a batch.
fn report_large<E: Write>(series: &SeriesName, number: Number, errors: &mut E) -> u8
    ensures { result ≡ 3 }
{
    let name = series.as_str();
    let number = number.value();
    let _ = write!(errors, "onixdesk: export: {name} {number}: too large\n");
    3
}

// Reports why a list is not written whole.
fn report_listing<E: Write>(fault: ExportFault<WriteFault>, errors: &mut E) -> u8
    ensures { result ≡ 3 }
{
    match fault {
        ExportFault::Store(fault) => report(&Fault::from(fault), errors),
        ExportFault::Taking(WriteFault) => report(&Fault::Output, errors),
        ExportFault::Memory => report(&Fault::Memory, errors),
        ExportFault::TooLarge { series, number } => report_large(&series, number, errors),
    }
}

// Writes what a desk lists. Gives 0, or 3 after a fault, which is reported, and behind which a
// first part of it is written.
fn write_listing<D: ListedDesk, R, W: Write, E: Write>(
    alloc: Global,
    desk: &mut D,
    listed: Listed,
    streams: &mut Streams<R, W, E>,
) -> u8
    ensures status { (result ≡ 0) ⊎ (result ≡ 3) }
    ensures end { IsAsked (D.seen desk.old) (D.seen desk.new) (λ L. PrintEnds 0
        (Appends (W.contents streams.old.output) (W.contents streams.new.output))
        (listed_text listed L) result) }
{
    match write_list(alloc, desk, listed, &mut streams.output) {
        Ok(()) => 0,
        Err(fault) => report_listing(fault, &mut streams.errors.writer),
    }
}

// Lists what a desk holds. Gives 0, or 3 after a fault, which is reported.
fn list_desk<D: ListedDesk, R, W: Write, E: Write>(
    alloc: Global,
    desk: &mut D,
    listing: Listing,
    streams: &mut Streams<R, W, E>,
) -> u8
    ensures status { result ≤ 3 }
    ensures end { ListingEnds
        (Appends (W.contents streams.old.output) (W.contents streams.new.output))
        listing (D.seen desk.old) (D.seen desk.new) result }
{
    match listing {
        Listing::Agreements => write_listing(alloc, desk, Listed::Agreements, streams),
        Listing::Gaps => write_listing(alloc, desk, Listed::Gaps, streams),
        Listing::Export => write_listing(alloc, desk, Listed::Requests, streams),
    }
}

/// Lists what the desk in the database file of a name holds, which is only asked. Gives 0, or 3
/// after a fault, which is reported; and what is left of the files of the database.
pub fn list_file<D: ListedDesk, K: KeepsDesks<D>, R, W: Write, E: Write>(
    alloc: Global,
    db: &Database<'_>,
    databases: K,
    listing: Listing,
    streams: &mut Streams<R, W, E>,
) -> (u8, FilesLeft<K, K::Unopened, K::Unclosed, K::Closed>)
    ensures status { result.0 ≤ 3 }
    ensures end { EndsOverFiles K.files databases db.now.name.now Creation.Never
        (Appends (W.contents streams.old.output) (W.contents streams.new.output))
        (ListingEnds (Appends (W.contents streams.old.output) (W.contents streams.new.output))
        listing) result.0 result.1 }
{
    match databases.open(db.name, Creation::Never, &mut streams.errors.writer) {
        Ok(mut desk) => {
            let status = list_desk(alloc, &mut desk, listing, streams);
            close_desk(status, desk, &mut streams.errors.writer)
        }
        Err((fault, left)) => (
            report_unopened(db.name, fault, &mut streams.errors.writer),
            FilesLeft::Unopened(left),
        ),
    }
}
