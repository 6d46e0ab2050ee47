//! The command `migrate`.

ghost use Rattle.std.specs.Prelude.{◌≡◌, ◌≤◌};
ghost use Rattle.std.specs.Io.KnownBytes.{Appends};
ghost use Rattle.program_clients.specs.Printing.{PrintEnds};
ghost use Rattle.program_run.specs.OverFiles.{MigrateEnds, creation_by, migration_line};

use crate::opening::{creation_of, report_unopened};
use csv_records::streams::{WriteFault, write_whole};
use program_clients::fault::{Fault, report};
use program_commands::streams::Streams;
use program_desks::files_left::FilesLeft;
use program_desks::kept_desks::{KeepsDesks, Migration};
use program_words::invocation::Database;
use series_rules::listing::ListedDesk;
use std::io::Write;

// The line that says what a migration did.
fn line(did: Migration) -> &'static str
    ensures { result.now ≡ migration_line did }
{
    match did {
        Migration::Migrated => "migrated\n",
        Migration::Unneeded => "schema 2\n",
    }
}

// Writes what a migration did. Gives 0, or 3 after a fault, which is reported.
fn write_line<W: Write, E: Write>(did: Migration, output: &mut W, errors: &mut E) -> u8
    ensures { PrintEnds 0 (Appends (W.contents output.old) (W.contents output.new))
        (migration_line did) result }
{
    match write_whole(output, line(did).as_bytes()) {
        Ok(()) => 0,
        Err(WriteFault) => report(&Fault::Output, errors),
    }
}

/// Brings the desk in the database file of a name to the present version, and writes `migrated`, or
/// `schema 2` where it is of that version and stays as it is. Gives 0, or 3 after a fault, which is
/// reported; and what is left of the files.
pub(crate) fn migrate_file<D: ListedDesk, K: KeepsDesks<D>, R, W: Write, E: Write>(
    db: &Database<'_>,
    databases: K,
    streams: &mut Streams<R, W, E>,
) -> (u8, FilesLeft<K, K::Unopened, K::Unclosed, K::Closed>)
    ensures status { result.0 ≤ 3 }
    ensures end { MigrateEnds K.files databases db.now.name.now
        (creation_by db.now.is_existing)
        (Appends (W.contents streams.old.output) (W.contents streams.new.output))
        result.0 result.1 }
{
    let errors = &mut streams.errors.writer;
    match databases.migrate(db.name, creation_of(db), errors) {
        Ok((did, files)) => {
            let status = write_line(did, &mut streams.output, errors);
            (status, FilesLeft::Closed(files))
        }
        Err((fault, left)) => (
            report_unopened(db.name, fault, errors),
            FilesLeft::Unopened(left),
        ),
    }
}
