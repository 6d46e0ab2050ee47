//! The desks in SQLite files.

ghost use Rattle.desk_versions.specs.Openings.{AreFilesOf};
ghost use Rattle.program_databases.specs.FilesMean.{AreTakenRightly, KeepLists, MeanLists};

use crate::database::creation_of;
use crate::databases::{Databases, open_database};
use crate::unopened::{Unopened, fault_of, migration_of};
use desk_stops::laws::rows_have_one_content;
use desk_store::{DeskStore, migrate_files_with};
use onix_records::StoreFault;
use program_desks::kept_desks::{Creation, KeepsDesks, Migration, OpenFault};
use sqlite::{FileStore, Files};
use std::alloc::Global;
use std::io::Write;

/// The desks in SQLite files that are opened by their names: a database and its log.
#[derive(Drop)]
pub struct StoredDesks<O> {
    pub alloc: Global,
    pub databases: O,
    /// Whether a line may say that large files are checked.
    pub is_shown: bool,
}

impl<O: Databases> KeepsDesks<DeskStore<FileStore<O::File>>> for StoredDesks<O> {
    ghost use Rattle.sqlite.specs.Files.{file_state};
    ghost use Rattle.desk_rows.specs.Seen.{in_tables, seen_in};
    ghost use Rattle.program_desks.specs.DeskFiles.{one_way};
    ghost use Rattle.program_databases.specs.FileViews.{stored_files};

    type Closed = Files<O::File>;

    type Unclosed = FileStore<O::File>;

    type Unopened = Unopened<O, O::NotOpened, O::File>;

    ghost kind = { in_tables };

    ghost files = { stored_files O.File.Disk (λ desks. O.held desks.databases) };

    ghost seen = { λ desk. seen_in (file_state desk.tables.connection) };

    fn open<E: Write>(
        self,
        name: &str,
        creation: Creation,
        errors: &mut E,
    ) -> Result<DeskStore<FileStore<O::File>>, (OpenFault, Unopened<O, O::NotOpened, O::File>)> {
        let StoredDesks {
            alloc,
            databases,
            is_shown,
        } = self;
        let places = databases.places();
        let creation = creation_of(creation);
        let (files, options) = match open_database(
            &places, is_shown, name, creation, databases, errors,
        ) {
            Ok(opened) => opened,
            Err((fault, none)) => return Err((fault, none)),
        };
        match DeskStore::open_files_with(alloc, files, options) {
            Ok(desk) => Ok(desk),
            Err((fault, left)) => Err((fault_of(&places, name, fault), Unopened::Left(left))),
        }
    }

    fn close_files(
        desk: DeskStore<FileStore<O::File>>,
    ) -> Result<Files<O::File>, (StoreFault, FileStore<O::File>)> {
        match desk.close_files() {
            Ok(files) => Ok(files),
            Err(fault) => Err(fault),
        }
    }

    fn migrate<E: Write>(
        self,
        name: &str,
        creation: Creation,
        errors: &mut E,
    ) -> Result<(Migration, Files<O::File>), (OpenFault, Unopened<O, O::NotOpened, O::File>)> {
        let StoredDesks {
            alloc,
            databases,
            is_shown,
        } = self;
        let places = databases.places();
        let creation = creation_of(creation);
        let (files, options) = match open_database(
            &places, is_shown, name, creation, databases, errors,
        ) {
            Ok(opened) => opened,
            Err((fault, none)) => return Err((fault, none)),
        };
        match migrate_files_with(alloc, files, options) {
            Ok((answer, files)) => Ok((migration_of(answer), files)),
            Err((fault, left)) => Err((fault_of(&places, name, fault), Unopened::Left(left))),
        }
    }

    fn hold_one_content() {
        rows_have_one_content();
    }

    ghost same = { one_way (λ desk. seen_in (file_state desk.tables.connection)) };
}

/// What the files mean, as a law without code: there is a relation of files to lists of requests, by
/// what the files hold, by which the desks are seen in them. Files without a desk are of the empty
/// list, a run hands on the list with what it answered, and lists of which the same files are come to
/// the same. What a crash leaves is of the list with what was answered: of closed files, and of the
/// database without its log, of that alone; of files that could not be closed perhaps with one
/// request more. It is the relation by the rows of the tables, but nothing rests on that. What is
/// said of files in which no desk is opened, or which are migrated, is said of what they hold.
pub fn files_mean_lists<O: Databases>()
    ensures lists { MeanLists O.File.Disk (λ desks. O.held desks.databases)
        ⟦<StoredDesks<O> as KeepsDesks<DeskStore<FileStore<O::File>>>>⟧.files AreFilesOf }
    ensures crashes { KeepLists O.File.Disk (λ desks. O.held desks.databases)
        ⟦<StoredDesks<O> as KeepsDesks<DeskStore<FileStore<O::File>>>>⟧.files AreFilesOf }
    ensures taken { AreTakenRightly O.File.Disk (λ desks. O.held desks.databases)
        ⟦<StoredDesks<O> as KeepsDesks<DeskStore<FileStore<O::File>>>>⟧.files }
{
    rows_have_one_content();
}
