//! What is found where a desk is opened.

ghost use Rattle.std.specs.Prelude.{◌≡◌, IfErr, IfOk, IsTrue, true};
ghost use Rattle.sqlite.specs.Files.{IsCleanLeft, IsOpened, LeavesFiles, file_state, image_of};
ghost use Rattle.sqlite.specs.Held.{state};
ghost use Rattle.sqlite.specs.State.{HasCleanDisk};
ghost use Rattle.sqlite_trees.specs.Tree.{Trees};
ghost use Rattle.sqlite_wal.specs.Reads.{AreClean};
ghost use Rattle.desk_versions.specs.Creation as spec;
ghost use Rattle.desk_versions.specs.Openings.{AreFoundAs, Becomes, IsCreated, IsIndexed, IsVersionRead, opening};

use desk_tables::rows::fault::fault_of;
use desk_tables::rows::schemas::has_meta;
use desk_tables::tables::Tables;
use onix_records::StoreFault;
use sqlite::{Alter, Connection, FileStore, Files, Leftover, Options};
use sqlite_disk::Disk;
use sqlite_schema::schema::Schema;
use std::alloc::Global;
use thiserror::Error;

/// Why a desk was not opened.
#[derive(Debug, Drop, Error)]
pub enum OpenFault {
    /// The store could not be opened, read or written.
    #[error("{0}")]
    Store(StoreFault),
    /// The tables are of another version, `found`, than those that are taken: 2, and to migrate 1.
    #[error("other version {found}")]
    OtherVersion { found: u32 },
}

/// In which databases a desk is created that have none, which is those without a table `meta` of a
/// desk.
#[derive(Clone, Copy)]
pub enum Creation {
    /// In each, beside other programs' tables too.
    Anywhere,
    /// Only in one without a table.
    InEmpty,
    /// In none: only a desk is opened.
    Never,
}

/// How the files of a desk are opened.
#[derive(Clone, Copy)]
pub struct OpenOptions {
    /// How many pages stay in memory, how long the log grows, and a random number for its salts.
    pub store: Options,
    pub creation: Creation,
}

impl OpenOptions {
    /// The options of a store with that random number.
    pub fn new(seed: u64, creation: Creation) -> OpenOptions
        ensures { result.creation ≡ creation }
    {
        OpenOptions {
            store: Options::new(seed),
            creation,
        }
    }
}

// Whether a database with that schema is opened.
fn takes(creation: Creation, schema: &Schema) -> bool
    ensures { result ≡ spec.takes creation schema.now.tables }
{
    match creation {
        Creation::Anywhere => true,
        Creation::InEmpty => schema.tables.as_slice().is_empty() || has_meta(schema),
        Creation::Never => has_meta(schema),
    }
}

/// The version of the tables, or `None` where there are none.
pub(crate) fn read_version<S: Alter>(tables: &mut Tables<S>) -> Result<Option<u32>, StoreFault>
    ensures { IsVersionRead (state S.Store tables.old.connection)
        (state S.Store tables.new.connection) result }
{
    let mut work = tables.work()?;
    work.version()
}

/// Makes the tables, all at once.
pub(crate) fn create_tables<S: Alter>(tables: &mut Tables<S>) -> Result<(), StoreFault>
    ensures { IsCreated (state S.Store tables.old.connection)
        (state S.Store tables.new.connection) result }
{
    let mut work = tables.work()?;
    work.create()?;
    work.commit()
}

/// Makes the index on articles, all at once.
fn index_articles<S: Alter>(tables: &mut Tables<S>) -> Result<(), StoreFault>
    ensures { IsIndexed (state S.Store tables.old.connection)
        (state S.Store tables.new.connection) result }
{
    let mut work = tables.work()?;
    work.index_articles()?;
    work.commit()
}

/// Takes the tables that are there, if they are of version 2, and makes the index on articles where
/// it alone is missing; or makes the tables where there are none.
pub fn prepare<S: Alter>(tables: &mut Tables<S>) -> Result<(), OpenFault>
    ensures { Becomes opening (state S.Store tables.old.connection)
        (state S.Store tables.new.connection) result }
{
    match read_version(tables) {
        Ok(Some(2)) => {
            if !tables.lacks_index() {
                return Ok(());
            }
            match index_articles(tables) {
                Ok(()) => Ok(()),
                Err(fault) => Err(OpenFault::Store(fault)),
            }
        }
        Ok(Some(found)) => Err(OpenFault::OtherVersion { found }),
        Ok(None) => match create_tables(tables) {
            Ok(()) => Ok(()),
            Err(fault) => Err(OpenFault::Store(fault)),
        },
        Err(fault) => Err(OpenFault::Store(fault)),
    }
}

// The store of a connection that was just opened, of which a crash leaves what was found.
fn unopened<S: Alter + Drop>(connection: Connection<S>) -> S
    ensures clean { IsTrue (S.Store.view result).is_clean
        → HasCleanDisk (state S.Store connection) }
    ensures left { IsTrue (state S.Store connection).is_open → (d : Trees)
        → S.Store.recovers result d → d ≡ (state S.Store connection).committed.trees }
{
    connection.into_store()
}

/// A connection to the database that is found in two files, or what is left of them. It is
/// `Unusable` where it has no desk and none is to be created in it.
pub fn connect<D: Disk + Drop>(
    alloc: Global,
    files: Files<D>,
    options: OpenOptions,
) -> Result<Connection<FileStore<D>>, (StoreFault, Leftover<D>)>
    requires log { IsTrue (D.Disk.is_usable files.log) }
    requires db { IsTrue (D.Disk.is_usable files.db) }
    ensures opened { IfOk result (λ c. HasCleanDisk (file_state c) → IsOpened c) }
    ensures clean { IfOk result (λ c. HasCleanDisk (file_state c)
        → AreClean D.Disk files.log files.db) }
    ensures taken { IfOk result (λ c. HasCleanDisk (file_state c)
        → AreFoundAs (image_of D.Disk files) (file_state c).committed.trees) }
    ensures chosen { IfOk result (λ c.
        spec.takes options.creation (file_state c).now.schema.tables ≡ true) }
    ensures left { IfErr result (λ e. IsCleanLeft e.1 → LeavesFiles files e.1) }
{
    match Connection::open_files(alloc, files, options.store) {
        Ok(connection) => {
            if takes(options.creation, connection.schema()) {
                Ok(connection)
            } else {
                Err((StoreFault::Unusable, Leftover::Store(unopened(connection))))
            }
        }
        Err((error, left)) => Err((fault_of(error), left)),
    }
}
