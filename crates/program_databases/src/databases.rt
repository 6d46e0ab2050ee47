//! Database files, which are opened by their names.

ghost use Rattle.std.specs.Prelude.{◌≡◌, IfErr, IfOk, IsTrue};
ghost use Rattle.program_databases.specs.Databases.{AreSettled};
ghost use Rattle.program_databases.specs.Unopened.{HasNoFiles};

use crate::database::look_at;
use crate::unopened::Unopened;
use desk_store::{Creation, OpenOptions};
use onix_records::StoreFault;
use program_desks::kept_desks::{Cause, OpenFault};
use sqlite::Files;
use sqlite_disk::Disk;
use std::fs::Metadata;
use std::io::{Error, Write};

/// Database files that are opened by their names, one of them.
pub trait Databases {
    ghost use Rattle.std.specs.Prelude.{IfOk, IsTrue, List, ℕ};
    ghost use Rattle.sqlite_wal.specs.Recovery.{Image};
    ghost use Rattle.program_databases.specs.Databases.{AreSettled};

    // What the file of each name and its log hold.
    ghost held: { Self → List ℕ → Image };

    /// The file of a database, or its log.
    type File: Disk + Drop;
    /// What is given where there are no files.
    type NotOpened: Drop;

    /// What lies at the names.
    type Places: Places + Drop;

    /// What lies at them, as it is then found.
    fn places(&self) -> Self::Places;

    /// Opens the database file of that name and its log; what is missing is made. A fault comes
    /// with no files.
    fn open(self, name: &str) -> Result<Files<Self::File>, (OpenFault, Self::NotOpened)>
        ensures log { IfOk result (λ files. IsTrue (Self.File.is_usable files.log)) }
        ensures db { IfOk result (λ files. IsTrue (Self.File.is_usable files.db)) }
        ensures settled { IfOk result (AreSettled Self.File.Disk (held self name.now)) };
}

/// What lies at the names of database files, which is seen before one is opened and said of why none
/// is.
pub trait Places {
    /// What is found of the file of that name.
    fn file(&self, name: &str) -> Result<Metadata, Error>;

    /// What is found of the log that lies beside it, where a link leads.
    fn log(&self, name: &str) -> Result<Metadata, Error>;

    /// What the file of that name shows of why it is no desk's, as it is found now.
    fn cause(&self, name: &str) -> Cause;

    /// A random number, where there is one.
    fn number(&self) -> Option<u64>;
}

// How a database is opened, with a random number for its log.
fn random_options<P: Places>(places: &P, creation: Creation) -> Result<OpenOptions, StoreFault>
    ensures { IfOk result (λ options. options.creation ≡ creation) }
{
    match places.number() {
        Some(number) => Ok(OpenOptions::new(number, creation)),
        None => Err(StoreFault::Unusable),
    }
}

/// Opens the database file of that name, once it was looked at, and gives the options by which its
/// desk is opened. A fault comes with no files: none was touched, or those of that name could not be
/// opened.
pub fn open_database<O: Databases, P: Places, E: Write>(
    places: &P,
    is_shown: bool,
    name: &str,
    creation: Creation,
    databases: O,
    errors: &mut E,
) -> Result<(Files<O::File>, OpenOptions), (OpenFault, Unopened<O, O::NotOpened, O::File>)>
    ensures log { IfOk result (λ opened. IsTrue (O.File.is_usable opened.0.log)) }
    ensures db { IfOk result (λ opened. IsTrue (O.File.is_usable opened.0.db)) }
    ensures settled { IfOk result (λ opened.
        AreSettled O.File.Disk (O.held databases name.now) opened.0) }
    ensures chosen { IfOk result (λ opened. opened.1.creation ≡ creation) }
    ensures none { IfErr result (λ e. HasNoFiles e.1) }
{
    let found = places.file(name);
    let log = places.log(name);
    if let Err(fault) = look_at(is_shown, name, creation, &found, &log, errors) {
        let cause = places.cause(name);
        return Err((
            OpenFault::Store(fault, cause),
            Unopened::Untouched(databases),
        ));
    }
    let options = match random_options(places, creation) {
        Ok(options) => options,
        Err(fault) => {
            let fault = OpenFault::Store(fault, Cause::Unknown);
            return Err((fault, Unopened::Untouched(databases)));
        }
    };
    match databases.open(name) {
        Ok(files) => Ok((files, options)),
        Err((fault, none)) => Err((fault, Unopened::NotOpened(none))),
    }
}
