//! What is left where no desk was opened.

ghost use Rattle.std.specs.Prelude.{◌≡◌};
ghost use Rattle.program_databases.specs.Migrated.{answer_as};

use crate::databases::Places;
use desk_store::{MigrateAnswer, OpenFault};
use onix_records::StoreFault;
use program_desks::kept_desks::{self, Cause, Migration};
use sqlite::Leftover;
use sqlite_disk::Disk;

/// What is left of two files, the database and its log, of which no desk was opened, or which were
/// not brought to the present version. A function over any `Databases` can make neither of the
/// first two.
#[derive(Drop)]
pub enum Unopened<O, U, D: Disk> {
    /// No file was touched: what opens them, as it was given.
    Untouched(O),
    /// The one call that opens files gave none, but this.
    NotOpened(U),
    /// What is left of the files.
    Left(Leftover<D>),
}

/// The fault of opening the desk in the files of a name, or of bringing one to version 2.
pub(crate) fn fault_of<P: Places>(
    places: &P,
    name: &str,
    fault: OpenFault,
) -> kept_desks::OpenFault {
    match fault {
        OpenFault::Store(StoreFault::Unusable) => {
            kept_desks::OpenFault::Store(StoreFault::Unusable, places.cause(name))
        }
        OpenFault::Store(fault) => kept_desks::OpenFault::Store(fault, Cause::Unknown),
        OpenFault::OtherVersion { found } => kept_desks::OpenFault::OtherVersion(found),
    }
}

/// What a migration did.
pub(crate) fn migration_of(answer: MigrateAnswer) -> Migration
    ensures { answer_as result ≡ answer }
{
    match answer {
        MigrateAnswer::Migrated => Migration::Migrated,
        MigrateAnswer::AlreadyTwo => Migration::Unneeded,
    }
}
