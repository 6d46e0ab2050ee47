//! The tables of version 1 brought to version 2.

ghost use Rattle.std.specs.Prelude.{◌≡◌};
ghost use Rattle.sqlite.specs.Held.{state};
ghost use Rattle.desk_tables.specs.Rows.{DeskRows, Holds, HoldsFirst, with_version};
ghost use Rattle.desk_tables.specs.Schema.{desk_schema};
ghost use Rattle.desk_versions.specs.Migrations.{migration};
ghost use Rattle.desk_versions.specs.Openings.{Becomes, MakesAll};

use crate::opening::{OpenFault, create_tables, read_version};
use desk_tables::tables::Tables;
use onix_records::StoreFault;
use sqlite::Alter;

/// What a migration did.
#[derive(Clone, Copy, Debug, PartialEq, Eq)]
pub enum MigrateAnswer {
    /// The tables were of version 1, or there were none, and are now of version 2.
    Migrated,
    /// They were of version 2, and stay as they are.
    AlreadyTwo,
}

// Takes the tables from version 1 to version 2, all at once.
fn migrate_first<S: Alter>(tables: &mut Tables<S>) -> Result<(), StoreFault>
    ensures makes { (rows : DeskRows)
        → MakesAll (λ db. HoldsFirst db rows) (λ db. Holds db (with_version 2 rows))
        (state S.Store tables.old.connection) (state S.Store tables.new.connection) result }
    ensures again { MakesAll (λ db. db.schema ≡ desk_schema) (λ _. ⊥)
        (state S.Store tables.old.connection) (state S.Store tables.new.connection) result }
{
    let mut work = tables.work()?;
    work.migrate()?;
    work.commit()
}

/// Brings the tables to version 2, or makes them where there are none.
pub fn bring_to_two<S: Alter>(tables: &mut Tables<S>) -> Result<MigrateAnswer, OpenFault>
    ensures { Becomes migration (state S.Store tables.old.connection)
        (state S.Store tables.new.connection) result }
{
    match read_version(tables) {
        Ok(Some(2)) => Ok(MigrateAnswer::AlreadyTwo),
        Ok(Some(1)) => match migrate_first(tables) {
            Ok(()) => Ok(MigrateAnswer::Migrated),
            Err(fault) => Err(OpenFault::Store(fault)),
        },
        Ok(Some(found)) => Err(OpenFault::OtherVersion { found }),
        Ok(None) => match create_tables(tables) {
            Ok(()) => Ok(MigrateAnswer::Migrated),
            Err(fault) => Err(OpenFault::Store(fault)),
        },
        Err(fault) => Err(OpenFault::Store(fault)),
    }
}
