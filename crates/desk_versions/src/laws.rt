//! What files without a desk hold, and what version 1 kept, as laws without code.

ghost use Rattle.std.specs.Prelude.{◌≡◌, [], None, false};
ghost use Rattle.std.specs.List.{list_any};
ghost use Rattle.sqlite.specs.Effect.{Database};
ghost use Rattle.sqlite.specs.Files.{AreFoundIn, IsEmpty, IsNothing};
ghost use Rattle.sqlite_trees.specs.Tree.{Trees};
ghost use Rattle.sqlite_wal.specs.Recovery.{Image};
ghost use Rattle.desk_tables.specs.Schema.{is_desk_table};
ghost use Rattle.desk_versions.specs.FirstForm.{VersionsAgree};
ghost use Rattle.desk_versions.specs.Openings.{AreEmptyFiles, SaysVersion};

/// Files of which the database has no byte, as at the first run of every shop, hold an empty
/// database, whatever their log holds.
pub fn files_without_a_byte_are_empty()
    ensures { (image : Image) → image.db ≡ [] → AreEmptyFiles image }
{}

/// In files of which `sqlite` says that no database was made yet, as in those without a byte or
/// with a first page that a stop cut short, nothing is found but the empty database.
pub fn nothing_is_found_where_none_was_made()
    ensures { (image : Image) → IsNothing image → (d : Trees) → AreFoundIn image d → IsEmpty d }
{}

/// A database of strangers' tables alone, none of them with a name of the desk's, tells no version. So
/// an opening of files that hold one never ends with that of another one.
pub fn tables_of_strangers_tell_no_version()
    ensures { (db : Database) → list_any is_desk_table db.schema.tables ≡ false
        → SaysVersion db None }
{}

/// Tables of version 1 and of version 2 are of the same requests, where each message is of form 1:
/// their rows are the same but for the version, and have no minimums.
pub fn versions_agree()
    ensures { VersionsAgree }
{}
