//! Desks in files, which are opened by their names.

use onix_records::StoreFault;
use series_rules::listing::ListedDesk;
use std::io::Write;

/// What the files of a name, or the system, show of why no desk is opened in them.
#[derive(Clone, Copy)]
pub enum Cause {
    /// Nothing, or nothing more than the fault itself.
    Unknown,
    /// There is no such file.
    Missing,
    /// There is no such folder as the file is named in.
    NoFolder,
    /// The file has no byte.
    Empty,
    /// It is a folder.
    Folder,
    /// A folder of its path is a file.
    InFile,
    /// It is neither a file nor a folder.
    Special,
    /// No file can have that name.
    BadName,
    /// The user may not open it.
    Denied,
    /// The disk has no space left.
    Full,
    /// Another program has it open.
    Busy,
    /// Its log cannot be made beside it.
    NoLog,
    /// It does not begin as a database does.
    NoDatabase,
    /// It is a database, but not a desk's, or one that is damaged.
    NoDesk,
}

/// Why the desk in the files of a name is not opened, or not brought to the present version.
#[derive(Drop)]
pub enum OpenFault {
    /// The store refused, the files are no desk's, or they have to be there and are missing; and
    /// why, as far as the files or the system say it.
    Store(StoreFault, Cause),
    /// They hold a desk of this version, which is another one.
    OtherVersion(u32),
}

/// In which files a desk is made, where they hold none.
#[derive(Clone, Copy)]
pub enum Creation {
    /// In those of each name: missing, empty, or of another program.
    Anywhere,
    /// Only in those that are there, and empty.
    InEmpty,
    /// In none: only a desk is opened.
    Never,
}

/// What bringing a desk to the present version did.
#[derive(Clone, Copy)]
pub enum Migration {
    /// It was of an earlier version, or there was none.
    Migrated,
    /// It was of the present one, and stays as it is.
    Unneeded,
}

/// Desks in files, which are opened by their names, one of them. `D` is a desk that was opened.
///
/// Files are taken for a desk only if the premise on what is found in them holds: `found` is sound.
/// All others are refused, with a fault. A desk that was opened stands for each list that the files
/// held, and closed files for each list that the desk stood for.
pub trait KeepsDesks<D: ListedDesk> {
    ghost use Rattle.std.specs.Prelude.{IfErr, IfOk};
    ghost use Rattle.series_rules.specs.Views.{DeskKind, View};
    ghost use Rattle.program_desks.specs.DeskFiles.{DeskFiles, HoldOneContent, IsMigrated, LastsAlone, LeavesAs, OpensAs, SeenAs};

    /// Files that were closed.
    type Closed;
    /// What is left of a desk whose files could not be closed.
    type Unclosed;
    /// What is left where no desk was opened.
    type Unopened;

    /// What a crash may leave of the files.
    ghost kind: { DeskKind };

    /// What is seen of the files, before they are opened and as they are left.
    ghost files: { DeskFiles Self kind Self.Closed Self.Unclosed Self.Unopened };

    /// What is seen of a desk that was opened.
    ghost seen: { D → View kind };

    /// Opens the desk in the files of that name. A line on `errors` may say that large files are
    /// checked.
    fn open<E: Write>(
        self,
        name: &str,
        creation: Creation,
        errors: &mut E,
    ) -> Result<D, (OpenFault, Self::Unopened)>
        ensures ok { IfOk result (λ desk.
            OpensAs (files.found self name.now creation) (seen desk)) }
        ensures err { IfErr result (λ e. files.spared self name.now creation e.1) };

    /// Closes the files of a desk. After a fault, which comes with what is left of them, a crash
    /// leaves what it could leave before.
    fn close_files(desk: D) -> Result<Self::Closed, (StoreFault, Self::Unclosed)>
        ensures ok { IfOk result (λ closed. LeavesAs (seen desk) (files.closed closed)) }
        ensures alone { IfOk result (λ closed. LastsAlone files closed) }
        ensures err { IfErr result (λ e. LeavesAs (seen desk) (files.unclosed e.1)) };

    /// Brings the desk in the files of that name to the present version, and closes them.
    fn migrate<E: Write>(
        self,
        name: &str,
        creation: Creation,
        errors: &mut E,
    ) -> Result<(Migration, Self::Closed), (OpenFault, Self::Unopened)>
        ensures ok { IfOk result (λ done. IsMigrated files self name.now creation
            done.0 done.1) }
        ensures err { IfErr result (λ e. files.unmigrated self name.now creation e.1) };

    /// A law, without code: whatever lists of requests files are found to hold, the content is one.
    fn hold_one_content()
        ensures { HoldOneContent files };

    /// That is what is seen of it as a desk.
    ghost same: { SeenAs D.seen seen };
}
