//! The desk in a SQLite file.

ghost use Rattle.std.specs.Prelude.{◌≡◌, ◌↔◌, ◌∷◌, [], List, IfOk, IfErr, IfSome, IsTrue, None, Ok, OnOk, Err, true, false};
ghost use Rattle.sqlite.specs.Closing.{IsCopied};
ghost use Rattle.sqlite.specs.Files.{file_state, image_of, IsCleanLeft, IsClosed, LeavesFiles};
ghost use Rattle.sqlite.specs.Held.{state};
ghost use Rattle.sqlite.specs.State.{HasCleanDisk};
ghost use Rattle.sqlite.specs.Steps.{over_memory};
ghost use Rattle.sqlite_std_file.specs.File.{IsFresh};
ghost use Rattle.sqlite_trees.specs.Tree.{Trees};
ghost use Rattle.sqlite_wal.specs.Files.{image_at};
ghost use Rattle.sqlite_wal.specs.Reads.{AreClean};
ghost use Rattle.desk_rows.specs.Desks.{AreRowsOf, KeepsRequests};
ghost use Rattle.desk_versions.specs.Creation.{AreRefused};
ghost use Rattle.desk_versions.specs.Openings.{AreFilesOf, Becomes, HoldRowsOf, IsOther, KeepsFiles, KeepsStore, LeavesShown, TakesFound, TellsFiles, left_in, opening};
ghost use Rattle.desk_rows.specs.Seen.{in_tables};
ghost use Rattle.series_rules.specs.Views.{LeavesOnly};
ghost use Rattle.series_rules.specs.declared.requests.Request.{Request};

use crate::committing::{ask_agree, ask_deliver, ask_waive};
use catalogue_rules::catalogue::Catalogue;
use csv_records::records::Records;
use desk_rows::listing::{ask_agreements, ask_text};
use desk_rows::questions::{ask_catalogue, ask_gaps, ask_offers, collect_offers};
use desk_tables::rows::fault::fault_of;
use desk_tables::tables::Tables;
use desk_versions::opening::{Creation, OpenFault, OpenOptions, connect, prepare};
use onix_message::{Agreement, StoreFault};
use onix_terms::isbn13::Isbn13;
use onix_terms::items::Items;
use onix_terms::number::Number;
use onix_terms::series_name::SeriesName;
use onix_terms::text::Text;
use price_rules::collector::OfferCollector;
use price_rules::offer::Offer;
use series_rules::answers::{AgreeAnswer, DeliveryAnswer, GapReport, WaiveAnswer};
use series_rules::desk::Desk;
use series_rules::listing::ListedDesk;
use sqlite::{Alter, Connection, FileFrom, FileStore, Files, Leftover, MemStore, Start};
use sqlite_disk::Disk;
use std::alloc::Global;
use std::rt::HostRuntime;

/// A desk in a SQLite file. Each agreement, delivery and waiver is a transaction: once it is
/// answered, a crash leaves all of it, and before that all of it or nothing. After a fault the desk
/// stands for what it stood for before. All this rests on a clean disk.
#[derive(Drop)]
pub struct DeskStore<S: Alter> {
    alloc: Global,
    tables: Tables<S>,
}

impl<S: Alter + Drop> DeskStore<S> {
    // The desk over a connection that was just opened, or its store beside the fault.
    fn over(alloc: Global, connection: Connection<S>) -> Result<DeskStore<S>, (OpenFault, S)>
        ensures ok { IfOk result (λ d. Becomes opening
            (state S.Store connection) (state S.Store d.tables.connection) (Ok tt)) }
        ensures left { IfErr result (λ e. IsTrue (S.Store.view e.1).is_clean
            → HasCleanDisk (state S.Store connection)
            × LeavesShown opening (state S.Store connection) (S.Store.recovers e.1) e.0) }
    {
        let mut tables = Tables::new(connection);
        match prepare(&mut tables) {
            Ok(()) => Ok(DeskStore { alloc, tables }),
            Err(fault) => Err((fault, tables.into_connection().into_store())),
        }
    }
}

impl<S: Alter> DeskStore<S> {
    /// What the desk is against its tables: its premise is a clean disk, and it stands for a list of
    /// requests exactly where, while its store is open, the tables hold what those come to. A crash
    /// leaves the trees that it leaves of the store, which come to a list exactly where they hold its
    /// rows; while the store is open, only the rows of what the desk stands for.
    pub fn is_by_its_tables(&self)
        ensures premise { (⟦<DeskStore<S> as Desk>⟧.seen self.now).sound
            ↔ HasCleanDisk (state S.Store self.now.tables.connection) }
        ensures stands { (L : List Request)
            → (⟦<DeskStore<S> as Desk>⟧.seen self.now).stands_for L
            ↔ KeepsRequests (state S.Store self.now.tables.connection) L }
        ensures leaves { (left : Trees)
            → (⟦<DeskStore<S> as Desk>⟧.seen self.now).may_leave left
            ↔ (state S.Store self.now.tables.connection).may_leave left }
        ensures rows { (left : Trees) (L : List Request)
            → in_tables.comes_to left L ↔ AreRowsOf left L }
        ensures durable { IsTrue (state S.Store self.now.tables.connection).is_open
            → (L : List Request) → KeepsRequests (state S.Store self.now.tables.connection) L
            → LeavesOnly (⟦<DeskStore<S> as Desk>⟧.seen self.now) L }
    {
        self.leaves_its_requests();
    }

    /// While its store is open, a crash leaves the rows of the requests that the desk stands for, and
    /// nothing else.
    pub fn leaves_its_requests(&self)
        ensures { IsTrue (state S.Store self.now.tables.connection).is_open → (L : List Request)
            → KeepsRequests (state S.Store self.now.tables.connection) L → (left : Trees)
            → (state S.Store self.now.tables.connection).may_leave left → AreRowsOf left L }
    {}
}

impl DeskStore<MemStore> {
    /// A desk whose tables are in memory. It has seen no request.
    pub fn open_in_memory(alloc: Global) -> Result<DeskStore<MemStore>, OpenFault>
        ensures stands { IfOk result
            (λ d. KeepsRequests (state over_memory d.tables.connection) []) }
        ensures alone { IfOk result (λ d. (left : Trees)
            → (state over_memory d.tables.connection).may_leave left
            → AreRowsOf left []) }
        ensures is_open { IfOk result
            (λ d. IsTrue (state over_memory d.tables.connection).is_open) }
        ensures fault { IfErr result (λ e. ¬ IsOther e) }
    {
        let connection = match Connection::open_in_memory(alloc) {
            Ok(connection) => connection,
            Err(_) => return Err(OpenFault::Store(StoreFault::Memory)),
        };
        match DeskStore::over(alloc, connection) {
            Ok(desk) => Ok(desk),
            Err((fault, _)) => Err(fault),
        }
    }
}

impl<D: Disk + Drop> DeskStore<FileStore<D>> {
    // The desk over a connection to files that was just opened, or what is left of them. It stands
    // alone, since each function that takes files for a store is dear to prove.
    fn over_files(
        alloc: Global,
        connection: Connection<FileStore<D>>,
    ) -> Result<DeskStore<FileStore<D>>, (OpenFault, Leftover<D>)>
        ensures ok { IfOk result (λ d. Becomes opening
            (file_state connection) (file_state d.tables.connection) (Ok tt)) }
        ensures left { IfErr result (λ e. IsCleanLeft e.1 → HasCleanDisk (file_state connection)
            × KeepsStore (λ left. LeavesShown opening (file_state connection) left e.0) e.1) }
    {
        match DeskStore::over(alloc, connection) {
            Ok(desk) => Ok(desk),
            Err((fault, store)) => Err((fault, Leftover::Store(store))),
        }
    }

    /// The desk in two files, the database and its log. What they hold stands; in an empty database
    /// the tables are made. A database without a table `meta` of a desk counts as empty, and is
    /// `Unusable` where one of the desk's tables is there. Tables of another version are
    /// `OtherVersion`, and stay. Files that are no sound database, and not empty, are refused and
    /// stay too. A fault comes with what is left of the files.
    pub fn open_files(
        alloc: Global,
        files: Files<D>,
    ) -> Result<DeskStore<FileStore<D>>, (OpenFault, Leftover<D>)>
        requires log { IsTrue (D.Disk.is_usable files.log) }
        requires db { IsTrue (D.Disk.is_usable files.db) }
        ensures clean { IfOk result (λ d. HasCleanDisk (file_state d.tables.connection)
            → AreClean D.Disk files.log files.db) }
        ensures stands { IfOk result (λ d. HasCleanDisk (file_state d.tables.connection)
            → (L : List Request) → AreFilesOf (image_of D.Disk files) L
            → KeepsRequests (file_state d.tables.connection) L) }
        ensures alone { IfOk result (λ d. HasCleanDisk (file_state d.tables.connection)
            → (L : List Request) → AreFilesOf (image_of D.Disk files) L → (left : Trees)
            → (file_state d.tables.connection).may_leave left → AreRowsOf left L) }
        ensures taken { IfOk result (λ d. HasCleanDisk (file_state d.tables.connection)
            → TakesFound (image_of D.Disk files) (file_state d.tables.connection)) }
        ensures fault { IfErr result (λ e. IsCleanLeft e.1
            → TellsFiles opening (image_of D.Disk files) (left_in e.1) e.0) }
        ensures left { IfErr result (λ e. IsCleanLeft e.1
            → KeepsFiles (λ were. were ≡ files) opening (image_of D.Disk files) e.1) }
    {
        DeskStore::open_files_with(alloc, files, OpenOptions::new(1, Creation::Anywhere))
    }

    /// The same under options, which in `open_files` are always the same. A database that has no desk,
    /// and in which none is to be created, is `Unusable` and stays.
    pub fn open_files_with(
        alloc: Global,
        files: Files<D>,
        options: OpenOptions,
    ) -> Result<DeskStore<FileStore<D>>, (OpenFault, Leftover<D>)>
        requires log { IsTrue (D.Disk.is_usable files.log) }
        requires db { IsTrue (D.Disk.is_usable files.db) }
        ensures clean { IfOk result (λ d. HasCleanDisk (file_state d.tables.connection)
            → AreClean D.Disk files.log files.db) }
        ensures stands { IfOk result (λ d. HasCleanDisk (file_state d.tables.connection)
            → (L : List Request) → AreFilesOf (image_of D.Disk files) L
            → KeepsRequests (file_state d.tables.connection) L) }
        ensures alone { IfOk result (λ d. HasCleanDisk (file_state d.tables.connection)
            → (L : List Request) → AreFilesOf (image_of D.Disk files) L → (left : Trees)
            → (file_state d.tables.connection).may_leave left → AreRowsOf left L) }
        ensures taken { IfOk result (λ d. HasCleanDisk (file_state d.tables.connection)
            → TakesFound (image_of D.Disk files) (file_state d.tables.connection)) }
        ensures fault { IfErr result (λ e. IsCleanLeft e.1
            → TellsFiles opening (image_of D.Disk files) (left_in e.1) e.0) }
        ensures left { IfErr result (λ e. IsCleanLeft e.1
            → KeepsFiles (λ were. were ≡ files) opening (image_of D.Disk files) e.1) }
        ensures chosen { IfOk result (λ d. HasCleanDisk (file_state d.tables.connection)
            → ¬ AreRefused options.creation (image_of D.Disk files)) }
        ensures spared { IfErr result (λ e. IsCleanLeft e.1
            → AreRefused options.creation (image_of D.Disk files) → LeavesFiles files e.1) }
    {
        let connection = match connect(alloc, files, options) {
            Ok(connection) => connection,
            Err((fault, left)) => return Err((OpenFault::Store(fault), left)),
        };
        // Handed on arm by arm, since each way out has clauses of its own.
        match DeskStore::over_files(alloc, connection) {
            Ok(desk) => Ok(desk),
            Err(fault) => Err(fault),
        }
    }

    /// The files, which hold what the desk stood for. The desk is gone, with a fault too, which comes
    /// with what is left of the files: a crash then leaves of them what it could leave before.
    pub fn close_files(self) -> Result<Files<D>, (StoreFault, FileStore<D>)>
        ensures usable { IfOk result (λ files. IsTrue (D.Disk.is_usable files.log)
            × IsTrue (D.Disk.is_usable files.db)) }
        ensures holds { IfOk result (λ files. AreClean D.Disk files.log files.db
            → (L : List Request) → KeepsRequests (file_state self.tables.connection) L
            → HoldRowsOf (image_of D.Disk files) L) }
        ensures copied { IfOk result (λ files. AreClean D.Disk files.log files.db
            → IsCopied self.tables.connection files) }
        ensures left { IfErr result (λ e. IsClosed self.tables.connection e.1) }
    {
        let DeskStore { alloc: _, tables } = self;
        match tables.into_connection().close_files() {
            Ok(files) => Ok(files),
            Err((error, store)) => Err((fault_of(error), store)),
        }
    }
}

impl<S: Start> DeskStore<FileStore<FileFrom<S>>> {
    /// The desk in the file of that path, with its log beside it; what is missing is made. `start`
    /// stands for what the two files hold. Otherwise it is as `open_files`; nothing is left of files
    /// that could not be opened.
    pub fn open(
        rt: &HostRuntime,
        path: &str,
        start: S,
    ) -> Result<DeskStore<FileStore<FileFrom<S>>>, (OpenFault, Option<Leftover<FileFrom<S>>>)>
        ensures stands { IfOk result (λ d. HasCleanDisk (file_state d.tables.connection)
            → (L : List Request) → AreFilesOf (image_at S.Start) L
            → KeepsRequests (file_state d.tables.connection) L) }
        ensures alone { IfOk result (λ d. HasCleanDisk (file_state d.tables.connection)
            → (L : List Request) → AreFilesOf (image_at S.Start) L → (left : Trees)
            → (file_state d.tables.connection).may_leave left → AreRowsOf left L) }
        ensures taken { IfOk result (λ d. HasCleanDisk (file_state d.tables.connection)
            → TakesFound (image_at S.Start) (file_state d.tables.connection)) }
        ensures fault { IfErr result (λ e. IfSome e.1 (λ left. IsCleanLeft left
            → TellsFiles opening (image_at S.Start) (left_in left) e.0)) }
        ensures left { IfErr result (λ e. IfSome e.1 (λ left. IsCleanLeft left
            → KeepsFiles (λ were. IsFresh true were.log × IsFresh false were.db) opening
            (image_at S.Start) left)) }
        ensures unopened { IfErr result (λ e. e.1 ≡ None → ¬ IsOther e.0) }
    {
        let connection = match Connection::open_from(rt, path, false, start) {
            Ok(connection) => connection,
            Err((error, left)) => return Err((OpenFault::Store(fault_of(error)), left)),
        };
        match DeskStore::over_files(rt.alloc(), connection) {
            Ok(desk) => Ok(desk),
            Err((fault, left)) => Err((fault, Some(left))),
        }
    }
}

impl<S: Alter> Desk for DeskStore<S> {
    ghost use Rattle.sqlite.specs.Held.{state};
    ghost use Rattle.desk_rows.specs.Seen.{seen_in};

    ghost kind = { in_tables };

    ghost seen = { λ d. seen_in (state S.Store d.tables.connection) };

    fn agree(&mut self, agreement: &Agreement) -> Result<AgreeAnswer, StoreFault> {
        ask_agree(&mut self.tables, agreement)
    }

    fn deliver(&mut self, records: &Records<'_>) -> Result<DeliveryAnswer, StoreFault> {
        ask_deliver(self.alloc, &mut self.tables, records)
    }

    fn waive(&mut self, series: &SeriesName, number: Number) -> Result<WaiveAnswer, StoreFault> {
        ask_waive(self.alloc, &mut self.tables, series, number)
    }

    fn collect_offers<C: OfferCollector>(
        &mut self,
        isbn: &Isbn13,
        collector: C,
    ) -> Result<C, StoreFault> {
        collect_offers(&mut self.tables, isbn, collector)
    }

    fn offers_of(&mut self, isbn: &Isbn13) -> Result<Items<Offer>, StoreFault> {
        ask_offers(self.alloc, &mut self.tables, isbn)
    }

    fn gaps(&mut self, series: &SeriesName) -> Result<Option<GapReport>, StoreFault> {
        ask_gaps(self.alloc, &mut self.tables, series)
    }

    fn catalogue(&mut self, series: &SeriesName) -> Result<Option<Catalogue>, StoreFault> {
        ask_catalogue(self.alloc, &mut self.tables, series)
    }
}

impl<S: Alter> ListedDesk for DeskStore<S> {
    fn agreements(&mut self) -> Result<Items<Agreement>, StoreFault> {
        ask_agreements(self.alloc, &mut self.tables)
    }

    fn text_at(&mut self, series: &SeriesName, number: Number) -> Result<Option<Text>, StoreFault> {
        ask_text(&mut self.tables, series, number)
    }
}
