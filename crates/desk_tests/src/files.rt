//! Files that are opened for a call and closed behind it: a request to the desk in them, their way to version
//! 2, a count of their rows, or statements of the test's own. What a call is stands in the first line of its
//! text, and what it gives is written to the output that is lent.

ghost use Rattle.std.specs.Prelude.{IsTrue};

use crate::asking::{End, Taken, ask_store, end_of_fault, end_of_line};
use crate::desks::{StoppedDesk, TestDesk};
use crate::disks::{OPTIONS, TestFiles, copied, failing_files, stop_machine};
use crate::row_counts::counted;
use desk_store::{Creation, DeskStore, OpenFault, OpenOptions, migrate_files_with};
use desk_tables::rows::fault::fault_of;
use desk_tables::tables::Tables;
use onix_message::StoreFault;
use price_rules::precedence::Precedence;
use sqlite::{Alter, Connection, FileStore, Files};
use sqlite_disk::Disk;
use std::alloc::Global;

// How the files of a desk are opened.
const OPENING: OpenOptions = OpenOptions {
    store: OPTIONS,
    creation: Creation::Anywhere,
};

/// What is done with files.
#[derive(Clone, Copy)]
pub enum Call<'a> {
    /// A request under rules.
    Ask(&'a Precedence, &'a str),
    /// To version 2, where it is not of that already.
    Migrate,
    /// How many messages wait and are applied.
    Count,
    /// Statements.
    Execute(&'a str),
}

// The call of a text: what its first line says, and else a request.
fn call_of<'a>(rules: &'a Precedence, text: &'a str) -> Call<'a> {
    let (first, rest) = text.split_once('\n').unwrap_or((text, ""));
    match first {
        "migrate" => Call::Migrate,
        "count" => Call::Count,
        "execute" => Call::Execute(rest),
        _ => Call::Ask(rules, text),
    }
}

// Where the tables are of another version, that is what the call gives.
fn end_of_opening(fault: OpenFault, output: &mut Vec<u8>) -> End {
    match fault {
        OpenFault::Store(StoreFault::Disk) => End::Unopened,
        OpenFault::Store(fault) => end_of_fault(fault),
        OpenFault::OtherVersion { found: 1 } => end_of_line("version 1", output),
        OpenFault::OtherVersion { .. } => end_of_line("another version", output),
    }
}

// A call of several steps may have made some of them.
fn end_of_steps(end: End) -> End {
    match end {
        End::Memory(_) => End::Memory(Taken::Either),
        end => end,
    }
}

fn execute<S: Alter>(connection: &mut Connection<S>, statements: &str) -> End {
    match connection.execute_batch(statements) {
        Ok(()) => End::Done,
        Err(error) => end_of_steps(end_of_fault(fault_of(error))),
    }
}

fn act_on<S: Alter + Drop>(
    mut connection: Connection<S>,
    call: Call<'_>,
    output: &mut Vec<u8>,
) -> (Connection<S>, End) {
    match call {
        Call::Count => {
            let mut tables = Tables::new(connection);
            let end = match counted(&mut tables) {
                Ok(line) => end_of_line(line, output),
                Err(fault) => end_of_fault(fault),
            };
            (tables.into_connection(), end)
        }
        Call::Execute(statements) => {
            let end = execute(&mut connection, statements);
            (connection, end)
        }
        Call::Ask(..) | Call::Migrate => (connection, End::Other),
    }
}

// These stand alone: a function that calls what is generic over a store with that of files is dear to prove.

/// Asks a desk in files.
pub fn ask_in_files<D: Disk + Drop>(
    alloc: Global,
    desk: &mut DeskStore<FileStore<D>>,
    rules: &Precedence,
    request: &str,
    output: &mut Vec<u8>,
) -> End {
    ask_store(alloc, desk, rules, request, output)
}

fn act_in_files<D: Disk + Drop>(
    connection: Connection<FileStore<D>>,
    call: Call<'_>,
    output: &mut Vec<u8>,
) -> (Connection<FileStore<D>>, End) {
    act_on(connection, call, output)
}

/// Closes a desk, whether or not its log can be copied, and says whether it could.
pub fn close<D: Disk + Drop>(desk: DeskStore<FileStore<D>>) -> (Files<D>, bool) {
    match desk.close_files() {
        Ok(files) => (files, true),
        Err((_, store)) => (store.close(), false),
    }
}

fn close_connection<D: Disk + Drop>(connection: Connection<FileStore<D>>) -> Files<D> {
    match connection.close_files() {
        Ok(files) => files,
        Err((_, store)) => store.close(),
    }
}

fn ask<D: Disk + Drop>(
    alloc: Global,
    files: Files<D>,
    rules: &Precedence,
    request: &str,
    output: &mut Vec<u8>,
) -> (Files<D>, End)
    requires log { IsTrue (D.Disk.is_usable files.log) }
    requires db { IsTrue (D.Disk.is_usable files.db) }
{
    match DeskStore::open_files_with(alloc, files, OPENING) {
        Ok(mut desk) => {
            let end = ask_in_files(alloc, &mut desk, rules, request, output);
            let (files, _) = close(desk);
            (files, end)
        }
        Err((fault, left)) => (left.into_files(), end_of_opening(fault, output)),
    }
}

fn connect<D: Disk + Drop>(
    alloc: Global,
    files: Files<D>,
    call: Call<'_>,
    output: &mut Vec<u8>,
) -> (Files<D>, End)
    requires log { IsTrue (D.Disk.is_usable files.log) }
    requires db { IsTrue (D.Disk.is_usable files.db) }
{
    match Connection::open_files(alloc, files, OPTIONS) {
        Ok(connection) => {
            let (connection, end) = act_in_files(connection, call, output);
            (close_connection(connection), end)
        }
        Err((error, left)) => (left.into_files(), end_of_fault(fault_of(error))),
    }
}

fn migrate<D: Disk + Drop>(alloc: Global, files: Files<D>, output: &mut Vec<u8>) -> (Files<D>, End)
    requires log { IsTrue (D.Disk.is_usable files.log) }
    requires db { IsTrue (D.Disk.is_usable files.db) }
{
    match migrate_files_with(alloc, files, OPENING) {
        Ok((_, files)) => (files, end_of_line("version 2", output)),
        Err((fault, left)) => (
            left.into_files(),
            end_of_steps(end_of_opening(fault, output)),
        ),
    }
}

// Opens files for a call and closes them behind it.
fn opened_for<D: Disk + Drop>(
    alloc: Global,
    files: Files<D>,
    call: Call<'_>,
    output: &mut Vec<u8>,
) -> (Files<D>, End) {
    if !files.may_be_used() {
        return (files, End::Lost);
    }
    match call {
        Call::Ask(rules, request) => ask(alloc, files, rules, request, output),
        Call::Migrate => migrate(alloc, files, output),
        Call::Count | Call::Execute(_) => connect(alloc, files, call, output),
    }
}

// How a call ended over disks in memory that fail only where it is refused.
fn end_in_memory(may_be_used: bool, end: End) -> End {
    match end {
        _ if !may_be_used => End::Lost,
        // A commit that fails on its disk may be kept.
        End::Disk => End::Memory(Taken::Either),
        End::Unopened => End::Memory(Taken::No),
        end => end,
    }
}

fn make<D: Disk + Drop>(
    alloc: Global,
    files: &mut Option<Files<D>>,
    may_fail: bool,
    call: Call<'_>,
    output: &mut Vec<u8>,
) -> End {
    let Some(given) = files.take() else {
        return End::Lost;
    };
    let (left, end) = opened_for(alloc, given, call, output);
    let may_be_used = may_fail || left.may_be_used();
    drop(files.replace(left));
    if may_fail {
        end
    } else {
        end_in_memory(may_be_used, end)
    }
}

/// Files on disks in memory.
#[derive(Drop)]
pub struct FileDesk {
    files: Option<TestFiles>,
    // Whether one of them fails otherwise than when out of memory.
    may_fail: bool,
}

impl TestDesk for FileDesk {
    fn open(alloc: Global) -> Result<FileDesk, End> {
        Ok(FileDesk {
            files: Some(failing_files(alloc, u64::MAX, true)),
            may_fail: false,
        })
    }

    // Opens its files for the call of a text, and closes them behind it. This is the only place that names
    // the type of the files, since each further one is proved anew.
    fn ask(
        &mut self,
        alloc: Global,
        rules: &Precedence,
        request: &str,
        output: &mut Vec<u8>,
    ) -> End {
        output.clear();
        let call = call_of(rules, request);
        make(alloc, &mut self.files, self.may_fail, call, output)
    }
}

impl StoppedDesk for FileDesk {
    fn failing(alloc: Global, calls: u64, is_log: bool) -> FileDesk {
        FileDesk {
            files: Some(failing_files(alloc, calls, is_log)),
            may_fail: true,
        }
    }

    fn copied(&self, alloc: Global, calls: u64, is_log: bool) -> Option<FileDesk> {
        let files = self.files.as_ref()?;
        let copied = copied(alloc, files, calls, is_log).ok()?;
        Some(FileDesk {
            files: Some(copied),
            may_fail: true,
        })
    }

    fn stop_machine(&mut self) -> bool {
        match &mut self.files {
            Some(files) => stop_machine(files),
            None => false,
        }
    }
}
