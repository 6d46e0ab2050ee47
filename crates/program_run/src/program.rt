//! The program run on its words: the command line, the rules file, the desk, and then the command.

ghost use Rattle.std.specs.Prelude.{◌≡◌, ◌≤◌, IfErr, IfOk, map};
ghost use Rattle.std.specs.Io.KnownBytes.{Appends};
ghost use Rattle.program_run.specs.Kinds.{ActionEnds, BatchRun, CheckRun, ConvertRun, DeliverRun, GapsRun, ListRun, MigrateRun, RunEnds, SendRun, ServeRun};
ghost use Rattle.program_run.specs.TaskEnds.{NewDeskEnds, TaskLeads, UnlessServing};
ghost use Rattle.program_run.specs.Unread.{IsNoCommand, ReadsRules};
ghost use Rattle.program_words.specs.Asked.{Reads};
ghost use Rattle.program_run.specs.OverFiles.{EndsOverFiles, creation_by};

use crate::closing::close_desk;
use crate::machine::Machine;
use crate::opening::{creation_of, report_unopened};
use crate::task::{bind_port, run_task};
use crate::{converting, help, listing, migrating};
use desk_memory::MemoryDesk;
use price_rules::precedence::Precedence;
use program_clients::entrances::Entrances;
use program_clients::fault::{Fault, report};
use program_clients::open_desks::OpenDesks;
use program_commands::checked_texts::check_texts;
use program_commands::sending::send_input;
use program_commands::streams::Streams;
use program_desks::files_left::FilesLeft;
use program_desks::kept_desks::KeepsDesks;
use program_files::NamedFiles;
use program_rules::rules::{RulesFault, open_table, status_of};
use program_rules::{checking, terms_checking};
use program_words::hints::{BATCH_TO_SOCKET, FILE_BEFORE};
use program_words::invocation::{self, Action, Database, Invocation, Reading, Task};
use series_rules::desk::Desk;
use series_rules::listing::ListedDesk;
use std::alloc::Global;
use std::io::{Read, Write};
use std::time::Clock;

// What is said behind refusals of a desk in memory.
const NO_FILE: &str =
    "without --db a desk has only the agreements of its batch: if the desk in a file is meant, write --db FILE before the command";

// What is said behind refusals of messages of a desk in memory.
fn hint_of(task: &Task<'_>) -> &'static str {
    match task {
        Task::Serve { .. } => "",
        _ => NO_FILE,
    }
}

// Runs a command over a new desk in memory.
fn run_in_memory<T: Clock, F: NamedFiles, N: Entrances, R: Read, W: Write, E: Write>(
    alloc: Global,
    clock: &T,
    precedence: &Precedence,
    task: &Task<'_>,
    files: &F,
    entrances: &mut N,
    streams: &mut Streams<R, W, E>,
) -> u8
    ensures status { result ≤ 3 }
    ensures entrances { UnlessServing task.now (entrances.new ≡ entrances.old) }
    ensures end { NewDeskEnds precedence.now
        (Appends (W.contents streams.old.output) (W.contents streams.new.output)) task.now
        (F.holds files.now) (R.remaining streams.old.input) (R.remaining streams.new.input)
        ⟦<MemoryDesk as Desk>⟧.seen result }
{
    let mut desk = MemoryDesk::new(alloc);
    bind_port(entrances, task);
    streams.errors.hint = hint_of(task);
    let status = run_task(
        alloc, clock, &mut desk, precedence, task, files, entrances, streams,
    );
    desk.is_always_sound();
    status
}

// Runs a command over the desk in the database file of a name.
fn run_in_file<
    D: ListedDesk,
    K: KeepsDesks<D>,
    T: Clock,
    O,
    N: Entrances,
    F: NamedFiles,
    R: Read,
    W: Write,
    E: Write,
>(
    alloc: Global,
    clock: &T,
    db: &Database<'_>,
    databases: K,
    precedence: &Precedence,
    task: &Task<'_>,
    machine: &mut Machine<O, N, F, R, W, E>,
) -> (u8, FilesLeft<K, K::Unopened, K::Unclosed, K::Closed>)
    ensures status { result.0 ≤ 3 }
    ensures files { machine.new.files ≡ machine.old.files }
    ensures desks { machine.new.desks ≡ machine.old.desks }
    ensures entrances { UnlessServing task.now (machine.new.entrances ≡ machine.old.entrances) }
    // The command ends as over any desk, whose files are then closed; the status is 3 where they
    // could not be.
    ensures end { EndsOverFiles K.files databases db.now.name.now
        (creation_by db.now.is_existing)
        (Appends (W.contents machine.old.streams.output) (W.contents machine.new.streams.output))
        (TaskLeads precedence.now
        (Appends (W.contents machine.old.streams.output) (W.contents machine.new.streams.output))
        task.now (F.holds machine.old.files) (R.remaining machine.old.streams.input)
        (R.remaining machine.new.streams.input))
        result.0 result.1 }
{
    let Machine {
        entrances,
        files,
        streams,
        ..
    } = machine;
    bind_port(entrances, task);
    match databases.open(db.name, creation_of(db), &mut streams.errors.writer) {
        Ok(mut desk) => {
            let status = run_task(
                alloc, clock, &mut desk, precedence, task, files, entrances, streams,
            );
            close_desk(status, desk, &mut streams.errors.writer)
        }
        Err((fault, left)) => (
            report_unopened(db.name, fault, &mut streams.errors.writer),
            FilesLeft::Unopened(left),
        ),
    }
}

// Does what is asked under the rules of a precedence table.
fn run_action<
    D: ListedDesk,
    K: KeepsDesks<D>,
    T: Clock,
    O: OpenDesks,
    N: Entrances,
    F: NamedFiles,
    R: Read,
    W: Write,
    E: Write,
>(
    alloc: Global,
    clock: &T,
    action: &Action<'_>,
    databases: K,
    precedence: &Precedence,
    machine: &mut Machine<O, N, F, R, W, E>,
) -> (u8, FilesLeft<K, K::Unopened, K::Unclosed, K::Closed>)
    ensures status { result.0 ≤ 3 }
    ensures end { ActionEnds ⟦<MemoryDesk as Desk>⟧.seen K.files F.holds F.lacks_folder
        W.contents R.remaining databases machine.old machine.new result O.sends
        precedence.now action.now }
{
    let Machine {
        desks,
        entrances,
        files,
        streams,
    } = machine;
    let status = match action {
        Action::InFile { db, task } => {
            return run_in_file(alloc, clock, db, databases, precedence, task, machine);
        }
        Action::Listed { db, listing } => {
            return listing::list_file(alloc, db, databases, *listing, streams);
        }
        Action::Migrate { db } => return migrating::migrate_file(db, databases, streams),
        Action::InMemory(task) => {
            run_in_memory(alloc, clock, precedence, task, files, entrances, streams)
        }
        Action::Send { socket } => send_input(alloc, desks, socket, streams),
        Action::Convert(conversion) => converting::convert(
            alloc, clock, conversion, files, streams,
        ),
        Action::CheckRules { file } => {
            let errors = &mut streams.errors.writer;
            checking::check_rules(alloc, files, file, &mut streams.output, errors)
        }
        Action::CheckTerms { file } => {
            let errors = &mut streams.errors.writer;
            terms_checking::check_terms(alloc, files, file, &mut streams.output, errors)
        }
        Action::CheckTexts { files: names } => {
            let input = &mut streams.input;
            check_texts(alloc, files, names.as_slice(), input, &mut streams.errors)
        }
    };
    (status, FilesLeft::Untouched(databases))
}

// The rules of the file of that name, or none where none is named. A fault is reported.
fn rules_of<F: NamedFiles, E: Write>(
    alloc: Global,
    files: &F,
    name: Option<&str>,
    errors: &mut E,
) -> Result<Precedence, RulesFault>
    ensures { ReadsRules (F.holds files.now) name.entry result }
{
    match name {
        None => Ok(Precedence::none(alloc)),
        Some(name) => open_table(alloc, files, name, true, errors),
    }
}

// The invocation that the words ask for. If they ask for none, help or a fault of the command line
// is written, and the exit status comes.
fn read_words<'a, R, W: Write, E: Write>(
    alloc: Global,
    words: &'a [&'a str],
    streams: &mut Streams<R, W, E>,
) -> Result<Invocation<'a>, u8>
    ensures ok { IfOk result (λ invocation. (streams.new ≡ streams.old)
        × Reads (map (λ word. word.now) words.entry.now) (Reading.Run invocation)) }
    ensures err { IfErr result (λ status. IsNoCommand Reads
        (Appends (W.contents streams.old.output) (W.contents streams.new.output))
        (map (λ word. word.now) words.entry.now) status) }
    ensures most { IfErr result (λ status. status ≤ 3) }
{
    let errors = &mut streams.errors.writer;
    match invocation::read(alloc, words) {
        Reading::Run(invocation) => Ok(invocation),
        Reading::Help(text) => { Err(help::print_help(text.as_str(), &mut streams.output, errors)) }
        Reading::Wrong(text) => Err(help::print_wrong(text.as_str(), errors)),
        Reading::NoDatabase => Err(help::print_hinted(
            "onixdesk: migrate needs --db\n",
            FILE_BEFORE,
            errors,
        )),
        Reading::NoDesk => Err(help::print_hinted(
            "onixdesk: this command needs --db\n",
            FILE_BEFORE,
            errors,
        )),
        Reading::NoBatch => Err(help::print_hinted(
            "onixdesk: --batches goes with batch\n",
            BATCH_TO_SOCKET,
            errors,
        )),
        Reading::Memory => Err(report(&Fault::Memory, errors)),
    }
}

// Does what the words ask for.
fn run_words<
    D: ListedDesk,
    K: KeepsDesks<D>,
    T: Clock,
    O: OpenDesks,
    N: Entrances,
    F: NamedFiles,
    R: Read,
    W: Write,
    E: Write,
>(
    alloc: Global,
    clock: &T,
    words: &[&str],
    databases: K,
    machine: &mut Machine<O, N, F, R, W, E>,
) -> (u8, FilesLeft<K, K::Unopened, K::Unclosed, K::Closed>)
    ensures status { result.0 ≤ 3 }
    ensures end { RunEnds ⟦<MemoryDesk as Desk>⟧.seen K.files F.holds F.lacks_folder
        W.contents R.remaining databases machine.old machine.new result Reads words.now
        (ActionEnds ⟦<MemoryDesk as Desk>⟧.seen K.files F.holds F.lacks_folder
        W.contents R.remaining databases machine.old machine.new result O.sends) }
{
    let invocation = match read_words(alloc, words, &mut machine.streams) {
        Ok(invocation) => invocation,
        Err(status) => return (status, FilesLeft::Untouched(databases)),
    };
    let errors = &mut machine.streams.errors.writer;
    let precedence = match rules_of(alloc, &machine.files, invocation.rules, errors) {
        Ok(precedence) => precedence,
        Err(fault) => return (status_of(&fault), FilesLeft::Untouched(databases)),
    };
    let ended = run_action(
        alloc,
        clock,
        &invocation.action,
        databases,
        &precedence,
        machine,
    );
    drop(precedence);
    ended
}

/// Runs the program on these words, of which the first is its name, and gives its exit status:
/// 0, or 1 where an answer was a refusal, 2 for a bad command line, rules file or table of terms, 3
/// for a fault of storage, a file, input, output, the port or the socket, or when out of memory. The
/// command line is judged first, then the rules file, then what the command itself meets.
/// `databases` has the database file that the words may name; of the machine `desks` has the open
/// desk, and `files` opens FILEs and makes those of `convert`. Beside the status comes what is left
/// of the database's files.
///
/// Each list of requests that the files held, with those that took effect, is what they hold then;
/// what is written is of their answers; and a crash leaves just that.
pub fn run<
    D: ListedDesk,
    K: KeepsDesks<D>,
    T: Clock,
    O: OpenDesks,
    N: Entrances,
    F: NamedFiles,
    R: Read,
    W: Write,
    E: Write,
>(
    alloc: Global,
    clock: &T,
    words: &[&str],
    databases: K,
    machine: &mut Machine<O, N, F, R, W, E>,
) -> (u8, FilesLeft<K, K::Unopened, K::Unclosed, K::Closed>)
    ensures status { result.0 ≤ 3 }
    // How each kind of command ends, if the words ask for one.
    ensures batch { BatchRun ⟦<MemoryDesk as Desk>⟧.seen K.files F.holds F.lacks_folder
        W.contents R.remaining databases machine.old machine.new result words.now }
    ensures deliver { DeliverRun ⟦<MemoryDesk as Desk>⟧.seen K.files F.holds F.lacks_folder
        W.contents R.remaining databases machine.old machine.new result words.now }
    ensures gaps { GapsRun ⟦<MemoryDesk as Desk>⟧.seen K.files F.holds F.lacks_folder
        W.contents R.remaining databases machine.old machine.new result words.now }
    ensures serve { ServeRun ⟦<MemoryDesk as Desk>⟧.seen K.files F.holds F.lacks_folder
        W.contents R.remaining databases machine.old machine.new result words.now }
    ensures list { ListRun ⟦<MemoryDesk as Desk>⟧.seen K.files F.holds F.lacks_folder
        W.contents R.remaining databases machine.old machine.new result words.now }
    ensures migrate { MigrateRun ⟦<MemoryDesk as Desk>⟧.seen K.files F.holds F.lacks_folder
        W.contents R.remaining databases machine.old machine.new result words.now }
    ensures send { SendRun ⟦<MemoryDesk as Desk>⟧.seen K.files F.holds F.lacks_folder
        W.contents R.remaining databases machine.old machine.new result O.sends words.now }
    ensures convert { ConvertRun ⟦<MemoryDesk as Desk>⟧.seen K.files F.holds F.lacks_folder
        W.contents R.remaining databases machine.old machine.new result words.now }
    ensures check { CheckRun ⟦<MemoryDesk as Desk>⟧.seen K.files F.holds F.lacks_folder
        W.contents R.remaining databases machine.old machine.new result words.now }
{
    run_words(alloc, clock, words, databases, machine)
}
