//! The program `onixdesk`: the intake of a bookshop's buying desk on the command line. `program_run`
//! does what its words ask for, here over the machine's files, streams and sockets. What each
//! request is answered is proved in `series_rules`.
#![tactic(auto)]

ghost use Rattle.std.specs.Prelude.{◌≤◌, IfOk};

use program_clients::entrances::HostEntrances;
use program_clients::fault::{Fault, report};
use program_clients::sockets::Sockets;
use program_databases::paths::Paths;
use program_databases::stored_desks::StoredDesks;
use program_files::HostFiles;
use program_run::help::print_wrong;
use program_run::machine::{Errors, Machine, Streams};
use program_run::program::run;
use sqlite::Wary;
use std::alloc::AllocError;
use std::io::{ErrorKind, IsTerminal};
use std::process::ExitCode;
use watched_output::output::Watched;

// Whether a command of these words may take long over one output, which shows how far it is.
fn is_long(words: &[&str]) -> bool {
    words
        .iter()
        .any(|word| *word == "batch" || *word == "export")
}

// Runs the program on the words that it was started with.
fn run_words(rt: &HostRuntime, words: std::env::Args) -> Result<u8, AllocError>
    ensures { IfOk result (λ status. status ≤ 3) }
{
    let alloc = rt.alloc();
    let owned: Vec<String> = words.collect(alloc)?;
    let words: Vec<&str> = owned.iter().map(|word| word.as_str()).collect(alloc)?;
    let output = rt.stdout();
    let is_terminal = rt.stderr().is_terminal();
    let is_shown = is_long(words.as_slice()) && !output.is_terminal() && is_terminal;
    let mut machine = Machine {
        desks: Sockets::new(rt),
        entrances: HostEntrances::new(rt),
        files: HostFiles::new(rt),
        streams: Streams {
            input: rt.stdin(),
            output: Watched::new(rt, output, rt.stderr(), is_shown),
            errors: Errors::new(rt.stderr(), is_terminal),
        },
    };
    let databases = StoredDesks {
        alloc,
        databases: Paths::new(rt, Wary),
        is_shown: is_terminal,
    };
    let (status, left) = run(alloc, rt, words.as_slice(), databases, &mut machine);
    machine.streams.output.clear();
    if status == 3 {
        machine.streams.output.tell_fault();
    }
    drop(left);
    Ok(status)
}

fn main(rt: HostRuntime) -> std::io::Result<ExitCode> {
    let mut errors = rt.stderr();
    let status = match std::env::args(&rt) {
        Ok(words) => match run_words(&rt, words) {
            Ok(status) => status,
            Err(_) => report(&Fault::Memory, &mut errors),
        },
        Err(error) => match error.kind() {
            ErrorKind::OutOfMemory => report(&Fault::Memory, &mut errors),
            _ => print_wrong("error: a word is not UTF-8\n", &mut errors),
        },
    };
    Ok(ExitCode::from(status))
}
