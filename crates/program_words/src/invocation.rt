//! What the words of the command line ask for, read by clap.

ghost use Rattle.std.specs.Prelude.{◌≡◌, ◌∷◌, ℕ, List, None, Option, Some, IfOk, IfSome, codes, map};
ghost use Rattle.clap.specs.Simple.{subcommand_rows_of};
ghost use Rattle.clap.specs.Values.{kind_of};
ghost use Rattle.clap.specs.Walk.{Row, Text};
ghost use Rattle.program_words.specs.Asked.{IsDatabase, IsListing, IsRefused, IsTask, IsWrong, Reads, ReadsAs, ReadsKind, ReadsWords, file_in, files_in, go_together, port_in, requests_in};
ghost use Rattle.program_words.specs.ConvertWords.{AsksToConvert};
ghost use Rattle.program_words.specs.Words.{text_in, words_in};

use crate::arguments::{has_flag, text_in, texts_in};
use crate::commands::program;
use crate::convert_words::{Conversion, conversion_of};
use crate::hints::hint;
use clap::error::ErrorKind;
use clap::{ArgMatches, Error};
use onix_terms::digits::read_digits;
use std::alloc::{AllocError, Global};

/// A command over a desk, with its words.
#[derive(Drop)]
pub enum Task<'a> {
    /// `batch`: requests from standard input, answers to standard output.
    Batch,
    /// `deliver FILE..`: one message a file, in order.
    Deliver(Vec<&'a str>),
    /// `gaps NAME`: which numbers a series lacks.
    Gaps(&'a str),
    /// `serve --port N [--requests K] [--batches SOCKET]`: the desk over HTTP, and for batches at a
    /// socket of the file system, for so many connections. Without `--requests` these are more than any
    /// program lives to see.
    Serve {
        port: u16,
        requests: u64,
        batches: Option<&'a str>,
    },
}

/// What is listed of the desk in a file, which is only asked.
#[derive(Clone, Copy)]
pub enum Listing {
    /// `agreements`: the agreements of all series.
    Agreements,
    /// `gaps` without a NAME: which numbers each series lacks.
    Gaps,
    /// `export`: the requests that make the desk again.
    Export,
}

/// The database file of `--db`, and whether it has to be there, by `--existing`.
#[derive(Clone, Copy)]
pub struct Database<'a> {
    pub name: &'a str,
    pub is_existing: bool,
}

/// What is done with which desk.
#[derive(Drop)]
pub enum Action<'a> {
    /// A command over a new desk in memory.
    InMemory(Task<'a>),
    /// A command over the desk in this database file.
    InFile { db: Database<'a>, task: Task<'a> },
    /// What the desk in this database file holds is listed.
    Listed { db: Database<'a>, listing: Listing },
    /// `migrate`: the desk in this database file is brought to version 2.
    Migrate { db: Database<'a> },
    /// `--batches SOCKET batch`: the batch is sent to the desk that is open there.
    Send { socket: &'a str },
    /// `convert`: messages in XML become CSV records, and no desk is opened.
    Convert(Conversion<'a>),
    /// `rules FILE`: the precedence table of a file is read, and no desk is opened.
    CheckRules { file: &'a str },
    /// `terms FILE`: the table of the shop's terms in a file is read, and no desk is opened.
    CheckTerms { file: &'a str },
    /// `check FILE..`: each FILE is read as a text of requests, and no desk is opened.
    CheckTexts { files: Vec<&'a str> },
}

/// What the program is asked to do, under the precedence table of a file or under no rules.
#[derive(Drop)]
pub struct Invocation<'a> {
    pub rules: Option<&'a str>,
    pub action: Action<'a>,
}

/// How the words of the command line read.
#[derive(Drop)]
pub enum Reading<'a> {
    Run(Invocation<'a>),
    /// Help or the version, where asked for.
    Help(String),
    /// A fault of the command line.
    Wrong(String),
    /// `migrate` without a database file.
    NoDatabase,
    /// A command that lists what the desk in a file holds, without a database file.
    NoDesk,
    /// `--batches` before another command than `batch`.
    NoBatch,
    /// Memory ran out.
    Memory,
}

// What is said of options before the command that do not go together.
const APART: &str =
    "error: --existing goes with --db alone, and --batches with neither --db nor --rules\n";

// What is said of a number of `serve` that is not read.
const NOT_DIGITS: &str = "error: a number of serve is 1 to 9 digits, without a sign\n";

// What clap could not read as an invocation, and, where a word is out of its place, what to write.
fn error_reading<'a>(alloc: Global, words: &[&str], error: &Error) -> Reading<'a>
    ensures kind { ReadsKind (kind_of error.now) result }
    ensures memory { kind_of error.now ≡ ErrorKind.OutOfMemory → result ≡ Reading.Memory }
{
    let kind = error.kind();
    if kind == ErrorKind::OutOfMemory {
        return Reading::Memory;
    }
    let Ok(mut text) = error.to_string(alloc) else {
        return Reading::Memory;
    };
    if kind == ErrorKind::DisplayHelp || kind == ErrorKind::DisplayVersion {
        return Reading::Help(text);
    }
    match text.push_str(hint(words)) {
        Ok(()) => Reading::Wrong(text),
        Err(_) => Reading::Memory,
    }
}

// The words are told to be wrong.
fn wrong_reading<'a>(alloc: Global, text: &str) -> Reading<'a>
    ensures wrong { IsWrong result }
    ensures refused { (top : List Row) (name : Text) (own : List Row)
        → IsRefused AsksToConvert top name own → ReadsAs AsksToConvert top name own result }
{
    match String::from_str(alloc, text) {
        Ok(text) => Reading::Wrong(text),
        Err(AllocError) => Reading::Memory,
    }
}

// The FILE that a command needs.
fn file_of<'a>(words: &ArgMatches<'a>) -> &'a str
    ensures { result.now ≡ file_in (words_in words.now) }
{
    match text_in(words, "file") {
        Some(file) => file,
        None => "",
    }
}

// The FILEs that a command needs.
fn files_of<'a>(alloc: Global, words: &ArgMatches<'a>) -> Result<Vec<&'a str>, AllocError>
    ensures { IfOk result (λ files. map (λ file. file.now) files.items
        ≡ files_in (words_in words.now)) }
{
    match texts_in(words, "file") {
        Some(files) => Vec::from_slice(alloc, files),
        None => Ok(Vec::new(alloc)),
    }
}

// The port of `serve`.
fn port_of(words: &ArgMatches<'_>) -> Option<u16>
    ensures { result ≡ port_in (words_in words.now) }
{
    let port = read_digits(text_in(words, "port")?)?;
    if port <= 65_535 {
        Some(port as u16)
    } else {
        None
    }
}

// How many connections `serve` is for.
fn requests_of(words: &ArgMatches<'_>) -> Option<u64>
    ensures { result ≡ requests_in (words_in words.now) }
{
    match text_in(words, "requests") {
        Some(word) => Some(u64::from(read_digits(word)?)),
        None => Some(u64::MAX),
    }
}

// The database file, where one is named.
fn database_of<'a>(matches: &ArgMatches<'a>) -> Option<Database<'a>>
    ensures { IsDatabase (words_in matches.now) result }
{
    let name = text_in(matches, "db")?;
    let is_existing = has_flag(matches, "existing");
    Some(Database { name, is_existing })
}

// What a command asks for that lists what a desk holds.
fn listing_reading<'a>(matches: &ArgMatches<'a>, listing: Listing) -> Reading<'a>
    ensures { (name : Text) (own : List Row) → IsListing name own listing
        → text_in (words_in matches.now) (codes "batches") ≡ None
        → ReadsAs AsksToConvert (words_in matches.now) name own result }
{
    match database_of(matches) {
        Some(db) => Reading::Run(Invocation {
            rules: text_in(matches, "rules"),
            action: Action::Listed { db, listing },
        }),
        None => Reading::NoDesk,
    }
}

// What a command asks for that has a task over a desk.
fn task_reading<'a>(matches: &ArgMatches<'a>, task: Task<'a>) -> Reading<'a>
    ensures { (name : Text) (own : List Row) → IsTask name own task.entry
        → text_in (words_in matches.now) (codes "batches") ≡ None
        → ReadsAs AsksToConvert (words_in matches.now) name own result }
{
    match database_of(matches) {
        Some(db) => Reading::Run(Invocation {
            rules: text_in(matches, "rules"),
            action: Action::InFile { db, task },
        }),
        None => Reading::Run(Invocation {
            rules: text_in(matches, "rules"),
            action: Action::InMemory(task),
        }),
    }
}

// What `gaps` asks for: with a NAME one series, without it all.
fn gaps_reading<'a>(matches: &ArgMatches<'a>, words: &ArgMatches<'a>) -> Reading<'a>
    ensures { text_in (words_in matches.now) (codes "batches") ≡ None
        → ReadsAs AsksToConvert (words_in matches.now) (codes "gaps") (words_in words.now) result }
{
    match text_in(words, "name") {
        Some(series) => task_reading(matches, Task::Gaps(series)),
        None => listing_reading(matches, Listing::Gaps),
    }
}

// What `deliver` asks for.
fn deliver_reading<'a>(
    alloc: Global,
    matches: &ArgMatches<'a>,
    words: &ArgMatches<'a>,
) -> Reading<'a>
    ensures { text_in (words_in matches.now) (codes "batches") ≡ None
        → ReadsAs AsksToConvert (words_in matches.now) (codes "deliver") (words_in words.now)
        result }
{
    match files_of(alloc, words) {
        Ok(files) => task_reading(matches, Task::Deliver(files)),
        Err(AllocError) => Reading::Memory,
    }
}

// What `serve` asks for.
fn serve_reading<'a>(alloc: Global, matches: &ArgMatches<'a>, words: &ArgMatches<'a>) -> Reading<'a>
    ensures { text_in (words_in matches.now) (codes "batches") ≡ None
        → ReadsAs AsksToConvert (words_in matches.now) (codes "serve") (words_in words.now) result }
{
    let Some(port) = port_of(words) else {
        return wrong_reading(alloc, NOT_DIGITS);
    };
    let Some(requests) = requests_of(words) else {
        return wrong_reading(alloc, NOT_DIGITS);
    };
    let batches = text_in(words, "batches");
    let task = Task::Serve {
        port,
        requests,
        batches,
    };
    task_reading(matches, task)
}

// What `migrate` asks for.
fn migrate_reading<'a>(matches: &ArgMatches<'a>) -> Reading<'a>
    ensures { (own : List Row) → text_in (words_in matches.now) (codes "batches") ≡ None
        → ReadsAs AsksToConvert (words_in matches.now) (codes "migrate") own result }
{
    match database_of(matches) {
        Some(db) => Reading::Run(Invocation {
            rules: text_in(matches, "rules"),
            action: Action::Migrate { db },
        }),
        None => Reading::NoDatabase,
    }
}

// What a command asks for whose batch goes to the desk at a socket.
fn send_reading<'a>(socket: &'a str, name: &str) -> Reading<'a>
    ensures { (top own : List Row) → text_in top (codes "batches") ≡ Some socket.entry.now
        → ReadsAs AsksToConvert top name.now own result }
{
    if name != "batch" {
        return Reading::NoBatch;
    }
    Reading::Run(Invocation {
        rules: None,
        action: Action::Send { socket },
    })
}

// What `convert` asks for.
fn convert_reading<'a>(alloc: Global, words: &ArgMatches<'a>) -> Reading<'a>
    ensures { (top : List Row) → text_in top (codes "batches") ≡ None
        → ReadsAs AsksToConvert top (codes "convert") (words_in words.now) result }
{
    let bad = match conversion_of(alloc, words) {
        Ok(conversion) => {
            return Reading::Run(Invocation {
                rules: None,
                action: Action::Convert(conversion),
            });
        }
        Err(bad) => bad,
    };
    match bad.text(alloc) {
        Ok(text) => Reading::Wrong(text),
        Err(AllocError) => Reading::Memory,
    }
}

// What `rules` asks for.
fn rules_reading<'a>(words: &ArgMatches<'a>) -> Reading<'a>
    ensures { (top : List Row) → text_in top (codes "batches") ≡ None
        → ReadsAs AsksToConvert top (codes "rules") (words_in words.now) result }
{
    let file = file_of(words);
    Reading::Run(Invocation {
        rules: None,
        action: Action::CheckRules { file },
    })
}

// What `terms` asks for.
fn terms_reading<'a>(words: &ArgMatches<'a>) -> Reading<'a>
    ensures { (top : List Row) → text_in top (codes "batches") ≡ None
        → ReadsAs AsksToConvert top (codes "terms") (words_in words.now) result }
{
    let file = file_of(words);
    Reading::Run(Invocation {
        rules: None,
        action: Action::CheckTerms { file },
    })
}

// What `check` asks for.
fn check_reading<'a>(alloc: Global, words: &ArgMatches<'a>) -> Reading<'a>
    ensures { (top : List Row) → text_in top (codes "batches") ≡ None
        → ReadsAs AsksToConvert top (codes "check") (words_in words.now) result }
{
    match files_of(alloc, words) {
        Ok(files) => Reading::Run(Invocation {
            rules: None,
            action: Action::CheckTexts { files },
        }),
        Err(AllocError) => Reading::Memory,
    }
}

// What the command of that name asks for, behind the options that were found.
fn command_reading<'a>(
    alloc: Global,
    matches: &ArgMatches<'a>,
    name: &str,
    words: &ArgMatches<'a>,
) -> Reading<'a>
    ensures { ReadsAs AsksToConvert (words_in matches.now) name.now (words_in words.now) result }
{
    if let Some(socket) = text_in(matches, "batches") {
        return send_reading(socket, name);
    }
    match name {
        "agreements" => listing_reading(matches, Listing::Agreements),
        "batch" => task_reading(matches, Task::Batch),
        "check" => check_reading(alloc, words),
        "convert" => convert_reading(alloc, words),
        "deliver" => deliver_reading(alloc, matches, words),
        "export" => listing_reading(matches, Listing::Export),
        "gaps" => gaps_reading(matches, words),
        "migrate" => migrate_reading(matches),
        "rules" => rules_reading(words),
        "serve" => serve_reading(alloc, matches, words),
        "terms" => terms_reading(words),
        _ => wrong_reading(alloc, ""),
    }
}

// Whether the options before the command go together.
fn go_together(matches: &ArgMatches<'_>) -> bool
    ensures { result ≡ go_together (words_in matches.now) }
{
    let has_db = text_in(matches, "db").is_some();
    let has_rules = text_in(matches, "rules").is_some();
    let is_sent = text_in(matches, "batches").is_some();
    (!has_flag(matches, "existing") || has_db) && !(is_sent && (has_db || has_rules))
}

// What words that clap let pass ask for.
fn matched_reading<'a>(alloc: Global, matches: &ArgMatches<'a>) -> Reading<'a>
    ensures { ReadsWords AsksToConvert (words_in matches.now)
        (subcommand_rows_of matches.now) result }
{
    let Some((name, words)) = matches.subcommand() else {
        return wrong_reading(alloc, "");
    };
    if !go_together(matches) {
        return wrong_reading(alloc, APART);
    }
    command_reading(alloc, matches, name, words)
}

/// Reads the words, of which the first is the program's name. A fault that clap finds and a call for
/// help are as clap words them.
pub fn read<'a>(alloc: Global, words: &'a [&'a str]) -> Reading<'a>
    ensures { Reads (map (λ word. word.now) words.entry.now) result }
{
    let Ok(program) = program(alloc) else {
        return Reading::Memory;
    };
    match program.try_get_matches_from(words) {
        Ok(matches) => matched_reading(alloc, &matches),
        Err(error) => error_reading(alloc, words, &error),
    }
}
