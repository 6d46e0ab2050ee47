//! The commands of the program and their options, as clap takes them, with their help.

ghost use Rattle.std.specs.Prelude.{◌∷◌, ℕ, [], IfOk, codes};
ghost use Rattle.clap.specs.Simple.{App, Shape, new_shape, with_rule, with_subcommand};
ghost use Rattle.clap.specs.Walk.{Rule};
ghost use Rattle.program_words.specs.CommandLine.{IsCommand, IsProgram, IsWord, command_of, convert_command, flag_option, free_operand, needed, number_option, onixdesk, program_of, program_options, serve_command, short_option, some_operands, text_option};

use clap::builder::ValueParser;
use clap::{Arg, ArgAction, Command};
use std::alloc::{AllocError, Global};

/// The version that `--version` prints.
const VERSION: &str = "0.3.0";

// An operand that may be left out. Help calls it `value`.
fn operand<'a>(alloc: Global, name: &'a str, value: &'a str, help: &'a str) -> Arg<'a>
    ensures { IsWord (free_operand name.entry.now) result }
{
    Arg::new(alloc, name)
        .value_name(value)
        .action(ArgAction::Set)
        .help(help)
}

// So many FILEs or more.
fn files<'a>(alloc: Global, least: usize, help: &'a str) -> Arg<'a>
    ensures { IsWord (some_operands (codes "file") least) result }
{
    Arg::new(alloc, "file")
        .value_name("FILE")
        .num_args(least..)
        .action(ArgAction::Append)
        .help(help)
}

// The FILEs of a command that needs some.
fn needed_files<'a>(alloc: Global, help: &'a str) -> Arg<'a>
    ensures { IsWord (needed (some_operands (codes "file") 1)) result }
{
    files(alloc, 1, help).required(true)
}

// The FILE of a command that needs one.
fn needed_file<'a>(alloc: Global, help: &'a str) -> Arg<'a>
    ensures { IsWord (needed (free_operand (codes "file"))) result }
{
    operand(alloc, "file", "FILE", help).required(true)
}

// The option `--NAME TEXT`. Help calls the text `value`.
fn text_option<'a>(alloc: Global, name: &'a str, value: &'a str, help: &'a str) -> Arg<'a>
    ensures { IsWord (text_option name.entry.now) result }
{
    operand(alloc, name, value, help).long(name)
}

// The option `--NAME N`, a number from `least` to `most`. Help calls it `value`.
fn number_option<'a>(
    alloc: Global,
    name: &'a str,
    value: &'a str,
    least: u64,
    most: u64,
    help: &'a str,
) -> Arg<'a>
    ensures { IsWord (number_option name.entry.now least most) result }
{
    text_option(alloc, name, value, help).value_parser(ValueParser::unsigned(least, most))
}

// The option `--NAME`, without a text.
fn flag_option<'a>(alloc: Global, name: &'a str, help: &'a str) -> Arg<'a>
    ensures { IsWord (flag_option name.entry.now) result }
{
    Arg::new(alloc, name)
        .long(name)
        .action(ArgAction::SetTrue)
        .help(help)
}

// The command of that name, without options and operands.
fn bare_command<'a>(
    alloc: Global,
    name: &'a str,
    about: &'a str,
    long_about: &'a str,
) -> Command<'a>
    ensures { IsCommand (new_shape name.entry.now) result }
{
    Command::new(alloc, name)
        .about(about)
        .long_about(long_about)
}

// Both hand on that there was no memory, so that what calls them has one way out, on which it lets go
// of nothing.

// The command with one more option or operand.
fn with_word<'a>(
    command: Result<Command<'a>, AllocError>,
    word: Result<Arg<'a>, AllocError>,
) -> Result<Command<'a>, AllocError>
    ensures { (a : App) (r : Rule) → IfOk command.entry (IsProgram a)
        → IfOk word.entry (IsWord r) → IfOk result (IsProgram (with_rule a r)) }
{
    command?.arg(word?)
}

// The program with one more command.
fn with_command<'a>(
    program: Result<Command<'a>, AllocError>,
    command: Result<Command<'a>, AllocError>,
) -> Result<Command<'a>, AllocError>
    ensures { (a : App) (s : Shape) → IfOk program.entry (IsProgram a)
        → IfOk command.entry (IsCommand s) → IfOk result (IsProgram (with_subcommand a s)) }
{
    program?.subcommand(command?)
}

fn agreements<'a>(alloc: Global) -> Command<'a>
    ensures { IsCommand (command_of "agreements" []) result }
{
    bare_command(
        alloc,
        "agreements",
        "Write the agreements of all series",
        "Writes the agreements of all series, in the order of the bytes of their names, each as the record Agree that a batch takes. The database file is named before the command: onixdesk --db FILE agreements. The desk is not changed. A missing or empty file, or one that has no desk, is a fault, and no desk is made.\n\nExample: onixdesk --db shop.db agreements",
    )
}

fn batch<'a>(alloc: Global) -> Command<'a>
    ensures { IsCommand (command_of "batch" []) result }
{
    bare_command(
        alloc,
        "batch",
        "Read requests from standard input, write their answers to standard output",
        "Reads agreements, messages, waivers and questions as CSV records from standard input, up to 4,194,304 bytes of UTF-8, and writes the answer to each, in order, to standard output. A database file and a precedence table are named before the command: onixdesk --db FILE --rules FILE batch. Without a database file the desk ends with the batch. With --batches SOCKET before the command the batch goes to the desk that is open there, whose answers are written; then status 3 also means that the socket failed or that an answer did not come. Behind the answers a line on standard error says of each request that was malformed what is wrong.\n\nExample: onixdesk --db shop.db batch < monday.csv",
    )
}

fn deliver<'a>(alloc: Global) -> Result<Command<'a>, AllocError>
    ensures { IfOk result
        (IsCommand (command_of "deliver" (needed (some_operands (codes "file") 1) ∷ []))) }
{
    let deliver = bare_command(
        alloc,
        "deliver",
        "Deliver the message of each file, write the answer to each",
        "Delivers the message that each file holds, from its record Message to its record EndMessage, in the order of the files, and writes the answer to each to standard output; the file - is standard input. A file that cannot be read, or a fault, ends the command with status 3; the answers before it remain valid. The agreements are those of the database file: onixdesk --db FILE deliver FILE. Without one there are none, and a whole message with a number is answered refused,unknown-series. A line on standard error says of each file that is malformed what is wrong.\n\nExample: onixdesk --db shop.db deliver monday.csv",
    );
    let messages = needed_files(
        alloc,
        "A message as CSV records, up to 4,194,304 bytes of UTF-8; - is standard input",
    );
    with_word(Ok(deliver), Ok(messages))
}

fn check<'a>(alloc: Global) -> Result<Command<'a>, AllocError>
    ensures { IfOk result
        (IsCommand (command_of "check" (needed (some_operands (codes "file") 1) ∷ []))) }
{
    let check = bare_command(
        alloc,
        "check",
        "Say what is wrong with each request that is malformed, and ask no desk",
        "Reads each FILE as batch reads its input, and asks no desk. For each request or message that a desk would answer refused,malformed,ROW, a line on standard error says in which line of the FILE it is wrong, in which field, and why; 100 lines at most, and then how many more there are. The status is 0 if nothing is malformed, 1 if something is, and 3 if a FILE cannot be read.\n\nExample: onixdesk check monday.csv",
    );
    let texts = needed_files(
        alloc,
        "Requests or a message as CSV records, up to 4,194,304 bytes of UTF-8; - is standard input",
    );
    with_word(Ok(check), Ok(texts))
}

fn export<'a>(alloc: Global) -> Command<'a>
    ensures { IsCommand (command_of "export" []) result }
{
    bare_command(
        alloc,
        "export",
        "Write the desk as a batch that makes it again",
        "Writes the desk as the batch that makes it again: for each series, in the order of the bytes of their names, its agreement, and then for each number in order the message or the waiver that is recorded at it. A new desk that is given these requests answers every further request as this one does. The database file is named before the command: onixdesk --db FILE export. The desk is not changed. A missing or empty file, or one that has no desk, is a fault, and no desk is made. A message of more than 4,194,304 bytes is a fault, since no batch takes it. A batch has no more bytes than that: cut a longer text before a request, and give a new desk the parts in their order.\n\nExample: onixdesk --db shop.db export > shop.csv",
    )
}

fn gaps<'a>(alloc: Global) -> Result<Command<'a>, AllocError>
    ensures { IfOk result (IsCommand (command_of "gaps" (free_operand (codes "name") ∷ []))) }
{
    let gaps = bare_command(
        alloc,
        "gaps",
        "Write which message numbers of a series, or of all, are missing",
        "Writes the first and the next number of a series, the greatest that has come, how many are held, and the ranges of numbers that are missing. A series that is not agreed, and a name that cannot be one, are answered refused,unknown-series with status 1. Without a NAME this is written of each series of the database file, in the order of the bytes of their names: onixdesk --db FILE gaps. Then a missing or empty file, or one that has no desk, is a fault, and no desk is made.\n\nExample: onixdesk --db shop.db gaps north",
    );
    let series = operand(
        alloc,
        "name",
        "NAME",
        "The name of the series; without it all series of the database file",
    );
    with_word(Ok(gaps), Ok(series))
}

fn port<'a>(alloc: Global) -> Arg<'a>
    ensures { IsWord (needed (number_option (codes "port") 1 65535)) result }
{
    number_option(
        alloc,
        "port",
        "N",
        1,
        65_535,
        "The port of 127.0.0.1, 1 to 65535",
    )
    .required(true)
}

fn requests<'a>(alloc: Global) -> Arg<'a>
    ensures { IsWord (number_option (codes "requests") 1 1000000) result }
{
    number_option(
        alloc,
        "requests",
        "K",
        1,
        1_000_000,
        "How many connections are served, 1 to 1000000, at the port and at the socket together; then the program ends. Without it serving goes on until the program is stopped",
    )
}

fn socket<'a>(alloc: Global) -> Arg<'a>
    ensures { IsWord (text_option (codes "batches")) result }
{
    text_option(
        alloc,
        "batches",
        "SOCKET",
        "Take batches too, at this socket of the file system: onixdesk --batches SOCKET batch sends one there",
    )
}

fn serve<'a>(alloc: Global) -> Result<Command<'a>, AllocError>
    ensures { IfOk result (IsCommand serve_command) }
{
    let serve = bare_command(
        alloc,
        "serve",
        "Answer requests over HTTP on a port of this machine",
        "Listens at a port of 127.0.0.1, which only programs on this machine reach, writes the line 'listening N', and serves connections one after the other, one request each. For each connection a line is written: the status of the reply, or 'fault' if none was sent whole.\n\nWith --batches it listens at a socket of the file system too, which the program's user and group alone may use; each connection there is one batch, the text to the end of what the client sends, and its line is 'batch N', with the number of refusals, or 'fault'.\n\nA client may let the desk wait 10 seconds while it sends and 10 seconds while it takes what is sent to it; over that the connection is a fault, and serving goes on.\n\nThe desk is that of the database file, with the shop's rules: onixdesk --db FILE --rules FILE serve; without one it begins without agreements and ends with the program.\n\nA port or a socket that cannot be listened at ends the program with status 3. TLS and access control are left to a proxy before it.\n\nExample: onixdesk --db shop.db --rules rules.toml serve --port 8080",
    );
    let serve = with_word(Ok(serve), Ok(port(alloc)));
    let serve = with_word(serve, Ok(socket(alloc)));
    with_word(serve, Ok(requests(alloc)))
}

fn migrate<'a>(alloc: Global) -> Command<'a>
    ensures { IsCommand (command_of "migrate" []) result }
{
    bare_command(
        alloc,
        "migrate",
        "Bring a database file of an earlier version to the one that this program keeps",
        "Brings the desk in the database file from version 1, which knows no minimum quantities, to version 2, in one transaction, and writes 'migrated'; an empty or missing file becomes a desk without agreements. A file of version 2 stays as it is, and 'schema 2' is written. Any other version is a fault, and the file stays. The file is named before the command: onixdesk --db FILE migrate. Copy the file first.\n\nExample: onixdesk --db shop.db migrate",
    )
}

fn rules_check<'a>(alloc: Global) -> Result<Command<'a>, AllocError>
    ensures { IfOk result
        (IsCommand (command_of "rules" (needed (free_operand (codes "file")) ∷ []))) }
{
    let rules = bare_command(
        alloc,
        "rules",
        "Read a precedence table, and write how many rules it has",
        "Reads the precedence table of a TOML file, as a desk does that is started with --rules FILE, and writes 'rules N', with the number of its rules. If the file is not a precedence table, or cannot be read, the status is 2, and a line on standard error says in which line of the file, and why. Try a changed file so before the desk is started again.\n\nExample: onixdesk rules rules.toml",
    );
    let table = needed_file(alloc, "A precedence table as a TOML file");
    with_word(Ok(rules), Ok(table))
}

fn terms_check<'a>(alloc: Global) -> Result<Command<'a>, AllocError>
    ensures { IfOk result
        (IsCommand (command_of "terms" (needed (free_operand (codes "file")) ∷ []))) }
{
    let terms = bare_command(
        alloc,
        "terms",
        "Read the shop's terms with a wholesaler, and write how many there are",
        "Reads a table of the shop's terms with a wholesaler, a TOML file, and writes 'terms N', with the number of its terms. If the file is not a table of terms, or cannot be read, the status is 2, and a line on standard error says which term is bad, and why. A line on standard error names each term that never counts, since an earlier one fits every price that it fits.\n\nExample: onixdesk terms north.toml",
    );
    let table = needed_file(
        alloc,
        "A table of the shop's terms with a wholesaler as a TOML file",
    );
    with_word(Ok(terms), Ok(table))
}

fn parts<'a>(alloc: Global) -> Arg<'a>
    ensures { IsWord (number_option (codes "parts") 1 9999) result }
{
    number_option(
        alloc,
        "parts",
        "P",
        1,
        9_999,
        "Make P messages of each, numbered on from one message to the next, 1 to 9999; without the option, 1. P is the number of parts that is agreed with the wholesaler for each message, and stays the same",
    )
}

fn number<'a>(alloc: Global) -> Arg<'a>
    ensures { IsWord (number_option (codes "number") 1 999999999) result }
{
    number_option(
        alloc,
        "number",
        "N",
        1,
        999_999_999,
        "The number of the message, in place of its own; for one FILE alone",
    )
}

fn number_offset<'a>(alloc: Global) -> Arg<'a>
    ensures { IsWord (number_option (codes "number-offset") 0 999999998) result }
{
    number_option(
        alloc,
        "number-offset",
        "K",
        0,
        999_999_998,
        "Add K to the number of each FILE, whose sender began again at 1; not with --number",
    )
}

fn sender<'a>(alloc: Global) -> Arg<'a>
    ensures { IsWord (text_option (codes "sender")) result }
{
    text_option(
        alloc,
        "sender",
        "TYPE,VALUE",
        "The identifier of the sender, for a FILE whose Header has none with a type and a value",
    )
}

fn addressee<'a>(alloc: Global) -> Arg<'a>
    ensures { IsWord (text_option (codes "addressee")) result }
{
    text_option(
        alloc,
        "addressee",
        "TYPE,VALUE",
        "Of several addressees take the one that has this identifier",
    )
}

fn supplier<'a>(alloc: Global) -> Arg<'a>
    ensures { IsWord (text_option (codes "supplier")) result }
{
    text_option(
        alloc,
        "supplier",
        "TYPE,VALUE",
        "Take the SupplyDetails of the supplier with this identifier alone",
    )
}

fn id_type<'a>(alloc: Global) -> Arg<'a>
    ensures { IsWord (text_option (codes "id-type")) result }
{
    text_option(
        alloc,
        "id-type",
        "TT",
        "Of several identifiers take the first of this type, else the first; 06 (GLN) without it",
    )
}

fn wrong<'a>(alloc: Global) -> Arg<'a>
    ensures { IsWord (text_option (codes "wrong")) result }
{
    text_option(
        alloc,
        "wrong",
        "none|few|all",
        "How many products of a FILE may be wrong before it is refused; few without it: ten, or one in a hundred, but not two that are more than half",
    )
}

fn folder<'a>(alloc: Global) -> Arg<'a>
    ensures { IsWord (short_option (codes "folder") 111) result }
{
    operand(
        alloc,
        "folder",
        "FOLDER",
        "Write each message into a file of its own in FOLDER, in place of standard output",
    )
    .short('o')
}

fn terms<'a>(alloc: Global) -> Arg<'a>
    ensures { IsWord (text_option (codes "terms")) result }
{
    text_option(
        alloc,
        "terms",
        "FILE",
        "Compute net prices by the shop's terms with the wholesaler, a TOML file, which onixdesk terms FILE checks",
    )
}

fn feeds<'a>(alloc: Global) -> Arg<'a>
    ensures { IsWord (some_operands (codes "file") 0) result }
{
    files(alloc, 0, "A message in XML; - or none is standard input")
}

fn convert<'a>(alloc: Global) -> Result<Command<'a>, AllocError>
    ensures { IfOk result (IsCommand convert_command) }
{
    let convert = bare_command(
        alloc,
        "convert",
        "Convert ONIX messages in XML to the CSV records that the desk reads",
        "Converts ONIX for Books messages in XML, release 3.0 or 3.1, to the CSV records that the desk reads. Notes on standard error tell what is left out. A FILE that is refused gives no output, and the others are done. Without -o the records of one FILE go to standard output. With it each message becomes NAME.csv, or NAME.part-01.csv and so on, NAME being the FILE without its extension; an existing file is never overwritten: it is a fault unless it has the same bytes. A packed FILE is refused: unpack it before, gunzip -c FILE | onixdesk convert.\n\nExample: onixdesk convert -o records feed.xml",
    );
    let convert = with_word(Ok(convert), Ok(parts(alloc)));
    let convert = with_word(convert, Ok(number(alloc)));
    let convert = with_word(convert, Ok(number_offset(alloc)));
    let convert = with_word(convert, Ok(sender(alloc)));
    let convert = with_word(convert, Ok(addressee(alloc)));
    let convert = with_word(convert, Ok(supplier(alloc)));
    let convert = with_word(convert, Ok(id_type(alloc)));
    let convert = with_word(convert, Ok(wrong(alloc)));
    let convert = with_word(convert, Ok(terms(alloc)));
    let convert = with_word(convert, Ok(folder(alloc)));
    with_word(convert, Ok(feeds(alloc)))
}

// The option `--db FILE`, which stands before the command.
fn db<'a>(alloc: Global) -> Arg<'a>
    ensures { IsWord (text_option (codes "db")) result }
{
    text_option(
        alloc,
        "db",
        "FILE",
        "Keep the desk in this SQLite file, which is created if it does not exist. Give this option before the command; without it the desk is in memory and ends with the program. One program at a time may use the file",
    )
}

// The option `--existing`, which stands beside `--db`.
fn existing<'a>(alloc: Global) -> Arg<'a>
    ensures { IsWord (flag_option (codes "existing")) result }
{
    flag_option(
        alloc,
        "existing",
        "If the file of --db does not exist, or is the database of another program, the command fails and creates nothing",
    )
}

// The option `--rules FILE`, which stands before the command.
fn rules<'a>(alloc: Global) -> Arg<'a>
    ensures { IsWord (text_option (codes "rules")) result }
{
    text_option(
        alloc,
        "rules",
        "FILE",
        "Choose among offers by the precedence table of this TOML file. Give this option before the command; without it there are no rules",
    )
}

// The option `--batches SOCKET`, which stands before the command `batch`.
fn batches<'a>(alloc: Global) -> Arg<'a>
    ensures { IsWord (text_option (codes "batches")) result }
{
    text_option(
        alloc,
        "batches",
        "SOCKET",
        "Send the batch to the desk that is open at this socket, that of serve --batches. Give this option before the command batch; no desk is opened here",
    )
}

// The program's own words.
fn named<'a>(alloc: Global) -> Command<'a>
    ensures { IsProgram (program_of [] []) result }
{
    Command::new(alloc, "onixdesk")
        .version(VERSION)
        .about(
            "The intake of a bookshop's buying desk: numbered ONIX messages in, proved answers out",
        )
        .after_help(
            "Exit status: 0; 1 if an answer of batch, deliver or gaps was a refusal, check found something malformed, or a FILE of convert was refused or a wrong product left out; 2 for a bad command line, rules file or table of terms; 3 for a fault of storage, a file, input, output, the port or the socket, or when out of memory. While serve runs, a request that cannot be answered ends only its connection.",
        )
        .subcommand_required(true)
}

// The program with its options.
fn with_options<'a>(alloc: Global) -> Result<Command<'a>, AllocError>
    ensures { IfOk result (IsProgram (program_of program_options [])) }
{
    let program = with_word(Ok(named(alloc)), Ok(db(alloc)));
    let program = with_word(program, Ok(existing(alloc)));
    let program = with_word(program, Ok(rules(alloc)));
    with_word(program, Ok(batches(alloc)))
}

/// The program with all its commands. Without memory there is none.
pub fn program<'a>(alloc: Global) -> Result<Command<'a>, AllocError>
    ensures { IfOk result (IsProgram onixdesk) }
{
    let program = with_command(with_options(alloc), Ok(agreements(alloc)));
    let program = with_command(program, Ok(batch(alloc)));
    let program = with_command(program, check(alloc));
    let program = with_command(program, convert(alloc));
    let program = with_command(program, deliver(alloc));
    let program = with_command(program, Ok(export(alloc)));
    let program = with_command(program, gaps(alloc));
    let program = with_command(program, Ok(migrate(alloc)));
    let program = with_command(program, rules_check(alloc));
    let program = with_command(program, serve(alloc));
    with_command(program, terms_check(alloc))
}
