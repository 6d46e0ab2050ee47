//! The command `deliver`: one message a file.

ghost use Rattle.std.specs.Prelude.{◌≡◌, ◌+◌, ◌≤◌, ℕ, List, map, if◌then◌else◌};
ghost use Rattle.std.specs.Io.KnownBytes.{Appends};
ghost use Rattle.csv_records.specs.RecordTexts.{limit};
ghost use Rattle.csv_records.specs.Streams.{IsTold, TakesAtMost};
ghost use Rattle.series_rules.specs.Steps.{Asked};
ghost use Rattle.program_commands.specs.Deliveries.{Delivers, IsRead, IsTextOf, IsUnasked, ReadFits};
ghost use Rattle.program_commands.specs.CommandEnds.{DeliverEnds};

use crate::faults::fault_of_request;
use crate::malformed::{tell, tell_end};
use crate::streams::{Errors, Streams};
use crate::unread::{report_input, report_unread, wrong_byte};
use csv_records::reading::{LIMIT, RecordFault, read_records};
use csv_records::streams::{InputFault, read_input};
use desk_batch::{RequestFault, run_request};
use desk_reasons::explaining::Reasons;
use price_rules::precedence::Precedence;
use program_clients::fault::{Fault, report};
use program_files::{FileFault, NamedFiles, STANDARD_INPUT};
use series_rules::desk::Desk;
use series_rules::requests::Request;
use std::alloc::Global;
use std::io::{Read, Write};

/// Why the message of a file has no answer that is written whole.
#[derive(Drop)]
pub enum DeliveryFault {
    /// The file cannot be read, or not even be opened, for this reason. Nothing was asked of the desk.
    Unreadable { why: Option<String> },
    /// Its text has no records, or memory ran out for them. Nothing was asked of the desk.
    Records(RecordFault),
    /// The delivery was asked of the desk.
    Request(RequestFault),
}

// The delivery of the records of a text.
fn delivery_of(alloc: Global, bytes: &[u8]) -> Result<Request, DeliveryFault>
    ensures { ReadFits bytes.now result }
{
    match read_records(alloc, bytes) {
        Ok(records) => Ok(Request::Deliver(records)),
        Err(fault) => Err(DeliveryFault::Records(fault)),
    }
}

// Reads the text of a delivery.
fn text_from_reader<R: Read>(alloc: Global, reader: &mut R) -> Result<Vec<u8>, DeliveryFault>
    ensures text { (text : List ℕ) × IsTold (R.remaining reader.old) text × IsRead text result }
    ensures taken { TakesAtMost (limit + 1) (R.remaining reader.old) (R.remaining reader.new) }
{
    match read_input(alloc, reader, LIMIT) {
        Ok(bytes) => Ok(bytes),
        Err(InputFault::Read) => Err(DeliveryFault::Unreadable { why: None }),
        Err(InputFault::TooLarge) => Err(DeliveryFault::Records(RecordFault::TooLarge)),
        Err(InputFault::Memory) => Err(DeliveryFault::Records(RecordFault::Memory)),
    }
}

/// Delivers the message that a reader of this name has, to its end or to one byte past 4,194,304,
/// writes the answer, and says whether that is a refusal. Where it is no message, a line on
/// `errors` says why, as far as there is room.
pub fn deliver_one<D: Desk, R: Read, W: Write, E: Write>(
    alloc: Global,
    desk: &mut D,
    precedence: &Precedence,
    name: &str,
    reader: &mut R,
    writer: &mut W,
    errors: &mut Errors<E>,
) -> Result<bool, DeliveryFault>
    // There is a text, that of the reader where it tells its bytes, that was delivered.
    ensures run { (text : List ℕ) × IsTold (R.remaining reader.old) text
        × Delivers (Asked D.seen precedence.now desk.old desk.new)
        (Appends (W.contents writer.old) (W.contents writer.new)) text result }
    ensures taken { TakesAtMost (limit + 1) (R.remaining reader.old) (R.remaining reader.new) }
{
    let text = match text_from_reader(alloc, reader) {
        Ok(text) => text,
        Err(fault) => return Err(fault),
    };
    let bytes = text.as_slice();
    let request = match delivery_of(alloc, bytes) {
        Ok(request) => request,
        Err(fault) => {
            errors.wrong = wrong_byte(bytes);
            return Err(fault);
        }
    };
    let mut reasons = Reasons::of_text(alloc, name, bytes, errors.room);
    let outcome = run_request(alloc, desk, precedence, &request, writer, &mut reasons);
    tell(reasons, errors);
    match outcome {
        Ok(is_refused) => Ok(is_refused),
        Err(fault) => Err(DeliveryFault::Request(fault)),
    }
}

// Why a file was not opened.
fn open_fault(fault: FileFault) -> DeliveryFault
    ensures { IsUnasked result }
{
    match fault {
        FileFault::Memory => DeliveryFault::Records(RecordFault::Memory),
        FileFault::File { why, .. } => DeliveryFault::Unreadable { why: Some(why) },
    }
}

// Delivers the message that is named: `-` is standard input, each other name a file's.
fn deliver_named<D: Desk, F: NamedFiles, R: Read, W: Write, E: Write>(
    alloc: Global,
    desk: &mut D,
    precedence: &Precedence,
    files: &F,
    name: &str,
    streams: &mut Streams<R, W, E>,
) -> Result<bool, DeliveryFault>
    ensures { (text : List ℕ)
        × IsTextOf (F.holds files.now) (R.remaining streams.old.input)
        (R.remaining streams.new.input) name.now text
        × Delivers (Asked D.seen precedence.now desk.old desk.new)
        (Appends (W.contents streams.old.output) (W.contents streams.new.output)) text result }
{
    let writer = &mut streams.output;
    let errors = &mut streams.errors;
    if name == STANDARD_INPUT {
        deliver_one(
            alloc,
            desk,
            precedence,
            name,
            &mut streams.input,
            writer,
            errors,
        )
    } else {
        match files.open(name) {
            Ok(mut file) => deliver_one(alloc, desk, precedence, name, &mut file, writer, errors),
            Err(fault) => Err(open_fault(fault)),
        }
    }
}

// Reports why the message of the file of this name has no answer, and gives the status.
fn report_delivery<F: NamedFiles, E: Write>(
    fault: DeliveryFault,
    files: &F,
    name: &str,
    errors: &mut Errors<E>,
) -> u8
    ensures { result ≡ 3 }
{
    match fault {
        DeliveryFault::Unreadable { why } => {
            report_unread(files, name, &why, &mut errors.writer);
            3
        }
        DeliveryFault::Records(fault) => report_input(&Fault::from(fault), name, errors),
        DeliveryFault::Request(fault) => { report(&fault_of_request(fault), &mut errors.writer) }
    }
}

fn refusal_status(has_refusal: bool) -> u8
    ensures is { result ≡ (if has_refusal then 1 else 0) }
    ensures most { result ≤ 1 }
{
    if has_refusal { 1 } else { 0 }
}

/// Delivers the message of each file in turn, where `-` is standard input, and writes each answer
/// before the next file is opened; where one is no message, a line on `errors` says why, 100 at most,
/// and behind other refusals the hint is written. Gives 0, or 1 where an answer was a refusal, or 3
/// after a fault, which is reported and ends the command.
pub fn deliver_files<D: Desk, F: NamedFiles, R: Read, W: Write, E: Write>(
    alloc: Global,
    desk: &mut D,
    precedence: &Precedence,
    files: &F,
    names: &[&str],
    streams: &mut Streams<R, W, E>,
) -> u8
    ensures status { result ≤ 3 }
    ensures end { DeliverEnds (Asked D.seen precedence.now desk.old desk.new)
        (Appends (W.contents streams.old.output) (W.contents streams.new.output))
        (F.holds files.now) (R.remaining streams.old.input) (map (λ name. name.now) names.now)
        result }
{
    let mut refused = 0u64;
    let mut has_refusal = false;
    for name in names {
        match deliver_named(alloc, desk, precedence, files, name, streams) {
            Ok(is_refused) => {
                refused = refused.saturating_add(u64::from(is_refused));
                has_refusal |= is_refused;
            }
            Err(fault) => {
                return report_delivery(fault, files, name, &mut streams.errors);
            }
        }
    }
    tell_end(refused, &mut streams.errors);
    refusal_status(has_refusal)
}
