//! The command `batch` with `--batches`: the batch of standard input is sent to a desk that is
//! open, and its answers come to standard output. Nothing of a desk is opened here.

ghost use Rattle.std.specs.Prelude.{◌≡◌, ◌-◌, ◌∷◌, ◌||◌, ◌≤◌, [], if◌then◌else◌, IfOk, OnErr, length};
ghost use Rattle.std.specs.Io.KnownBytes.{Appends};
ghost use Rattle.std.specs.List.{list_any};
ghost use Rattle.csv.specs.Records.{fields_of};
ghost use Rattle.csv_records.specs.RecordTexts.{records_of};
ghost use Rattle.csv_records.specs.Streams.{IsTold};
ghost use Rattle.desk_texts.specs.Records.{begins_with, is_one_of};
ghost use Rattle.desk_texts.specs.Requests.{HasRecords, requests_of};
ghost use Rattle.program_commands.specs.Sending.{SendEnds, SendFits, TakesAnswers, WritesCame, answer_names, report_names, unanswered};

use crate::malformed::{tell, tell_untold};
use crate::streams::{Errors, Streams};
use crate::unread::{report_input, wrong_byte};
use csv::StringRecord;
use csv_records::reading::{LIMIT, RecordReader};
use csv_records::streams::{InputFault, WriteFault, read_input, write_whole};
use desk_reasons::explaining::Reasons;
use desk_texts::request_rows::requests_in;
use program_clients::fault::{CausedFault, Fault, report_why};
use program_clients::open_desks::OpenDesks;
use series_rules::requests::Request;
use std::alloc::{AllocError, Global};
use std::io::{Read, Write};

// How many bytes are taken at once.
const CHUNK: usize = 4096;

// Whether a name begins the answer to a question.
fn is_report(name: &str) -> bool
    ensures { result ≡ is_one_of report_names name.now }
{
    name == "price"
        || name == "choice"
        || name == "calendar"
        || name == "gaps"
        || name == "catalogue"
}

// Whether a name begins an answer.
fn is_answer_name(name: &str) -> bool
    ensures { result ≡ is_one_of answer_names name.now }
{
    name == "agreed"
        || name == "applied"
        || name == "held"
        || name == "waived"
        || name == "refused"
        || is_report(name)
}

// Whether a record begins an answer.
fn is_answer(from: &StringRecord) -> bool
    ensures { result ≡ begins_with answer_names (fields_of from.now) }
{
    match from.get(0) {
        None => false,
        Some(name) => is_answer_name(name),
    }
}

// Whether a record begins a refusal.
fn is_refusal(from: &StringRecord) -> bool
    ensures { result ≡ begins_with ("refused" ∷ []) (fields_of from.now) }
{
    match from.get(0) {
        None => false,
        Some(name) => name == "refused",
    }
}

// How many answers lack, of so many, with this record.
fn still_missing(missing: usize, from: &StringRecord) -> usize
    ensures { result ≡ (if begins_with answer_names (fields_of from.now)
        then missing - 1 else missing) }
{
    if is_answer(from) {
        missing.saturating_sub(1)
    } else {
        missing
    }
}

// Whether one is a refusal, of this record and those before.
fn still_refused(refused: bool, from: &StringRecord) -> bool
    ensures { result ≡ (refused || begins_with ("refused" ∷ []) (fields_of from.now)) }
{
    refused || is_refusal(from)
}

// How many of so many requests have no answer in a text, and whether one there is a refusal.
fn look_over(alloc: Global, text: &str, asked: usize) -> Result<(usize, bool), AllocError>
    ensures { IfOk result (λ p. (p.0 ≡ unanswered asked (records_of text.now))
        × (p.1 ≡ list_any (begins_with ("refused" ∷ [])) (records_of text.now))) }
{
    let mut reader = RecordReader::of_text(alloc, text);
    let mut record = StringRecord::new(alloc);
    let mut missing = asked;
    let mut refused = false;
    'reading: while reader.read(&mut record)? {
        missing = still_missing(missing, &record);
        refused = still_refused(refused, &record);
    }
    Ok((missing, refused))
}

// Takes all that comes, and writes each part of it as it comes.
fn take_all<S: Read, W: Write>(
    alloc: Global,
    from: &mut S,
    output: &mut W,
) -> Result<Vec<u8>, Fault>
    ensures ok { IfOk result (λ bytes. IsTold (S.remaining from.old) bytes.items
        × Appends (W.contents output.old) (W.contents output.new) bytes.items) }
    ensures err { OnErr result (WritesCame (S.remaining from.old)
        (Appends (W.contents output.old) (W.contents output.new))) }
{
    let mut bytes = Vec::new(alloc);
    let mut chunk = [0u8; CHUNK];
    'taking: for _ in 0..u64::MAX {
        match from.read(&mut chunk) {
            Ok(0) => return Ok(bytes),
            Ok(n) => {
                if bytes.extend_from_slice(&chunk[..n]).is_err() {
                    return Err(Fault::Memory);
                }
                match write_whole(output, &chunk[..n]) {
                    Ok(()) => {}
                    Err(WriteFault) => return Err(Fault::Output),
                }
            }
            Err(_) => return Err(Fault::Socket),
        }
    }
    Err(Fault::Socket)
}

// Takes the answers to so many requests, and says whether one is a refusal. Where one is missing
// the desk has met a fault, or was stopped.
fn take_answers<S: Read, W: Write>(
    alloc: Global,
    asked: usize,
    from: &mut S,
    output: &mut W,
) -> Result<bool, Fault>
    ensures { TakesAnswers asked (S.remaining from.old)
        (Appends (W.contents output.old) (W.contents output.new)) result }
{
    let bytes = take_all(alloc, from, output)?;
    let Ok(text) = std::str::from_utf8(bytes.as_slice()) else {
        return Err(Fault::Socket);
    };
    match look_over(alloc, text, asked) {
        Ok((0, refused)) => Ok(refused),
        Ok(_) => Err(Fault::Socket),
        Err(AllocError) => Err(Fault::Memory),
    }
}

// Adds the lines of those requests that are malformed, where one is refused, as far as memory goes.
fn tell_refused(refused: bool, requests: &[Request], reasons: &mut Reasons<'_>) {
    if refused {
        let _ = reasons.tell_all(requests);
    }
}

// A fault behind which answers are missing, with its cause where that is the desk's.
fn unanswered_by(fault: Fault) -> CausedFault {
    let why = match &fault {
        Fault::Socket => Some("the desk has met a fault, or was stopped"),
        _ => None,
    };
    CausedFault { fault, why }
}

// Sends the batch of a text to the desk at a socket, writes the answers, and says whether one is a
// refusal. Then the lines of its malformed requests are added.
fn send_batch<K: OpenDesks, W: Write>(
    alloc: Global,
    desks: &mut K,
    socket: &str,
    text: &[u8],
    output: &mut W,
    reasons: &mut Reasons<'_>,
) -> Result<bool, CausedFault>
    ensures { SendFits text.now (K.sends socket.now text.now desks.old desks.new)
        (desks.new ≡ desks.old) (Appends (W.contents output.old) (W.contents output.new)) result }
{
    let requests = match requests_in(alloc, text, reasons) {
        Ok(requests) => requests,
        Err(fault) => {
            let fault = Fault::from(fault);
            return Err(CausedFault { fault, why: None });
        }
    };
    match desks.send(socket, text) {
        Ok(mut from) => match take_answers(alloc, requests.len(), &mut from, output) {
            Ok(refused) => {
                tell_refused(refused, requests.as_slice(), reasons);
                Ok(refused)
            }
            Err(fault) => Err(unanswered_by(fault)),
        },
        Err(why) => Err(CausedFault {
            fault: Fault::Socket,
            why: Some(why),
        }),
    }
}

// The text of the input, up to the limit of a batch.
fn read_text<R: Read>(alloc: Global, input: &mut R) -> Result<Vec<u8>, Fault>
    ensures { IfOk result (λ text. IsTold (R.remaining input.old) text.items) }
{
    match read_input(alloc, input, LIMIT) {
        Ok(text) => Ok(text),
        Err(InputFault::Read) => Err(Fault::InputRead),
        Err(InputFault::TooLarge) => Err(Fault::InputTooLarge),
        Err(InputFault::Memory) => Err(Fault::Memory),
    }
}

// Reports why the batch of a text has not all of its answers; of the socket, and of a text that is
// not UTF-8, a second line says why.
fn report_unsent<E: Write>(
    unsent: &CausedFault,
    socket: &str,
    text: &[u8],
    errors: &mut Errors<E>,
) -> u8
    ensures { result ≡ 3 }
{
    errors.wrong = wrong_byte(text);
    let status = report_input(&unsent.fault, "", errors);
    if let Some(why) = unsent.why {
        report_why(socket, why, &mut errors.writer);
    }
    status
}

/// Sends the batch of the input to the desk that listens at a socket, and writes the answers as
/// they come; behind them a line on `errors` says of each request that was malformed why. Gives 0,
/// or 1 where an answer is a refusal, or 3 after a fault of the input, the output or the socket,
/// which is reported; a missing answer is a fault of the socket.
pub fn send_input<K: OpenDesks, R: Read, W: Write, E: Write>(
    alloc: Global,
    desks: &mut K,
    socket: &str,
    streams: &mut Streams<R, W, E>,
) -> u8
    ensures status { result ≤ 3 }
    ensures end { SendEnds (R.remaining streams.old.input)
        (λ text. K.sends socket.now text desks.old desks.new) (desks.new ≡ desks.old)
        (Appends (W.contents streams.old.output) (W.contents streams.new.output)) result }
{
    let text = match read_text(alloc, &mut streams.input) {
        Ok(text) => text,
        Err(fault) => return report_input(&fault, "", &mut streams.errors),
    };
    let bytes = text.as_slice();
    let mut reasons = Reasons::of_text(alloc, "", bytes, streams.errors.room);
    match send_batch(
        alloc,
        desks,
        socket,
        bytes,
        &mut streams.output,
        &mut reasons,
    ) {
        Ok(false) => 0,
        Ok(true) => {
            tell(reasons, &mut streams.errors);
            tell_untold(&mut streams.errors);
            1
        }
        Err(unsent) => report_unsent(&unsent, socket, bytes, &mut streams.errors),
    }
}
