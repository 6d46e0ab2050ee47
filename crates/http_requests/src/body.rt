//! The body of a request.

ghost use Rattle.std.specs.Prelude.{◌≡◌, ◌≤◌, ◌<◌, ◌-◌, ◌++◌, length, take, vec_len, IfOk, IfSome, OnOk};
ghost use Rattle.httparse.specs.Grammar.{RequestHead};
ghost use Rattle.csv_records.specs.RecordTexts.{limit};
ghost use Rattle.csv_records.specs.Streams.{TakesAtMost};
ghost use Rattle.http_requests.specs.HeadRead.{IsHeadOf};
ghost use Rattle.http_requests.specs.Steps.{Gives, RefusesNothing};
ghost use Rattle.http_requests.specs.Posted.{most_posted, records_behind, records_in, records_posted};

use crate::buffer_filling::read_once;
use crate::fault::InputFault;
use crate::parts::Head;
use crate::refusal::Refusal;
use csv_records::buffer::RecordBuffer;
use csv_records::reading::{RecordFault, read_records};
use std::alloc::{AllocError, Global};
use std::io::Read;

// The initial capacity for a body, in bytes.
const FIRST_ROOM: usize = 16384;

// Makes room behind the filled bytes of a body, if there is none: twice as much, as far as the
// body goes. So memory grows with the bytes that a client sends, whatever its Content-Length says.
fn make_room(body: &mut Vec<u8>, filled: usize, size: usize) -> Result<(), AllocError>
    requires most { size ≤ limit }
    requires short { filled < size }
    requires within { filled ≤ vec_len body.old }
    requires fits { vec_len body.old ≤ size }
    ensures kept { OnOk result (take filled body.new.items ≡ take filled body.old.items) }
    ensures room { OnOk result (filled < vec_len body.new) }
    ensures fits { OnOk result (vec_len body.new ≤ size) }
{
    if filled < body.len() {
        return Ok(());
    }
    body.resize(size.min(FIRST_ROOM.max(filled * 2)), 0)
}

// Reads behind the bytes of a body that are there, to its end or to that of the input, and gives
// how many are filled then. It never reads past the body, even where it fails.
fn fill_body<R: Read>(reader: &mut R, body: &mut Vec<u8>, size: usize) -> Result<usize, InputFault>
    requires most { size ≤ limit }
    requires within { vec_len body.old ≤ size }
    ensures front { IfOk result (λ filled. IfSome (R.remaining reader.old) (λ more.
        take filled body.new.items ≡ take size (body.old.items ++ more))) }
    ensures filled { IfOk result (λ filled. filled ≤ size) }
    ensures fault { RefusesNothing result }
    ensures taken { TakesAtMost (size - vec_len body.old) (R.remaining reader.old)
        (R.remaining reader.new) }
{
    let mut filled = body.len();
    while filled < size {
        make_room(body, filled, size)?;
        let total = read_once(reader, body.as_mut_slice(), filled)?;
        if total == filled {
            return Ok(filled);
        }
        filled = total;
    }
    Ok(filled)
}

// The first bytes, at most so many, of those that were read behind the head and of those that
// follow them in the input.
fn read_front<R: Read>(
    alloc: Global,
    reader: &mut R,
    behind: &[u8],
    size: usize,
) -> Result<Vec<u8>, InputFault>
    requires { size ≤ limit }
    ensures front { IfOk result (λ bytes. IfSome (R.remaining reader.old) (λ more.
        bytes.items ≡ take size (behind.now ++ more))) }
    ensures size { IfOk result (λ bytes. length bytes.items ≤ size) }
    ensures fault { RefusesNothing result }
    ensures taken { TakesAtMost (size - length behind.now) (R.remaining reader.old)
        (R.remaining reader.new) }
{
    let mut body = Vec::with_capacity(alloc, size.min(FIRST_ROOM))?;
    body.extend_from_slice(&behind[..size.min(behind.len())])?;
    let filled = fill_body(reader, &mut body, size)?;
    body.truncate(filled);
    Ok(body)
}

// The records of a body.
fn records_in(alloc: Global, body: &[u8]) -> Result<RecordBuffer, InputFault>
    requires { length body.now ≤ limit }
    ensures { Gives result (records_in body.now) }
{
    match read_records(alloc, body) {
        Ok(records) => Ok(records),
        Err(RecordFault::NotUtf8) => Err(InputFault::Refused(Refusal::NotUtf8)),
        Err(RecordFault::TooLarge) => Err(InputFault::Refused(Refusal::TooLarge)),
        Err(RecordFault::Memory) => Err(InputFault::Memory),
    }
}

// The records of the body of so many bytes. What follows the body is left out.
fn read_body_records<R: Read>(
    alloc: Global,
    reader: &mut R,
    behind: &[u8],
    size: usize,
) -> Result<RecordBuffer, InputFault>
    requires { size ≤ limit }
    ensures gives { IfSome (R.remaining reader.old) (λ more.
        Gives result (records_behind size (behind.now ++ more))) }
    ensures taken { TakesAtMost (size - length behind.now) (R.remaining reader.old)
        (R.remaining reader.new) }
{
    let body = read_front(alloc, reader, behind, size)?;
    if body.len() < size {
        return Err(InputFault::Refused(Refusal::ShortBody));
    }
    records_in(alloc, body.as_slice())
}

/// The records that a POST delivers, by its head, the bytes that were read after it and those that
/// follow in the input. It never reads past the body, and nothing where the head is refused.
pub fn read_posted<R: Read>(
    alloc: Global,
    reader: &mut R,
    head: &Head,
    behind: &[u8],
) -> Result<RecordBuffer, InputFault>
    ensures gives { (h : RequestHead) → IsHeadOf head.now h
        → IfSome (R.remaining reader.old) (λ more.
        Gives result (records_posted h (behind.now ++ more))) }
    ensures taken { (h : RequestHead) → IsHeadOf head.now h
        → TakesAtMost (most_posted h - length behind.now)
        (R.remaining reader.old) (R.remaining reader.new) }
{
    match head.body_size() {
        Ok(size) => read_body_records(alloc, reader, behind, size),
        Err(why) => Err(InputFault::Refused(why)),
    }
}
