//! The command `batch`: standard input to standard output. A batch that comes to a socket is answered
//! in the same way.

ghost use Rattle.std.specs.Prelude.{◌+◌, ◌≤◌, ℕ, List};
ghost use Rattle.std.specs.Io.KnownBytes.{Appends};
ghost use Rattle.csv_records.specs.RecordTexts.{limit};
ghost use Rattle.csv_records.specs.Streams.{IsTold, TakesAtMost};
ghost use Rattle.series_rules.specs.Steps.{Asked};
ghost use Rattle.desk_batch.specs.Batch.{RunsBatch};
ghost use Rattle.program_commands.specs.CommandEnds.{BatchEnds};

use crate::faults::fault_of_batch;
use crate::malformed::{tell_refusals, tell_untold};
use crate::streams::{Errors, Streams};
use crate::unread::report_input;
use desk_batch::{BatchFault, read_text, run_text};
use desk_reasons::explaining::Reasons;
use price_rules::precedence::Precedence;
use series_rules::desk::Desk;
use std::alloc::Global;
use std::io::{Read, Write};

// Answers the batch of a text, and says behind the answers why requests were refused.
fn answer_text<D: Desk, W: Write, E: Write>(
    alloc: Global,
    desk: &mut D,
    precedence: &Precedence,
    text: &[u8],
    writer: &mut W,
    errors: &mut Errors<E>,
) -> Result<u64, BatchFault>
    ensures { RunsBatch (Asked D.seen precedence.now desk.old desk.new)
        (Appends (W.contents writer.old) (W.contents writer.new)) text.now result }
{
    let mut reasons = Reasons::of_text(alloc, "", text, errors.room);
    let outcome = run_text(alloc, desk, precedence, text, writer, &mut reasons);
    tell_refusals(reasons, text, &outcome, errors);
    outcome
}

/// Answers the batch of an input, and gives the number of refusals. Behind the answers a line on
/// `errors` says of each request that is malformed why, as far as there is room, and a hint is written
/// behind other refusals.
pub(crate) fn answer_batch<D: Desk, R: Read, W: Write, E: Write>(
    alloc: Global,
    desk: &mut D,
    precedence: &Precedence,
    reader: &mut R,
    writer: &mut W,
    errors: &mut Errors<E>,
) -> Result<u64, BatchFault>
    // There is a text, that of the reader where it tells its bytes, whose batch was run.
    ensures ran { (text : List ℕ) × IsTold (R.remaining reader.old) text
        × RunsBatch (Asked D.seen precedence.now desk.old desk.new)
        (Appends (W.contents writer.old) (W.contents writer.new)) text result }
    ensures taken { TakesAtMost (limit + 1) (R.remaining reader.old) (R.remaining reader.new) }
{
    match read_text(alloc, reader) {
        Ok(text) => answer_text(alloc, desk, precedence, text.as_slice(), writer, errors),
        Err(fault) => Err(fault),
    }
}

/// Runs a batch over a desk, whatever requests it has seen, under a precedence table. Gives 0, or
/// 1 where an answer was a refusal, or 3 after a fault, which is reported. Behind the answers a line
/// on `errors` says of each request that was malformed why, and behind other refusals the hint is
/// written.
pub fn answer_input<D: Desk, R: Read, W: Write, E: Write>(
    alloc: Global,
    desk: &mut D,
    precedence: &Precedence,
    streams: &mut Streams<R, W, E>,
) -> u8
    ensures status { result ≤ 3 }
    ensures end { BatchEnds (Asked D.seen precedence.now desk.old desk.new)
        (Appends (W.contents streams.old.output) (W.contents streams.new.output))
        (R.remaining streams.old.input) result }
    ensures taken { TakesAtMost (limit + 1)
        (R.remaining streams.old.input) (R.remaining streams.new.input) }
{
    match answer_batch(
        alloc,
        desk,
        precedence,
        &mut streams.input,
        &mut streams.output,
        &mut streams.errors,
    ) {
        Ok(0) => 0,
        Ok(_) => {
            tell_untold(&mut streams.errors);
            1
        }
        Err(fault) => report_input(&fault_of_batch(fault), "", &mut streams.errors),
    }
}
