//! The command `gaps`: which numbers a series lacks.

ghost use Rattle.std.specs.Prelude.{◌≤◌};
ghost use Rattle.std.specs.Io.KnownBytes.{Appends};
ghost use Rattle.onix_terms.specs.SeriesName.{series_name_of};
ghost use Rattle.series_rules.specs.Steps.{Asked};
ghost use Rattle.program_commands.specs.Unknown.{GapsGive, UnknownFits};
ghost use Rattle.program_commands.specs.CommandEnds.{GapsEnds};

use crate::faults::fault_of_request;
use crate::streams::Streams;
use csv_records::streams::{WriteFault, write_whole};
use desk_batch::{RequestFault, run_request};
use desk_texts::answer_text::write_answer;
use onix_terms::series_name::SeriesName;
use price_rules::precedence::Precedence;
use program_clients::fault::report;
use series_rules::answers::Answer;
use series_rules::desk::Desk;
use series_rules::requests::Request;
use std::alloc::Global;
use std::io::Write;

// Writes that a series is unknown, which is a refusal.
fn answer_unknown<W: Write>(alloc: Global, writer: &mut W) -> Result<bool, RequestFault>
    ensures { UnknownFits (Appends (W.contents writer.old) (W.contents writer.new)) result }
{
    let Ok(text) = write_answer(alloc, &Answer::UnknownSeries) else {
        return Err(RequestFault::Memory);
    };
    match write_whole(writer, text.as_bytes()) {
        Ok(()) => Ok(true),
        Err(WriteFault) => Err(RequestFault::Write),
    }
}

// Asks for the gaps of the series of that name, writes the answer, and says whether it is a
// refusal.
fn ask<D: Desk, W: Write>(
    alloc: Global,
    desk: &mut D,
    precedence: &Precedence,
    name: &str,
    writer: &mut W,
) -> Result<bool, RequestFault>
    ensures { GapsGive (Asked D.seen precedence.now desk.old desk.new)
        (Appends (W.contents writer.old) (W.contents writer.new))
        (series_name_of name.now) result }
{
    match SeriesName::read(name) {
        Some(series) => {
            let request = Request::AskGaps(series);
            run_request(alloc, desk, precedence, &request, writer, &mut ())
        }
        None => answer_unknown(alloc, writer),
    }
}

/// Asks a desk for the gaps of the series of that name, and writes the answer. A name that no
/// series can have is answered as one that none has. Gives 0, or 1 for a refusal, or 3 after a
/// fault, which is reported.
pub fn ask_gaps<D: Desk, R, W: Write, E: Write>(
    alloc: Global,
    desk: &mut D,
    precedence: &Precedence,
    name: &str,
    streams: &mut Streams<R, W, E>,
) -> u8
    ensures status { result ≤ 3 }
    ensures end { GapsEnds (Asked D.seen precedence.now desk.old desk.new)
        (Appends (W.contents streams.old.output) (W.contents streams.new.output))
        (series_name_of name.now) result }
{
    match ask(alloc, desk, precedence, name, &mut streams.output) {
        Ok(false) => 0,
        Ok(true) => 1,
        Err(fault) => report(&fault_of_request(fault), &mut streams.errors.writer),
    }
}
