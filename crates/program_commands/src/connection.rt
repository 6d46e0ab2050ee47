//! One connection of the command `serve`, an exchange or a batch, and the line of it.

ghost use Rattle.std.specs.Io.KnownBytes.{Appends};
ghost use Rattle.std.specs.Prelude.{◌+◌, List, codes, ℕ};
ghost use Rattle.csv_records.specs.RecordTexts.{limit};
ghost use Rattle.csv_records.specs.Streams.{TakesAtMost};
ghost use Rattle.http_requests.specs.Head.{head_limit};
ghost use Rattle.series_rules.specs.Steps.{Asked};
ghost use Rattle.program_clients.specs.Printing.{WritesWhole};
ghost use Rattle.program_clients.specs.declared.clients.Protocol.{Protocol};
ghost use Rattle.program_commands.specs.Serving.{ServesConnection, batch, ending_line, exchange};

use crate::batch::answer_batch;
use crate::malformed::tell;
use crate::streams::Streams;
use desk_batch::BatchFault;
use desk_http::laws::wanted_is_bounded;
use desk_http::{HttpFault, Routes, serve_routed};
use desk_reasons::explaining::Reasons;
use price_rules::precedence::Precedence;
use program_clients::clients::Protocol;
use program_clients::fault::Fault;
use program_clients::printing::{print_number, print_text};
use series_rules::desk::Desk;
use std::alloc::Global;
use std::io::{Read, Write};

/// A client: by what it is served, and the two ways of its connection.
pub struct Client<R, W> {
    pub protocol: Protocol,
    pub reader: R,
    pub writer: W,
}

// Writes the line of a connection that was not served whole.
fn print_fault<O: Write>(output: &mut O) -> Result<(), Fault>
    ensures { WritesWhole (Appends (O.contents output.old) (O.contents output.new))
        (codes "fault\n") result }
{
    print_text("fault\n", output)
}

/// Writes the line of an exchange at once: the status of the reply, or `fault` where no reply was
/// sent whole. The fault is `Output`, and then a first part of the line is written.
pub fn print_line<O: Write>(outcome: &Result<u16, HttpFault>, output: &mut O) -> Result<(), Fault>
    ensures { WritesWhole (Appends (O.contents output.old) (O.contents output.new))
        (ending_line (exchange outcome.now)) result }
{
    match outcome {
        Ok(status) => print_number("", u64::from(*status), output),
        Err(_) => print_fault(output),
    }
}

// Writes the line of a batch at once: how many answers are refusals, or `fault` where it was not
// answered to its end.
fn print_batch_line<O: Write>(
    outcome: &Result<u64, BatchFault>,
    output: &mut O,
) -> Result<(), Fault>
    ensures { (text : List ℕ) → WritesWhole
        (Appends (O.contents output.old) (O.contents output.new))
        (ending_line (batch text outcome.now)) result }
{
    match outcome {
        Ok(refused) => print_number("batch ", *refused, output),
        Err(_) => print_fault(output),
    }
}

/// Serves a client by its protocol, as an exchange over HTTP, or as the batch of what it sends to
/// the end, and writes the line of its connection. The routes are those of all exchanges. A line on
/// standard error says of each malformed request and of a bad query why, as far as there is room.
pub fn serve_connection<D: Desk, R: Read, W: Write, I, O: Write, E: Write>(
    alloc: Global,
    routes: &Routes,
    desk: &mut D,
    precedence: &Precedence,
    client: &mut Client<R, W>,
    streams: &mut Streams<I, O, E>,
) -> Result<(), Fault>
    ensures served { ServesConnection (Asked D.seen precedence.now desk.old desk.new)
        client.old.protocol (R.remaining client.old.reader)
        (Appends (W.contents client.old.writer) (W.contents client.new.writer))
        (Appends (O.contents streams.old.output) (O.contents streams.new.output)) result }
    // No more is taken of the client than a head and a body may have.
    ensures taken { TakesAtMost (head_limit + limit)
        (R.remaining client.old.reader) (R.remaining client.new.reader) }
{
    match client.protocol {
        Protocol::Exchange => {
            wanted_is_bounded();
            let mut reasons = Reasons::of_exchange(alloc, streams.errors.room);
            let outcome = serve_routed(
                alloc,
                routes,
                desk,
                precedence,
                &mut client.reader,
                &mut client.writer,
                &mut reasons,
            );
            tell(reasons, &mut streams.errors);
            print_line(&outcome, &mut streams.output)
        }
        Protocol::Batch => {
            let outcome = answer_batch(
                alloc,
                desk,
                precedence,
                &mut client.reader,
                &mut client.writer,
                &mut streams.errors,
            );
            print_batch_line(&outcome, &mut streams.output)
        }
    }
}
