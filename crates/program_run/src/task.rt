//! A command over a desk, by what it is asked.

ghost use Rattle.std.specs.Prelude.{◌≡◌, ◌≤◌};
ghost use Rattle.std.specs.Io.KnownBytes.{Appends};
ghost use Rattle.series_rules.specs.Steps.{Asked};
ghost use Rattle.program_run.specs.TaskEnds.{TaskEnds, UnlessServing};

use price_rules::precedence::Precedence;
use program_clients::entrances::Entrances;
use program_commands::batch::answer_input;
use program_commands::deliver::deliver_files;
use program_commands::gaps::ask_gaps;
use program_commands::serve::{Place, serve_desk};
use program_commands::streams::Streams;
use program_files::NamedFiles;
use program_words::invocation::Task;
use series_rules::desk::Desk;
use std::alloc::Global;
use std::io::{Read, Write};
use std::time::Clock;

/// Binds the port at which a command serves, before its desk is opened, so that nobody else has it
/// meanwhile and clients wait; whether it could be is told behind the faults of the desk.
pub(crate) fn bind_port<N: Entrances>(entrances: &mut N, task: &Task<'_>)
    ensures { UnlessServing task.now (entrances.new ≡ entrances.old) }
{
    if let Task::Serve { port, .. } = task {
        entrances.bind(*port);
    }
}

/// Runs a command over a desk, and gives its status.
pub(crate) fn run_task<D: Desk, T: Clock, F: NamedFiles, N: Entrances, R: Read, W: Write, E: Write>(
    alloc: Global,
    clock: &T,
    desk: &mut D,
    precedence: &Precedence,
    task: &Task<'_>,
    files: &F,
    entrances: &mut N,
    streams: &mut Streams<R, W, E>,
) -> u8
    ensures status { result ≤ 3 }
    ensures entrances { UnlessServing task.now (entrances.new ≡ entrances.old) }
    ensures end { TaskEnds (Asked D.seen precedence.now desk.old desk.new)
        (Appends (W.contents streams.old.output) (W.contents streams.new.output))
        task.now (F.holds files.now) (R.remaining streams.old.input)
        (R.remaining streams.new.input) result }
{
    match task {
        Task::Batch => answer_input(alloc, desk, precedence, streams),
        Task::Deliver(names) => {
            deliver_files(alloc, desk, precedence, files, names.as_slice(), streams)
        }
        Task::Gaps(name) => ask_gaps(alloc, desk, precedence, name, streams),
        Task::Serve {
            port,
            requests,
            batches,
        } => {
            let place = Place {
                port: *port,
                batches: *batches,
                requests: *requests,
            };
            serve_desk(alloc, clock, desk, precedence, entrances, place, streams)
        }
    }
}
