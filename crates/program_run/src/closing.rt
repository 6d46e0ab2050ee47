//! The desk in files, closed behind a command.

ghost use Rattle.std.specs.Prelude.{◌≡◌, ◌≤◌};
ghost use Rattle.program_run.specs.OverFiles.{Closes};

use program_clients::fault::{Fault, report};
use program_desks::files_left::FilesLeft;
use program_desks::kept_desks::KeepsDesks;
use series_rules::listing::ListedDesk;
use std::io::Write;

// Writes the line of files that could not be closed, unless the command ended by a fault, which has
// its line.
fn report_unclosed<E: Write>(status: u8, fault: &Fault, errors: &mut E) -> u8
    ensures { result ≡ 3 }
{
    if status == 3 {
        return 3;
    }
    report(fault, errors)
}

/// Closes the files of a desk behind a command that ended with this status. Gives that status, or 3
/// where they could not be closed, which is reported; and what is left of them.
pub(crate) fn close_desk<D: ListedDesk, K: KeepsDesks<D>, E: Write>(
    status: u8,
    desk: D,
    errors: &mut E,
) -> (u8, FilesLeft<K, K::Unopened, K::Unclosed, K::Closed>)
    requires { status ≤ 3 }
    ensures status { result.0 ≤ 3 }
    ensures end { Closes K.files (K.seen desk) status result.0 result.1 }
{
    match K::close_files(desk) {
        Ok(files) => (status, FilesLeft::Closed(files)),
        Err((fault, left)) => {
            let status = report_unclosed(status, &Fault::from(fault), errors);
            (status, FilesLeft::Unclosed(left))
        }
    }
}
