//! Help, the version, and faults of the command line, as clap words them.

ghost use Rattle.std.specs.Prelude.{◌≡◌};
ghost use Rattle.std.specs.Io.KnownBytes.{Appends};
ghost use Rattle.program_clients.specs.Printing.{PrintEnds};

use csv_records::streams::{WriteFault, write_whole};
use program_clients::fault::{Fault, report};
use std::io::Write;

/// Writes help or the version, which was asked for, and gives 0, or 3 where it cannot be written,
/// which is reported.
pub fn print_help<W: Write, E: Write>(text: &str, output: &mut W, errors: &mut E) -> u8
    ensures { PrintEnds 0 (Appends (W.contents output.old) (W.contents output.new))
        text.now result }
{
    match write_whole(output, text.as_bytes()) {
        Ok(()) => 0,
        Err(WriteFault) => report(&Fault::Output, errors),
    }
}

/// Writes a fault of the command line, and gives the status.
pub fn print_wrong<E: Write>(text: &str, errors: &mut E) -> u8
    ensures { result ≡ 2 }
{
    let _ = errors.write_all(text.as_bytes());
    2
}

/// Writes a fault of the command line and behind it what to write, and gives the status.
pub(crate) fn print_hinted<E: Write>(text: &str, hint: &str, errors: &mut E) -> u8
    ensures { result ≡ 2 }
{
    print_wrong(text, errors);
    print_wrong(hint, errors)
}
