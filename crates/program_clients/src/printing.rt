//! Lines that are written at once.

ghost use Rattle.std.specs.Fmt.{decimal};
ghost use Rattle.std.specs.Io.KnownBytes.{Appends};
ghost use Rattle.std.specs.Prelude.{◌++◌, ◌≡◌, ◌∷◌, [], IsErrAnd, IsOk, OnErr, OnOk};
ghost use Rattle.program_clients.specs.Printing.{WritesWhole};
ghost use Rattle.program_clients.specs.declared.fault.Fault.{Fault};

use crate::fault::Fault;
use csv_records::streams::{WriteFault, write_whole};
use itoa::Buffer;
use std::io::Write;

// Writes a number and the end of its line, or, with a fault, a first part of that.
fn write_digits<O: Write>(number: u64, output: &mut O) -> Result<(), WriteFault>
    ensures { WritesWhole (Appends (O.contents output.old) (O.contents output.new))
        (decimal number ++ 10 ∷ []) result }
{
    let mut digits = Buffer::new();
    match write_whole(output, digits.format(number).as_bytes()) {
        Ok(()) => write_whole(output, b"\n"),
        Err(fault) => Err(fault),
    }
}

// Writes a line that ends in a number, or, with a fault, a first part of it.
fn write_number<O: Write>(before: &str, number: u64, output: &mut O) -> Result<(), WriteFault>
    ensures { WritesWhole (Appends (O.contents output.old) (O.contents output.new))
        (before.now ++ decimal number ++ 10 ∷ []) result }
{
    match write_whole(output, before.as_bytes()) {
        Ok(()) => write_digits(number, output),
        Err(fault) => Err(fault),
    }
}

// Whether what was written was handed on, so that whoever reads the lines sees each as it comes.
fn handed_on(flushed: std::io::Result<()>) -> Result<(), Fault>
    ensures ok { OnOk flushed (IsOk result) }
    ensures err { OnErr flushed (IsErrAnd result (λ fault. fault ≡ Fault.Output)) }
{
    match flushed {
        Ok(()) => Ok(()),
        Err(_) => Err(Fault::Output),
    }
}

/// Writes a line that ends in a number at once. The fault is `Output`, and then a first part of the
/// line is written.
pub fn print_number<O: Write>(before: &str, number: u64, output: &mut O) -> Result<(), Fault>
    ensures { WritesWhole (Appends (O.contents output.old) (O.contents output.new))
        (before.now ++ decimal number ++ 10 ∷ []) result }
{
    match write_number(before, number, output) {
        Ok(()) => handed_on(output.flush()),
        Err(WriteFault) => Err(Fault::Output),
    }
}

/// Writes a text at once. The fault is `Output`, and then a first part of it is written.
pub fn print_text<O: Write>(text: &str, output: &mut O) -> Result<(), Fault>
    ensures { WritesWhole (Appends (O.contents output.old) (O.contents output.new))
        text.now result }
{
    match write_whole(output, text.as_bytes()) {
        Ok(()) => handed_on(output.flush()),
        Err(WriteFault) => Err(Fault::Output),
    }
}
