//! An output of which is seen what is written.

ghost use Rattle.std.specs.Prelude.{◌≡◌};

use crate::progress::Progress;
use std::io::{ErrorKind, Result, Write};
use std::time::Clock;

/// Gives a writer what it is given, and may show on `errors` how much that is.
#[derive(Drop)]
pub struct Watched<'a, W, E, C> {
    writer: W,
    errors: E,
    progress: Progress<'a, C>,
    bytes: u64,
    // Of what kind the last error of the writer was.
    fault: Option<ErrorKind>,
}

impl<'a, W: Write, E: Write, C: Clock> Watched<'a, W, E, C> {
    /// A writer to which nothing was written yet, and whether a line shows how much was.
    pub fn new(clock: &'a C, writer: W, errors: E, is_shown: bool) -> Watched<'a, W, E, C>
        ensures { result.writer ≡ writer }
    {
        Watched {
            writer,
            errors,
            progress: Progress::new(clock, is_shown),
            bytes: 0,
            fault: None,
        }
    }

    /// Says on `errors` why the writer takes no more, if it gave an error that shows it.
    pub fn tell_fault(&mut self)
        ensures { self.new ≡ record self.old { errors = self.new.errors } }
    {
        let why = match self.fault {
            Some(ErrorKind::BrokenPipe) => "the program that reads it has ended",
            Some(ErrorKind::StorageFull | ErrorKind::QuotaExceeded) => "no space left on the disk",
            Some(ErrorKind::FileTooLarge) => "its file may not grow further",
            Some(_) => "it is closed, or accepts nothing",
            None => return,
        };
        let _ = write!(self.errors, "onixdesk: standard output: {why}\n");
    }

    /// Takes the line away.
    pub fn clear(&mut self)
        ensures { self.new
            ≡ record self.old { errors = self.new.errors; progress = self.new.progress } }
    {
        self.progress.clear(&mut self.errors);
    }
}

impl<'a, W: Write, E: Write, C: Clock> Write for Watched<'a, W, E, C> {
    ghost contents = { λ w. W.contents w.writer };

    fn write(&mut self, bytes: &[u8]) -> Result<usize> {
        match self.writer.write(bytes) {
            Ok(count) => {
                self.bytes = self.bytes.saturating_add(count as u64);
                self.progress.show(self.bytes, &mut self.errors);
                Ok(count)
            }
            Err(error) => {
                if error.kind() != ErrorKind::Interrupted {
                    self.fault = Some(error.kind());
                }
                Err(error)
            }
        }
    }

    fn flush(&mut self) -> Result<()> {
        self.writer.flush()
    }
}
