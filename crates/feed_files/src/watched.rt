//! A FILE that is watched as it is read.

ghost use Rattle.std.specs.Prelude.{◌≡◌};

use program_files::FileFault;
use std::alloc::Global;
use std::io::{Read, Result, Write};
use std::time::Clock;
use watched_output::progress::Progress;

/// By what a line shows how far a FILE is, and whether it is shown.
#[derive(Drop)]
pub struct Showing<'a, C> {
    pub alloc: Global,
    pub clock: &'a C,
    pub is_shown: bool,
}

/// Gives what a reader gives, keeps why a read failed, and shows on a terminal how far it is.
#[derive(Drop)]
pub struct Watched<'a, R, C, E> {
    alloc: Global,
    file: &'a str,
    reader: R,
    errors: E,
    progress: Progress<'a, C>,
    count: u64,
    fault: Option<FileFault>,
}

impl<'a, R: Read + Drop, C: Clock, E: Write + Drop> Watched<'a, R, C, E> {
    /// A FILE of which nothing was read yet.
    pub(crate) fn new(
        showing: &Showing<'a, C>,
        file: &'a str,
        reader: R,
        errors: E,
    ) -> Watched<'a, R, C, E>
        ensures { result.reader ≡ reader }
    {
        Watched {
            alloc: showing.alloc,
            file,
            reader,
            errors,
            progress: Progress::new(showing.clock, showing.is_shown),
            count: 0,
            fault: None,
        }
    }

    /// Why a read failed, where one did. The line on the terminal is taken away.
    pub(crate) fn into_fault(self) -> Option<FileFault>
        ensures { result ≡ self.entry.fault }
    {
        let (mut progress, mut errors) = (self.progress, self.errors);
        progress.clear(&mut errors);
        self.fault
    }
}

impl<'a, R: Read, C: Clock, E: Write> Read for Watched<'a, R, C, E> {
    ghost remaining = { λ w. R.remaining w.reader };

    fn read(&mut self, buffer: &mut [u8]) -> Result<usize> {
        match self.reader.read(buffer) {
            Ok(count) => {
                self.count = self.count.saturating_add(count as u64);
                self.progress.show(self.count, &mut self.errors);
                Ok(count)
            }
            Err(error) => {
                self.fault = Some(FileFault::of(self.alloc, self.file, &error));
                Err(error)
            }
        }
    }
}
