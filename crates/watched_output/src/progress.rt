//! A line on a terminal that shows how many bytes were read or written.

ghost use Rattle.std.specs.Prelude.{◌≡◌, None, false};

use std::io::Write;
use std::time::{Clock, Duration, Instant};

// How long the line stays as it is.
const MILLISECONDS: u64 = 200;

// Takes away what stands on the line.
const CLEAR: &str = "\x1b[K";

/// The line, where it is shown.
#[derive(Drop)]
pub struct Progress<'a, C> {
    clock: &'a C,
    // When it is written next, where it is shown.
    next: Option<Instant>,
    is_written: bool,
}

impl<'a, C: Clock> Progress<'a, C> {
    /// No line yet, and whether one is shown.
    pub fn new(clock: &'a C, is_shown: bool) -> Progress<'a, C>
        ensures written { result.is_written ≡ false }
        ensures shown { is_shown ≡ false → result.next ≡ None }
    {
        Progress {
            clock,
            next: if is_shown {
                Instant::now(clock).ok()
            } else {
                None
            },
            is_written: false,
        }
    }

    /// Shows how many bytes there were so far, where the line has stood for 0.2 seconds. The cursor
    /// is left at its front, so that what follows is written over it.
    pub fn show<E: Write>(&mut self, bytes: u64, errors: &mut E)
        ensures { self.old.next ≡ None → (self.new ≡ self.old) × (errors.new ≡ errors.old) }
    {
        let Some(next) = self.next else {
            return;
        };
        let Ok(now) = Instant::now(self.clock) else {
            return;
        };
        if now < next {
            return;
        }
        self.next = now.checked_add(Duration::from_millis(MILLISECONDS));
        self.is_written = true;
        let (whole, tenth) = (bytes / 1_000_000, bytes / 100_000 % 10);
        let _ = write!(errors, "{CLEAR}{whole}.{tenth} MB\r");
    }

    /// Takes the line away.
    pub fn clear<E: Write>(&mut self, errors: &mut E)
        ensures line { self.new ≡ record self.old { is_written = false } }
        ensures nothing { self.old.is_written ≡ false → errors.new ≡ errors.old }
    {
        if self.is_written {
            self.is_written = false;
            let _ = errors.write_all(CLEAR.as_bytes());
        }
    }
}
