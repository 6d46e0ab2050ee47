//! Where the connections of the command `serve` come from.

use crate::fault::Fault;
use std::io::{Read, Write};

/// By what a client is served.
#[derive(Clone, Copy)]
pub enum Protocol {
    /// One exchange over HTTP.
    Exchange,
    /// One batch: the text to the end of what it sends.
    Batch,
}

/// Clients that come one after the other.
pub trait Clients {
    ghost use Rattle.std.specs.Prelude.{◌≡◌, Bool};
    ghost use Rattle.program_clients.specs.Clients.{Accepts};

    // Whether some may send batches.
    ghost takes_batches: { Self → Bool };

    /// Reads what a client sends.
    type Reader: Read + Drop;
    /// Writes to it.
    type Writer: Write + Drop;

    /// Waits for the next client, and gives its protocol and the two ways of its connection, or
    /// `None` where it was gone before that was accepted.
    fn accept(&mut self) -> Result<Option<(Protocol, Self::Reader, Self::Writer)>, Fault>
        ensures client { Accepts (takes_batches self.old) result }
        ensures takes { takes_batches self.new ≡ takes_batches self.old };

    /// Closes the connection of a client, which was served.
    fn disconnect(&mut self, reader: Self::Reader, writer: Self::Writer)
        ensures { takes_batches self.new ≡ takes_batches self.old };
}
