//! Desks that are open, each of which takes batches at a socket.

use std::io::Read;

/// Desks that are open, by the names of their sockets.
pub trait OpenDesks {
    ghost use Rattle.std.specs.Prelude.{List, [], Option, Some, ℕ, IfErr, IfOk};

    // The desk of that name was sent that text, or after a fault perhaps a first part of it: the
    // desks as they were, and as they are; and this comes of it, where that is told.
    ghost sends: { List ℕ → List ℕ → Self → Self → Option (List ℕ) → Type 0 };

    /// Reads what a desk sends.
    type Reader: Read + Drop;

    /// Sends a text to the desk of that name, and that it is all. Gives what reads its answers, or
    /// why it cannot be sent; then nothing comes.
    fn send(&mut self, name: &str, text: &[u8]) -> Result<Self::Reader, &'static str>
        ensures ok { IfOk result (λ reader. sends name.now text.now self.old self.new
            (Self.Reader.remaining reader)) }
        ensures err { IfErr result (λ why. sends name.now text.now self.old self.new (Some [])) };
}
