//! The names of the elements that are open.

ghost use Rattle.std.specs.Prelude.{◌≡◌, ◌∷◌, [], Some, None, OnOk, OnErr, length, true, false};
ghost use Rattle.feed_xml.specs.private.Places.{is_nothing, closed};

use std::alloc::{AllocError, Global};
use std::marker::Model;

/// Names, one behind the other in one buffer. Contracts see the list of them, the last one first.
#[derive(Drop)]
pub(crate) struct Names {
    bytes: Vec<u8>,
    starts: Vec<usize>,
}

impl Model for Names {
    ghost use Rattle.std.specs.Prelude.{List, ℕ, reverse, length};
    ghost use Rattle.feed_xml.specs.Stacks.{names, AreStarts};

    ghost Value = { List (List ℕ) };

    ghost view = { λ n. names (reverse n.starts.items) n.bytes.items };

    ghost invariant = { λ n. AreStarts (reverse n.starts.items) (length n.bytes.items) };
}

impl Names {
    /// No names.
    pub(crate) fn new(alloc: Global) -> Names
        ensures { result ≡ [] }
    {
        Names {
            bytes: Vec::new(alloc),
            starts: Vec::new(alloc),
        }
    }

    /// Whether there is none.
    pub(crate) fn is_nothing(&self) -> bool
        ensures { result ≡ is_nothing self.now }
    {
        self.starts.is_empty()
    }

    /// How many there are.
    pub(crate) fn len(&self) -> usize
        ensures { result ≡ length self.now }
    {
        self.starts.len()
    }

    /// Adds a name.
    pub(crate) fn push(&mut self, name: &[u8]) -> Result<(), AllocError>
        ensures ok { OnOk result (self.new ≡ name.now ∷ self.old) }
        ensures err { OnErr result (self.new ≡ self.old) }
    {
        let start = self.bytes.len();
        self.bytes.extend_from_slice(name)?;
        let Ok(()) = self.starts.push(start) else {
            self.bytes.truncate(start);
            return Err(AllocError);
        };
        Ok(())
    }

    /// Takes the last name away if it is this one.
    pub(crate) fn close(&mut self, name: &[u8]) -> bool
        ensures yes { result ≡ true → closed name.now self.old ≡ Some self.new }
        ensures no { result ≡ false → (closed name.now self.old ≡ None) }
    {
        let count = self.starts.len();
        if count == 0 {
            return false;
        }
        let start = self.starts[count - 1];
        if &self.bytes.as_slice()[start..] == name {
            self.starts.truncate(count - 1);
            self.bytes.truncate(start);
            true
        } else {
            false
        }
    }
}
