//! What a document has told until its reading stopped.

use crate::line::Line;
use crate::names::stranger;
use feed_xml::Position;
use std::alloc::{AllocError, Global};
use std::marker::Model;

// How many bytes of a text are kept.
const KEPT: usize = 200;

/// What a document has told until its reading stopped, for whoever says why it is refused. Nothing
/// is proved of it.
#[derive(Debug, Drop)]
pub struct RefusalHints {
    /// Where the reading stopped: at the tag of a root that is refused, at a reference that stands
    /// for nothing, at the tag of a Header or Product that is too large, else behind the last token
    /// that was taken, and of what is malformed behind what may stand there.
    pub place: Position,
    /// What stands between `&` and `;` in the first reference that stands for nothing.
    pub reference: Option<Vec<u8>>,
    /// The beginning of what is malformed.
    pub stuck: Option<Vec<u8>>,
    // Whether there was a stranger in the child of the root that is read.
    has_stranger: bool,
}

impl Model for RefusalHints {
    ghost use Rattle.std.specs.Prelude.{⊤};

    ghost Value = { ⊤ };

    ghost view = { λ _. tt };
}

impl RefusalHints {
    /// Nothing yet.
    pub(crate) fn new() -> RefusalHints {
        RefusalHints {
            place: Position::first(),
            reference: None,
            stuck: None,
            has_stranger: false,
        }
    }

    /// Takes a reference that stands for nothing.
    pub(crate) fn take_reference(&mut self, alloc: Global, body: &[u8]) -> Result<(), AllocError> {
        if self.reference.is_none() {
            self.reference = Some(Vec::from_slice(alloc, body)?);
        }
        Ok(())
    }

    /// Whether an element that counts by this name is the first stranger in a child of the root.
    pub(crate) fn is_first_stranger(&mut self, counted: Option<&'static [u8]>) -> bool {
        let is_first = match counted {
            Some(name) => name == stranger() && !self.has_stranger,
            None => false,
        };
        self.has_stranger = self.has_stranger || is_first;
        is_first
    }

    /// Takes the end of a child of the root.
    pub(crate) fn end_child(&mut self) {
        self.has_stranger = false;
    }

    /// Where the next token stands.
    pub(crate) fn here(&self) -> Position {
        self.place.copied()
    }

    /// Goes behind these bytes.
    pub(crate) fn pass(&mut self, bytes: &[u8]) {
        self.place.pass(bytes);
    }

    /// Goes back to the first of these lines.
    pub(crate) fn stand_at(&mut self, lines: &[Line]) {
        if let [first, ..] = lines {
            self.place = first.place.copied();
        }
    }

    /// Takes what begins with what is malformed. Without memory it is not told.
    pub(crate) fn take_stuck(&mut self, alloc: Global, rest: &[u8]) {
        if let Ok(stuck) = Vec::from_slice(alloc, rest.get(..KEPT).unwrap_or(rest)) {
            self.stuck = Some(stuck);
        }
    }
}
