//! Lines and columns.

use crate::classes::{Kind, is_continuation, split_run};
use std::marker::Model;

/// A place in a text: its line and its column, both from 1. The column counts characters. Nothing
/// is proved of it.
#[derive(Debug, Drop)]
pub struct Position {
    pub line: u64,
    pub column: u64,
}

impl Model for Position {
    ghost use Rattle.std.specs.Prelude.{⊤};

    ghost Value = { ⊤ };

    ghost view = { λ _. tt };
}

impl Position {
    /// Where a text begins.
    pub fn first() -> Position {
        Position { line: 1, column: 1 }
    }

    /// The same place.
    pub fn copied(&self) -> Position {
        Position {
            line: self.line,
            column: self.column,
        }
    }

    /// Whether both are one place.
    pub fn is_at(&self, other: &Position) -> bool {
        self.line == other.line && self.column == other.column
    }

    /// Goes behind these bytes.
    pub fn pass(&mut self, bytes: &[u8]) {
        let mut rest = bytes;
        while let [b, tail @ ..] = rest {
            if *b == b'\n' {
                self.line = self.line.saturating_add(1);
                self.column = 1;
            } else if !is_continuation(*b) {
                self.column = self.column.saturating_add(1);
            }
            let (columns, behind) = split_run(Kind::Column, tail);
            self.column = self.column.saturating_add(columns.len() as u64);
            rest = behind;
        }
    }
}
