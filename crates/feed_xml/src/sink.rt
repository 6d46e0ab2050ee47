//! Where tokens go.

ghost use Rattle.std.specs.Prelude.{◌≡◌, IfOk, OnOk, fold};
ghost use Rattle.feed_xml.specs.View.{piece_view};

use crate::pieces::Piece;
use std::alloc::AllocError;

/// What takes the tokens of a document, one after the other, as long as it does not refuse one.
pub trait Sink {
    ghost use Rattle.std.specs.Prelude.{Bool};
    ghost use Rattle.feed_xml.specs.Grammar.{Token};

    /// What it is after a token.
    ghost after: { Self → Token → Self };

    /// Whether it takes more tokens.
    ghost goes_on: { Self → Bool };

    /// Takes what was read next, which is spelled so, and tells whether it takes more.
    fn take(&mut self, piece: Piece<'_>, spelled: &[u8]) -> Result<bool, AllocError>
        ensures taken { OnOk result (self.new ≡ fold after self.old (piece_view piece.entry)) }
        ensures more { IfOk result (λ more. more ≡ goes_on self.new) };

    /// Takes notice that behind these bytes of a text the rest is malformed. Nothing is handed on
    /// after it.
    fn stuck(&mut self, front: &[u8], rest: &[u8])
        ensures { self.new ≡ self.old };
}
