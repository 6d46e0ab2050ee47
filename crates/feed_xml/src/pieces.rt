//! What bytes begin with: a stretch of text or of a section, or a token.

ghost use Rattle.std.specs.Prelude.{◌≡◌, true, false, IfOk, IfErr, Some, None};
ghost use Rattle.feed_xml.specs.Kinds.{first_passes};
ghost use Rattle.feed_xml.specs.Pieces.{Begins, Explains};
ghost use Rattle.feed_xml.specs.View.{piece_view, token_view};
ghost use Rattle.feed_xml.specs.Steps.{Gives};
ghost use Rattle.feed_xml.specs.Reading.{outside_at, section_at};

use crate::classes::{Kind, first_passes, split_run};
use crate::stop::Stop;
use crate::tags::{Token, markup, reference};

/// A stretch of text or of a CDATA section, or a token.
#[derive(Drop)]
pub enum Piece<'a> {
    /// Bytes of a text, some of a run or all of it.
    Text(&'a [u8]),
    /// Bytes of a section that are no closing brackets and stand behind none.
    Section(&'a [u8]),
    /// Any other token.
    Markup(Token<'a>),
}

// The token that bytes begin with, where they begin with no plain byte.
#[tactic(auto, unfolding(crate::specs::Reading::outside_at))]
fn markup_or_reference(bytes: &[u8]) -> Result<(Token<'_>, &[u8]), Stop>
    requires { first_passes Kind.Plain bytes.now ≡ false }
    ensures { Gives (λ x. (token_view x.0, x.1.now)) result (outside_at bytes.now) }
{
    match bytes {
        [] => Err(Stop::More),
        [b'<', rest @ ..] => markup(rest),
        [b'&', rest @ ..] => reference(rest),
        [_first, ..] => Err(Stop::Never),
    }
}

// The byte of a section that bytes begin with, and the number of closing brackets before it.
#[tactic(auto, unfolding(crate::specs::Reading::section_at))]
fn section_byte(count: u8, bytes: &[u8]) -> Result<(Token<'_>, &[u8]), Stop>
    ensures { Gives (λ x. (token_view x.0, x.1.now)) result (section_at count bytes.now) }
{
    match bytes {
        [] => Err(Stop::More),
        [b']', rest @ ..] => Ok((Token::Bracket(count), rest)),
        [first, rest @ ..] => Ok((Token::CData(count, *first), rest)),
    }
}

// What bytes outside of sections begin with.
fn outside_piece(bytes: &[u8]) -> Result<(Piece<'_>, &[u8]), Stop>
    ensures ok { IfOk result (λ x. Begins None bytes.now (piece_view x.0) x.1.now) }
    ensures err { IfErr result (λ e. Explains None e bytes.now) }
{
    if first_passes(Kind::Plain, bytes) {
        let (run, rest) = split_run(Kind::Plain, bytes);
        Ok((Piece::Text(run), rest))
    } else {
        let (token, rest) = markup_or_reference(bytes)?;
        Ok((Piece::Markup(token), rest))
    }
}

// Whether bytes of a section begin with one that is no closing bracket and stands behind none.
fn begins_stretch(count: u8, bytes: &[u8]) -> bool
    ensures none { result ≡ true → count ≡ 0 }
    ensures begins { result ≡ true → first_passes Kind.Unbracketed bytes.now ≡ true }
{
    count == 0 && first_passes(Kind::Unbracketed, bytes)
}

// What bytes of a section begin with, by the number of closing brackets of it before them.
fn section_piece(count: u8, bytes: &[u8]) -> Result<(Piece<'_>, &[u8]), Stop>
    ensures ok { IfOk result (λ x. Begins (Some count) bytes.now (piece_view x.0) x.1.now) }
    ensures err { IfErr result (λ e. Explains (Some count) e bytes.now) }
{
    if begins_stretch(count, bytes) {
        let (run, rest) = split_run(Kind::Unbracketed, bytes);
        Ok((Piece::Section(run), rest))
    } else {
        let (token, rest) = section_byte(count, bytes)?;
        Ok((Piece::Markup(token), rest))
    }
}

/// What bytes begin with; in a section by the number of closing brackets of it before them.
pub(crate) fn read_piece(section: Option<u8>, bytes: &[u8]) -> Result<(Piece<'_>, &[u8]), Stop>
    ensures ok { IfOk result (λ x. Begins section bytes.now (piece_view x.0) x.1.now) }
    ensures err { IfErr result (λ e. Explains section e bytes.now) }
{
    match section {
        None => outside_piece(bytes),
        Some(count) => section_piece(count, bytes),
    }
}
