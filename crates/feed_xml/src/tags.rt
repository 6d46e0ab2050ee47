//! Tokens but text: tags, references, comments and what else is marked up.

ghost use Rattle.std.specs.Prelude.{◌≡◌, ◌<◌, length};
ghost use Rattle.feed_xml.specs.Steps.{Gives};
ghost use Rattle.feed_xml.specs.Reading.{end_at, start_at, close_at, instruction_at, comment_at, opening_at, doctype_at, declaration_at, markup_at, reference_at};
ghost use Rattle.feed_xml.specs.View.{token_view};

use crate::attributes::{Attributes, read_attributes};
use crate::classes::Kind;
use crate::instructions::{is_declaration, is_instruction, is_named};
use crate::references::is_reference;
use crate::scan::{byte, literal, name, run, space, until};
use crate::skim::doctype_body;
use crate::stop::Stop;

/// A token but text, lent from the input.
#[derive(Drop)]
pub enum Token<'a> {
    /// What stands between `&` and `;`.
    Reference(&'a [u8]),
    /// The mark that begins a CDATA section.
    Opening,
    /// A closing bracket in a CDATA section, with the number of them before it, two at most.
    Bracket(u8),
    /// Any other byte in a CDATA section, behind the number of closing brackets before it. A `>`
    /// behind two of them ends the section.
    CData(u8, u8),
    /// What stands in a comment.
    Comment(&'a [u8]),
    /// What stands between `<?` and `?>`.
    Instruction(&'a [u8]),
    /// The same of the XML declaration.
    Declaration(&'a [u8]),
    /// What stands between `<!DOCTYPE` and its `>`, which nobody has looked at.
    Doctype(&'a [u8]),
    /// A start tag: its name, its attributes, and the white space behind them.
    Start(&'a [u8], Attributes<'a>, &'a [u8]),
    /// The tag of an empty element, likewise.
    Empty(&'a [u8], Attributes<'a>, &'a [u8]),
    /// An end tag: its name, and the white space behind it.
    End(&'a [u8], &'a [u8]),
}

#[tactic(auto, unfolding(crate::specs::Reading::end_at))]
fn end_tag(bytes: &[u8]) -> Result<(Token<'_>, &[u8]), Stop>
    ensures { Gives (λ x. (token_view x.0, x.1.now)) result (end_at bytes.now) }
{
    let (name, rest) = name(bytes)?;
    let (space, rest) = space(rest)?;
    let rest = byte(rest, b'>')?;
    Ok((Token::End(name, space), rest))
}

#[tactic(auto, unfolding(crate::specs::Reading::close_at))]
fn close<'a>(
    name: &'a [u8],
    attributes: Attributes<'a>,
    space: &'a [u8],
    bytes: &'a [u8],
) -> Result<(Token<'a>, &'a [u8]), Stop>
    ensures { Gives (λ x. (token_view x.0, x.1.now)) result
        (close_at name.now attributes.entry space.now bytes.now) }
{
    match bytes {
        [] => Err(Stop::More),
        [b'/', rest @ ..] => {
            let rest = byte(rest, b'>')?;
            Ok((Token::Empty(name, attributes, space), rest))
        }
        [_, ..] => {
            let rest = byte(bytes, b'>')?;
            Ok((Token::Start(name, attributes, space), rest))
        }
    }
}

#[tactic(auto, unfolding(crate::specs::Reading::start_at))]
fn start_tag(bytes: &[u8]) -> Result<(Token<'_>, &[u8]), Stop>
    ensures { Gives (λ x. (token_view x.0, x.1.now)) result (start_at bytes.now) }
{
    let (name, rest) = name(bytes)?;
    let (attributes, rest) = read_attributes(rest)?;
    let (space, rest) = space(rest)?;
    close(name, attributes, space, rest)
}

#[tactic(auto, unfolding(crate::specs::Reading::instruction_at))]
fn instruction(bytes: &[u8]) -> Result<(Token<'_>, &[u8]), Stop>
    ensures { Gives (λ x. (token_view x.0, x.1.now)) result (instruction_at bytes.now) }
{
    let (body, rest) = until(b"?>", bytes)?;
    if is_instruction(body) {
        Ok((Token::Instruction(body), rest))
    } else if is_declaration(body) {
        Ok((Token::Declaration(body), rest))
    } else {
        Err(Stop::Never)
    }
}

#[tactic(auto, unfolding(crate::specs::Reading::comment_at))]
fn comment(bytes: &[u8]) -> Result<(Token<'_>, &[u8]), Stop>
    ensures { Gives (λ x. (token_view x.0, x.1.now)) result (comment_at bytes.now) }
{
    let rest = literal(b"--", bytes)?;
    let (body, rest) = until(b"--", rest)?;
    let rest = literal(b">", rest)?;
    Ok((Token::Comment(body), rest))
}

#[tactic(auto, unfolding(crate::specs::Reading::opening_at))]
fn opening(bytes: &[u8]) -> Result<(Token<'_>, &[u8]), Stop>
    ensures { Gives (λ x. (token_view x.0, x.1.now)) result (opening_at bytes.now) }
{
    let rest = literal(b"[CDATA[", bytes)?;
    Ok((Token::Opening, rest))
}

#[tactic(auto, unfolding(crate::specs::Reading::doctype_at))]
fn doctype(bytes: &[u8]) -> Result<(Token<'_>, &[u8]), Stop>
    ensures { Gives (λ x. (token_view x.0, x.1.now)) result (doctype_at bytes.now) }
{
    let rest = literal(b"DOCTYPE", bytes)?;
    let (body, rest) = doctype_body(rest)?;
    if is_named(body) {
        Ok((Token::Doctype(body), rest))
    } else {
        Err(Stop::Never)
    }
}

#[tactic(auto, unfolding(crate::specs::Reading::declaration_at))]
fn declaration(bytes: &[u8]) -> Result<(Token<'_>, &[u8]), Stop>
    ensures { Gives (λ x. (token_view x.0, x.1.now)) result (declaration_at bytes.now) }
{
    match bytes {
        [] => Err(Stop::More),
        [b'-', ..] => comment(bytes),
        [b'D', ..] => doctype(bytes),
        [_first, ..] => opening(bytes),
    }
}

/// What follows a `<`.
#[tactic(auto, unfolding(crate::specs::Reading::markup_at))]
pub(crate) fn markup(bytes: &[u8]) -> Result<(Token<'_>, &[u8]), Stop>
    ensures { Gives (λ x. (token_view x.0, x.1.now)) result (markup_at bytes.now) }
{
    match bytes {
        [] => Err(Stop::More),
        [b'/', rest @ ..] => end_tag(rest),
        [b'!', rest @ ..] => declaration(rest),
        [b'?', rest @ ..] => instruction(rest),
        [_first, ..] => start_tag(bytes),
    }
}

/// What follows a `&`.
#[tactic(auto, unfolding(crate::specs::Reading::reference_at))]
pub(crate) fn reference(bytes: &[u8]) -> Result<(Token<'_>, &[u8]), Stop>
    ensures { Gives (λ x. (token_view x.0, x.1.now)) result (reference_at bytes.now) }
{
    let (body, rest) = run(Kind::Reference, bytes)?;
    let rest = byte(rest, b';')?;
    if is_reference(body) {
        Ok((Token::Reference(body), rest))
    } else {
        Err(Stop::Never)
    }
}
