//! The parts that tokens are made of.

ghost use Rattle.std.specs.Prelude.{◌≡◌, ◌∷◌, []};
ghost use Rattle.feed_xml.specs.Kinds.{passes};
ghost use Rattle.feed_xml.specs.Steps.{Gives, run, literal, until};
ghost use Rattle.feed_xml.specs.Grammar.{quote_at};
ghost use Rattle.feed_xml.specs.Reading.{name_at};

use crate::classes::{Kind, are_name, is_filled, is_quote, split_run};
use crate::stop::Stop;

/// As many bytes of a kind as there are.
#[inline(always)]
pub(crate) fn run(kind: Kind, bytes: &[u8]) -> Result<(&[u8], &[u8]), Stop>
    ensures { Gives (λ x. (x.0.now, x.1.now)) result (run (passes kind) bytes.now) }
{
    let (front, rest) = split_run(kind, bytes);
    if is_filled(rest) {
        Ok((front, rest))
    } else {
        Err(Stop::More)
    }
}

/// White space.
pub(crate) fn space(bytes: &[u8]) -> Result<(&[u8], &[u8]), Stop>
    ensures { Gives (λ x. (x.0.now, x.1.now)) result (run (passes Kind.Space) bytes.now) }
{
    run(Kind::Space, bytes)
}

/// A name.
#[tactic(auto, unfolding(crate::specs::Reading::name_at))]
pub(crate) fn name(bytes: &[u8]) -> Result<(&[u8], &[u8]), Stop>
    ensures { Gives (λ x. (x.0.now, x.1.now)) result (name_at bytes.now) }
{
    let (name, rest) = run(Kind::Name, bytes)?;
    if are_name(name) {
        Ok((name, rest))
    } else {
        Err(Stop::Never)
    }
}

/// The one byte.
#[tactic(auto, unfolding(crate::specs::Steps::literal))]
pub(crate) fn byte(bytes: &[u8], b: u8) -> Result<&[u8], Stop>
    ensures { Gives (λ x. (b ∷ [], x.now)) result (literal (b ∷ []) bytes.now) }
{
    match bytes {
        [] => Err(Stop::More),
        [first, rest @ ..] if *first == b => Ok(rest),
        [_, ..] => Err(Stop::Never),
    }
}

/// One of the two quotes.
#[tactic(auto, unfolding(crate::specs::Grammar::quote_at))]
pub(crate) fn quote(bytes: &[u8]) -> Result<(u8, &[u8]), Stop>
    ensures { Gives (λ x. (x.0, x.1.now)) result (quote_at bytes.now) }
{
    match bytes {
        [] => Err(Stop::More),
        [first, rest @ ..] if is_quote(*first) => Ok((*first, rest)),
        [_, ..] => Err(Stop::Never),
    }
}

/// These bytes and no others.
#[inline(always)]
pub(crate) fn literal<'a>(mark: &[u8], bytes: &'a [u8]) -> Result<&'a [u8], Stop>
    ensures { Gives (λ x. (mark.now, x.now)) result (literal mark.now bytes.now) }
{
    let mut at = 0;
    while at < mark.len() {
        if at < bytes.len() {
            if bytes[at] == mark[at] {
                at += 1;
            } else {
                return Err(Stop::Never);
            }
        } else {
            return Err(Stop::More);
        }
    }
    Ok(&bytes[at..])
}

/// The bytes before the first mark, and those behind it.
#[inline(always)]
pub(crate) fn until<'a>(mark: &[u8], bytes: &'a [u8]) -> Result<(&'a [u8], &'a [u8]), Stop>
    ensures { Gives (λ x. (x.0.now, x.1.now)) result (until mark.now bytes.now) }
{
    let mut at = 0;
    while at < bytes.len() {
        match literal(mark, &bytes[at..]) {
            Ok(rest) => return Ok((&bytes[..at], rest)),
            Err(Stop::More) => return Err(Stop::More),
            Err(Stop::Never) => at += 1,
        }
    }
    Err(Stop::More)
}
