//! The elements of one name among others.

ghost use Rattle.std.specs.Prelude.{◌≡◌};
ghost use Rattle.feed_mapping.specs.Elements.{below_of, composites, first, text_or_empty, with_others};

use feed_outline::{Elements, Line, text_in};
use std::marker::Model;

/// An element, and what stands in it. Contracts see both without where they lie in memory.
#[derive(Drop)]
pub struct Composite<'a> {
    pub line: &'a Line,
    pub below: Elements<'a>,
}

impl<'a> Model for Composite<'a> {
    ghost use Rattle.feed_mapping.specs.Elements.{Composite as Told, composite_code, element_view};

    ghost Value = { Told };

    ghost coded = { composite_code };

    ghost view = { λ c. record { element = element_view c.line.now; below = c.below } };
}

/// The first element of a name, and the elements behind it.
pub fn next_composite<'a>(
    name: &[u8],
    elements: &Elements<'a>,
) -> Option<(Composite<'a>, Elements<'a>)>
    ensures { with_others (composites name.now) result ≡ composites name.now elements.now }
{
    let mut rest = elements.copy();
    while let Some(node) = rest.first() {
        if node.line.name == name {
            let found = Composite {
                line: node.line,
                below: node.below,
            };
            return Some((found, node.rest));
        }
        rest = node.rest;
    }
    None
}

/// The first element of a name.
pub fn first_composite<'a>(name: &[u8], elements: &Elements<'a>) -> Option<Composite<'a>>
    ensures { result ≡ first (composites name.now elements.now) }
{
    match next_composite(name, elements) {
        Some((found, _)) => Some(found),
        None => None,
    }
}

/// What stands in the first element of a name, nothing where there is none.
pub fn elements_in<'a>(name: &[u8], elements: &Elements<'a>) -> Elements<'a>
    ensures { result ≡ below_of (first (composites name.now elements.now)) }
{
    match first_composite(name, elements) {
        Some(found) => found.below,
        None => Elements::none(),
    }
}

/// The text of the first element of this name that has one, else the empty text.
pub fn text_or_empty<'a>(name: &[u8], elements: &Elements<'a>) -> &'a [u8]
    ensures { result.now ≡ text_or_empty name.now elements.now }
{
    text_in(name, elements).unwrap_or(b"")
}
