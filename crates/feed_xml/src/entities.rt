//! The named characters.

ghost use Rattle.std.specs.Prelude.{◌≡◌, map, option_map};
ghost use Rattle.feed_xml.specs.HtmlNames.{list_of, html_names};
ghost use Rattle.feed_xml.specs.References.{listed, named_text, xml_entity};
ghost use Rattle.feed_xml.specs.private.References.{past_reference, word, word_of};
ghost use Rattle.feed_xml.specs.Steps.{Gives};

use crate::html_names::NAMES;
use crate::scan::{byte, literal, until};
use crate::stop::Stop;

// Of lists for the letters from A on that of one letter.
#[tactic(auto, unfolding(crate::specs::HtmlNames::list_of))]
fn list_of(lists: &[&'static str], b: u8) -> &'static str
    ensures { result.now ≡ list_of (map (λ list. list.now) lists.now) b }
{
    match lists.get(b.saturating_sub(b'A') as usize) {
        Some(list) => list,
        None => "",
    }
}

// The list of the names with the first letter of this one.
#[tactic(auto, unfolding(crate::specs::HtmlNames::html_names))]
fn html_names(name: &[u8]) -> &'static [u8]
    ensures { result.now ≡ html_names name.now }
{
    match name {
        [] => b"",
        [b, ..] => list_of(&NAMES, *b).as_bytes(),
    }
}

// What follows a reference to that name, which the text begins with.
#[inline(always)]
#[tactic(auto, unfolding(crate::specs::private::References::past_reference))]
fn past_reference<'a>(name: &[u8], text: &'a [u8]) -> Result<&'a [u8], Stop>
    ensures { Gives (λ rest. rest.now) result (past_reference name.now text.now) }
{
    let rest = byte(text, b'&')?;
    let rest = literal(name, rest)?;
    let rest = byte(rest, b';')?;
    Ok(rest)
}

// What stands before the next space.
fn word(text: &[u8]) -> Option<&[u8]>
    ensures { option_map (λ w. w.now) result ≡ word text.now }
{
    match until(b" ", text) {
        Ok((word, _)) => Some(word),
        Err(_) => None,
    }
}

// What stands in a list of names behind the first reference to this one.
fn listed<'a>(name: &[u8], list: &'a [u8]) -> Option<&'a [u8]>
    ensures { option_map (λ t. t.now) result ≡ word_of (listed name.now list.now) }
{
    let mut rest = list;
    while let [_, tail @ ..] = rest {
        if let Ok(text) = past_reference(name, rest) {
            return word(text);
        }
        rest = tail;
    }
    None
}

// The characters that XML itself gives a name.
fn xml_entity(name: &[u8]) -> Option<&'static [u8]>
    ensures { option_map (λ t. t.now) result ≡ xml_entity name.now }
{
    if name == b"amp".as_slice() {
        Some(b"&")
    } else if name == b"lt".as_slice() {
        Some(b"<")
    } else if name == b"gt".as_slice() {
        Some(b">")
    } else if name == b"quot".as_slice() {
        Some(b"\"")
    } else if name == b"apos".as_slice() {
        Some(b"'")
    } else {
        None
    }
}

/// The characters that HTML gives a name.
#[tactic(auto, unfolding(crate::specs::References::named_text))]
pub(crate) fn named_text(name: &[u8]) -> Option<&'static [u8]>
    ensures { option_map (λ t. t.now) result ≡ named_text name.now }
{
    match xml_entity(name) {
        Some(text) => Some(text),
        None => listed(name, html_names(name)),
    }
}
