//! The attributes of a tag.

ghost use Rattle.std.specs.Prelude.{◌≡◌};
ghost use Rattle.feed_xml.specs.Steps.{Gives};
ghost use Rattle.feed_xml.specs.Grammar.{Attribute as Spelled, is_among, are_distinct};
ghost use Rattle.feed_xml.specs.Reading.{attribute_at, attributes_at, attributes_in};
ghost use Rattle.std.specs.Prelude.{◌<◌, List, [], IfOk, IfSome, length, nat_lt, option_map, true};
ghost use Rattle.feed_xml.specs.AttributeView.{attribute_view, Spell, IsNext, IsSplit};
ghost use Rattle.feed_xml.specs.Distinct.{value_of, are_many};
ghost use Rattle.feed_xml.specs.Values.{normalized_value_of};

use crate::classes::{Kind, begins_name, is_filled};
use crate::references::refers;
use crate::scan::{byte, name, quote, run, space};
use crate::stop::Stop;
use crate::values::push_normalized;
use std::alloc::{AllocError, Global};
use std::marker::Model;

// The most attributes that a tag may have, and the most bytes of them.
const MOST_ATTRIBUTES: usize = 64;

const MOST_BYTES: usize = 65_536;

/// An attribute, with the white space before it and on both sides of its equals sign. The value is
/// as it is written, with its references.
#[derive(Clone, Copy, Debug)]
pub struct Attribute<'a> {
    pub before: &'a [u8],
    pub name: &'a [u8],
    pub left: &'a [u8],
    pub right: &'a [u8],
    pub quote: u8,
    pub value: &'a [u8],
}

/// The attribute behind this white space.
#[tactic(auto, unfolding(crate::specs::Reading::attribute_at))]
pub(crate) fn read_attribute<'a>(
    before: &'a [u8],
    bytes: &'a [u8],
) -> Result<(Attribute<'a>, &'a [u8]), Stop>
    ensures { Gives (λ x. (attribute_view x.0, x.1.now)) result
        (attribute_at before.now bytes.now) }
{
    let (name, rest) = name(bytes)?;
    let (left, rest) = space(rest)?;
    let rest = byte(rest, b'=')?;
    let (right, rest) = space(rest)?;
    let (quote, rest) = quote(rest)?;
    let (value, rest) = run(Kind::Value(quote), rest)?;
    let rest = byte(rest, quote)?;
    if is_filled(before) && refers(value) {
        Ok((
            Attribute {
                before,
                name,
                left,
                right,
                quote,
                value,
            },
            rest,
        ))
    } else {
        Err(Stop::Never)
    }
}

// The attributes that bytes begin with, as they are written.
fn attribute_bytes(bytes: &[u8]) -> Result<(&[u8], &[u8]), Stop>
    ensures gives { Gives (λ x. (attributes_in x.0.now, x.1.now)) result (attributes_at bytes.now) }
    ensures spell { IfOk result (λ x. Spell x.0.now (attributes_in x.0.now)) }
{
    let mut rest = bytes;
    'reading: loop {
        let (before, behind) = space(rest)?;
        if begins_name(behind) {
            let (_, next) = read_attribute(before, behind)?;
            rest = next;
        } else {
            return Ok((&bytes[..bytes.len() - rest.len()], rest));
        }
    }
}

// The first attribute of bytes that are attributes, and those behind it.
fn next_attribute(bytes: &[u8]) -> Option<(Attribute<'_>, &[u8])>
    ensures next { (list : List Spelled) → Spell bytes.now list → IsNext result list }
    ensures shorter { IfSome result (λ x. length x.1.now < length bytes.now) }
{
    match space(bytes) {
        Ok((before, behind)) => match read_attribute(before, behind) {
            Ok((first, rest)) => Some((first, rest)),
            Err(_) => None,
        },
        Err(_) => None,
    }
}

// Whether one of the attributes has this name.
fn is_among(name: &[u8], bytes: &[u8]) -> bool
    ensures { (list : List Spelled) → Spell bytes.now list → result ≡ is_among name.now list }
{
    let mut rest = bytes;
    while let Some((first, next)) = next_attribute(rest) {
        if first.name == name {
            return true;
        }
        rest = next;
    }
    false
}

// Whether no two attributes have one name.
fn are_distinct(bytes: &[u8]) -> bool
    ensures { (list : List Spelled) → Spell bytes.now list → result ≡ are_distinct list }
{
    let mut rest = bytes;
    while let Some((first, next)) = next_attribute(rest) {
        if is_among(first.name, next) {
            return false;
        }
        rest = next;
    }
    true
}

// The value of the first attribute of a name.
fn value_of<'a>(name: &[u8], bytes: &'a [u8]) -> Option<&'a [u8]>
    ensures { (list : List Spelled) → Spell bytes.now list
        → option_map (λ v. v.now) result ≡ value_of name.now list }
{
    let mut rest = bytes;
    while let Some((first, next)) = next_attribute(rest) {
        if first.name == name {
            return Some(first.value);
        }
        rest = next;
    }
    None
}

// Whether there are more than 64.
fn are_many(bytes: &[u8]) -> bool
    ensures { (list : List Spelled) → Spell bytes.now list → result ≡ nat_lt 64 (length list) }
{
    let mut left = MOST_ATTRIBUTES;
    let mut rest = bytes;
    while let Some((_, next)) = next_attribute(rest) {
        if left == 0 {
            return true;
        }
        left -= 1;
        rest = next;
    }
    false
}

/// The attributes of a tag, as they are written. Contracts see the list of them.
#[derive(Drop)]
pub struct Attributes<'a> {
    bytes: &'a [u8],
}

impl<'a> Model for Attributes<'a> {
    ghost use Rattle.std.specs.Prelude.{List};
    ghost use Rattle.feed_xml.specs.Grammar.{Attribute as Spelled};
    ghost use Rattle.feed_xml.specs.Reading.{attributes_in};
    ghost use Rattle.feed_xml.specs.AttributeView.{Spell};

    ghost Value = { List Spelled };

    ghost view = { λ r. attributes_in r.bytes.now };

    ghost invariant = { λ r. Spell r.bytes.now (attributes_in r.bytes.now) };
}

/// The attributes that bytes begin with.
pub(crate) fn read_attributes(bytes: &[u8]) -> Result<(Attributes<'_>, &[u8]), Stop>
    ensures { Gives (λ x. (x.0, x.1.now)) result (attributes_at bytes.now) }
{
    let (list, rest) = attribute_bytes(bytes)?;
    Ok((Attributes { bytes: list }, rest))
}

impl<'a> Attributes<'a> {
    // Whether there are none, as in most tags.
    pub(crate) fn is_empty(&self) -> bool
        ensures { result ≡ true → self.now ≡ [] }
    {
        self.bytes.is_empty()
    }

    /// The first attribute, and those behind it.
    pub fn split_first(&self) -> Option<(Attribute<'a>, Attributes<'a>)>
        ensures { IsSplit result self.now }
    {
        match next_attribute(self.bytes) {
            Some((first, rest)) => Some((first, Attributes { bytes: rest })),
            None => None,
        }
    }

    /// The value of the first attribute of a name.
    pub fn value_of(&self, name: &[u8]) -> Option<&'a [u8]>
        ensures { option_map (λ v. v.now) result ≡ value_of name.now self.now }
    {
        value_of(name, self.bytes)
    }

    /// The normalized value of the first attribute of a name: what references stand for, if
    /// anything, is in their place, and a space in that of a line end or tab.
    pub fn normalized_value_of(
        &self,
        alloc: Global,
        name: &[u8],
    ) -> Result<Option<Vec<u8>>, AllocError>
        ensures { IfOk result (λ found. option_map (λ t. t.items) found
            ≡ normalized_value_of name.now self.now) }
    {
        if self.is_empty() {
            return Ok(None);
        }
        match self.value_of(name) {
            None => Ok(None),
            Some(value) => {
                let mut text = Vec::new(alloc);
                push_normalized(&mut text, value)?;
                Ok(Some(text))
            }
        }
    }

    // Whether no two have one name.
    pub(crate) fn are_distinct(&self) -> bool
        ensures { result ≡ are_distinct self.now }
    {
        are_distinct(self.bytes)
    }

    // Whether there are more than a tag may have.
    pub(crate) fn are_many(&self) -> bool
        ensures { result ≡ are_many self.now }
    {
        are_many(self.bytes) || self.bytes.len() > MOST_BYTES
    }
}
