//! The regions that a text names.

ghost use Rattle.std.specs.Prelude.{◌≡◌, ◌++◌, ◌<◌, IfOk, IfSome, OnOk, length, map, option_map};
ghost use Rattle.std.specs.List.{list_all, list_any};
ghost use Rattle.feed_mapping.specs.Notes.{note_views};
ghost use Rattle.feed_mapping.specs.Regions.{IsRenamed, country_code, countries_written, is_other_name, spaced};
ghost use Rattle.feed_mapping.specs.Territories.{region_notes};
ghost use Rattle.onix_terms.specs.Territory.{words_of};
ghost use Rattle.feed_mapping.specs.Regions.{first_region, first_space, front_to, is_two_letters, two_letters_in, is_capital_or_digit, is_part_of_country, is_world, names_world, region_of_no_country, rest_from, IsNextWord};

use crate::notes::{Foreign, Note, Reason, Wrong, push_aside, push_note};
use feed_outline::Line;
use std::alloc::{AllocError, Global};

fn first_space(text: &[u8]) -> Option<usize>
    ensures { result ≡ first_space text.now }
{
    text.iter().position(|b| *b == b' ')
}

// A text to its first space, and what stands behind that.
fn cut_at_space(text: &[u8]) -> (&[u8], &[u8])
    ensures front { result.0.now ≡ front_to (first_space text.now) text.now }
    ensures rest { result.1.now ≡ rest_from (first_space text.now) text.now }
{
    match first_space(text) {
        None => (text, b""),
        Some(at) => (&text[..at], &text[at + 1..]),
    }
}

/// The first word of a text, and what stands behind it.
pub(crate) fn next_word(text: &[u8]) -> Option<(&[u8], &[u8])>
    ensures next { IsNextWord result text.now }
    ensures shorter { IfSome result (λ x. length x.1.now < length text.now) }
{
    let mut rest = text;
    while !rest.is_empty() {
        let (word, behind) = cut_at_space(rest);
        if !word.is_empty() {
            return Some((word, behind));
        }
        rest = behind;
    }
    None
}

fn is_world(region: &[u8]) -> bool
    ensures { result ≡ is_world region.now }
{
    region == b"WORLD".as_slice()
}

/// Whether WORLD is one of the regions.
pub(crate) fn names_world(text: &[u8]) -> bool
    ensures { result ≡ names_world text.now }
{
    let mut rest = text;
    while let Some((region, behind)) = next_word(rest) {
        if is_world(region) {
            return true;
        }
        rest = behind;
    }
    false
}

fn are_capitals_or_digits(bytes: &[u8]) -> bool
    ensures { result ≡ list_all is_capital_or_digit bytes.now }
{
    bytes
        .iter()
        .all(|byte| byte.is_ascii_uppercase() || byte.is_ascii_digit())
}

// Whether a region is a part of a country.
fn is_part_of_country(region: &[u8]) -> bool
    ensures { result ≡ is_part_of_country region.now }
{
    let [a, b, c, rest @ ..] = region else {
        return false;
    };
    if a.is_ascii_uppercase() && b.is_ascii_uppercase() && *c == b'-' && !rest.is_empty() {
        return are_capitals_or_digits(rest);
    }
    false
}

// Whether a region is two letters A to Z, which are a country.
fn is_two_letters(region: &[u8]) -> bool
    ensures { result ≡ is_two_letters region.now }
{
    let [a, b] = region else {
        return false;
    };
    a.is_ascii_uppercase() && b.is_ascii_uppercase()
}

/// The first region that is not two letters.
pub(crate) fn first_region(text: &[u8]) -> Option<&[u8]>
    ensures { option_map (λ r. r.now) result ≡ first_region text.now }
{
    let mut rest = text;
    while let Some((region, behind)) = next_word(rest) {
        if !is_two_letters(region) {
            return Some(region);
        }
        rest = behind;
    }
    None
}

/// The first region that is two letters.
pub(crate) fn two_letters_in(text: &[u8]) -> Option<&[u8]>
    ensures { option_map (λ r. r.now) result ≡ two_letters_in text.now }
{
    let mut rest = text;
    while let Some((region, behind)) = next_word(rest) {
        if is_two_letters(region) {
            return Some(region);
        }
        rest = behind;
    }
    None
}

/// The first region that is neither a part of a country nor two letters.
pub(crate) fn region_of_no_country(text: &[u8]) -> Option<&[u8]>
    ensures { option_map (λ r. r.now) result ≡ region_of_no_country text.now }
{
    let mut rest = text;
    while let Some((region, behind)) = next_word(rest) {
        if !(is_part_of_country(region) || is_two_letters(region)) {
            return Some(region);
        }
        rest = behind;
    }
    None
}

/// Adds a note on each of the regions but WORLD, as often as it stands there; two letters are a
/// country.
pub(crate) fn push_regions<'a>(
    notes: &mut Vec<Note<'a>>,
    line: &'a Line,
    kind: Foreign,
    text: &'a [u8],
) -> Result<(), AllocError>
    ensures { OnOk result
        (note_views notes.new.items ≡ note_views notes.old.items ++ region_notes text.now) }
{
    let mut rest = text;
    while let Some((region, behind)) = next_word(rest) {
        if is_two_letters(region) {
            push_note(notes, line, Reason::wrong(Wrong::CountryAsRegion, region))?;
        } else if !is_world(region) {
            push_aside(notes, line, kind, region)?;
        }
        rest = behind;
    }
    Ok(())
}

fn is_other_name(country: &[u8]) -> bool
    ensures { result ≡ is_other_name country.now }
{
    country == b"UK".as_slice() || country == b"EL".as_slice()
}

/// Adds a note on each country that is named by another code than that of ISO 3166, as often as it
/// stands there.
pub(crate) fn push_other_names<'a>(
    notes: &mut Vec<Note<'a>>,
    line: &'a Line,
    text: &'a [u8],
) -> Result<(), AllocError>
    ensures { OnOk result (note_views notes.new.items ≡ note_views notes.old.items) }
{
    let mut rest = text;
    while let Some((country, behind)) = next_word(rest) {
        if is_other_name(country) {
            push_aside(notes, line, Foreign::CountryName, country)?;
        }
        rest = behind;
    }
    Ok(())
}

// Whether a text has such a name.
fn has_other_name(text: &[u8]) -> bool
    ensures { result ≡ list_any is_other_name (words_of text.now) }
{
    let mut rest = text;
    while let Some((country, behind)) = next_word(rest) {
        if is_other_name(country) {
            return true;
        }
        rest = behind;
    }
    false
}

// The code of a country in ISO 3166.
fn country_code(country: &[u8]) -> &[u8]
    ensures { result.now ≡ country_code country.now }
{
    if country == b"UK".as_slice() {
        b"GB"
    } else if country == b"EL".as_slice() {
        b"GR"
    } else {
        country
    }
}

// Countries by their codes, each behind a space.
fn spaced_codes(alloc: Global, text: &[u8]) -> Result<Vec<u8>, AllocError>
    ensures { IfOk result (λ v. v.items ≡ spaced (map country_code (words_of text.now))) }
{
    let mut codes: Vec<u8> = Vec::new(alloc);
    let mut rest = text;
    while let Some((country, behind)) = next_word(rest) {
        codes.push(b' ')?;
        codes.extend_from_slice(country_code(country))?;
        rest = behind;
    }
    Ok(codes)
}

/// The codes of countries, each behind a space, where one of them is named by another code than
/// that of ISO 3166.
pub(crate) fn renamed(alloc: Global, text: &[u8]) -> Result<Option<Vec<u8>>, AllocError>
    ensures { IfOk result (λ r. IsRenamed (option_map (λ v. v.items) r) text.now) }
{
    if has_other_name(text) {
        Ok(Some(spaced_codes(alloc, text)?))
    } else {
        Ok(None)
    }
}

/// Countries as they are written, by what is renamed of them.
pub(crate) fn countries_written<'b>(text: &'b [u8], renamed: &'b Option<Vec<u8>>) -> &'b [u8]
    ensures { IsRenamed (option_map (λ v. v.items) renamed.now) text.now
        → result.now ≡ countries_written text.now }
{
    match renamed {
        None => text,
        Some(codes) => match codes.as_slice() {
            [] => b"",
            [_, behind @ ..] => behind,
        },
    }
}
