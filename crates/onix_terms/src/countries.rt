//! The fields of a territory.

ghost use Rattle.std.specs.Prelude.{◌≡◌, ℕ, List, IfOk, fold, option_map};
ghost use Rattle.onix_terms.specs.CodeText.{BeginsWith};
ghost use Rattle.onix_terms.specs.Territory.{Gives, codes_in, countries_of, countries_text, ends_code, in_order, with_code, world_of};

use crate::code::Country;
use crate::items::Items;
use crate::territory::TermFault;
use crate::text::Text;
use std::alloc::{AllocError, Global};

// The codes with one more, inserted in order.
fn add_code(mut codes: Items<Country>, code: Country) -> Result<Items<Country>, AllocError>
    ensures { IfOk result (λ new. new ≡ with_code codes code) }
{
    for i in 0..codes.as_slice().len() {
        let other = codes.as_slice()[i];
        if code == other {
            return Ok(codes);
        }
        if code.cmp(&other).is_lt() {
            codes.insert(i, code)?;
            return Ok(codes);
        }
    }
    codes.push(code)?;
    Ok(codes)
}

fn is_code_end(rest: &[u8]) -> bool
    ensures { result ≡ ends_code rest.now }
{
    match rest {
        [] => true,
        [b, ..] => *b == b' ',
    }
}

/// What a text begins with.
#[derive(Clone, Copy)]
enum Next<'a> {
    Nothing,
    Space(&'a [u8]),
    Code(Country, &'a [u8]),
    Wrong,
}

// What a text of codes begins with.
fn next_code(text: &[u8]) -> Next<'_>
    ensures { BeginsWith text.now result }
{
    match text {
        [] => Next::Nothing,
        [a] => if *a == b' ' {
            Next::Space(&text[1..])
        } else {
            Next::Wrong
        },
        [a, b, more @ ..] => {
            if *a == b' ' {
                return Next::Space(&text[1..]);
            }
            if a.is_ascii_uppercase() && b.is_ascii_uppercase() && is_code_end(more) {
                return Next::Code(Country::from_letters([*a, *b]), more);
            }
            Next::Wrong
        }
    }
}

// The codes that a text has between its spaces, in order and without repeats.
fn read_codes(alloc: Global, text: &[u8]) -> Result<Items<Country>, TermFault>
    ensures { Gives result (option_map in_order (codes_in text.now)) }
{
    let mut codes = Items::new(alloc);
    let mut rest = text;
    loop {
        match next_code(rest) {
            Next::Nothing => return Ok(codes),
            Next::Space(more) => rest = more,
            Next::Code(code, more) => {
                codes = add_code(codes, code)?;
                rest = more;
            }
            Next::Wrong => return Err(TermFault::NotATerm),
        }
    }
}

/// The countries of a field that is empty or has a code, in order and without repeats.
/// `NotATerm` exactly where the field is neither.
pub fn read_countries(alloc: Global, text: &str) -> Result<Items<Country>, TermFault>
    ensures { Gives result (countries_of text.now) }
{
    if text.is_empty() {
        return Ok(Items::new(alloc));
    }
    let found = read_codes(alloc, text.as_bytes())?;
    if found.as_slice().is_empty() {
        return Err(TermFault::NotATerm);
    }
    Ok(found)
}

/// Whether a field of regions names the world. `NotATerm` exactly where it is neither empty nor
/// `WORLD`.
pub fn read_world(text: &str) -> Result<bool, TermFault>
    ensures { Gives result (world_of text.now) }
{
    if text.is_empty() {
        return Ok(false);
    }
    if text == "WORLD" {
        return Ok(true);
    }
    Err(TermFault::NotATerm)
}

/// The codes of countries with one space between them. Fails only if memory runs out.
pub fn countries_text(alloc: Global, countries: &[Country]) -> Result<Text, AllocError>
    ensures { IfOk result (λ t. t ≡ countries_text countries.now) }
{
    let mut text = Text::new(alloc);
    for (i, country) in countries.iter().enumerate() {
        if i > 0 {
            text.push_str(" ")?;
        }
        text.push_str(country.as_str())?;
    }
    Ok(text)
}
