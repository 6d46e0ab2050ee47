//! Several territories as one.

ghost use Rattle.std.specs.Prelude.{◌≡◌, ◌++◌, ◌∷◌, [], IfOk, OnOk, filter};
ghost use Rattle.std.specs.List.{list_any};
ghost use Rattle.feed_mapping.specs.Unions.{begins, countries_from, has_world, is_wanted, letters, lies_in, lies_in_one, may_be_wanted, names, of_countries, union, wanted, wants_unnamed};
ghost use Rattle.onix_terms.specs.Code.{country_of};

use onix_terms::code::Country;
use onix_terms::items::Items;
use onix_terms::territory::Territory;
use std::alloc::{AllocError, Global};

// Whether a country lies in a territory.
fn lies_in(country: Country, territory: &Territory) -> bool
    ensures { result ≡ lies_in country territory.now }
{
    territory.contains(country)
}

fn lies_in_one(territories: &[Territory], country: Country) -> bool
    ensures { result ≡ lies_in_one territories.now country }
{
    territories
        .iter()
        .any(|territory| lies_in(country, territory))
}

fn is_wanted(territories: &[Territory], inside: bool, country: Country) -> bool
    ensures { result ≡ is_wanted territories.now inside country }
{
    if inside {
        lies_in_one(territories, country)
    } else {
        !lies_in_one(territories, country)
    }
}

#[tactic(auto, unfolding(crate::specs::Unions::letters))]
fn letters() -> &'static [u8]
    ensures { result.now ≡ letters }
{
    b"ABCDEFGHIJKLMNOPQRSTUVWXYZ"
}

// The country of two letters.
fn country_of(first: u8, second: u8) -> Option<Country>
    ensures { result ≡ country_of (first ∷ second ∷ []) }
{
    match std::str::from_utf8(&[first, second]) {
        Ok(text) => Country::read(text),
        Err(_) => None,
    }
}

// Adds the countries whose code begins with this letter, and that are wanted.
fn push_countries(
    found: &mut Items<Country>,
    territories: &[Territory],
    inside: bool,
    first: u8,
) -> Result<(), AllocError>
    ensures { OnOk result (found.new ≡ found.old
        ++ filter (is_wanted territories.now inside) (countries_from letters first)) }
{
    let mut rest = letters();
    while let [second, tail @ ..] = rest {
        if let Some(country) = country_of(first, *second) {
            if is_wanted(territories, inside, country) {
                found.push(country)?;
            }
        }
        rest = tail;
    }
    Ok(())
}

// Whether the code of a country begins with this letter.
fn begins(first: u8, country: Country) -> bool
    ensures { result ≡ begins first country }
{
    match country.as_str().as_bytes() {
        [] => false,
        [b, ..] => first == *b,
    }
}

// Whether one of the countries has this first letter.
fn one_begins(first: u8, countries: &[Country]) -> bool
    ensures { result ≡ list_any (begins first) countries.now }
{
    countries.iter().any(|country| begins(first, *country))
}

// Whether a territory names a country with this first letter.
fn names(first: u8, territory: &Territory) -> bool
    ensures { result ≡ names first territory.now }
{
    one_begins(first, territory.included.as_slice())
        || one_begins(first, territory.excluded.as_slice())
}

fn has_world(territories: &[Territory]) -> bool
    ensures { result ≡ has_world territories.now }
{
    territories.iter().any(|territory| territory.world)
}

// Whether a country is wanted that no territory names.
fn wants_unnamed(territories: &[Territory], inside: bool) -> bool
    ensures { result ≡ wants_unnamed territories.now inside }
{
    if inside {
        has_world(territories)
    } else {
        !has_world(territories)
    }
}

// Whether one of the territories names a country with this first letter.
fn one_names(first: u8, territories: &[Territory]) -> bool
    ensures { result ≡ list_any (names first) territories.now }
{
    territories.iter().any(|territory| names(first, territory))
}

// Whether a country with this first letter may be wanted.
fn may_be_wanted(territories: &[Territory], inside: bool, first: u8) -> bool
    ensures { result ≡ may_be_wanted territories.now inside first }
{
    wants_unnamed(territories, inside) || one_names(first, territories)
}

// Adds the countries that are wanted whose code begins with this letter. Few letters begin one that
// a territory names.
fn push_wanted(
    found: &mut Items<Country>,
    territories: &[Territory],
    inside: bool,
    first: u8,
) -> Result<(), AllocError>
    ensures { OnOk result (found.new ≡ found.old
        ++ filter (is_wanted territories.now inside) (countries_from letters first)) }
{
    if may_be_wanted(territories, inside, first) {
        push_countries(found, territories, inside, first)
    } else {
        Ok(())
    }
}

// The countries that lie in one of the territories, or those that lie in none.
#[tactic(auto, unfolding(crate::specs::Unions::countries))]
fn wanted(
    alloc: Global,
    territories: &[Territory],
    inside: bool,
) -> Result<Items<Country>, AllocError>
    ensures { IfOk result (λ found. found ≡ wanted territories.now inside) }
{
    let mut found = Items::new(alloc);
    let mut rest = letters();
    while let [first, tail @ ..] = rest {
        push_wanted(&mut found, territories, inside, *first)?;
        rest = tail;
    }
    Ok(found)
}

// The territory of these countries, or nothing where there is none.
fn of_countries(alloc: Global, inside: Items<Country>) -> Option<Territory>
    ensures { result ≡ of_countries inside }
{
    if inside.is_empty() {
        return None;
    }
    Some(Territory {
        included: inside,
        world: false,
        excluded: Items::new(alloc),
    })
}

/// The union of territories: a country lies in it exactly where it lies in one of them. `None`
/// where no country does.
pub fn union(alloc: Global, territories: &[Territory]) -> Result<Option<Territory>, AllocError>
    ensures { IfOk result (λ t. t ≡ union territories.now) }
{
    if has_world(territories) {
        return Ok(Some(Territory {
            included: Items::new(alloc),
            world: true,
            excluded: wanted(alloc, territories, false)?,
        }));
    }
    Ok(of_countries(alloc, wanted(alloc, territories, true)?))
}
