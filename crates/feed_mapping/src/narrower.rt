//! The narrower territory before the world: a Price for countries goes before the Prices beside it
//! that are alike in all else, and hold in the world.

ghost use Rattle.std.specs.Prelude.{◌≡◌, [], IfOk, OnOk, if◌then◌else◌};
ghost use Rattle.std.specs.List.{list_any};
ghost use Rattle.std.specs.Str.{bytes_eq};
ghost use Rattle.feed_mapping.specs.Narrower.{all_excluded, countries_before, countries_in, countries_without, each_once, excluded_then, is_alike, with_country};
ghost use Rattle.feed_mapping.specs.NarrowerSets.{AreSeen};
ghost use Rattle.feed_mapping.specs.Records.{parsed_term};
ghost use Rattle.onix_terms.specs.Code.{country_of};

use crate::dates::Days;
use crate::records::utf8_text;
use crate::regions::next_word;
use feed_terms::price::Kind;
use onix_terms::code::Country;
use onix_terms::countries::countries_text;
use onix_terms::items::Items;
use onix_terms::text::Text;
use std::alloc::{AllocError, Global};
use std::collections::BTreeMap;

/// In what Prices are alike: the type and the currency, each where a Price says one, the number of
/// copies from which it holds, and its days.
#[derive(Clone, Copy, Debug)]
pub struct Alike {
    pub kind: Kind,
    pub copies: u32,
    pub days: Days,
}

/// A Price that goes before others: in what it is alike to them, and its countries.
#[derive(Drop)]
pub struct First {
    pub alike: Alike,
    pub countries: Items<Country>,
}

// Countries in their order, each once, and which these are.
#[derive(Drop)]
pub struct Countries {
    found: Items<Country>,
    seen: BTreeMap<String, bool>,
}

// Whether a Price that goes before others is alike one of them.
fn is_alike(first: &Alike, other: &Alike) -> bool
    ensures { result ≡ is_alike first.now other.now }
{
    (first.kind.price_type.is_none() || first.kind.price_type == other.kind.price_type)
        && (first.kind.currency.is_none() || first.kind.currency == other.kind.currency)
        && first.copies == other.copies
        && first.days.first == other.days.first
        && first.days.last == other.days.last
}

// The country that a word is.
fn parsed_country(word: &[u8]) -> Option<Country>
    ensures { result ≡ parsed_term country_of word.now }
{
    utf8_text(word)?.parse().ok()
}

impl Countries {
    // No country.
    fn none(alloc: Global) -> Countries
        ensures found { result.found ≡ [] }
        ensures seen { AreSeen result }
    {
        Countries {
            found: Items::new(alloc),
            seen: BTreeMap::new(alloc),
        }
    }

    fn has(&self, country: Country) -> bool
        ensures { AreSeen self.now → result ≡ list_any (bytes_eq country) self.now.found }
    {
        self.seen.contains_key(country.as_str())
    }

    // Adds a country, unless it is there.
    fn add(&mut self, alloc: Global, country: Country) -> Result<(), AllocError>
        ensures found { AreSeen self.old
            → OnOk result (self.new.found ≡ with_country self.old.found country) }
        ensures seen { AreSeen self.old → OnOk result (AreSeen self.new) }
    {
        if self.has(country) {
            return Ok(());
        }
        let key = String::from_str(alloc, country.as_str())?;
        self.seen.insert(key, true)?;
        self.found.push(country)?;
        Ok(())
    }

    // Adds countries, each once.
    fn add_all(&mut self, alloc: Global, countries: &[Country]) -> Result<(), AllocError>
        ensures found { AreSeen self.old
            → OnOk result (self.new.found ≡ each_once self.old.found countries.now) }
        ensures seen { AreSeen self.old → OnOk result (AreSeen self.new) }
    {
        let mut rest = countries;
        while let [country, tail @ ..] = rest {
            self.add(alloc, *country)?;
            rest = tail;
        }
        Ok(())
    }

    // Adds the countries that a text names, each once.
    fn add_named(&mut self, alloc: Global, text: &[u8]) -> Result<(), AllocError>
        ensures found { AreSeen self.old
            → OnOk result (self.new.found ≡ each_once self.old.found (countries_in text.now)) }
        ensures seen { AreSeen self.old → OnOk result (AreSeen self.new) }
    {
        let mut rest = text;
        while let Some((word, behind)) = next_word(rest) {
            if let Some(country) = parsed_country(word) {
                self.add(alloc, country)?;
            }
            rest = behind;
        }
        Ok(())
    }

    // Adds the countries of a Price that goes before others, if it is alike in this.
    fn add_first(&mut self, alloc: Global, first: &First, alike: &Alike) -> Result<(), AllocError>
        ensures found { AreSeen self.old → OnOk result (self.new.found ≡ each_once self.old.found
            (if is_alike first.now.alike alike.now then first.now.countries else [])) }
        ensures seen { AreSeen self.old → OnOk result (AreSeen self.new) }
    {
        if is_alike(&first.alike, alike) {
            self.add_all(alloc, first.countries.as_slice())
        } else {
            Ok(())
        }
    }

    // Adds the countries of the Prices that go before one that is alike in this.
    #[tactic(auto, using(crate::proofs::NarrowerLaws::each_behind))]
    fn add_before(
        &mut self,
        alloc: Global,
        firsts: &[First],
        alike: &Alike,
    ) -> Result<(), AllocError>
        ensures found { AreSeen self.old → OnOk result (self.new.found
            ≡ each_once self.old.found (countries_before firsts.now alike.now)) }
        ensures seen { AreSeen self.old → OnOk result (AreSeen self.new) }
    {
        let mut rest = firsts;
        while let [first, tail @ ..] = rest {
            self.add_first(alloc, first, alike)?;
            rest = tail;
        }
        Ok(())
    }
}

// The countries that a text names, less these.
fn countries_without(
    alloc: Global,
    gone: &Countries,
    text: &[u8],
) -> Result<Items<Country>, AllocError>
    ensures { AreSeen gone.now
        → IfOk result (λ found. found ≡ countries_without gone.now.found text.now) }
{
    let mut found = Items::new(alloc);
    let mut rest = text;
    while let Some((word, behind)) = next_word(rest) {
        if let Some(country) = parsed_country(word) {
            if !gone.has(country) {
                found.push(country)?;
            }
        }
        rest = behind;
    }
    Ok(found)
}

/// The countries of a Price with these that are included and excluded, less those of the Prices
/// that go before it.
pub(crate) fn countries_left(
    alloc: Global,
    firsts: &[First],
    alike: &Alike,
    included: &[u8],
    excluded: &[u8],
) -> Result<Items<Country>, AllocError>
    ensures { IfOk result (λ found. found
        ≡ countries_without (all_excluded firsts.now alike.now excluded.now) included.now) }
{
    let mut gone = Countries::none(alloc);
    gone.add_named(alloc, excluded)?;
    gone.add_before(alloc, firsts, alike)?;
    countries_without(alloc, &gone, included)
}

/// CountriesExcluded of a Price of the world with these of its own; `None` where none of those that
/// go before it comes to them.
pub(crate) fn excluded_then(
    alloc: Global,
    firsts: &[First],
    alike: &Alike,
    own: &[u8],
) -> Result<Option<Text>, AllocError>
    ensures { IfOk result (λ text. text ≡ excluded_then firsts.now alike.now own.now) }
{
    let mut countries = Countries::none(alloc);
    countries.add_named(alloc, own)?;
    let before = countries.found.len();
    countries.add_before(alloc, firsts, alike)?;
    if before < countries.found.len() {
        let text = countries_text(alloc, countries.found.as_slice())?;
        return Ok(Some(text));
    }
    Ok(None)
}
