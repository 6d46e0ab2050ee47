//! A Price as it is read: each of its texts once, where it holds, and between which days.

ghost use Rattle.std.specs.Prelude.{◌≡◌, [], IfOk, codes, find, map, option_map};
ghost use Rattle.feed_mapping.specs.Elements.{composites, first, text_or_empty};
ghost use Rattle.feed_mapping.specs.PriceTexts.{first_with_text, is_other, is_other_qualifier, own_minimum, price_view, prices_in, texts_of};
ghost use Rattle.feed_mapping.specs.PriceViews.{text_view};
ghost use Rattle.feed_mapping.specs.Records.{option_filter};
ghost use Rattle.feed_outline.specs.Composites.{text_in};

use crate::dates::{Dated, days_in};
use crate::elements::{first_composite, next_composite, text_or_empty};
use crate::price_amounts::amount_said;
use crate::records::are_zeros;
use crate::territories::{Area, area_in};
use feed_outline::{Elements, Line, text_in};
use std::alloc::{AllocError, Global};

/// What a Price says, and where it stands. A text that is nothing but 00 says nothing, nor does a
/// qualifier of 05 or a minimum of zeros alone.
#[derive(Drop)]
pub struct PriceTexts<'a> {
    pub line: &'a Line,
    pub below: Elements<'a>,
    pub price_type: &'a [u8],
    pub currency: &'a [u8],
    pub has_amount: bool,
    pub amount: &'a [u8],
    pub minimum: Option<&'a [u8]>,
    pub qualifier: Option<&'a [u8]>,
    pub per: Option<&'a [u8]>,
    pub condition: Option<&'a [u8]>,
    pub constraint: Option<&'a [u8]>,
    pub coded: Option<&'static [u8]>,
    pub zone: Option<&'a [u8]>,
    pub license: Option<&'static [u8]>,
    pub dated_license: Option<&'static [u8]>,
    pub old: Option<&'static [u8]>,
    pub area: Area<'a>,
    pub dated: Dated<'a>,
}

fn is_other(code: &[u8]) -> bool
    ensures { result ≡ is_other code.now }
{
    code != b"00".as_slice()
}

// The MinimumOrderQuantity of a Price, where it is not of zeros alone.
fn own_minimum<'a>(elements: &Elements<'a>) -> Option<&'a [u8]>
    ensures { text_view result ≡ own_minimum elements.now }
{
    let text = text_in(b"MinimumOrderQuantity", elements)?;
    if are_zeros(text) { None } else { Some(text) }
}

// A PriceQualifier that is not that of the ordinary price.
fn other_qualifier<'a>(elements: &Elements<'a>) -> Option<&'a [u8]>
    ensures { text_view result
        ≡ option_filter is_other_qualifier (text_in (codes "PriceQualifier") elements.now) }
{
    let text = text_in(b"PriceQualifier", elements)?;
    if text == b"00".as_slice() || text == b"05".as_slice() {
        None
    } else {
        Some(text)
    }
}

// A PricePer that is not that of a copy.
fn other_unit<'a>(elements: &Elements<'a>) -> Option<&'a [u8]>
    ensures { text_view result
        ≡ option_filter is_other (text_in (codes "PricePer") elements.now) }
{
    let text = text_in(b"PricePer", elements)?;
    if is_other(text) { Some(text) } else { None }
}

// The type of the first composite of this name that has another type than 00.
fn other_type<'a>(name: &[u8], type_name: &[u8], elements: &Elements<'a>) -> Option<&'a [u8]>
    ensures { text_view result ≡ find is_other
        (map (λ c. text_or_empty type_name.now c.below) (composites name.now elements.now)) }
{
    let mut rest = elements.copy();
    while let Some((found, behind)) = next_composite(name, &rest) {
        let code = text_or_empty(type_name, &found.below);
        if is_other(code) {
            return Some(code);
        }
        rest = behind;
    }
    None
}

// Whether there is such a composite.
fn mark_in(name: &[u8], elements: &Elements<'_>) -> Option<&'static [u8]>
    ensures { text_view result ≡ option_map (λ c. []) (first (composites name.now elements.now)) }
{
    match first_composite(name, elements) {
        Some(_) => Some(b""),
        None => None,
    }
}

/// The first of these names by which an element has a text.
pub(crate) fn first_with_text(
    names: &[&'static [u8]],
    elements: &Elements<'_>,
) -> Option<&'static [u8]>
    ensures { text_view result ≡ first_with_text elements.now (map (λ n. n.now) names.now) }
{
    let mut rest = names;
    while let [name, tail @ ..] = rest {
        if text_in(name, elements).is_some() {
            return Some(*name);
        }
        rest = tail;
    }
    None
}

const OLD_ELEMENTS: [&'static [u8]; 8] = [
    b"PriceTypeCode",
    b"ClassOfTrade",
    b"PriceEffectiveFrom",
    b"PriceEffectiveUntil",
    b"CountryCode",
    b"CountryExcluded",
    b"TerritoryExcluded",
    b"(j303)",
];

// What a Price says.
fn texts_of<'a>(line: &'a Line, below: &Elements<'a>) -> PriceTexts<'a>
    ensures { price_view result ≡ texts_of below.now }
{
    PriceTexts {
        line,
        below: below.copy(),
        price_type: text_or_empty(b"PriceType", below),
        currency: text_or_empty(b"CurrencyCode", below),
        has_amount: text_in(b"PriceAmount", below).is_some(),
        amount: amount_said(below),
        minimum: own_minimum(below),
        qualifier: other_qualifier(below),
        per: other_unit(below),
        condition: other_type(b"PriceCondition", b"PriceConditionType", below),
        constraint: other_type(b"PriceConstraint", b"PriceConstraintType", below),
        coded: mark_in(b"PriceCoded", below),
        zone: text_in(b"CurrencyZone", below),
        license: mark_in(b"EpubLicense", below),
        dated_license: mark_in(b"EpubLicenseWithDate", below),
        old: first_with_text(&OLD_ELEMENTS, below),
        area: area_in(below),
        dated: days_in(below),
    }
}

/// The Prices among these elements, in order.
pub(crate) fn prices_in<'a>(
    alloc: Global,
    elements: &Elements<'a>,
) -> Result<Vec<PriceTexts<'a>>, AllocError>
    ensures { IfOk result (λ prices. map price_view prices.items ≡ prices_in elements.now) }
{
    let mut prices = Vec::new(alloc);
    let mut rest = elements.copy();
    while let Some((price, behind)) = next_composite(b"Price", &rest) {
        prices.push(texts_of(price.line, &price.below))?;
        rest = behind;
    }
    Ok(prices)
}
