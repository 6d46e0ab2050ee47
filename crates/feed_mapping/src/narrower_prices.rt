//! Which Prices of a SupplyDetail go before those of the world, and what these exclude then.

ghost use Rattle.std.specs.Prelude.{◌≡◌, IfOk, OnOk, map, not};
ghost use Rattle.std.specs.List.{list_any};
ghost use Rattle.feed_mapping.specs.PriceTexts.{price_view};
ghost use Rattle.feed_mapping.specs.Prices.{alike_in, context_view, first_in, firsts_in, is_first, is_like, is_of_countries, may_lack, narrowed, with_first};
ghost use Rattle.feed_mapping.specs.Territories.{AreRenamed, area_view};

use crate::dates::{right_days, wrong_date};
use crate::minimums::{copies_of, greater_of};
use crate::narrower::{Alike, First, countries_left, excluded_then};
use crate::price_kinds::kind_in;
use crate::price_texts::PriceTexts;
use crate::prices::{PriceContext, early_reason};
use crate::records::{may_be_empty, parsed_quantity};
use crate::regions::{countries_written, names_world};
use crate::territories::{Area, Renamed, area_reason, renamed_in};
use onix_terms::items::Items;
use onix_terms::text::Text;
use std::alloc::{AllocError, Global};

// In what a Price is alike others.
fn alike_in(context: &PriceContext<'_, '_, '_>, price: &PriceTexts<'_>) -> Alike
    ensures { result ≡ alike_in (context_view context.now) (price_view price.now) }
{
    Alike {
        kind: kind_in(context.opening, price),
        copies: copies_of(greater_of(price.minimum, context.minimum)),
        days: right_days(&price.dated),
    }
}

// Whether a territory is countries without the world.
fn is_of_countries(area: &Area<'_>) -> bool
    ensures { result ≡ is_of_countries (area_view area.now) }
{
    !area.included.is_empty() && !names_world(area.regions_included)
}

/// CountriesExcluded of a Price, where it holds in the world, and others go before it.
#[tactic(auto, using(crate::proofs::NarrowerLaws::none_before))]
pub(crate) fn narrowed_in(
    alloc: Global,
    context: &PriceContext<'_, '_, '_>,
    renamed: &Renamed,
    price: &PriceTexts<'_>,
) -> Result<Option<Text>, AllocError>
    ensures { AreRenamed renamed.now (price_view price.now).area
        → IfOk result (λ text. text ≡ narrowed (context_view context.now) (price_view price.now)) }
{
    if context.firsts.is_empty() || is_of_countries(&price.area) {
        return Ok(None);
    }
    let alike = alike_in(context, price);
    let own = countries_written(price.area.excluded, &renamed.excluded);
    excluded_then(alloc, context.firsts, &alike, own)
}

// Whether a type or a currency is one, or lacks in a Price without an amount.
fn may_lack(is_one: bool, text: &[u8], price: &PriceTexts<'_>) -> bool
    ensures { result ≡ may_lack is_one text.now (price_view price.now) }
{
    is_one || (text.is_empty() && !price.has_amount)
}

// Whether the type, the currency and the minimum of a Price are such that it may be alike another.
fn is_like(context: &PriceContext<'_, '_, '_>, price: &PriceTexts<'_>) -> bool
    ensures { result ≡ is_like (context_view context.now) (price_view price.now) }
{
    let kind = kind_in(context.opening, price);
    let minimum = price.minimum.unwrap_or(b"");
    may_lack(kind.price_type.is_some(), price.price_type, price)
        && may_lack(kind.currency.is_some(), price.currency, price)
        && may_be_empty(minimum, parsed_quantity(minimum))
}

// Whether a Price for countries is written, or would be but for its amount.
fn is_first(
    alloc: Global,
    context: &PriceContext<'_, '_, '_>,
    renamed: &Renamed,
    price: &PriceTexts<'_>,
) -> Result<bool, AllocError>
    ensures { AreRenamed renamed.now (price_view price.now).area
        → IfOk result (λ is. is ≡ is_first (context_view context.now) (price_view price.now)) }
{
    if early_reason(wrong_date(&price.dated), None, price).is_some() {
        return Ok(false);
    }
    let lost = area_reason(alloc, &price.area, renamed)?;
    Ok(lost.is_none() && is_like(context, price))
}

// A Price for countries as one that goes before others, behind those that do too.
fn first_in(
    alloc: Global,
    context: &PriceContext<'_, '_, '_>,
    firsts: &[First],
    renamed: &Renamed,
    price: &PriceTexts<'_>,
) -> Result<First, AllocError>
    ensures { AreRenamed renamed.now (price_view price.now).area → IfOk result (λ first. first
        ≡ first_in (context_view context.now) (price_view price.now) firsts.now) }
{
    let alike = alike_in(context, price);
    let included = countries_written(price.area.included, &renamed.included);
    let excluded = countries_written(price.area.excluded, &renamed.excluded);
    let countries = countries_left(alloc, firsts, &alike, included, excluded)?;
    Ok(First { alike, countries })
}

// Adds a Price, where it goes before others.
fn push_first(
    alloc: Global,
    context: &PriceContext<'_, '_, '_>,
    price: &PriceTexts<'_>,
    firsts: &mut Items<First>,
) -> Result<(), AllocError>
    ensures { OnOk result (firsts.new
        ≡ with_first (context_view context.now) (price_view price.now) firsts.old) }
{
    if !is_of_countries(&price.area) {
        return Ok(());
    }
    let renamed = renamed_in(alloc, &price.area)?;
    if !is_first(alloc, context, &renamed, price)? {
        return Ok(());
    }
    let first = first_in(alloc, context, firsts.as_slice(), &renamed, price)?;
    firsts.push(first)
}

// Whether one of the Prices is for the world.
fn has_world(prices: &[PriceTexts<'_>]) -> bool
    ensures { result ≡ list_any (λ p. not (is_of_countries p.area)) (map price_view prices.now) }
{
    let mut rest = prices;
    while let [price, behind @ ..] = rest {
        if !is_of_countries(&price.area) {
            return true;
        }
        rest = behind;
    }
    false
}

/// The Prices of a SupplyDetail that go before those of the world, where it has such.
pub(crate) fn firsts_in(
    alloc: Global,
    context: &PriceContext<'_, '_, '_>,
    prices: &[PriceTexts<'_>],
) -> Result<Items<First>, AllocError>
    ensures { IfOk result (λ firsts. firsts
        ≡ firsts_in (context_view context.now) (map price_view prices.now)) }
{
    let mut firsts = Items::new(alloc);
    if !has_world(prices) {
        return Ok(firsts);
    }
    let mut rest = prices;
    while let [price, behind @ ..] = rest {
        push_first(alloc, context, price, &mut firsts)?;
        rest = behind;
    }
    Ok(firsts)
}
