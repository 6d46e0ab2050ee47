//! The rows of an entry.

ghost use Rattle.std.specs.Prelude.{◌≡◌, ◌+◌, ◌++◌, ℕ, IfOk, OnOk, length, map};
ghost use Rattle.std.specs.List.{enumerate_from, flat_map};
ghost use Rattle.desk_catalogue.specs.EntryRows.{article_row, article_rows, numbered_details, offer_price_row, offer_price_rows, offer_row_of, offer_rows_of, price_rows_of};

use desk_tables::articles::ArticleRow;
use desk_tables::offers::OfferRow;
use desk_tables::prices::PriceRow;
use onix_message::StoreFault;
use onix_message::parts::{Price, ProductIdentifier, ProductSupply, SupplyDetail};
use onix_terms::plain::Plain;
use onix_terms::series_name::SeriesName;
use onix_terms::territory::Territory;
use onix_terms::text::Text;
use std::alloc::{AllocError, Global};

// The place after this one. `Size` where the places run out.
fn next_place(place: u32) -> Result<u32, StoreFault>
    ensures { IfOk result (λ next. next ≡ place + 1) }
{
    if place == u32::MAX {
        return Err(StoreFault::Size);
    }
    Ok(place + 1)
}

// The row of an identifier, by copies of its parts.
fn article(
    alloc: Global,
    series: &SeriesName,
    reference: &Text,
    place: u32,
    id: &ProductIdentifier,
) -> Result<ArticleRow, AllocError>
    ensures { IfOk result (λ row. row ≡ article_row series.now reference.now (place, id.now)) }
{
    Ok(ArticleRow {
        series: *series,
        reference: reference.copy(alloc)?,
        id_place: place,
        id_type: id.id_type,
        id_value: id.id_value.copy(alloc)?,
    })
}

/// Adds the rows of the identifiers of a record, with places from 1. `Memory` if memory runs out,
/// and `Size` where the places run out.
pub fn add_article_rows(
    alloc: Global,
    series: &SeriesName,
    reference: &Text,
    ids: &[ProductIdentifier],
    rows: &mut Vec<ArticleRow>,
) -> Result<(), StoreFault>
    ensures { OnOk result (rows.new.items
        ≡ rows.old.items ++ article_rows series.now reference.now ids.now) }
{
    let mut place = 1;
    for id in ids {
        let Ok(row) = article(alloc, series, reference, place, id) else {
            return Err(StoreFault::Memory);
        };
        if rows.push(row).is_err() {
            return Err(StoreFault::Memory);
        }
        place = next_place(place)?;
    }
    Ok(())
}

/// The rows of the identifiers of a record, with places from 1. `Memory` if memory runs out, and
/// `Size` where the places run out.
pub fn article_rows(
    alloc: Global,
    series: &SeriesName,
    reference: &Text,
    ids: &[ProductIdentifier],
) -> Result<Vec<ArticleRow>, StoreFault>
    ensures { IfOk result (λ rows. rows.items ≡ article_rows series.now reference.now ids.now) }
{
    let mut rows = Vec::new(alloc);
    add_article_rows(alloc, series, reference, ids, &mut rows)?;
    Ok(rows)
}

// The row of an offer, which a SupplyDetail is, by copies of its parts.
fn offer_row(
    alloc: Global,
    series: &SeriesName,
    reference: &Text,
    place: u32,
    supply: u32,
    market: &Territory,
    detail: &SupplyDetail,
) -> Result<OfferRow, AllocError>
    ensures { IfOk result (λ row. row ≡ offer_row_of series.now reference.now
        (place, record { supply = supply; market = market.now; detail = detail.now })) }
{
    Ok(OfferRow {
        series: *series,
        reference: reference.copy(alloc)?,
        place,
        supply,
        market: market.duplicate()?,
        supplier: detail.supplier.duplicate()?,
        availability: detail.availability,
        unpriced: detail.unpriced,
    })
}

// Adds the rows of the offers of the supply of that number, the first of which has this place.
// Gives the place after them.
fn add_supply_offers(
    alloc: Global,
    series: &SeriesName,
    reference: &Text,
    from: u32,
    number: u32,
    supply: &ProductSupply,
    rows: &mut Vec<OfferRow>,
) -> Result<u32, StoreFault>
    ensures rows { OnOk result (rows.new.items
        ≡ rows.old.items ++ map (offer_row_of series.now reference.now)
        (enumerate_from from (numbered_details (number, supply.now)))) }
    ensures next { IfOk result (λ next. next ≡ from + length supply.now.details) }
{
    let mut place = from;
    for detail in supply.details.as_slice() {
        let Ok(row) = offer_row(
            alloc,
            series,
            reference,
            place,
            number,
            &supply.market,
            detail,
        ) else {
            return Err(StoreFault::Memory);
        };
        if rows.push(row).is_err() {
            return Err(StoreFault::Memory);
        }
        place = next_place(place)?;
    }
    Ok(place)
}

/// Adds the rows of the offers of a record, with places from 1 over all its supplies, whose numbers
/// count from 1. `Memory` if memory runs out, and `Size` where the places run out.
pub fn add_offer_rows(
    alloc: Global,
    series: &SeriesName,
    reference: &Text,
    supplies: &[ProductSupply],
    rows: &mut Vec<OfferRow>,
) -> Result<(), StoreFault>
    ensures { OnOk result (rows.new.items
        ≡ rows.old.items ++ offer_rows_of series.now reference.now supplies.now) }
{
    let mut place = 1;
    let mut number = 1;
    for supply in supplies {
        place = add_supply_offers(alloc, series, reference, place, number, supply, rows)?;
        number = next_place(number)?;
    }
    Ok(())
}

/// The rows of the offers of a record. The faults are those of `add_offer_rows`.
pub fn offer_rows(
    alloc: Global,
    series: &SeriesName,
    reference: &Text,
    supplies: &[ProductSupply],
) -> Result<Vec<OfferRow>, StoreFault>
    ensures { IfOk result (λ rows. rows.items
        ≡ offer_rows_of series.now reference.now supplies.now) }
{
    let mut rows = Vec::new(alloc);
    add_offer_rows(alloc, series, reference, supplies, &mut rows)?;
    Ok(rows)
}

// Adds the rows of the prices of the offer of that place.
fn add_prices(
    alloc: Global,
    series: &SeriesName,
    reference: &Text,
    place: u32,
    prices: &[Price],
    rows: &mut Vec<PriceRow>,
) -> Result<(), StoreFault>
    ensures { OnOk result (rows.new.items
        ≡ rows.old.items ++ map (offer_price_row series.now reference.now place)
        (enumerate_from 1 prices.now)) }
{
    let mut price_place = 1;
    for price in prices {
        let Ok(row) = price_row(alloc, series, reference, place, price_place, price) else {
            return Err(StoreFault::Memory);
        };
        if rows.push(row).is_err() {
            return Err(StoreFault::Memory);
        }
        price_place = next_place(price_place)?;
    }
    Ok(())
}

// The row of a price, by copies of its parts.
fn price_row(
    alloc: Global,
    series: &SeriesName,
    reference: &Text,
    place: u32,
    price_place: u32,
    price: &Price,
) -> Result<PriceRow, AllocError>
    ensures { IfOk result (λ row. row
        ≡ offer_price_row series.now reference.now place (price_place, price.now)) }
{
    Ok(PriceRow {
        series: *series,
        reference: reference.copy(alloc)?,
        place,
        price_place,
        price: price.duplicate()?,
    })
}

// Adds the rows of the prices of the offers of a supply, the first of which has this place.
// Gives the place after them.
fn add_supply_prices(
    alloc: Global,
    series: &SeriesName,
    reference: &Text,
    from: u32,
    supply: &ProductSupply,
    rows: &mut Vec<PriceRow>,
) -> Result<u32, StoreFault>
    ensures rows { (number : ℕ) → OnOk result (rows.new.items
        ≡ rows.old.items ++ flat_map (offer_price_rows series.now reference.now)
        (enumerate_from from (numbered_details (number, supply.now)))) }
    ensures next { IfOk result (λ next. next ≡ from + length supply.now.details) }
{
    let mut place = from;
    for detail in supply.details.as_slice() {
        add_prices(
            alloc,
            series,
            reference,
            place,
            detail.prices.as_slice(),
            rows,
        )?;
        place = next_place(place)?;
    }
    Ok(place)
}

/// Adds the rows of the prices of a record, each with the place of its offer and its own, from 1.
/// `Memory` if memory runs out, and `Size` where the places run out.
pub fn add_price_rows(
    alloc: Global,
    series: &SeriesName,
    reference: &Text,
    supplies: &[ProductSupply],
    rows: &mut Vec<PriceRow>,
) -> Result<(), StoreFault>
    ensures { OnOk result (rows.new.items
        ≡ rows.old.items ++ price_rows_of series.now reference.now supplies.now) }
{
    let mut place = 1;
    for supply in supplies {
        place = add_supply_prices(alloc, series, reference, place, supply, rows)?;
    }
    Ok(())
}

/// The rows of the prices of a record. The faults are those of `add_price_rows`.
pub fn price_rows(
    alloc: Global,
    series: &SeriesName,
    reference: &Text,
    supplies: &[ProductSupply],
) -> Result<Vec<PriceRow>, StoreFault>
    ensures { IfOk result (λ rows. rows.items
        ≡ price_rows_of series.now reference.now supplies.now) }
{
    let mut rows = Vec::new(alloc);
    add_price_rows(alloc, series, reference, supplies, &mut rows)?;
    Ok(rows)
}
