//! The entry of its rows.

ghost use Rattle.std.specs.Prelude.{◌≡◌, ◌++◌, ◌∷◌, [], ℕ, List, IfOk, OnOk, map};
ghost use Rattle.std.specs.List.{zip};
ghost use Rattle.catalogue_rules.specs.Records.{HasFewDetails};
ghost use Rattle.catalogue_rules.specs.declared.entry.Entry.{Entry as TheEntry};
ghost use Rattle.desk_catalogue.specs.Assembly.{detail_of, grouped, identifier_of, joined};
ghost use Rattle.desk_catalogue.specs.EntryRows.{article_rows, offer_rows_of, supplied_details};
ghost use Rattle.desk_catalogue.specs.Storable.{IsStorable};

use catalogue_rules::entry::Entry;
use desk_tables::articles::ArticleRow;
use desk_tables::offers::OfferRow;
use onix_message::StoreFault;
use onix_message::parts::{Price, ProductIdentifier, ProductSupply, SupplyDetail};
use onix_records::MOST_RECORDS;
use onix_terms::items::Items;
use onix_terms::plain::Plain;
use onix_terms::territory::Territory;
use std::alloc::{AllocError, Global};

// The identifiers of rows.
fn identifiers(alloc: Global, rows: &[ArticleRow]) -> Result<Items<ProductIdentifier>, AllocError>
    ensures { IfOk result (λ ids. ids ≡ map identifier_of rows.now) }
{
    let mut ids = Items::new(alloc);
    for row in rows {
        ids.push(ProductIdentifier {
            id_type: row.id_type,
            id_value: row.id_value.copy(alloc)?,
        })?;
    }
    Ok(ids)
}

// The SupplyDetail of a row, with its prices.
fn detail(row: &OfferRow, prices: &Items<Price>) -> Result<SupplyDetail, AllocError>
    ensures { IfOk result (λ d. d ≡ detail_of (row.now, prices.now)) }
{
    Ok(SupplyDetail {
        supplier: row.supplier.duplicate()?,
        availability: row.availability,
        unpriced: row.unpriced,
        prices: prices.duplicate()?,
    })
}

// Adds a SupplyDetail to the last supply. `Unusable` if there is none.
fn join(supplies: &mut Items<ProductSupply>, detail: SupplyDetail) -> Result<(), StoreFault>
    ensures { OnOk result (supplies.new ≡ joined supplies.old detail) }
{
    let Some(mut supply) = supplies.pop() else {
        return Err(StoreFault::Unusable);
    };
    if supply.details.push(detail).is_err() {
        return Err(StoreFault::Memory);
    }
    if supplies.push(supply).is_err() {
        return Err(StoreFault::Memory);
    }
    Ok(())
}

// Adds a supply with one SupplyDetail.
fn begin(
    alloc: Global,
    supplies: &mut Items<ProductSupply>,
    market: &Territory,
    detail: SupplyDetail,
) -> Result<(), AllocError>
    ensures { OnOk result (supplies.new
        ≡ supplies.old ++ record { market = market.now; details = detail ∷ [] } ∷ []) }
{
    let market = market.duplicate()?;
    let mut details = Items::new(alloc);
    details.push(detail)?;
    supplies.push(ProductSupply { market, details })?;
    Ok(())
}

// Adds the SupplyDetail of a row: to the last supply where that has its number.
fn add_row(
    alloc: Global,
    supplies: &mut Items<ProductSupply>,
    number: u32,
    row: &OfferRow,
    prices: &Items<Price>,
) -> Result<(), StoreFault>
    ensures { (more : List _) → OnOk result (grouped row.now.supply supplies.new more
        ≡ grouped number supplies.old ((row.now, prices.now) ∷ more)) }
{
    let Ok(detail) = detail(row, prices) else {
        return Err(StoreFault::Memory);
    };
    if row.supply == number {
        return join(supplies, detail);
    }
    if begin(alloc, supplies, &row.market, detail).is_err() {
        return Err(StoreFault::Memory);
    }
    Ok(())
}

// The supplies of rows, which have the prices of the same place.
fn group(
    alloc: Global,
    offers: &[OfferRow],
    prices: &[Items<Price>],
) -> Result<Items<ProductSupply>, StoreFault>
    ensures { IfOk result (λ supplies. supplies ≡ grouped 0 [] (zip offers.now prices.now)) }
{
    if offers.len() != prices.len() {
        return Err(StoreFault::Unusable);
    }
    let mut supplies = Items::new(alloc);
    let mut number = 0;
    for (i, row) in offers.iter().enumerate() {
        add_row(alloc, &mut supplies, number, row, &prices[i])?;
        number = row.supply;
    }
    Ok(supplies)
}

/// The entry of the rows of its identifiers and of its offers, in order of their places, with the
/// prices of each offer. `Unusable` where rows are those of no entry that a message can write, and
/// `Memory` if memory runs out.
pub fn entry_of(
    alloc: Global,
    articles: &[ArticleRow],
    offers: &[OfferRow],
    prices: &[Items<Price>],
) -> Result<Entry, StoreFault>
    ensures entry { (series reference : List ℕ) (e : TheEntry) → IsStorable e
        → articles.now ≡ article_rows series reference e.ids
        → offers.now ≡ offer_rows_of series reference e.supplies
        → prices.now ≡ map (λ d. d.detail.prices) (supplied_details e.supplies)
        → IfOk result (λ x. x ≡ e) }
    ensures few { IfOk result HasFewDetails }
{
    // An entry has no more SupplyDetails than a message may have records.
    if offers.len() > MOST_RECORDS {
        return Err(StoreFault::Unusable);
    }
    let Ok(ids) = identifiers(alloc, articles) else {
        return Err(StoreFault::Memory);
    };
    let supplies = group(alloc, offers, prices)?;
    Ok(Entry { ids, supplies })
}
