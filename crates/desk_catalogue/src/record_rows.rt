//! The rows of one record, read and compared.

ghost use Rattle.std.specs.Prelude.{◌≡◌, ◌&&◌, IfOk};
ghost use Rattle.catalogue_rules.specs.Records.{HasFewDetails};
ghost use Rattle.desk_catalogue.specs.Achieves.{Does};
ghost use Rattle.desk_catalogue.specs.Calls.{KeepsRows, FindsAs, HasPricesAs, HavePricesAs, IsEntryOf, HoldsSuppliesAs};
ghost use Rattle.desk_catalogue.specs.ReadRows.{has_same_identifiers, has_same_supplies, is_there, TellsIdentifiers};

use crate::assemble::entry_of;
use crate::build::{article_rows, offer_rows};
use crate::same::{same_articles, same_detail_prices, same_offers};
use catalogue_rules::change::Change;
use catalogue_rules::entry::Entry;
use desk_tables::offers::OfferRow;
use desk_tables::records::RecordRow;
use desk_tables::work::Work;
use onix_message::StoreFault;
use onix_message::parts::{Price, Product, ProductIdentifier, ProductSupply};
use onix_terms::items::Items;
use sqlite::Alter;
use std::alloc::Global;

// The prices of an offer, with their minimums or as those of a record that has none.
fn read_own_prices<S: Alter>(
    work: &mut Work<'_, S>,
    offer: &OfferRow,
    with_minimums: bool,
) -> Result<Items<Price>, StoreFault>
    ensures { Does S.Store (KeepsRows (HasPricesAs with_minimums offer.now))
        work.old work.new result }
{
    if with_minimums {
        return work.offer_prices(offer);
    }
    work.offer_prices_without_minimums(offer)
}

// The prices of each of these offers.
fn read_prices<S: Alter>(
    alloc: Global,
    work: &mut Work<'_, S>,
    offers: &[OfferRow],
    with_minimums: bool,
) -> Result<Vec<Items<Price>>, StoreFault>
    ensures { Does S.Store
        (KeepsRows (λ rows prices. HavePricesAs with_minimums offers.now rows prices.items))
        work.old work.new result }
{
    let mut prices = Vec::new(alloc);
    for offer in offers {
        let own = read_own_prices(work, offer, with_minimums)?;
        if prices.push(own).is_err() {
            return Err(StoreFault::Memory);
        }
    }
    Ok(prices)
}

/// The entry of a record that is there. `Unusable` where its rows cannot be read back; otherwise a
/// fault is one of the store, or out of memory.
pub fn read_record<S: Alter>(
    alloc: Global,
    work: &mut Work<'_, S>,
    row: &RecordRow,
) -> Result<Entry, StoreFault>
    ensures few { IfOk result HasFewDetails }
    ensures does { Does S.Store (KeepsRows (IsEntryOf row.now)) work.old work.new result }
{
    let articles = work.record_articles(row)?;
    let offers = work.record_offers(row)?;
    let prices = read_prices(alloc, work, offers.as_slice(), true)?;
    entry_of(
        alloc,
        articles.as_slice(),
        offers.as_slice(),
        prices.as_slice(),
    )
}

/// What is there of the record of a product.
#[derive(Clone, Copy)]
pub enum FoundRecord {
    /// It is not there.
    Absent,
    /// It is there.
    Present {
        /// Its identifiers are those of the product.
        same_identifiers: bool,
        /// Its supplies are those of the product. It is `false` too where that does not matter.
        same_supplies: bool,
    },
}

impl FoundRecord {
    /// Whether the record is there.
    pub fn is_there(self) -> bool
        ensures { result ≡ is_there self }
    {
        match self {
            FoundRecord::Absent => false,
            FoundRecord::Present { .. } => true,
        }
    }

    /// Whether the record has the identifiers and the supplies of the product.
    pub fn is_same(self) -> bool
        ensures { result ≡ (has_same_identifiers self && has_same_supplies self) }
    {
        match self {
            FoundRecord::Absent => false,
            FoundRecord::Present {
                same_identifiers,
                same_supplies,
            } => same_identifiers && same_supplies,
        }
    }
}

// Whether it matters for a record that is there that its supplies are those of the product.
fn asks_for_supplies(product: &Product, same_identifiers: bool) -> bool {
    match Change::of(product.notification) {
        Change::Replace => same_identifiers,
        Change::Update => !product.supplies.is_empty(),
        Change::Delete | Change::Ignore => false,
    }
}

// Whether the identifiers of a record are these, or `None` where it is not there: a record has one.
fn has_identifiers<S: Alter>(
    alloc: Global,
    work: &mut Work<'_, S>,
    row: &RecordRow,
    ids: &[ProductIdentifier],
) -> Result<Option<bool>, StoreFault>
    ensures { Does S.Store (KeepsRows (TellsIdentifiers row.now ids.now)) work.old work.new result }
{
    let articles = work.record_articles(row)?;
    let is_absent = articles.as_slice().is_empty();
    if is_absent {
        return Ok(None);
    }
    let wanted = article_rows(alloc, &row.series, &row.reference, ids)?;
    Ok(Some(same_articles(articles.as_slice(), wanted.as_slice())))
}

/// What is there of the record of a product. Without `with_minimums` the rows of minimums are not
/// asked for: none of its prices may have one then. A fault is one of the store, or out of memory;
/// `Unusable` where a row cannot be read back.
pub fn find_record<S: Alter>(
    alloc: Global,
    work: &mut Work<'_, S>,
    row: &RecordRow,
    product: &Product,
    with_minimums: bool,
) -> Result<FoundRecord, StoreFault>
    ensures { Does S.Store (KeepsRows (FindsAs with_minimums row.now product.now))
        work.old work.new result }
{
    let told = has_identifiers(alloc, work, row, product.ids.as_slice())?;
    let Some(same_identifiers) = told else {
        return Ok(FoundRecord::Absent);
    };
    let asks = asks_for_supplies(product, same_identifiers);
    if !asks {
        return Ok(FoundRecord::Present {
            same_identifiers,
            same_supplies: false,
        });
    }
    let same_supplies = has_supplies(alloc, work, row, product.supplies.as_slice(), with_minimums)?;
    Ok(FoundRecord::Present {
        same_identifiers,
        same_supplies,
    })
}

// Whether the supplies of a record are these, where its prices are read so.
fn has_supplies<S: Alter>(
    alloc: Global,
    work: &mut Work<'_, S>,
    row: &RecordRow,
    supplies: &[ProductSupply],
    with_minimums: bool,
) -> Result<bool, StoreFault>
    ensures { Does S.Store (KeepsRows (HoldsSuppliesAs with_minimums row.now supplies.now))
        work.old work.new result }
{
    let wanted = offer_rows(alloc, &row.series, &row.reference, supplies)?;
    let offers = work.record_offers(row)?;
    let same = same_offers(offers.as_slice(), wanted.as_slice());
    if !same {
        return Ok(false);
    }
    let prices = read_prices(alloc, work, offers.as_slice(), with_minimums)?;
    Ok(same_detail_prices(prices.as_slice(), supplies))
}
