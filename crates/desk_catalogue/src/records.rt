//! The rows of one record, written.

ghost use Rattle.desk_catalogue.specs.Achieves.{Does};
ghost use Rattle.desk_catalogue.specs.Calls.{ChangesRows, Writes, Removes, ReplacesSupplies};
ghost use Rattle.desk_catalogue.specs.WrittenRows.{with_identified, with_offers_and_prices, with_records_and_articles, with_supplies};

use crate::build::{article_rows, offer_rows, price_rows};
use desk_tables::articles::ArticleRow;
use desk_tables::offers::OfferRow;
use desk_tables::prices::PriceRow;
use desk_tables::records::RecordRow;
use desk_tables::work::Work;
use onix_message::StoreFault;
use onix_message::parts::{ProductIdentifier, ProductSupply};
use sqlite::Alter;
use std::alloc::Global;
use std::slice::from_ref;

// Adds records and identifiers.
pub(crate) fn put_records_and_articles<S: Alter>(
    alloc: Global,
    work: &mut Work<'_, S>,
    records: &[RecordRow],
    articles: &[ArticleRow],
) -> Result<(), StoreFault>
    ensures { Does S.Store (ChangesRows (with_records_and_articles records.now articles.now))
        work.old work.new result }
{
    work.put_records(alloc, records)?;
    work.put_articles(alloc, articles)
}

// Adds offers and prices.
pub(crate) fn put_offers_and_prices<S: Alter>(
    alloc: Global,
    work: &mut Work<'_, S>,
    offers: &[OfferRow],
    prices: &[PriceRow],
) -> Result<(), StoreFault>
    ensures { Does S.Store (ChangesRows (with_offers_and_prices offers.now prices.now))
        work.old work.new result }
{
    work.put_offers(alloc, offers)?;
    work.put_prices(alloc, prices)
}

// Adds the record and its identifiers.
fn put_identified<S: Alter>(
    alloc: Global,
    work: &mut Work<'_, S>,
    row: &RecordRow,
    ids: &[ProductIdentifier],
) -> Result<(), StoreFault>
    ensures { Does S.Store (ChangesRows (with_identified row.now ids.now))
        work.old work.new result }
{
    let articles = article_rows(alloc, &row.series, &row.reference, ids)?;
    put_records_and_articles(alloc, work, from_ref(row), articles.as_slice())
}

// Adds the offers of the record and their prices.
fn put_supplies<S: Alter>(
    alloc: Global,
    work: &mut Work<'_, S>,
    row: &RecordRow,
    supplies: &[ProductSupply],
) -> Result<(), StoreFault>
    ensures { Does S.Store
        (ChangesRows (with_supplies row.now.series row.now.reference supplies.now))
        work.old work.new result }
{
    let offers = offer_rows(alloc, &row.series, &row.reference, supplies)?;
    let prices = price_rows(alloc, &row.series, &row.reference, supplies)?;
    put_offers_and_prices(alloc, work, offers.as_slice(), prices.as_slice())
}

/// Writes the rows of a record with these identifiers and supplies, where it has no rows.
/// `Unusable` where the series is not there; otherwise a fault is one of the store, or out of
/// memory.
pub fn write_record<S: Alter>(
    alloc: Global,
    work: &mut Work<'_, S>,
    row: &RecordRow,
    ids: &[ProductIdentifier],
    supplies: &[ProductSupply],
) -> Result<(), StoreFault>
    ensures { Does S.Store (Writes row.now ids.now supplies.now) work.old work.new result }
{
    put_identified(alloc, work, row, ids)?;
    put_supplies(alloc, work, row, supplies)
}

/// Removes all rows of a record. A fault is one of the store.
pub fn remove_record<S: Alter>(work: &mut Work<'_, S>, row: &RecordRow) -> Result<(), StoreFault>
    ensures { Does S.Store (Removes row.now) work.old work.new result }
{
    work.delete_record(&row.series, row.reference.as_str())
}

/// Puts these supplies in the place of all supplies of a record. `Unusable` where the record is not
/// there; otherwise a fault is one of the store, or out of memory.
pub fn replace_supplies<S: Alter>(
    alloc: Global,
    work: &mut Work<'_, S>,
    row: &RecordRow,
    supplies: &[ProductSupply],
) -> Result<(), StoreFault>
    ensures { Does S.Store (ReplacesSupplies row.now supplies.now) work.old work.new result }
{
    work.delete_offers(&row.series, row.reference.as_str())?;
    put_supplies(alloc, work, row, supplies)
}
