//! The offers that the records of a catalogue make of an article.

ghost use Rattle.std.specs.Prelude.{◌≡◌, ◌+◌, ◌<◌, ◌^◌, IfOk, OnOk, fold, length};
ghost use Rattle.onix_records.specs.DetailCount.{detail_count};
ghost use Rattle.catalogue_rules.specs.Records.{HasFewDetails};
ghost use Rattle.catalogue_rules.specs.Offers.{entry_offers, has_article, is_article, offer_of, offers_from, record_offers, supply_details};

use crate::entry::Entry;
use onix_message::articles::is_article_type;
use onix_message::parts::{ProductIdentifier, ProductSupply, SupplyDetail};
use onix_terms::isbn13::Isbn13;
use onix_terms::plain::Plain;
use onix_terms::series_name::SeriesName;
use onix_terms::territory::Territory;
use onix_terms::text::Text;
use price_rules::collector::OfferCollector;
use price_rules::offer::Offer;
use std::alloc::{AllocError, Global};

// Whether an identifier names the article.
fn is_article(id: &ProductIdentifier, isbn: &Isbn13) -> bool
    ensures { result ≡ is_article isbn.now id.now }
{
    is_article_type(&id.id_type) && id.id_value.as_str() == isbn.as_str()
}

// Whether a record has an identifier that names the article.
fn has_article(entry: &Entry, isbn: &Isbn13) -> bool
    ensures { result ≡ has_article isbn.now entry.now }
{
    for id in entry.ids.as_slice() {
        if is_article(id, isbn) {
            return true;
        }
    }
    false
}

// A copy of a market and one of a SupplyDetail.
fn copies(
    market: &Territory,
    detail: &SupplyDetail,
) -> Result<(Territory, SupplyDetail), AllocError>
    ensures market { IfOk result (λ both. both.0 ≡ market.now) }
    ensures detail { IfOk result (λ both. both.1 ≡ detail.now) }
{
    let market = market.duplicate()?;
    match detail.duplicate() {
        Ok(detail) => Ok((market, detail)),
        Err(fault) => {
            drop(market);
            Err(fault)
        }
    }
}

// The offer that a SupplyDetail makes at a place, by copies of its parts.
fn offer(
    alloc: Global,
    series: &SeriesName,
    reference: &str,
    place: u32,
    market: &Territory,
    detail: &SupplyDetail,
) -> Result<Offer, AllocError>
    ensures { IfOk result
        (λ o. o ≡ offer_of series.now reference.now (place, (market.now, detail.now))) }
{
    let (market, detail) = copies(market, detail)?;
    match Text::from_str(alloc, reference) {
        Ok(reference) => Ok(Offer {
            series: *series,
            reference,
            place,
            supplier: detail.supplier,
            availability: detail.availability,
            market,
            prices: detail.prices,
        }),
        Err(fault) => {
            drop(market);
            drop(detail);
            Err(fault)
        }
    }
}

// Collects the offers of a supply, where so many SupplyDetails of the record come before it. Gives
// how many come before the next supply.
fn collect_supply<C: OfferCollector>(
    alloc: Global,
    collector: &mut C,
    series: &SeriesName,
    reference: &str,
    before: u32,
    supply: &ProductSupply,
) -> Result<u32, AllocError>
    requires { before + length supply.now.details < 2 ^ 32 }
    ensures offers { OnOk result
        (collector.new
        ≡ fold C.collected collector.old
        (offers_from series.now reference.now (before + 1) (supply_details supply.now))) }
    ensures count { IfOk result (λ n. n ≡ before + length supply.now.details) }
{
    let mut place = before;
    for detail in supply.details.as_slice() {
        place += 1;
        collector.collect(offer(alloc, series, reference, place, &supply.market, detail)?)?;
    }
    Ok(place)
}

// Collects the offers of a record, in order of their places.
fn collect_entry<C: OfferCollector>(
    alloc: Global,
    collector: &mut C,
    series: &SeriesName,
    reference: &str,
    entry: &Entry,
) -> Result<(), AllocError>
    requires { HasFewDetails entry.now }
    ensures { OnOk result
        (collector.new
        ≡ fold C.collected collector.old (entry_offers series.now reference.now entry.now)) }
{
    let mut count = 0;
    for supply in entry.supplies.as_slice() {
        count = collect_supply(alloc, collector, series, reference, count, supply)?;
    }
    Ok(())
}

/// Collects the offers that a record has of the article.
pub(crate) fn collect_record<C: OfferCollector>(
    alloc: Global,
    collector: &mut C,
    series: &SeriesName,
    isbn: &Isbn13,
    reference: &str,
    entry: &Entry,
) -> Result<(), AllocError>
    requires { HasFewDetails entry.now }
    ensures { OnOk result
        (collector.new
        ≡ fold C.collected collector.old
        (record_offers series.now isbn.now (reference.now, entry.now))) }
{
    if has_article(entry, isbn) {
        collect_entry(alloc, collector, series, reference, entry)?;
    }
    Ok(())
}
