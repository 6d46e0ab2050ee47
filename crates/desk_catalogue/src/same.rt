//! Whether two lists of rows are the same.

ghost use Rattle.std.specs.Prelude.{◌≡◌, ◌↔◌, IsTrue, map};
ghost use Rattle.desk_catalogue.specs.EntryRows.{supplied_details};

use desk_tables::articles::ArticleRow;
use desk_tables::offers::OfferRow;
use onix_message::parts::{Price, ProductSupply, SupplyDetail};
use onix_terms::items::Items;
use onix_terms::plain::Plain;

fn is_same_article(a: &ArticleRow, b: &ArticleRow) -> bool
    ensures { IsTrue result ↔ (a.now ≡ b.now) }
{
    a.series.is_equal(&b.series)
        && a.reference.is_equal(&b.reference)
        && a.id_place == b.id_place
        && a.id_type.is_equal(&b.id_type)
        && a.id_value.is_equal(&b.id_value)
}

fn is_same_offer(a: &OfferRow, b: &OfferRow) -> bool
    ensures { IsTrue result ↔ (a.now ≡ b.now) }
{
    a.series.is_equal(&b.series)
        && a.reference.is_equal(&b.reference)
        && a.place == b.place
        && a.supply == b.supply
        && a.market.is_equal(&b.market)
        && a.supplier.is_equal(&b.supplier)
        && a.availability.is_equal(&b.availability)
        && a.unpriced.is_equal(&b.unpriced)
}

/// Whether two lists of identifiers have the same rows in the same order.
pub fn same_articles(a: &[ArticleRow], b: &[ArticleRow]) -> bool
    ensures { IsTrue result ↔ (a.now ≡ b.now) }
{
    if a.len() != b.len() {
        return false;
    }
    for (i, x) in a.iter().enumerate() {
        if !is_same_article(x, &b[i]) {
            return false;
        }
    }
    true
}

/// Whether two lists of offers have the same rows in the same order.
pub fn same_offers(a: &[OfferRow], b: &[OfferRow]) -> bool
    ensures { IsTrue result ↔ (a.now ≡ b.now) }
{
    if a.len() != b.len() {
        return false;
    }
    for (i, x) in a.iter().enumerate() {
        if !is_same_offer(x, &b[i]) {
            return false;
        }
    }
    true
}

// Whether these are the prices of SupplyDetails, one list for each.
fn are_prices_of(read: &[Items<Price>], details: &[SupplyDetail]) -> bool
    ensures { IsTrue result ↔ (read.now ≡ map (λ d. d.prices) details.now) }
{
    if read.len() != details.len() {
        return false;
    }
    for (i, detail) in details.iter().enumerate() {
        if !detail.prices.is_equal(&read[i]) {
            return false;
        }
    }
    true
}

/// Whether these are the prices of the SupplyDetails of a record, one list for each, in order over
/// its supplies.
pub fn same_detail_prices(read: &[Items<Price>], supplies: &[ProductSupply]) -> bool
    ensures { IsTrue result ↔ (read.now
        ≡ map (λ d. d.detail.prices) (supplied_details supplies.now)) }
{
    let mut rest = read;
    for supply in supplies {
        let count = supply.details.len();
        if rest.len() < count {
            return false;
        }
        if !are_prices_of(&rest[..count], supply.details.as_slice()) {
            return false;
        }
        rest = &rest[count..];
    }
    rest.is_empty()
}
