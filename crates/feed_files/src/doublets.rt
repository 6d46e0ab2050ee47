//! Prices that stand behind another of their SupplyDetail, alike and for the same countries, with
//! another amount: the desk takes the least of them.

use csv_records::buffer::RecordBuffer;
use onix_records::parts::Price;
use onix_records::price::read_price;
use onix_records::row::Opening;
use onix_terms::countries::countries_text;
use onix_terms::territory::Territory;
use onix_terms::text::Text;
use std::alloc::{AllocError, Global};

// The countries of a territory, or those that it excludes of the world.
fn countries_of(alloc: Global, territory: &Territory) -> Result<Text, AllocError> {
    if territory.world {
        return countries_text(alloc, territory.excluded.as_slice());
    }
    let mut left = Vec::new(alloc);
    for country in territory.included.as_slice() {
        if territory.contains(*country) {
            left.push(*country)?;
        }
    }
    countries_text(alloc, left.as_slice())
}

// In what a Price behind the record of a SupplyDetail at a place is alike others.
fn key_of(alloc: Global, detail: usize, price: &Price) -> Result<String, AllocError> {
    let countries = countries_of(alloc, &price.territory)?;
    let (price_type, currency) = (price.price_type.as_str(), price.currency.as_str());
    let (copies, from, until) = (price.minimum.value(), price.from, price.until);
    let (is_world, countries) = (price.territory.world, countries.as_str());
    format!(in alloc;
        "{detail},{price_type},{currency},{copies},{from:?},{until:?},{is_world},{countries}"
    )
}

// Of Prices in order of what they are alike in, and of their places, how many stand behind one that
// is alike, with another amount.
fn count_sorted(prices: &[(String, usize, u64)]) -> u64 {
    let mut count = 0u64;
    let mut first: Option<(&str, u64)> = None;
    let mut is_several = false;
    for (key, _, amount) in prices.iter() {
        match first {
            Some((alike, other)) if alike == key.as_str() => {
                is_several = is_several || other != *amount;
                count = count.saturating_add(u64::from(is_several));
            }
            _ => {
                first = Some((key.as_str(), *amount));
                is_several = false;
            }
        }
    }
    count
}

/// How many Prices of these records of a Product, in a message that begins so, stand behind another
/// of their SupplyDetail, alike and for the same countries, with another amount.
pub(crate) fn count_doublets(
    alloc: Global,
    opening: &Opening,
    written: &RecordBuffer,
) -> Result<u64, AllocError> {
    // Two Prices stand behind three other records.
    if written.len() < 5 {
        return Ok(0);
    }
    let mut prices = Vec::new(alloc);
    let mut fields = Vec::new(alloc);
    let mut detail = 0;
    for index in 0..written.len() {
        written.record(index).fill(&mut fields)?;
        let Some((name, rest)) = fields.as_slice().split_first() else {
            continue;
        };
        if *name != "Price" {
            detail = index;
        } else if let Ok(price) = read_price(alloc, opening, rest) {
            let key = key_of(alloc, detail, &price)?;
            prices.push((key, index, price.amount.thousandths()))?;
        }
    }
    prices.sort()?;
    Ok(count_sorted(prices.as_slice()))
}
