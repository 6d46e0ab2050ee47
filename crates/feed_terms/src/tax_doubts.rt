//! Which terms a shop should look at again, since their types of prices do not fit their tax.
//! Words for a person: no price depends on them.

use crate::term::{Rate, Term};
use onix_terms::code::Code2;

/// Why the types of a term do not fit its tax.
#[derive(Clone, Copy, Debug, PartialEq, Eq)]
pub enum TaxDoubt {
    /// It takes no tax out, and its types and that of its net prices are of prices with tax and of
    /// prices without.
    Mixed,
    /// It takes a tax out, and one of its types is of prices without tax, or its net prices are with
    /// tax.
    NoTaxToTake,
}

// Whether a price of this type includes tax.
fn includes_tax(price_type: Code2) -> bool {
    let text = price_type.as_str();
    text == "02"
        || text == "04"
        || text == "07"
        || text == "09"
        || text == "12"
        || text == "14"
        || text == "17"
        || text == "22"
        || text == "24"
        || text == "27"
        || text == "34"
        || text == "42"
}

fn all_include(types: &[Code2]) -> bool {
    types.iter().all(|price_type| includes_tax(*price_type))
}

fn all_exclude(types: &[Code2]) -> bool {
    types.iter().all(|price_type| !includes_tax(*price_type))
}

// Whether the types of a term and that of its net prices are all of prices with tax, or all of
// others.
fn are_of_one_kind(term: &Term) -> bool {
    if includes_tax(term.net) {
        all_include(term.types.as_slice())
    } else {
        all_exclude(term.types.as_slice())
    }
}

fn doubt_without(term: &Term) -> Option<TaxDoubt> {
    if are_of_one_kind(term) {
        None
    } else {
        Some(TaxDoubt::Mixed)
    }
}

fn doubt_with(term: &Term) -> Option<TaxDoubt> {
    if all_include(term.types.as_slice()) && !includes_tax(term.net) {
        None
    } else {
        Some(TaxDoubt::NoTaxToTake)
    }
}

/// Why a term is to be looked at again, where it is.
pub fn doubt_of(term: &Term) -> Option<TaxDoubt> {
    match term.tax {
        None => doubt_without(term),
        Some(Rate::Feed) => doubt_with(term),
        Some(Rate::Fixed(percent)) => {
            if percent.hundredths() == 0 {
                None
            } else {
                doubt_with(term)
            }
        }
    }
}
