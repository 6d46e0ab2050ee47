//! Prices of a feed, as the terms see them.

ghost use Rattle.std.specs.Prelude.{◌≡◌, IfOk};
ghost use Rattle.feed_terms.specs.Prices.{code_said, copies_of, discount_of, percent_said};

use crate::percent::{Percent, are_zeros};
use onix_records::parts::Price;
use onix_terms::code::{Code2, Currency};
use onix_terms::items::Items;
use onix_terms::quantity::Quantity;
use onix_terms::text::Text;
use std::alloc::{AllocError, Global};

/// A Discount that says a percent, of 100 at most, from a number of copies on.
#[derive(Clone, Copy, Debug)]
pub struct Discount {
    pub percent: Percent,
    pub quantity: Quantity,
}

/// What a DiscountCoded says: its code, as a term has it, and the name of the scheme that the code
/// is of, empty where it has none.
#[derive(Drop)]
pub struct SaidCode {
    pub code: Text,
    pub scheme: Text,
}

/// A Price of a feed that gives a record: what the record says, and what a term asks besides.
#[derive(Drop)]
pub struct GivenPrice {
    pub price: Price,
    /// The three fields of its territory, as they are written, with commas between.
    pub area: Text,
    /// The codes of its DiscountCodeds.
    pub codes: Items<SaidCode>,
    /// Its Discounts that say a percent, in their order.
    pub discounts: Items<Discount>,
    /// The rate of its Tax, where it has just one, and that says a percent.
    pub tax: Option<Percent>,
    /// Whether an element that a term goes by is not where it counts, or comes again.
    pub garbled: bool,
}

/// The type and the currency of a Price that gives no record, each where it says one.
#[derive(Clone, Copy, Debug)]
pub struct Kind {
    pub price_type: Option<Code2>,
    pub currency: Option<Currency>,
}

/// What a DiscountCoded says, by its type, the name of that and its code, if the type is two digits.
pub fn code_said(
    alloc: Global,
    code_type: &str,
    scheme: &str,
    code: &str,
) -> Result<Option<SaidCode>, AllocError>
    ensures { IfOk result (λ said. said ≡ code_said code_type.now scheme.now code.now) }
{
    let Some(digits) = Code2::read(code_type) else {
        return Ok(None);
    };
    let mut said = Text::from_str(alloc, digits.as_str())?;
    said.push_str(",")?;
    said.push_str(code)?;
    Ok(Some(SaidCode {
        code: said,
        scheme: Text::from_str(alloc, scheme)?,
    }))
}

// From how many copies on a Discount holds.
fn copies_of(quantity: &str) -> Option<Quantity>
    ensures { result ≡ copies_of quantity.now }
{
    if are_zeros(quantity.as_bytes()) {
        return Quantity::from_value(1);
    }
    Quantity::read(quantity)
}

// The discount that a DiscountPercent says.
fn percent_said(percent: &str) -> Option<Percent>
    ensures { result ≡ percent_said percent.now }
{
    let said = Percent::read_of_feed(percent)?;
    if said.hundredths() > 10_000 {
        return None;
    }
    Some(said)
}

impl Discount {
    /// The discount that a Discount says, by its DiscountType, its Quantity and its
    /// DiscountPercent, each empty where it is absent.
    pub fn read(discount_type: &str, quantity: &str, percent: &str) -> Option<Discount>
        ensures { result ≡ discount_of discount_type.now quantity.now percent.now }
    {
        if !(discount_type.is_empty() || discount_type == "01") {
            return None;
        }
        Some(Discount {
            quantity: copies_of(quantity)?,
            percent: percent_said(percent)?,
        })
    }
}
