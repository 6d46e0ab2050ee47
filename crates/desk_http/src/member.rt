//! The members of objects, before an object has them.

use onix_records::parts::ProductIdentifier;
use onix_terms::amount::Amount;
use onix_terms::code::{Code2, Country};
use onix_terms::day::Day;
use onix_terms::number::Number;
use onix_terms::party::Party;

/// A member of an object: its key, and the term under it, which it borrows. In JSON a text, an
/// amount, a day and a code are texts; a party and an identifier are arrays of a type and a value;
/// an optional term that is absent is null.
#[derive(Clone, Copy)]
pub(crate) enum Member<'a> {
    Text(&'a str, &'a str),
    Number(&'a str, u32),
    Count(&'a str, u64),
    Boolean(&'a str, bool),
    OptionalNumber(&'a str, &'a Option<Number>),
    Amount(&'a str, &'a Amount),
    OptionalAmount(&'a str, &'a Option<Amount>),
    Day(&'a str, &'a Day),
    OptionalDay(&'a str, &'a Option<Day>),
    OptionalCode(&'a str, &'a Option<Code2>),
    OptionalParty(&'a str, &'a Option<Party>),
    Countries(&'a str, &'a [Country]),
    Identifiers(&'a str, &'a [ProductIdentifier]),
}
