//! What a shop pays by its terms: a table of terms is read from a TOML text, and of the prices of a
//! feed the net prices are computed that the shop has agreed on with a wholesaler.
//!
//! It stands on `onix_records` for prices, on `price_rules` for the order of days, and reads the
//! table by `toml`. The definitions are in `specs/`: `TermsFile` says what terms a text has, `Fits`
//! which term fits a price, `Amounts` what is left of an amount, `Computed` which prices a term
//! computes, `HeldBack` which of them a given price holds back, and `WithTerms` the records of a
//! SupplyDetail; the module `laws` has what they come to.
#![tactic(auto)]

pub mod amounts;
mod barred;
pub mod computed;
pub mod fits;
pub mod held_back;
pub mod laws;
pub mod percent;
pub mod precedes;
pub mod price;
pub mod reading;
pub mod table;
pub mod tax_doubts;
pub mod term;
mod toml_terms;
pub mod with_terms;
