//! The rules of prices: which price of an offer is current, the calendar of an offer, and the
//! offer that the shop chooses by its precedence table.
//!
//! It stands on `onix_terms` for terms, on `onix_records` for prices and suppliers, and reads the
//! precedence table by `toml`. The definitions are in `specs/`: `Price`, `Calendar`, `Breaks` and
//! `Choice` say in words what the calls give, `Current`, `Spans` and `Chosen` compute it, and the
//! module `laws` says that both are the same.
#![tactic(auto)]

pub mod breaks;
pub mod calendar;
pub mod choice;
pub mod choice_so_far;
pub mod collector;
pub mod current;
pub mod day_by_day;
pub mod laws;
pub mod offer;
pub mod precedence;
mod toml_rules;
