//! The catalogue of a series: its records by their references, what a message does to them, and the
//! offers that they make of an article. A message is planned before anything is changed, so that
//! the catalogue stays as it was if memory runs out. Each record has at most 20,000
//! SupplyDetails. An index tells which records may be of an article, so that not all have to be
//! looked at.
//!
//! The definitions are in `specs/Records.antt` (a catalogue as a finite map), `specs/Effects.antt`
//! (the effect of a message), `specs/Plans.antt` (what a plan promises), `specs/Offers.antt`
//! (the offers of an article) and `specs/ArticleIndex.antt` (which records an index lists).
#![tactic(auto)]

pub mod article_index;
pub mod catalogue;
pub mod change;
pub mod entry;
mod entry_changes;
mod listing;
mod offers;
mod plan;
