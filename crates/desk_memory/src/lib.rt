//! The desk in memory: it keeps what stands at each number of each series, and the fold of each
//! series as far as it was needed, so that each message is applied once. The first question about
//! a price lists the articles, and a later one those of the messages since then.
//!
//! What it promises is the trait `Desk` of `series_rules`, which says for which lists of requests
//! it stands by `specs/Stands.antt`. `specs/KeptSeries.antt` is a series as contracts see it, and
//! `specs/Folded.antt` what the fold of its first numbers is, and `specs/Listed.antt` which
//! articles are listed.
#![tactic(auto)]

mod articles;
pub mod desk;
mod fold;
mod gaps;
mod series;

pub use desk::MemoryDesk;
