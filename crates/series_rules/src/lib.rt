//! The desk: series of numbered messages, and the answer to each request after all those before it.
//! A list of requests has its latest request first.
//!
//! The definitions are in `specs/`: `Agreements` (which agreements stand), `Firsts` (what stands
//! at each number), `Series` (a series up to its first gap), `Gaps` (the report on a series),
//! `Offers` and `PriceAnswers` (what is answered about an article), `Answers` (the answer to each
//! request), `Steps` (requests asked one after the other), `Content` (what two lists of requests have
//! in common) and `Listing` (what a desk lists of what it stands for); `laws` says what they come to.
//! Code meets them through the trait `desk::Desk`; this crate has no desk of its own. `gaps` makes
//! the report on a series, for any desk; `listing` has the desks that list their agreements and what
//! stands at each number. What a desk's proof needs of the definitions is in `proofs/`:
//! `AgreementLemmas`, `FirstLemmas`, `FrontLemmas`, `GapLemmas` and `OfferLemmas`.
#![tactic(auto)]

pub mod answering;
pub mod answers;
pub mod delivery;
pub mod desk;
pub mod gaps;
pub mod laws;
pub mod listing;
mod price_answers;
pub mod requests;
