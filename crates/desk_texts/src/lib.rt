//! The records of requests, and those of answers.
//!
//! `request_rows` reads the requests of a text, which `pieces` cuts; `answer_text` writes the
//! answer to one, with `catalogue_text`, `gap_text` and `price_text`, whose records `text_rows`
//! fills. `observing` has who observes both.
//!
//! The definitions are in `specs/`: `Pieces` cuts the records of a text, `RequestRows` says which
//! request each piece is, and `Requests` has all requests of a text; `AnswerText` has the text of
//! each answer, over `CatalogueText`, `GapText` and `PriceText`. What each request is answered is
//! defined in `series_rules`.
#![tactic(auto)]

pub mod answer_text;
mod catalogue_text;
mod gap_text;
pub mod observing;
pub mod pieces;
mod price_text;
pub mod request_rows;
mod text_rows;
