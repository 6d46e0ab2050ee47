//! Messages and contents: a message is read from its records, and contents are written as their
//! one text, read from it and compared. It stands on `onix_records` for what records say and which
//! of them are a message, and hands that on.
//!
//! `specs/Faults.antt` says why a message is not read. `articles` says which identifiers name an
//! article.
#![tactic(auto)]

pub mod articles;
pub mod contents;
pub mod message;

pub use csv_records::reading::read_records;
pub use csv_records::record::Record;
pub use onix_records::{
    Agreement, Effect, StoreFault, agreements, detail, effects, faults, fields, laws, opening,
    parts, price, product, row, supply, term,
};
