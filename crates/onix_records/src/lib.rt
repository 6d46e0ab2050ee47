//! The records of a message as CSV: what each says, read of its fields and written as such, and
//! which records are a message. It stands on `csv_records` for records and on `onix_terms` for the
//! values of fields.
//!
//! `parts` has what a message is made of. `specs/Row.antt` says what row a record is, and a file
//! for each thing (`Opening`, `Product`, `Supply`, `Detail`, `Price`) what its fields say and how
//! it is written. `specs/Grammar.antt` says which records are a message, over
//! `specs/PartRows.antt`, which rows contents have. `specs/Message.antt` computes the same, and
//! `laws` ties both. `specs/ContentsText.antt` has the text of contents. A message that is being
//! read is a `draft` (`specs/Draft.antt`), which each record joins by a `step`.
//!
//! What every desk shares is here too: `agreements` has what a shop and a wholesaler agreed,
//! `effects` what the products of a message did, and `faults` why a store could not answer.
#![tactic(auto)]

/// The most records that a message has, its first and its last among them.
pub const MOST_RECORDS: usize = 20_000;

pub mod agreements;
pub mod detail;
pub mod draft;
pub mod effects;
pub mod faults;
pub mod fields;
pub mod laws;
pub mod opening;
pub mod parts;
mod plain;
pub mod price;
pub mod product;
pub mod row;
pub mod step;
pub mod supply;
pub mod term;

pub use agreements::Agreement;
pub use effects::Effect;
pub use faults::StoreFault;
