//! Records of comma-separated fields, as `csv` has them: all records of a text in one buffer, the
//! reading of a text, the text of records, and the reading and writing of whole streams.
//!
//! Contracts see a `RecordBuffer`, and each part borrowed from it, as the list of its records, each
//! of which is the list of its fields, each of which is the list of its bytes. So what is said of
//! records says nothing of how they lie in memory. `specs/RecordTexts.antt` says which records a
//! text has, and which text records have; `specs/Streams.antt` says what a stream told.
#![tactic(auto)]

pub mod buffer;
mod ends;
pub mod fields;
pub mod laws;
pub mod reading;
pub mod record;
pub mod records;
pub mod streams;
pub mod writing;
