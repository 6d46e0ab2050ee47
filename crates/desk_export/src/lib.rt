//! A desk as the batch that makes it again.
//!
//! The definitions are in `specs/`: `Exports` has the requests of an export, `MessageRecords` the
//! records that a message is written as, `RequestRecords` and `RequestTexts` the records and the
//! text of requests, and `Exporting` what is asked and taken while a desk is exported. `laws` says
//! what an export comes to.
//!
//! `list_text` writes one, of any desk that lists what it stands for, to whatever takes its texts
//! (`taking`), and other lists too; `export` has that of a series, `request_text` and
//! `message_text` the text of a request.
#![tactic(auto)]

pub mod export;
pub mod laws;
pub mod list_text;
mod message_text;
pub mod request_text;
pub mod taking;
