//! The commands of the program that are put to a desk, each over any desk: `batch`, `deliver`,
//! `gaps` and `serve`, each connection of which is served in `connection`; `faults` has what can go
//! wrong with their requests. `sending` sends a batch to a desk that is open, and `checked_texts`
//! reads texts and asks no desk. `malformed` says behind the answers why requests were refused so,
//! and `unread` why a file is not read or a text has no records. `streams` has what a command reads
//! and writes.
#![tactic(auto)]

pub mod batch;
pub mod checked_texts;
pub mod connection;
pub mod deliver;
mod faults;
pub mod gaps;
mod malformed;
pub mod sending;
pub mod serve;
pub mod streams;
mod unread;
