//! Requests and questions over the rows of a desk's tables, inside one transaction each.
//!
//! It stands on `desk_tables` for the statements, on `desk_catalogue` for the catalogues and on
//! `series_rules` for the answers.
//!
//! What the tables hold for a list of requests: `specs/Texts` says what they keep of what stands at a
//! number; `Stands` what it is for the tables to be what a list of requests comes to; `Changes` what
//! the statements of a request come to; `Desks` what a desk in tables promises, and what a crash may
//! leave of it; `Seen` is the desk in the tables as the trait `Desk` sees one.
//!
//! The calls: `standings` turns a text that the tables keep into what stands; `applying` applies what
//! stands at a number and what is held from there on; `answers_at` answers what comes at a number of a
//! series; `decisions` does a request; `questions` asks, and `listing` lists what stands; `laws` has
//! what the texts come to.
#![tactic(auto)]

mod answers_at;
mod applying;
pub mod decisions;
pub mod laws;
pub mod listing;
pub mod questions;
pub mod standings;
