//! Runs of the desk in a SQLite file with stops between its calls and inside them, as laws without
//! code.
//!
//! `specs/Runs` says what may happen, and which lists of events are runs; `Effective` which lists of
//! requests what is there then may stand for: of any kind of desk. `Connections` has the databases of
//! the desk in a SQLite file. `laws` has what runs come to, and `clauses` makes each call a step, and
//! each opening and closing of files an event of a run, by the clauses of its methods (`Clauses`,
//! `Files`).
#![tactic(auto)]

pub mod clauses;
pub mod laws;
