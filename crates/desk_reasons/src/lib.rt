//! Why a text that a desk is given has no request, in words.
//!
//! `explaining` makes a line for each request that is malformed, while its records are in hand:
//! `refused` asks the desk which field of a record it refuses first, `rows` has the fields of each
//! record by their names, `fields` what each has to be, `causes` the words, and `lines` the line of
//! the text on which each record begins. `questions` does the same for a question over HTTP.
//!
//! What is written decides no answer.
#![tactic(auto)]

mod causes;
pub mod explaining;
mod fields;
mod lines;
mod questions;
pub mod refused;
mod rows;
