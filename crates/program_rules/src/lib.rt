//! The precedence table in a file: `rules` reads it, and `checking` before a desk begins with it. And
//! the table of the shop's terms: `terms` reads it, and `terms_checking` before feeds are converted
//! with it. `faults` tells what is wrong with both, by the `keys` that they have, and `unread` reads
//! the text of a file.
#![tactic(auto)]

pub mod checking;
mod faults;
mod keys;
pub mod rules;
pub mod terms;
pub mod terms_checking;
mod unread;
