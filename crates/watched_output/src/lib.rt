//! An output that passes on what is written to it: `output` shows on a terminal how much that is, by
//! the line of `progress`, and says why it took no more; `shown_texts` has texts of others, as one
//! line of a terminal shows them.
#![tactic(auto)]

pub mod output;
pub mod progress;
pub mod shown_texts;
