//! The program run on its words: `program` reads the command line and does what it asks, over
//! databases, FILEs and open desks that it is given. `task` runs a command over a desk; `listing`
//! writes what the desk in a file holds, `migrating` brings it to the present version; `opening`
//! opens that file for a command, and `closing` closes it behind one. `help` has the texts of
//! clap.
#![tactic(auto)]

mod closing;
mod converting;
pub mod help;
pub mod listing;
pub mod machine;
mod migrating;
mod opening;
pub mod program;
mod task;
