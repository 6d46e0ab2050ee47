//! The conversion of ONIX messages in files: FILEs are read in turn, the records of each are
//! written to standard output or into files of a folder, and lines on standard error say what is
//! left out or refused.
#![tactic(auto)]

mod collected;
mod converting;
mod counts;
mod doublets;
pub mod ended;
mod fault;
mod notes;
mod reasons;
mod refusal;
mod shown;
mod store;
mod summary;
mod watched;

pub use converting::{Run, convert_files};
pub use ended::Ended;
pub use fault::write_fault;
pub use watched::Showing;
