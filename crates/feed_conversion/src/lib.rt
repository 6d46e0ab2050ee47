//! The messages of a feed: an ONIX message in XML, as one or more messages that the desk takes.
#![tactic(auto)]

pub mod conversion;
pub mod converter;
pub mod laws;
pub mod messages;
pub mod options;
pub mod packing;
pub mod refusal;
pub mod tally;
pub mod target;
pub mod words;

pub use conversion::{Outcome, convert};
pub use options::{Allowed, Options};
pub use refusal::{Fault, Refusal};
pub use tally::{Counted, Tally, WrongProduct};
pub use target::Target;
