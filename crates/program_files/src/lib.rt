//! Files by their names: what opens them, and what makes those of the parts of a message, all of
//! them or none.
//!
//! A program works over any `NamedFiles`, so that contracts can speak of what names hold.
//! `HostFiles` are those of the machine, of which no clause can say what they hold.
#![tactic(auto)]

mod fault;
mod files;
mod hidden;
mod host;
mod host_calls;
mod names;
mod part_files;
mod placing;
mod spool;
mod targets;

pub use fault::FileFault;
pub use files::NamedFiles;
pub use hidden::Hidden;
pub use host::{HiddenFile, HostFiles};
pub use names::{STANDARD_INPUT, is_packed, name_of};
pub use part_files::{MadeFiles, PartFiles};
pub use spool::Spool;
pub use targets::Target;
