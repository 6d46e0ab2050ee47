//! The version of a desk's tables: what is found where files are opened, tables made where there are
//! none, and tables of version 1 brought to version 2.
//!
//! `specs/Openings` says what comes of opening files, `Migrations` of bringing them to version 2, and
//! `FirstForm` which tables lists of messages of form 1 come to. `opening` finds the version and makes
//! the tables, `version_two` brings them to version 2, and `laws` has what these definitions come to.
#![tactic(auto)]

pub mod laws;
pub mod opening;
pub mod version_two;
