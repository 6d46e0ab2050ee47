//! The desks in SQLite files that are opened by their names: `database` looks at a file, and
//! `databases` opens it, by its path (`paths`); `stored_desks` is the desks in them, `unopened` what
//! is left where none was opened, and `causes` what the files show of why.
#![tactic(auto)]

pub mod causes;
pub mod database;
pub mod databases;
pub mod paths;
pub mod stored_desks;
pub mod unopened;
