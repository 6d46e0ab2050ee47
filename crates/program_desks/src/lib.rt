//! Desks in files, as the program knows them: `kept_desks` has what opens the desk in the files of
//! a name, closes it, and brings it to the present version; `files_left` what that leaves of them.
#![tactic(auto)]

pub mod files_left;
pub mod kept_desks;
