//! Terms of the desk: texts and lists that contracts see as plain data, and the values that
//! the fields of a message may hold, each read from its text and from no other.
//!
//! Which text writes which value is defined in `specs/`, one file for each kind, as a function from
//! bytes to an `Option`; `laws` has what these functions come to. Only clones, `Territory::read`,
//! the two calls `write` and the growing of lists and of texts of more than 24 bytes allocate.
//!
//! It stands on `jiff` for the calendar, `itoa` for decimal digits and `smallvec` for short texts.
#![tactic(auto)]

use std::alloc::AllocError;

/// Out of memory: an allocation was refused.
pub type Memory = AllocError;

/// Why `parse` gives no term: the text writes none of that kind.
#[derive(Clone, Copy, Debug, PartialEq, Eq)]
pub struct NotATerm;

pub mod amount;
pub mod ascii;
pub mod code;
pub mod countries;
pub mod day;
pub mod digits;
pub mod isbn13;
pub mod items;
pub mod laws;
pub mod number;
pub mod party;
pub mod plain;
pub mod positive;
pub mod quantity;
pub mod series_name;
pub mod territory;
pub mod text;
