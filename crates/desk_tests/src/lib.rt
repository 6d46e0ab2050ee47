//! Tests of the libraries, each by public calls alone, in a crate of their own: a library with tests is proved
//! once more with them, and each crate of tests is linked once more with all that it stands on.
#![tactic(auto)]

#[cfg(test)]
mod asking;
#[cfg(test)]
mod cases;
#[cfg(test)]
mod catalogues;
#[cfg(test)]
mod desks;
#[cfg(test)]
mod disks;
#[cfg(test)]
mod files;
#[cfg(test)]
mod lists;
#[cfg(test)]
mod refusals;
#[cfg(test)]
mod row_counts;
#[cfg(test)]
mod stores;
#[cfg(test)]
mod streams;
#[cfg(test)]
mod table_calls;
