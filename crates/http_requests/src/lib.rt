//! A request of HTTP/1.1, read from a stream: its head, of at most 16,384 bytes, and the records of
//! its body, or why it is refused.
//!
//! The definitions are in `specs/`: `Head` says which head the bytes begin with, or why there is
//! none, `HeadRead` what is known of a head that was read, `Fields` what its fields say, and
//! `Posted` what the body of a POST delivers. `refusal` lists all that a request may be refused
//! for, also for its path or its query, which `desk_http` looks at.
#![tactic(auto)]

pub mod body;
mod buffer_filling;
pub mod fault;
mod fields;
pub mod head;
pub mod parts;
pub mod refusal;
mod scan;
