//! Those to whom a desk is open: `clients` come one after the other, at a `port` of 127.0.0.1 or at
//! `doors`, a port and a socket of the file system, over connections that are limited in time
//! (`timed`); `entrances` opens these. On the other side `open_desks` are reached at one of the
//! `sockets`. `fault` has the lines that say what went wrong, and `printing` those of numbers and
//! texts that are written at once.
#![tactic(auto)]

pub mod clients;
pub mod doors;
pub mod entrances;
pub mod fault;
pub mod open_desks;
pub mod port;
pub mod printing;
pub mod sockets;
pub mod timed;
