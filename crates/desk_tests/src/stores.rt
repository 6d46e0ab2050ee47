//! Tests of the desks, and of files with the desk in tables: the lists of requests where memory may be
//! refused, and what stands after a stop. `tests/run` has what the program shows.

mod desks;
mod paths;
mod stops;
