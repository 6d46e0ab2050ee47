//! What the program is given of the machine.

pub use program_commands::streams::{Errors, Streams};

/// What the program is given of the machine beside what opens files of desks: the desks that are
/// open, where a desk that serves is reached, FILEs by their names, and its streams.
#[derive(Drop)]
pub struct Machine<O, N, F, R, W, E> {
    pub desks: O,
    pub entrances: N,
    pub files: F,
    pub streams: Streams<R, W, E>,
}
