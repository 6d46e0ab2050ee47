//! What a command leaves of the files of a desk.

/// What a command leaves of the files of a desk, whatever it ended in. What opens files is used up
/// by that. A function over any `KeepsDesks` can make neither that nor any of the others: it has
/// them only of the calls of the trait.
#[derive(Drop)]
pub enum FilesLeft<K, N, U, C> {
    /// No file was touched: what opens them, as it was given.
    Untouched(K),
    /// The desk could not be opened, or not brought to the present version: what is left.
    Unopened(N),
    /// The desk was opened, and its files could not be closed: what is left.
    Unclosed(U),
    /// They were closed: the desk is in them.
    Closed(C),
}
