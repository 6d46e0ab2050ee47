//! What to write in place of words that are refused.

const OPTIONS_BEFORE: &str =
    "onixdesk: the options --db, --existing, --rules and --batches stand before the command, and batch and export have no FILE behind it: onixdesk --db FILE batch < BATCH\n";

/// Where a command needs a database file.
pub const FILE_BEFORE: &str =
    "onixdesk: write the database file before the command, as in: onixdesk --db FILE COMMAND\n";

/// In place of --batches before a command that sends no batch.
pub const BATCH_TO_SOCKET: &str =
    "onixdesk: only a batch is sent to a socket, as in: onixdesk --batches SOCKET batch < FILE\n";

/// What to write beside what clap says of words that it refuses, as a line; empty where none of them
/// is an option that stands before the command.
pub(crate) fn hint(words: &[&str]) -> &'static str {
    for word in words {
        if word.starts_with("--db")
            || word.starts_with("--existing")
            || word.starts_with("--rules")
            || word.starts_with("--batches")
        {
            return OPTIONS_BEFORE;
        }
    }
    ""
}
