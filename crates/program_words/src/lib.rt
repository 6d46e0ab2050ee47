//! The command line of `onixdesk`: `invocation` reads its arguments by the `commands` of clap, and
//! `convert_words` those of `convert`, from the `words` that clap found; `hints` says what to
//! write. What a command does is in `program_commands` and `program_run`.
#![tactic(auto)]

mod arguments;
pub mod commands;
pub mod convert_words;
pub mod hints;
pub mod invocation;
