//! The streams of a command.

ghost use Rattle.std.specs.Prelude.{◌≡◌, [], None};

use crate::malformed::MOST_LINES;
use crate::unread::WrongByte;
use desk_reasons::explaining::Room;
use std::time::Instant;

/// Standard error: where faults are reported, and behind the answers why requests were refused, as
/// far as there is room.
#[derive(Drop)]
pub struct Errors<E> {
    pub writer: E,
    /// Whether it is a terminal, on which a line may show how far a command is.
    pub is_terminal: bool,
    /// The room for lines on requests that are malformed.
    pub room: Room,
    /// When a command that serves made that room, where the clock said so.
    pub(crate) since: Option<Instant>,
    /// What is written behind other refusals, where it is not empty.
    pub hint: &'static str,
    /// What of the last text that was no batch and no message is not UTF-8.
    pub(crate) wrong: Option<WrongByte>,
}

impl<E> Errors<E> {
    /// Standard error to which nothing was written yet, with no hint.
    pub fn new(writer: E, is_terminal: bool) -> Errors<E>
        ensures writer { (result.writer ≡ writer) × (result.is_terminal ≡ is_terminal) }
        ensures nothing { (result.room ≡ record { most = 100; malformed = 0 })
            × (result.since ≡ None) × (result.hint.now ≡ []) × (result.wrong ≡ None) }
    {
        Errors {
            writer,
            is_terminal,
            room: Room::new(MOST_LINES),
            since: None,
            hint: "",
            wrong: None,
        }
    }
}

/// The streams of a command.
#[derive(Drop)]
pub struct Streams<R, W, E> {
    pub input: R,
    pub output: W,
    pub errors: Errors<E>,
}
