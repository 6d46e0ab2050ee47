//! Lines that say why requests were refused, behind their answers: what is malformed in them, and a
//! hint.

ghost use Rattle.std.specs.Prelude.{◌≡◌, ◌-◌};

use crate::streams::Errors;
use crate::unread::wrong_byte;
use desk_batch::BatchFault;
use desk_reasons::explaining::{Reasons, Room};
use std::io::Write;
use std::time::{Clock, Duration, Instant};

/// The most lines on requests that are malformed, of a run, or of an hour where it serves.
pub(crate) const MOST_LINES: u32 = 100;

// How many seconds an hour has.
const HOUR_SECONDS: u64 = 3600;

// Writes the hint as a line, where there is one.
fn tell_hint<E: Write>(errors: &mut Errors<E>)
    ensures { errors.new ≡ record errors.old { writer = errors.new.writer } }
{
    if !errors.hint.is_empty() {
        let _ = write!(errors.writer, "onixdesk: {}\n", errors.hint);
    }
}

/// Writes the lines on requests that are malformed, and gives how many are.
pub(crate) fn tell<E: Write>(reasons: Reasons<'_>, errors: &mut Errors<E>) -> u64
    ensures count { result ≡ errors.new.room.malformed - errors.old.room.malformed }
    ensures rest { errors.new
        ≡ record errors.old { writer = errors.new.writer; room = errors.new.room } }
{
    let before = errors.room.malformed();
    errors.room = reasons.write(&mut errors.writer);
    errors.room.malformed().saturating_sub(before)
}

/// Writes the lines on the requests of a batch that are malformed; and the hint where others were
/// refused. Of a text that has no requests it is kept what is not UTF-8.
pub(crate) fn tell_refusals<E: Write>(
    reasons: Reasons<'_>,
    text: &[u8],
    outcome: &Result<u64, BatchFault>,
    errors: &mut Errors<E>,
)
    ensures { errors.new ≡ record errors.old {
      writer = errors.new.writer;
      room = errors.new.room;
      wrong = errors.new.wrong;
    } }
{
    let malformed = tell(reasons, errors);
    match outcome {
        Ok(refused) if malformed < *refused => tell_hint(errors),
        Err(BatchFault::Records(_)) => errors.wrong = wrong_byte(text),
        _ => {}
    }
}

/// Writes how many lines were left out, where some were.
pub(crate) fn tell_untold<E: Write>(errors: &mut Errors<E>)
    ensures { errors.new ≡ record errors.old { writer = errors.new.writer } }
{
    let untold = errors.room.untold();
    if untold > 0 {
        let _ = write!(errors.writer, "onixdesk: {untold} more are malformed\n");
    }
}

/// Writes behind the answers how many lines were left out; and the hint, if so many texts were
/// refused and others than those that are no message were among them.
pub(crate) fn tell_end<E: Write>(refused: u64, errors: &mut Errors<E>)
    ensures { errors.new ≡ record errors.old { writer = errors.new.writer } }
{
    tell_untold(errors);
    if errors.room.malformed() < refused {
        tell_hint(errors);
    }
}

/// Makes room anew where a client came an hour after there was: then how many lines were left out is
/// written. It stays as it is where the clock does not say.
pub(crate) fn renew<C: Clock, E: Write>(clock: &C, errors: &mut Errors<E>)
    ensures { errors.new ≡ record errors.old {
      writer = errors.new.writer;
      room = errors.new.room;
      since = errors.new.since;
    } }
{
    if let Some(begun) = errors.since {
        match begun.elapsed(clock) {
            Ok(passed) if passed >= Duration::from_secs(HOUR_SECONDS) => {
                tell_untold(errors);
                errors.room = Room::new(MOST_LINES);
            }
            _ => return,
        }
    }
    errors.since = Instant::now(clock).ok();
}
