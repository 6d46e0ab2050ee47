//! Texts of a feed, as one line of a terminal shows them.

ghost use Rattle.std.specs.Prelude.{◌≡◌, ◌++◌, OnOk, string_bytes};
ghost use Rattle.feed_files.specs.Lines.{filled, front_of, value_text};

use std::alloc::AllocError;
use watched_output::shown_texts::push_shown;

/// How many characters of a text are shown.
pub(crate) const SHOWN: usize = 100;

// How many bytes of a text are looked at: those of more characters, of four bytes at most.
const READ: usize = 404;

// So many bytes of a text at most.
fn front_of(text: &[u8], most: usize) -> &[u8]
    ensures { result.now ≡ front_of most text.entry.now }
{
    if text.len() > most {
        &text[..most]
    } else {
        text
    }
}

/// Adds what stands in a feed, or that nothing stands there.
pub(crate) fn push_value(line: &mut String, value: &[u8]) -> Result<(), AllocError>
    ensures { OnOk result (string_bytes line.new ≡ string_bytes line.old ++ value_text value.now) }
{
    if value.is_empty() {
        return line.push_str("missing");
    }
    let text = String::from_utf8_lossy(*line.allocator(), front_of(value, READ))?;
    push_shown(line, text.as_str(), SHOWN)
}

/// Adds words, with what the feed has in the place of their star.
pub(crate) fn push_words(line: &mut String, words: &str, value: &[u8]) -> Result<(), AllocError>
    ensures { OnOk result
        (string_bytes line.new ≡ string_bytes line.old ++ filled words.now value.now) }
{
    match words.split_once('*') {
        Some((before, behind)) => {
            line.push_str(before)?;
            push_value(line, value)?;
            line.push_str(behind)
        }
        None => line.push_str(words),
    }
}
