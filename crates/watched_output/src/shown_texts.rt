//! Texts of others, as one line of a terminal shows them.

ghost use Rattle.std.specs.Prelude.{◌≡◌, ◌++◌, IfOk, OnOk, chars, string_bytes};
ghost use Rattle.watched_output.specs.Shown.{is_printable, shown, shown_char, shown_chars};

use std::alloc::{AllocError, Global};
use ucd_category::GeneralCategory;

// Whether a character stands on a line as it is, and neither moves nor changes what stands there.
fn is_printable(c: char) -> bool
    ensures { result ≡ is_printable c }
{
    match GeneralCategory::for_char(c) {
        GeneralCategory::Control
        | GeneralCategory::Format
        | GeneralCategory::Surrogate
        | GeneralCategory::PrivateUse
        | GeneralCategory::Unassigned
        | GeneralCategory::LineSeparator
        | GeneralCategory::ParagraphSeparator => false,
        GeneralCategory::SpaceSeparator => c == ' ',
        _ => true,
    }
}

// A character as it is shown.
fn shown_char(c: char) -> char
    ensures { result ≡ shown_char c }
{
    if is_printable(c) { c } else { '\u{fffd}' }
}

fn characters_of(alloc: Global, text: &str) -> Result<Vec<char>, AllocError>
    ensures { IfOk result (λ v. v.items ≡ chars text.now) }
{
    text.chars().collect(alloc)
}

// Adds characters as they are shown.
fn push_chars(line: &mut String, characters: &[char]) -> Result<(), AllocError>
    ensures { OnOk result
        (string_bytes line.new ≡ string_bytes line.old ++ shown_chars characters.now) }
{
    for c in characters {
        line.push(shown_char(*c))?;
    }
    Ok(())
}

/// Adds a text as it is shown: so many of its characters at most, and a sign in place of each that
/// moves or changes what stands on the line.
pub fn push_shown(line: &mut String, text: &str, most: usize) -> Result<(), AllocError>
    ensures { OnOk result
        (string_bytes line.new ≡ string_bytes line.old ++ shown most (chars text.now)) }
{
    let characters = characters_of(*line.allocator(), text)?;
    if characters.len() <= most {
        return push_chars(line, characters.as_slice());
    }
    push_chars(line, &characters.as_slice()[..most])?;
    line.push_str("..")
}
