//! What the bytes of a CDATA section stand for.

ghost use Rattle.std.specs.Prelude.{◌≡◌, ◌++◌, OnOk};
ghost use Rattle.feed_xml.specs.Sections.{bracket_text, ends_section, held_text, section_text};

use std::alloc::AllocError;

/// Whether a byte ends a section, by the number of closing brackets before it.
pub(crate) fn ends_section(count: u8, byte: u8) -> bool
    ensures { result ≡ ends_section count byte }
{
    count == 2 && byte == b'>'
}

/// What a closing bracket of a section stands for, by the number of them before it. Two may be the
/// beginning of its end: a third one tells that the first is text.
pub fn bracket_text(count: u8) -> &'static [u8]
    ensures { result.now ≡ bracket_text count }
{
    if count == 2 {
        b"]".as_slice()
    } else {
        b"".as_slice()
    }
}

// Closing brackets that may be the beginning of the end of a section, two at most.
fn held_text(count: u8) -> &'static [u8]
    ensures { result.now ≡ held_text count }
{
    if count == 0 {
        b"".as_slice()
    } else if count == 1 {
        b"]".as_slice()
    } else {
        b"]]".as_slice()
    }
}

/// Adds what any other byte of a section stands for: the closing brackets before it, as many as the
/// count says, which are no beginning of the end, and itself, unless it ends the section.
pub fn push_section_byte(out: &mut Vec<u8>, count: u8, byte: u8) -> Result<(), AllocError>
    ensures { OnOk result (out.new.items ≡ out.old.items ++ section_text count byte) }
{
    if ends_section(count, byte) {
        return Ok(());
    }
    out.extend_from_slice(held_text(count))?;
    out.push(byte)?;
    Ok(())
}
