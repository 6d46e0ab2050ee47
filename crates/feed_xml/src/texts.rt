//! The characters of a text, byte by byte.

ghost use Rattle.std.specs.Prelude.{◌≡◌, ◌≤◌, Some, None, IfOk, IfErr, IfSome, OnErr, length, if◌then◌else◌};
ghost use Rattle.feed_xml.specs.Texts.{next_part, follow, is_start, IsSmall};

use crate::characters::is_char;

/// Where the next byte stands: at the first one of a character, or behind some of its bytes, with
/// what these come to. With two bytes and more stands the least code point of a character of that
/// length.
#[derive(Clone, Copy)]
pub(crate) enum Part {
    Whole,
    One(u32, u32),
    Two(u32, u32),
    Three(u32),
}

// The part behind the first byte of a character.
fn begin(b: u8) -> Option<Part>
    ensures gives { result ≡ next_part Part.Whole b }
    ensures small { IfSome result IsSmall }
{
    if b < 128 {
        if b >= 32 || is_char(u32::from(b)) {
            Some(Part::Whole)
        } else {
            None
        }
    } else if b < 192 {
        None
    } else if b < 224 {
        Some(Part::One(u32::from(b - 192), 128))
    } else if b < 240 {
        Some(Part::Two(u32::from(b - 224), 2048))
    } else if b < 248 {
        Some(Part::Three(u32::from(b - 240)))
    } else {
        None
    }
}

// The part behind the next byte, where that is one of a text.
fn next_part(part: Part, b: u8) -> Option<Part>
    requires { IsSmall part }
    ensures gives { result ≡ next_part part b }
    ensures small { IfSome result IsSmall }
{
    if let Part::Whole = part {
        return begin(b);
    }
    if b < 128 || b >= 192 {
        return None;
    }
    let bits = u32::from(b - 128);
    match part {
        Part::Whole => None,
        Part::One(value, least) => {
            let code = value * 64 + bits;
            if code >= least && is_char(code) {
                Some(Part::Whole)
            } else {
                None
            }
        }
        Part::Two(value, least) => Some(Part::One(value * 64 + bits, least)),
        Part::Three(value) => Some(Part::Two(value * 64 + bits, 65536)),
    }
}

// This place where a character begins at it, else the other one.
#[inline(always)]
fn last_start(part: Part, at: usize, other: usize) -> usize
    ensures { result ≡ (if is_start part then at else other) }
{
    if is_start(part) { at } else { other }
}

// The bytes behind the characters of one byte at the front.
#[inline(always)]
fn behind_ascii(bytes: &[u8]) -> &[u8]
    ensures same { follow Part.Whole result.now ≡ follow Part.Whole bytes.now }
    ensures shorter { length result.now ≤ length bytes.now }
{
    let mut rest = bytes;
    while let [b, tail @ ..] = rest {
        match begin(*b) {
            Some(Part::Whole) => rest = tail,
            _ => return rest,
        }
    }
    rest
}

// The same, where a character begins there.
#[inline(always)]
fn skip_ascii(part: Part, bytes: &[u8]) -> &[u8]
    ensures same { follow part result.now ≡ follow part bytes.now }
    ensures shorter { length result.now ≤ length bytes.now }
{
    match part {
        Part::Whole => behind_ascii(bytes),
        _ => bytes,
    }
}

/// The part behind these bytes, where they are of a text; else how many come before the character
/// that is none.
pub(crate) fn follow(part: Part, bytes: &[u8]) -> Result<Part, usize>
    requires { IsSmall part }
    ensures gives { IfOk result (λ next. follow part bytes.now ≡ Some next) }
    ensures small { IfOk result IsSmall }
    ensures none { OnErr result (follow part bytes.now ≡ None) }
    ensures within { IfErr result (λ whole. whole ≤ length bytes.now) }
{
    let mut part = part;
    let mut rest = skip_ascii(part, bytes);
    let mut whole = 0;
    while let [b, tail @ ..] = rest {
        whole = last_start(part, bytes.len() - rest.len(), whole);
        let Some(next) = next_part(part, *b) else {
            return Err(whole);
        };
        part = next;
        rest = skip_ascii(part, tail);
    }
    Ok(part)
}

/// Whether a character begins here.
pub(crate) fn is_start(part: Part) -> bool
    ensures { result ≡ is_start part }
{
    match part {
        Part::Whole => true,
        _ => false,
    }
}
