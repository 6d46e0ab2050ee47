//! Encodings.

ghost use Rattle.std.specs.Prelude.{◌≡◌, ◌≤◌, ◌++◌, OnOk, IfOk, encode_utf8, length};
ghost use Rattle.std.specs.List.{flat_map};
ghost use Rattle.feed_xml.specs.Encodings.{windows_code, windows_codes, latin9_code, code_of, byte_text, decoded};

use crate::classes::{Kind, split_run};
use std::alloc::AllocError;

/// How the characters of a text are written as bytes.
#[derive(Clone, Copy, Debug, PartialEq, Eq)]
pub enum Encoding {
    /// UTF-8, without a byte order mark.
    Utf8,
    /// US-ASCII.
    Ascii,
    /// ISO-8859-1.
    Latin1,
    /// ISO-8859-15.
    Latin9,
    /// windows-1252.
    Windows1252,
}

static WINDOWS: [u32; 32] = [
    8364, 0, 8218, 402, 8222, 8230, 8224, 8225, 710, 8240, 352, 8249, 338, 0, 381, 0, 0, 8216,
    8217, 8220, 8221, 8226, 8211, 8212, 732, 8482, 353, 8250, 339, 0, 382, 376,
];

// The code points of the bytes 128 to 159 of windows-1252; 0 where it has none.
fn windows_codes() -> &'static [u32]
    ensures codes { result.now ≡ windows_codes }
    ensures count { length result.now ≡ 32 }
{
    &WINDOWS
}

// The code point of a byte of windows-1252 from 128 on.
fn windows_code(b: u8) -> u32
    requires { 128 ≤ b }
    ensures { result ≡ windows_code b }
{
    if b < 160 {
        let at = usize::from(b) - 128;
        windows_codes()[at]
    } else {
        u32::from(b)
    }
}

// The code point of a byte of ISO-8859-15.
fn latin9_code(b: u8) -> u32
    ensures { result ≡ latin9_code b }
{
    if b == 164 {
        8364
    } else if b == 166 {
        352
    } else if b == 168 {
        353
    } else if b == 180 {
        381
    } else if b == 184 {
        382
    } else if b == 188 {
        338
    } else if b == 189 {
        339
    } else if b == 190 {
        376
    } else {
        u32::from(b)
    }
}

// The code point of a byte.
fn code_of(encoding: Encoding, b: u8) -> u32
    ensures { result ≡ code_of encoding b }
{
    match encoding {
        Encoding::Ascii => { if b < 128 { u32::from(b) } else { 0 } }
        Encoding::Latin9 => {
            if b < 128 {
                u32::from(b)
            } else {
                latin9_code(b)
            }
        }
        Encoding::Windows1252 => {
            if b < 128 {
                u32::from(b)
            } else {
                windows_code(b)
            }
        }
        _ => u32::from(b),
    }
}

// Adds the UTF-8 of a code point.
fn push_code(out: &mut Vec<u8>, code: u32) -> Result<(), AllocError>
    ensures { OnOk result (out.new.items ≡ out.old.items ++ encode_utf8 code) }
{
    let Some(c) = char::from_u32(code) else {
        return Err(AllocError);
    };
    let mut bytes = [0u8; 4];
    out.extend_from_slice(c.encode_utf8(&mut bytes).as_bytes())
}

// Adds the ASCII that bytes begin with, at once since it is its own text, and gives what stands
// behind it.
#[tactic(auto, using(crate::proofs::AsciiLaws::ascii_first))]
fn push_ascii<'a>(
    out: &mut Vec<u8>,
    encoding: Encoding,
    bytes: &'a [u8],
) -> Result<&'a [u8], AllocError>
    ensures text { IfOk result (λ rest. out.new.items ++ flat_map (byte_text encoding) rest.now
        ≡ out.old.items ++ flat_map (byte_text encoding) bytes.now) }
    ensures shorter { IfOk result (λ rest. length rest.now ≤ length bytes.now) }
{
    let (ascii, rest) = split_run(Kind::Ascii, bytes);
    out.extend_from_slice(ascii)?;
    Ok(rest)
}

// Adds the text of bytes, each of which is a character.
fn push_characters(out: &mut Vec<u8>, encoding: Encoding, bytes: &[u8]) -> Result<(), AllocError>
    ensures { OnOk result (out.new.items ≡ out.old.items ++ flat_map
        (byte_text encoding) bytes.now) }
{
    let mut rest = push_ascii(out, encoding, bytes)?;
    while let [b, tail @ ..] = rest {
        push_code(out, code_of(encoding, *b))?;
        rest = push_ascii(out, encoding, tail)?;
    }
    Ok(())
}

/// Adds the text of bytes.
pub(crate) fn push_decoded(
    out: &mut Vec<u8>,
    encoding: Encoding,
    bytes: &[u8],
) -> Result<(), AllocError>
    ensures { OnOk result (out.new.items ≡ out.old.items ++ decoded encoding bytes.now) }
{
    match encoding {
        Encoding::Utf8 => out.extend_from_slice(bytes),
        Encoding::Ascii => push_characters(out, encoding, bytes),
        Encoding::Latin1 => push_characters(out, encoding, bytes),
        Encoding::Latin9 => push_characters(out, encoding, bytes),
        Encoding::Windows1252 => push_characters(out, encoding, bytes),
    }
}
