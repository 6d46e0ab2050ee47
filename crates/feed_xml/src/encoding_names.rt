//! The encoding that a document says it has.

ghost use Rattle.std.specs.Prelude.{◌≡◌, ◌≤◌, IfSome, None, Some, length, option_map};
ghost use Rattle.feed_xml.specs.EncodingNames.{is_alike, encoding_of, encoding_in, declared_name, declared, encoding_name, marked, encoding_at, is_utf16};
ghost use Rattle.feed_xml.specs.Steps.{Gives};

use crate::encodings::Encoding;
use crate::instructions::declared;
use crate::scan::literal;
use crate::stop::Stop;

// Whether the name without its hyphens and low lines, in small letters, is this one.
fn is_alike(name: &[u8], plain: &[u8]) -> bool
    ensures { result ≡ is_alike name.now plain.now }
{
    let mut left = name;
    let mut right = plain;
    while let [b, tail @ ..] = left {
        if *b != b'-' && *b != b'_' {
            match right {
                [] => return false,
                [c, behind @ ..] => {
                    if b.to_ascii_lowercase() != *c {
                        return false;
                    }
                    right = behind;
                }
            }
        }
        left = tail;
    }
    right.is_empty()
}

// The encoding of a name in a declaration whose bytes are those of ASCII.
fn encoding_of(name: &[u8]) -> Option<Encoding>
    ensures { result ≡ encoding_of name.now }
{
    if is_alike(name, b"utf8") {
        Some(Encoding::Utf8)
    } else if is_alike(name, b"utf16") {
        Some(Encoding::Utf8)
    } else if is_alike(name, b"usascii") {
        Some(Encoding::Ascii)
    } else if is_alike(name, b"ascii") {
        Some(Encoding::Ascii)
    } else if is_alike(name, b"iso88591") {
        Some(Encoding::Latin1)
    } else if is_alike(name, b"latin1") {
        Some(Encoding::Latin1)
    } else if is_alike(name, b"iso885915") {
        Some(Encoding::Latin9)
    } else if is_alike(name, b"windows1252") {
        Some(Encoding::Windows1252)
    } else if is_alike(name, b"cp1252") {
        Some(Encoding::Windows1252)
    } else {
        None
    }
}

// The encoding in a declaration at the front.
#[tactic(auto, unfolding(crate::specs::EncodingNames::encoding_in))]
fn encoding_in(head: &[u8]) -> Result<&[u8], Stop>
    ensures { Gives (λ n. n.now) result (encoding_in head.now) }
{
    let rest = literal(b"<?xml", head)?;
    let (_, rest) = declared(b"version", rest)?;
    let (name, _) = declared(b"encoding", rest)?;
    Ok(name)
}

// The same, where there is one.
fn declared_name(head: &[u8]) -> Option<&[u8]>
    ensures { option_map (λ n. n.now) result ≡ declared_name head.now }
{
    match encoding_in(head) {
        Ok(name) => Some(name),
        Err(_) => None,
    }
}

/// The name of the encoding of a document that begins so, where it is none that is known.
pub(crate) fn unknown_name(head: &[u8]) -> &[u8]
    requires { encoding_at head.now ≡ None }
    ensures { encoding_name head.now ≡ Some result.now }
{
    if is_utf16(head) {
        return b"UTF-16";
    }
    match declared_name(head) {
        None => b"",
        Some(name) => name,
    }
}

// The encoding that the declaration names, and UTF-8 where none does.
fn declared_encoding(head: &[u8]) -> Option<Encoding>
    ensures { result ≡ declared head.now }
{
    encoding_of(declared_name(head).unwrap_or(b"utf8"))
}

// The encoding of the byte order mark at the front, and how many bytes the mark has.
fn marked(head: &[u8]) -> Option<(Encoding, usize)>
    ensures mark { result ≡ marked head.now }
    ensures within { IfSome result (λ x. x.1 ≤ length head.now) }
{
    match head {
        [239, 187, 191, ..] => Some((Encoding::Utf8, 3)),
        _ => None,
    }
}

// Whether a byte order mark of UTF-16 stands at the front.
fn is_utf16(head: &[u8]) -> bool
    ensures { result ≡ is_utf16 head.now }
{
    matches!(head, [254, 255, ..] | [255, 254, ..])
}

/// The encoding of a document that begins so, if it is one that is known, and how many bytes its
/// byte order mark has: UTF-8 behind its mark, else the encoding that the declaration names, in
/// capital letters or small ones, with hyphens and low lines or without, and UTF-8 where none does,
/// or where it names UTF-16, which its own bytes are not. A declaration has to be there whole.
pub(crate) fn encoding_at(head: &[u8]) -> Option<(Encoding, usize)>
    ensures gives { result ≡ encoding_at head.now }
    ensures within { IfSome result (λ x. x.1 ≤ length head.now) }
{
    if is_utf16(head) {
        return None;
    }
    if let Some(found) = marked(head) {
        return Some(found);
    }
    match declared_encoding(head) {
        None => None,
        Some(encoding) => Some((encoding, 0)),
    }
}
