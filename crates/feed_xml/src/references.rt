//! References, and what they stand for.

ghost use Rattle.std.specs.Prelude.{◌≡◌, ◌&&◌, ◌∷◌, [], ◌++◌, true, IfOk, OnOk, is_some, unwrap_or};
ghost use Rattle.feed_xml.specs.Characters.{is_char, number_code};
ghost use Rattle.feed_xml.specs.Grammar.{begins, is_number, is_reference, begins_reference, refers};
ghost use Rattle.feed_xml.specs.References.{char_text, standing_text, reference_text};

use crate::characters::is_char;
use crate::classes::{Kind, is_name};
use crate::entities::named_text;
use crate::numbers::{is_number, number_code};
use crate::scan::run;
use std::alloc::AllocError;

// Whether this is the number of a character that a document may have.
fn is_char_number(number: &[u8]) -> bool
    ensures { result ≡ (is_number number.now && is_char (number_code number.now)) }
{
    if !is_number(number) {
        return false;
    }
    match number_code(number) {
        Some(code) => is_char(code),
        None => false,
    }
}

/// Whether this may stand between `&` and `;`.
pub(crate) fn is_reference(body: &[u8]) -> bool
    ensures { result ≡ is_reference body.now }
{
    match body {
        [] => false,
        [b'#', number @ ..] => is_char_number(number),
        [_first, ..] => is_name(body),
    }
}

// Whether the first byte is `;`.
fn begins_mark(bytes: &[u8]) -> bool
    ensures { result ≡ begins (59 ∷ []) bytes.now }
{
    match bytes {
        [] => false,
        [first, ..] => *first == b';',
    }
}

// Whether a reference follows.
fn begins_reference(bytes: &[u8]) -> bool
    ensures { result ≡ begins_reference bytes.now }
{
    match run(Kind::Reference, bytes) {
        Ok((body, rest)) => is_reference(body) && begins_mark(rest),
        Err(_) => false,
    }
}

/// Whether each `&` of a value begins a reference.
pub(crate) fn refers(value: &[u8]) -> bool
    ensures { result ≡ refers value.now }
{
    let mut rest = value;
    while let [b, tail @ ..] = rest {
        if *b == b'&' && !begins_reference(tail) {
            return false;
        }
        rest = tail;
    }
    true
}

// Adds a character, and tells whether there is one of that code.
fn push_char(out: &mut Vec<u8>, code: u32) -> Result<bool, AllocError>
    ensures text { OnOk result (out.new.items
        ≡ out.old.items ++ unwrap_or (char_text code) []) }
    ensures known { IfOk result (λ known. known ≡ is_some (char_text code)) }
{
    if is_char(code) {
        if let Some(c) = char::from_u32(code) {
            let mut bytes = [0u8; 4];
            out.extend_from_slice(c.encode_utf8(&mut bytes).as_bytes())?;
            return Ok(true);
        }
    }
    Ok(false)
}

// The same of what may stand between `&` and `;`.
fn push_standing(out: &mut Vec<u8>, body: &[u8]) -> Result<bool, AllocError>
    requires { is_reference body.now ≡ true }
    ensures text { OnOk result (out.new.items
        ≡ out.old.items ++ unwrap_or (standing_text body.now) []) }
    ensures known { IfOk result (λ known. known ≡ is_some (standing_text body.now)) }
{
    match body {
        [] => Ok(false),
        [b'#', number @ ..] => match number_code(number) {
            None => Ok(false),
            Some(code) => push_char(out, code),
        },
        [_first, ..] => match named_text(body) {
            None => Ok(false),
            Some(text) => {
                out.extend_from_slice(text)?;
                Ok(true)
            }
        },
    }
}

/// Adds what stands for the body of a reference, the character of a number or those that HTML gives
/// a name, and tells whether anything does.
pub fn push_reference(out: &mut Vec<u8>, body: &[u8]) -> Result<bool, AllocError>
    ensures text { OnOk result (out.new.items
        ≡ out.old.items ++ unwrap_or (reference_text body.now) []) }
    ensures known { IfOk result (λ known. known ≡ is_some (reference_text body.now)) }
{
    if is_reference(body) {
        push_standing(out, body)
    } else {
        Ok(false)
    }
}
