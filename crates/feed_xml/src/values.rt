//! The normalized values of attributes.

ghost use Rattle.std.specs.Prelude.{◌≡◌, ◌≤◌, ◌∷◌, [], ◌++◌, OnOk, None, Some, length, unwrap_or};
ghost use Rattle.feed_xml.specs.Grammar.{begins};
ghost use Rattle.feed_xml.specs.References.{reference_text};
ghost use Rattle.feed_xml.specs.Values.{spaced, normalized_from, normalized};

use crate::classes::is_space;
use crate::references::push_reference;
use std::alloc::AllocError;

// Whether the first byte is a line feed.
fn begins_feed(bytes: &[u8]) -> bool
    ensures { result ≡ begins (10 ∷ []) bytes.now }
{
    match bytes {
        [] => false,
        [first, ..] => *first == b'\n',
    }
}

// Adds a byte that is none of a reference.
fn push_spaced(out: &mut Vec<u8>, b: u8, rest: &[u8]) -> Result<(), AllocError>
    ensures { OnOk result (out.new.items ≡ out.old.items ++ spaced b rest.now) }
{
    if b == b'\r' && begins_feed(rest) {
        return Ok(());
    }
    out.push(if is_space(b) { b' ' } else { b })?;
    Ok(())
}

// The body of a reference, and what stands behind it.
fn split_body(bytes: &[u8]) -> (&[u8], &[u8])
    ensures text { normalized_from (Some []) bytes.now
        ≡ unwrap_or (reference_text result.0.now) [] ++ normalized_from None result.1.now }
    ensures shorter { length result.1.now ≤ length bytes.now }
{
    let mut at = 0;
    while at < bytes.len() {
        if bytes[at] == b';' {
            return (&bytes[..at], &bytes[at + 1..]);
        }
        at += 1;
    }
    (bytes, &[])
}

/// Adds a value, normalized.
#[tactic(auto, unfolding(crate::specs::Values::normalized_from))]
pub fn push_normalized(out: &mut Vec<u8>, value: &[u8]) -> Result<(), AllocError>
    ensures { OnOk result (out.new.items ≡ out.old.items ++ normalized value.now) }
{
    let mut rest = value;
    while let [b, tail @ ..] = rest {
        if *b == b'&' {
            let (body, behind) = split_body(tail);
            let _ = push_reference(out, body)?;
            rest = behind;
        } else {
            push_spaced(out, *b, tail)?;
            rest = tail;
        }
    }
    Ok(())
}
