//! White space.

ghost use Rattle.std.specs.Prelude.{◌≡◌, IfOk, OnOk, option_map};
ghost use Rattle.feed_outline.specs.private.Growing.{grown, waits_behind};
ghost use Rattle.feed_outline.specs.Spaces.{collapsed, filled};
ghost use Rattle.feed_xml.specs.Grammar.{is_space};

use std::alloc::{AllocError, Global};

fn is_space(b: u8) -> bool
    ensures { result ≡ is_space b }
{
    b == 32 || b == 10 || b == 13 || b == 9
}

/// Adds text with each run of white space made one space, and none at the ends; whether white space
/// stands before it is told.
pub(crate) fn push_words(out: &mut Vec<u8>, waits: bool, text: &[u8]) -> Result<(), AllocError>
    ensures { OnOk result (out.new.items ≡ grown out.old.items waits text.now) }
{
    let mut waits = waits;
    let mut rest = text;
    while let [b, tail @ ..] = rest {
        if is_space(*b) {
            waits = true;
        } else {
            if waits && !out.is_empty() {
                out.push(32)?;
            }
            out.push(*b)?;
            waits = false;
        }
        rest = tail;
    }
    Ok(())
}

/// Whether white space stands at the end of a text, or before one that is empty.
pub(crate) fn waits_behind(waits: bool, text: &[u8]) -> bool
    ensures { result ≡ waits_behind waits text.now }
{
    match text {
        [] => waits,
        [.., last] => is_space(*last),
    }
}

// The text so.
#[tactic(auto, using(crate::proofs::SpaceLaws::collapsed_is))]
fn collapse(alloc: Global, text: &[u8]) -> Result<Vec<u8>, AllocError>
    ensures { IfOk result (λ out. out.items ≡ collapsed text.now) }
{
    let mut out = Vec::new(alloc);
    push_words(&mut out, false, text)?;
    Ok(out)
}

/// The text so, where it has a character that is no white space.
pub(crate) fn fill(alloc: Global, text: &[u8]) -> Result<Option<Vec<u8>>, AllocError>
    ensures { IfOk result (λ out. option_map (λ t. t.items) out ≡ filled (collapsed text.now)) }
{
    let out = collapse(alloc, text)?;
    if out.is_empty() {
        Ok(None)
    } else {
        Ok(Some(out))
    }
}
