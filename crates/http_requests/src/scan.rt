//! Line ends in the bytes of a head.

ghost use Rattle.std.specs.Prelude.{◌≡◌, ◌==◌, length};
ghost use Rattle.std.specs.List.{list_any};
ghost use Rattle.http_requests.specs.Head.{skip_line_ends, has_empty_line, refusal_of_full};

use crate::refusal::Refusal;

/// The bytes from the first that is neither CR nor LF.
pub(crate) fn skip_line_ends(bytes: &[u8]) -> &[u8]
    ensures { result.now ≡ skip_line_ends bytes.now }
{
    let mut rest = bytes;
    while let [13 | 10, tail @ ..] = rest {
        rest = tail;
    }
    rest
}

/// Whether an empty line stands among the bytes.
pub(crate) fn has_empty_line(bytes: &[u8]) -> bool
    ensures { result ≡ has_empty_line bytes.now }
{
    let mut rest = bytes;
    while let [_, tail @ ..] = rest {
        if rest.starts_with(b"\n\n") || rest.starts_with(b"\n\r\n") {
            return true;
        }
        rest = tail;
    }
    false
}

/// Why these bytes, which are as many as a head may have, have no head.
pub(crate) fn refusal_of_full(bytes: &[u8]) -> Refusal
    ensures { result ≡ refusal_of_full (skip_line_ends bytes.now) }
{
    let text = skip_line_ends(bytes);
    if !text.contains(&10) {
        Refusal::TargetTooLong
    } else if has_empty_line(text) {
        Refusal::BadHead
    } else {
        Refusal::HeadTooLarge
    }
}
