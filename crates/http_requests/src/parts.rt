//! A head that was read.

ghost use Rattle.std.specs.Prelude.{◌≤◌, length, take};
ghost use Rattle.httparse.specs.Spans.{IsRequestWithin};

use httparse::spans::{HeaderSpan, RequestSpans};

/// A head, with all bytes that were read: its own and maybe some of the body. Its parts are known
/// by where they stand among these bytes.
#[derive(Drop)]
pub struct Head {
    pub(crate) bytes: Vec<u8>,
    pub(crate) filled: usize,
    pub(crate) spans: Vec<HeaderSpan>,
    pub(crate) parts: RequestSpans,
    ghost known: { filled ≤ length bytes.items },
    ghost within: { IsRequestWithin (take filled bytes.items) spans.items parts },
}
