//! Lines of outlines.

use feed_xml::Position;

/// A line of an outline: how deep its element is, its reference name, where its tag stands, its
/// attribute `dateformat` and its text; and of the first stranger in an outline its own name.
#[derive(Drop)]
pub struct Line {
    pub depth: usize,
    pub name: &'static [u8],
    pub place: Position,
    pub format: Option<Vec<u8>>,
    pub text: Vec<u8>,
    /// The name in its tag, the address of its namespace and that of the root's, the beginning of
    /// each, on lines of their own; of other elements nothing. Nothing is proved of it.
    pub called: Vec<u8>,
}
