//! Lines read back as the element that they are the outline of.

ghost use Rattle.std.specs.Prelude.{◌≡◌};
ghost use Rattle.feed_outline.specs.Composites.{joined};
ghost use Rattle.feed_outline.specs.Outlined.{are_below, is_outline, outlined};
ghost use Rattle.feed_outline.specs.Views.{line_views};

use crate::composites::{Elements, Node};
use crate::line::Line;

// Whether each line is below the outermost one, and at most one deeper than the line before it.
fn are_below(before: usize, lines: &[Line]) -> bool
    ensures { result ≡ are_below before (line_views lines.now) }
{
    let mut before = before;
    let mut rest = lines;
    while let [line, tail @ ..] = rest {
        if line.depth == 0 || line.depth - 1 > before {
            return false;
        }
        before = line.depth;
        rest = tail;
    }
    true
}

/// Whether lines are the outline of one element.
pub fn is_outline(lines: &[Line]) -> bool
    ensures { result ≡ is_outline (line_views lines.now) }
{
    match lines {
        [] => false,
        [line, tail @ ..] => line.depth == 0 && are_below(0, tail),
    }
}

/// The element that lines are the outline of, and what stands in it.
pub fn outlined(lines: &[Line]) -> Option<Node<'_>>
    ensures { joined result ≡ outlined (line_views lines.now) }
{
    if is_outline(lines) {
        Elements::at(0, lines).first()
    } else {
        None
    }
}
