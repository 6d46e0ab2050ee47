//! Elements one beside the other, by the lines of their outline.

ghost use Rattle.std.specs.Prelude.{◌≡◌, suc, option_map};
ghost use Rattle.feed_outline.specs.Composites.{has_stranger, joined, text_in};
ghost use Rattle.feed_outline.specs.Nodes.{no_nodes};
ghost use Rattle.feed_outline.specs.Outlined.{nodes_at};
ghost use Rattle.feed_outline.specs.Views.{line_views};

use crate::line::Line;
use crate::names::stranger;
use std::marker::Model;

/// Elements one beside the other, each with what stands in it. Contracts see their tree.
#[derive(Drop)]
pub struct Elements<'a> {
    depth: usize,
    lines: &'a [Line],
}

impl<'a> Model for Elements<'a> {
    ghost use Rattle.feed_outline.specs.Nodes.{Nodes};
    ghost use Rattle.feed_outline.specs.NodesCode.{nodes_code};
    ghost use Rattle.feed_outline.specs.Outlined.{nodes_at};
    ghost use Rattle.feed_outline.specs.Views.{line_views};

    ghost Value = { Nodes };

    ghost coded = { nodes_code };

    ghost view = { λ e. nodes_at e.depth (line_views e.lines.now) };
}

/// The first of some elements, what stands in it, and the elements that follow it.
#[derive(Drop)]
pub struct Node<'a> {
    pub line: &'a Line,
    pub below: Elements<'a>,
    pub rest: Elements<'a>,
}

// What stands in an element of this depth, by the lines behind it.
fn elements_below(depth: usize, lines: &[Line]) -> Elements<'_>
    ensures { result ≡ nodes_at (suc depth) (line_views lines.now) }
{
    match lines {
        [next, ..] if next.depth > depth => Elements {
            depth: depth + 1,
            lines,
        },
        _ => Elements::none(),
    }
}

impl<'a> Elements<'a> {
    /// No elements.
    pub fn none() -> Elements<'a>
        ensures { result ≡ no_nodes }
    {
        Elements {
            depth: 0,
            lines: &[],
        }
    }

    // The elements of this depth at the front of lines.
    pub(crate) fn at(depth: usize, lines: &'a [Line]) -> Elements<'a>
        ensures { result ≡ nodes_at depth (line_views lines.now) }
    {
        Elements { depth, lines }
    }

    /// The same elements.
    pub fn copy(&self) -> Elements<'a>
        ensures { result ≡ self.now }
    {
        Elements {
            depth: self.depth,
            lines: self.lines,
        }
    }

    /// The first of the elements.
    pub fn first(&self) -> Option<Node<'a>>
        ensures { joined result ≡ self.now }
    {
        let depth = self.depth;
        let mut lines = self.lines;
        while let [line, behind @ ..] = lines {
            if line.depth < depth {
                return None;
            }
            if line.depth == depth {
                return Some(Node {
                    line,
                    below: elements_below(depth, behind),
                    rest: Elements::at(depth, behind),
                });
            }
            lines = behind;
        }
        None
    }
}

/// The text of the first element of this name that has one.
pub fn text_in<'a>(name: &[u8], elements: &Elements<'a>) -> Option<&'a [u8]>
    ensures { option_map (λ t. t.now) result ≡ text_in name.now elements.now }
{
    let mut rest = elements.copy();
    while let Some(node) = rest.first() {
        if node.line.name == name && !node.line.text.is_empty() {
            return Some(node.line.text.as_slice());
        }
        rest = node.rest;
    }
    None
}

/// How the first stranger is called that is one of the elements or in them, where one is. Nothing is
/// proved of it.
pub fn first_called<'a>(elements: &Elements<'a>) -> &'a [u8] {
    let mut rest = elements.lines;
    while let [line, tail @ ..] = rest {
        if !line.called.is_empty() {
            return line.called.as_slice();
        }
        rest = tail;
    }
    b""
}

/// Whether one of the elements, or of those in them, is a stranger: it is called as one that counts
/// where it stands, and does not count.
pub fn has_stranger(elements: &Elements<'_>) -> bool
    ensures { result ≡ has_stranger elements.now }
{
    let mut rest = elements.copy();
    while let Some(node) = rest.first() {
        if node.line.name == stranger() || has_stranger(&node.below) {
            return true;
        }
        rest = node.rest;
    }
    false
}
