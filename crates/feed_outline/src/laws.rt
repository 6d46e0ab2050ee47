//! Laws of the definitions: contracts of functions that have nothing to run.

ghost use Rattle.std.specs.Prelude.{◌≡◌, ℕ, List, true};
ghost use Rattle.feed_outline.specs.Nodes.{Nodes, Tag, no_nodes, node};
ghost use Rattle.feed_outline.specs.Outline.{Line, part};
ghost use Rattle.feed_outline.specs.Outlined.{is_outline, outlined};

/// Lines that are the outline of one element tell that element, and no other.
pub fn outlines_tell()
    ensures told { (lines : List Line) → is_outline lines ≡ true
        → (name : List ℕ) × (tag : Tag) × (text : List ℕ) × (below : Nodes)
        × (lines ≡ part name tag text below)
        × (outlined lines ≡ node name tag text below no_nodes) }
    ensures passes { (name : List ℕ) (tag : Tag) (text : List ℕ) (below : Nodes)
        → is_outline (part name tag text below) ≡ true }
    ensures again { (name : List ℕ) (tag : Tag) (text : List ℕ) (below : Nodes)
        → outlined (part name tag text below) ≡ node name tag text below no_nodes }
{}
