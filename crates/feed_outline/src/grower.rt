//! An outline that grows from token to token.

ghost use Rattle.std.specs.Prelude.{◌≡◌, ◌+◌, suc, nat_lt, [], IfOk, OnOk, Some, option_map, reverse};
ghost use Rattle.feed_outline.specs.private.Feed.{fits};
ghost use Rattle.feed_outline.specs.Dialect.{composite_of};
ghost use Rattle.feed_outline.specs.private.Growing.{growing, no_lines, change, longer, opened, closed, texted, is_idle, scopes_of};
ghost use Rattle.feed_outline.specs.Namespaces.{address_within};
ghost use Rattle.feed_outline.specs.private.Growing.{tagged};
ghost use Rattle.feed_outline.specs.Sizes.{element_size, lines_size};
ghost use Rattle.feed_outline.specs.private.Growing.{format_size};
ghost use Rattle.feed_outline.specs.Views.{binding_views, line_views};
ghost use Rattle.feed_outline.specs.private.OpenViews.{open_views};

use crate::line::Line;
use crate::names::root;
use crate::namespaces::{Binding, address_among};
use crate::spaces::{push_words, waits_behind};
use feed_xml::Position;
use std::alloc::{AllocError, Global};
use std::marker::Model;

/// The largest Header or Product that is taken. This bound is of what an outline holds of the XML,
/// by the sizes of its elements, and not of a text of records.
const MOST_BYTES: usize = 4_194_304;

/// What an element adds to the size of its Header or Product, beside its text and its format.
const ELEMENT_BYTES: usize = 64;

/// An open element: where its line is, whether white space stands at the end of its text, its
/// reference name, and what its tag declares.
#[derive(Drop)]
pub(crate) struct Open {
    pub(crate) at: usize,
    pub(crate) waits: bool,
    pub(crate) name: &'static [u8],
    pub(crate) bindings: Vec<Binding>,
}

/// The lines of the elements that were begun with their size, and which of them are open.
#[derive(Drop)]
pub(crate) struct Grower {
    alloc: Global,
    lines: Vec<Line>,
    size: usize,
    opens: Vec<Open>,
    passed: usize,
}

impl Model for Grower {
    ghost use Rattle.std.specs.Prelude.{◌≡◌, reverse};
    ghost use Rattle.feed_outline.specs.private.Growing.{Growing, growing};
    ghost use Rattle.feed_outline.specs.Sizes.{lines_size};
    ghost use Rattle.feed_outline.specs.Views.{line_views};
    ghost use Rattle.feed_outline.specs.private.OpenViews.{open_views};

    ghost Value = { Growing };

    ghost view = { λ g. growing (line_views g.lines.items)
        (reverse (open_views g.opens.items)) g.passed };

    ghost invariant = { λ g. g.size ≡ lines_size (line_views g.lines.items) };
}

// The bytes of a format.
fn format_size(format: &Option<Vec<u8>>) -> usize
    ensures { result ≡ format_size (option_map (λ f. f.items) format.now) }
{
    match format {
        None => 0,
        Some(format) => format.len(),
    }
}

// The size of lines with one more, which has no text.
fn size_with(size: usize, format: &Option<Vec<u8>>) -> Result<usize, AllocError>
    ensures { IfOk result (λ n. n ≡ size
        + element_size (tagged (option_map (λ f. f.items) format.now)) []) }
{
    match size.checked_add(ELEMENT_BYTES) {
        None => Err(AllocError),
        Some(size) => match size.checked_add(format_size(format)) {
            None => Err(AllocError),
            Some(size) => Ok(size),
        },
    }
}

// Adds text to the line of an open element, and gives the size of all lines.
fn append(
    lines: &mut Vec<Line>,
    size: usize,
    at: usize,
    waits: bool,
    text: &[u8],
) -> Result<usize, AllocError>
    requires { size ≡ lines_size (line_views lines.old.items) }
    ensures lines { OnOk result (line_views lines.new.items
        ≡ change (longer waits text.now) at (line_views lines.old.items)) }
    ensures size { IfOk result (λ n. n ≡ lines_size (line_views lines.new.items)) }
{
    if at >= lines.len() {
        return Ok(size);
    }
    let line = &mut lines[at];
    let before = line.text.len();
    push_words(&mut line.text, waits, text)?;
    match size.checked_add(line.text.len() - before) {
        None => Err(AllocError),
        Some(size) => Ok(size),
    }
}

// What a prefix stands for by the nearest declaration of these elements, the innermost last.
fn address_within<'a>(prefix: &[u8], opens: &'a [Open]) -> Option<&'a [u8]>
    ensures { option_map (λ a. a.now) result
        ≡ address_within prefix.now (scopes_of (reverse (open_views opens.now))) }
{
    let mut rest = opens;
    while let [outer @ .., inner] = rest {
        if let Some(address) = address_among(prefix, &inner.bindings) {
            return Some(address);
        }
        rest = outer;
    }
    None
}

impl Grower {
    /// No lines.
    pub(crate) fn new(alloc: Global) -> Grower
        ensures { result ≡ no_lines }
    {
        Grower {
            alloc,
            lines: Vec::new(alloc),
            size: 0,
            opens: Vec::new(alloc),
            passed: 0,
        }
    }

    /// Whether no element is open.
    pub(crate) fn is_idle(&self) -> bool
        ensures { result ≡ is_idle self.now }
    {
        self.passed == 0 && self.opens.is_empty()
    }

    /// Whether it is not too large.
    pub(crate) fn fits(&self) -> bool
        ensures { result ≡ fits self.now }
    {
        self.size <= MOST_BYTES
    }

    /// The lines.
    pub(crate) fn lines(&self) -> &[Line]
        ensures { line_views result.now ≡ self.now.lines }
    {
        &self.lines
    }

    /// Lets go of all lines.
    pub(crate) fn clear(&mut self)
        ensures { self.new ≡ no_lines }
    {
        self.lines.clear();
        self.size = 0;
        self.opens.clear();
        self.passed = 0;
    }

    /// The reference name of the composite that the next element stands in.
    pub(crate) fn composite(&self) -> &'static [u8]
        ensures { result.now ≡ composite_of (scopes_of self.now.opens) }
    {
        match self.opens.as_slice() {
            [] => root(),
            [.., inner] => inner.name,
        }
    }

    /// What a prefix stands for by the nearest declaration of the open elements.
    pub(crate) fn address_within(&self, prefix: &[u8]) -> Option<&[u8]>
        ensures { option_map (λ a. a.now) result
            ≡ address_within prefix.now (scopes_of self.now.opens) }
    {
        address_within(prefix, &self.opens)
    }

    /// Whether an element that is passed over is open.
    pub(crate) fn is_passing(&self) -> bool
        ensures { result ≡ nat_lt 0 self.now.passed }
    {
        self.passed > 0
    }

    /// Begins an element, whatever it is, in one that is passed over.
    pub(crate) fn pass(&mut self) -> Result<(), AllocError>
        ensures { OnOk result (self.new
            ≡ growing self.old.lines self.old.opens (suc self.old.passed)) }
    {
        let Some(passed) = self.passed.checked_add(1) else {
            return Err(AllocError);
        };
        self.passed = passed;
        Ok(())
    }

    /// Begins an element at a place, with this name where it counts.
    #[tactic(auto, using(crate::proofs::GrowerLaws::opened_in_passed))]
    pub(crate) fn open(
        &mut self,
        name: Option<&'static [u8]>,
        place: Position,
        format: Option<Vec<u8>>,
        bindings: Vec<Binding>,
        called: Vec<u8>,
    ) -> Result<(), AllocError>
        ensures { OnOk result (self.new ≡ opened self.old.passed
            (option_map (λ n. n.now) name.entry)
            (tagged (option_map (λ f. f.items) format))
            (binding_views bindings.items) self.old) }
    {
        if self.is_passing() {
            return self.pass();
        }
        match name {
            None => {
                self.passed = 1;
                Ok(())
            }
            Some(name) => self.begin(name, place, format, bindings, called),
        }
    }

    // Begins a line.
    fn begin(
        &mut self,
        name: &'static [u8],
        place: Position,
        format: Option<Vec<u8>>,
        bindings: Vec<Binding>,
        called: Vec<u8>,
    ) -> Result<(), AllocError>
        requires { self.old.passed ≡ 0 }
        ensures { OnOk result (self.new ≡ opened 0 (Some name.now)
            (tagged (option_map (λ f. f.items) format))
            (binding_views bindings.items) self.old) }
    {
        let size = size_with(self.size, &format)?;
        let at = self.lines.len();
        let line = Line {
            depth: self.opens.len(),
            name,
            place,
            format,
            text: Vec::new(self.alloc),
            called,
        };
        self.opens.push(Open {
            at,
            waits: false,
            name,
            bindings,
        })?;
        self.lines.push(line)?;
        self.size = size;
        Ok(())
    }

    /// Ends the innermost element.
    pub(crate) fn close(&mut self)
        ensures { self.new ≡ closed self.old.passed self.old }
    {
        if self.passed > 0 {
            self.passed -= 1;
        } else {
            let _ = self.opens.pop();
        }
    }

    /// Adds text to the innermost element.
    pub(crate) fn add(&mut self, text: &[u8]) -> Result<(), AllocError>
        ensures { OnOk result (self.new ≡ texted self.old.passed text.now self.old) }
    {
        if self.passed > 0 {
            return Ok(());
        }
        let Some(element) = self.opens.pop() else {
            return Ok(());
        };
        let Open {
            at,
            waits,
            name,
            bindings,
        } = element;
        match append(&mut self.lines, self.size, at, waits, text) {
            Ok(size) => {
                self.size = size;
                let waits = waits_behind(waits, text);
                self.opens.push(Open {
                    at,
                    waits,
                    name,
                    bindings,
                })?;
                Ok(())
            }
            Err(error) => {
                self.lines.clear();
                self.size = 0;
                Err(error)
            }
        }
    }
}
