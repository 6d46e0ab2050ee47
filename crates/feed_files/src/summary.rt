//! What is counted of the FILEs of a run.

ghost use Rattle.std.specs.Prelude.{◌≡◌, ◌<◌, [], replicate};

use crate::reasons::{Told, push_fate};
use feed_mapping::Note;
use std::alloc::{AllocError, Global};

/// What is counted beside the reasons of notes, in the order of its words.
#[derive(Clone, Copy)]
pub(crate) enum Beside {
    NoSupplier,
    Emptied,
    Unpriced,
    WithRights,
    OfOthers,
    OfSeveral,
    OtherDetails,
    Doublets,
    Again,
    NoProduct,
    Products,
    Wrong,
    Notes,
}

const WORDS: [&str; 13] = [
    "no SupplyDetail of the supplier of --supplier in a FILE with others",
    "products emptied",
    "products left without a Price",
    "products for the world without a Market, with SalesRights, not read",
    "products of other suppliers alone",
    "products of several suppliers",
    "SupplyDetail of another supplier, not read",
    "Price beside another of another amount",
    "an element comes again, not read",
    "a FILE without a Product",
    "products",
    "products wrong",
    "notes",
];

// How often an element of a name has a note for a reason. The text of the reason is a code of two
// digits or `..`, so that these stay few.
#[derive(Clone, Copy)]
struct ReasonCount {
    name: &'static [u8],
    told: &'static Told,
    code: [u8; 2],
    count: u64,
}

/// How often there is each reason, and each of what is counted beside.
#[derive(Drop)]
pub struct Summary {
    reasons: Vec<ReasonCount>,
    counts: [u64; 13],
}

impl Summary {
    pub(crate) fn new(alloc: Global) -> Summary
        ensures reasons { result.reasons.items ≡ [] }
        ensures counts { result.counts ≡ replicate 13 0 }
    {
        Summary {
            reasons: Vec::new(alloc),
            counts: [0; 13],
        }
    }

    /// Counts so many more of that.
    pub(crate) fn count(&mut self, what: Beside, more: u64)
        ensures { self.new ≡ record self.old { counts = self.new.counts } }
    {
        if let Some(count) = self.counts.get_mut(what as usize) {
            *count = count.saturating_add(more);
        }
    }

    // Counts a reason as often as this says. Two that have the same words are one.
    fn count_reason(&mut self, more: ReasonCount) -> Result<(), AllocError> {
        for counted in self.reasons.iter_mut() {
            let is_same = counted.name == more.name && counted.told.words == more.told.words;
            if is_same && counted.code == more.code {
                counted.count = counted.count.saturating_add(more.count);
                return Ok(());
            }
        }
        self.reasons.push(more)?;
        Ok(())
    }

    /// Counts a note, of whose reason this is told.
    pub(crate) fn add(&mut self, note: Note<'_>, told: &'static Told) -> Result<(), AllocError> {
        self.count_reason(ReasonCount {
            name: note.line.name,
            told,
            code: match note.reason.text {
                [tens, ones] if tens.is_ascii_digit() && ones.is_ascii_digit() => [*tens, *ones],
                _ => *b"..",
            },
            count: 1,
        })
    }

    /// Counts all that another has counted.
    pub(crate) fn add_all(&mut self, other: &Summary) -> Result<(), AllocError> {
        for place in 0..self.counts.len() {
            self.counts[place] = self.counts[place].saturating_add(other.counts[place]);
        }
        for counted in other.reasons.iter() {
            self.count_reason(*counted)?;
        }
        Ok(())
    }

    // Adds the line of a count that is not 0.
    fn push_count(&self, place: usize, prefix: &str, text: &mut String) -> Result<(), AllocError>
        requires { place < 13 }
    {
        match self.counts[place] {
            0 => Ok(()),
            count => write!(text, "{prefix}{}: {count}\n", WORDS[place]),
        }
    }

    /// Adds the lines of the summary: where nothing of a FILE is of the supplier that is named, that;
    /// one for each reason, and one for each of what is counted beside, the notes last. Products
    /// alone have none.
    pub(crate) fn push_lines(&self, prefix: &str, text: &mut String) -> Result<(), AllocError> {
        let mut counts = self.counts.iter().enumerate();
        if self.reasons.is_empty()
            && !counts.any(|(at, count)| at != Beside::Products as usize && *count != 0)
        {
            return Ok(());
        }
        self.push_count(0, prefix, text)?;
        for counted in self.reasons.iter() {
            text.push_str(prefix)?;
            push_fate(text, counted.name, counted.told, &counted.code)?;
            write!(text, ": {}\n", counted.count)?;
        }
        for place in 1..WORDS.len() {
            self.push_count(place, prefix, text)?;
        }
        Ok(())
    }
}
