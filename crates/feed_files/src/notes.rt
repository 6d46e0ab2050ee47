//! Notes on what is left out of the message of a FILE.

use crate::counts::{count_again, count_product, is_of_others};
use crate::doublets::count_doublets;
use crate::reasons::{Fate, Told, push_fate, told_of};
use crate::shown::{SHOWN, push_value, push_words};
use crate::summary::{Beside, Summary};
use csv_records::buffer::RecordBuffer;
use csv_records::fields::FieldBuffer;
use feed_conversion::{Counted, Fault, Options};
use feed_mapping::{
    Composite, Note, ReasonKind, SupplyChoices, Wrong, add_product, first_reason, malformed_field,
    next_composite, read_heading, text_or_empty,
};
use feed_outline::first_called;
use feed_xml::Position;
use onix_records::row::Opening;
use std::alloc::{AllocError, Global};
use watched_output::shown_texts::push_shown;

/// What each line on standard error begins with.
pub(crate) const PREFIX: &str = "onixdesk: ";

// The most lines of notes on a FILE, and besides the most on Products that are left out or emptied.
// Those behind them are only counted.
const MOST_LINES: u32 = 1_000;

/// The FILE that notes are on, and how it is read.
#[derive(Clone, Copy)]
pub(crate) struct Scope<'a> {
    alloc: Global,
    pub(crate) file: &'a str,
    options: &'a Options<'a>,
}

/// Lines of notes on a FILE: how many there are, but for those on Products, and how many of those.
#[derive(Drop)]
pub(crate) struct Lines {
    pub(crate) text: String,
    others: u32,
    of_products: u32,
}

/// The notes on a FILE, kept until the whole of it was read.
#[derive(Drop)]
pub struct Notes<'a> {
    pub(crate) scope: Scope<'a>,
    pub(crate) all: Lines,
    // Those on products that are wrong, with a bound of their own: they are told where the FILE is
    // refused for these.
    pub(crate) of_wrong: Lines,
    pub(crate) summary: Summary,
    // Whether there is a Product, or what says that there is none.
    pub(crate) has_products: bool,
    // The field of the Header that the desk would not take, empty where it would take all.
    pub(crate) header: String,
    // The name of the first stranger in the root or in a Header, empty where there is none.
    pub(crate) stranger: String,
    // What a message begins with, behind its Header.
    opening: Option<Opening>,
}

// The name of a stranger, of how it is called: its name, and the addresses of namespaces.
fn name_of_stranger(called: &[u8]) -> &[u8] {
    match called.iter().position(|byte| *byte == b'\n') {
        Some(end) => called.get(..end).unwrap_or(called),
        None => called,
    }
}

/// Adds the beginning of a line on what stands at a place of a FILE.
pub(crate) fn push_place(
    text: &mut String,
    file: &str,
    place: &Position,
) -> Result<(), AllocError> {
    text.push_str(PREFIX)?;
    push_shown(text, file, SHOWN)?;
    write!(text, ":{}:{}: ", place.line, place.column)
}

// Adds why the first is left out of what a ProductSupply has, where a note says that all of it is.
fn push_first_reason(
    text: &mut String,
    scope: &Scope<'_>,
    product: &Composite<'_>,
    note: Note<'_>,
) -> Result<(), AllocError> {
    let (choices, kind) = (&scope.options.choices, note.reason.kind);
    let mut rest = product.below.copy();
    while let Some((supply, behind)) = next_composite(b"ProductSupply", &rest) {
        if supply.line.place.is_at(&note.line.place) {
            let (supplier, id_type) = (choices.supplier, choices.id_type);
            let first = first_reason(scope.alloc, supplier, id_type, kind, &supply.below)?;
            if let Some(first) = first {
                text.push_str(", the first for: ")?;
                push_words(text, told_of(first.kind).words, first.text)?;
            }
        }
        rest = behind;
    }
    Ok(())
}

// Adds the line of a note on a product.
fn push_line<'a>(
    text: &mut String,
    scope: &Scope<'_>,
    product: &Composite<'a>,
    note: Note<'a>,
    told: &Told,
) -> Result<(), AllocError> {
    push_place(text, scope.file, &note.line.place)?;
    push_value(text, text_or_empty(b"RecordReference", &product.below))?;
    text.push_str(": ")?;
    let value = match note.reason.kind {
        ReasonKind::Wrong(Wrong::OtherNamespace) => name_of_stranger(first_called(&product.below)),
        _ => note.reason.text,
    };
    push_fate(text, note.line.name, told, value)?;
    push_first_reason(text, scope, product, note)?;
    text.push_str("\n")
}

impl Lines {
    // Adds the line of a note on a product, where there is room for one of its kind.
    fn add(
        &mut self,
        scope: &Scope<'_>,
        product: &Composite<'_>,
        note: Note<'_>,
        told: &Told,
    ) -> Result<(), AllocError> {
        let count = match told.fate {
            Fate::Lost | Fate::Emptied => &mut self.of_products,
            _ => &mut self.others,
        };
        if *count == MOST_LINES {
            return Ok(());
        }
        *count = count.saturating_add(1);
        push_line(&mut self.text, scope, product, note, told)
    }
}

impl<'a> Notes<'a> {
    /// None yet, of a FILE that is read so.
    pub(crate) fn new(alloc: Global, file: &'a str, options: &'a Options<'a>) -> Notes<'a> {
        let none = |text| Lines {
            text,
            others: 0,
            of_products: 0,
        };
        Notes {
            scope: Scope {
                alloc,
                file,
                options,
            },
            all: none(String::new(alloc)),
            of_wrong: none(String::new(alloc)),
            summary: Summary::new(alloc),
            has_products: false,
            header: String::new(alloc),
            stranger: String::new(alloc),
            opening: None,
        }
    }

    // How many Prices of a product, of which these records are written, stand beside another of
    // another amount. Where terms compute prices, those count that are written without.
    fn count_doublets(
        &self,
        product: &Composite<'_>,
        written: &RecordBuffer,
    ) -> Result<u64, AllocError> {
        let alloc = self.scope.alloc;
        let Some(opening) = &self.opening else {
            return Ok(0);
        };
        let options = self.scope.options;
        let count = count_doublets(alloc, opening, written)?;
        if count == 0 || options.terms.is_none() {
            return Ok(count);
        }
        let choices = SupplyChoices {
            supplier: options.choices.supplier,
            id_type: options.choices.id_type,
            terms: None,
        };
        let mut fields = FieldBuffer::new(alloc);
        let mut records = RecordBuffer::new(alloc);
        let mut notes = Vec::new(alloc);
        add_product(
            alloc,
            opening,
            &choices,
            product,
            &mut fields,
            &mut records,
            &mut notes,
        )?;
        count_doublets(alloc, opening, &records)
    }

    // Takes notice of a Header. Without memory less is said of it and counted.
    fn notice_header(&mut self, header: &Composite<'_>) {
        let options = self.scope.options;
        if self.opening.is_none() {
            let alloc = self.scope.alloc;
            let mut fields = FieldBuffer::new(alloc);
            let heading = read_heading(alloc, &options.choices, &header.below, &mut fields);
            self.opening = match heading {
                Ok(heading) => Some(heading.opening),
                Err(_) => None,
            };
        }
        self.summary
            .count(Beside::Again, count_again(None, &header.below, false));
        if self.header.is_empty() {
            if let Some(found) = malformed_field(&options.choices, &header.below) {
                let _ = write!(self.header, "{:?} ", found.field);
                let _ = push_value(&mut self.header, found.text);
            }
        }
    }

    /// Takes notice of a Header, of a stranger, or of what says that there is no Product. Without
    /// memory less is said of a stranger.
    pub(crate) fn notice(&mut self, element: &Composite<'_>) {
        let called = match element.line.name {
            b"Header" => {
                self.notice_header(element);
                first_called(&element.below)
            }
            b":" => element.line.called.as_slice(),
            _ => {
                self.has_products = true;
                b""
            }
        };
        if self.stranger.is_empty() && !called.is_empty() {
            let _ = push_value(&mut self.stranger, name_of_stranger(called));
        }
    }

    // Adds a note on a product, which is wrong or not.
    fn add_note(
        &mut self,
        product: &Composite<'_>,
        note: Note<'_>,
        is_wrong: bool,
    ) -> Result<(), AllocError> {
        let told = told_of(note.reason.kind);
        let is_read = told.fate == Fate::Discount && self.scope.options.terms.is_some();
        // A product of other suppliers alone is counted as one.
        if is_read || note.reason.kind.is_of_others() {
            return Ok(());
        }
        self.summary.add(note, told)?;
        if told.fate == Fate::Counted || told.fate == Fate::Discount {
            return Ok(());
        }
        self.summary.count(Beside::Notes, 1);
        self.all.add(&self.scope, product, note, told)?;
        if is_wrong {
            self.of_wrong.add(&self.scope, product, note, told)?;
        }
        Ok(())
    }

    /// Adds the notes on a product, of which these records are written.
    pub(crate) fn add(
        &mut self,
        product: &Composite<'_>,
        written: &RecordBuffer,
        notes: &[Note<'_>],
    ) -> Result<(), AllocError> {
        let named = self.scope.options.choices.supplier;
        self.has_products = true;
        count_product(&mut self.summary, named, product, written, notes);
        let doublets = self.count_doublets(product, written)?;
        self.summary.count(Beside::Doublets, doublets);
        let has_wrong = notes.iter().any(|note| note.reason.kind.is_wrong());
        let is_wrong = has_wrong && !is_of_others(notes);
        for note in notes.iter() {
            self.add_note(product, *note, is_wrong)?;
        }
        Ok(())
    }

    /// Counts the FILE, where it was converted.
    pub(crate) fn end(&mut self, read: &Result<Counted, Fault>) {
        if let Ok(told) = read {
            self.summary.count(Beside::Wrong, u64::from(told.wrong));
            self.summary
                .count(Beside::NoProduct, u64::from(!self.has_products));
            self.summary
                .count(Beside::NoSupplier, u64::from(told.lacks_supplier));
        }
    }
}
