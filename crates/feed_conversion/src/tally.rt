//! How many products there are, how many of them are wrong, and whose SupplyDetails they have.

ghost use Rattle.std.specs.Prelude.{◌≡◌, ◌||◌, IfOk, OnOk, option_map};
ghost use Rattle.feed_mapping.specs.Notes.{note_views};
ghost use Rattle.feed_mapping.specs.PartyViews.{pair_view};
ghost use Rattle.feed_mapping.specs.ProductRecords.{has_wrong};
ghost use Rattle.feed_conversion.specs.Tallies.{counted, is_flawed, is_of_others, no_tally, refused_for, tallied, too_many, with_suppliers, with_wrong};

use crate::options::Allowed;
use crate::refusal::Refusal;
use feed_mapping::{Composite, Note, Pair, has_detail, text_or_empty};
use feed_outline::Elements;
use feed_xml::Position;
use onix_terms::items::Items;
use std::alloc::{AllocError, Global};

/// A product that is wrong.
#[derive(Debug, Drop)]
pub struct WrongProduct {
    pub reference: Items<u8>,
    pub place: Position,
}

/// How many products there are, how many of them are wrong, and the first of these; whether one of
/// other suppliers alone is wrong, which is none of them; and whether SupplyDetails are of the
/// supplier that is named, and of others.
#[derive(Debug, Drop)]
pub struct Tally {
    pub products: u32,
    pub wrong: u32,
    pub first: Option<WrongProduct>,
    pub has_wrong_others: bool,
    pub has_named: bool,
    pub has_other: bool,
}

/// What is told of all products at the end.
#[derive(Clone, Copy, Debug, PartialEq, Eq)]
pub struct Counted {
    /// How many are wrong, but for those of other suppliers alone.
    pub wrong: u32,
    /// Whether one of other suppliers alone is wrong.
    pub has_wrong_others: bool,
    /// Whether no SupplyDetail is of the supplier that is named, though some are of others.
    pub lacks_supplier: bool,
}

impl Counted {
    /// Whether any of that is so.
    pub fn is_flawed(self) -> bool
        ensures { result ≡ is_flawed self }
    {
        self.wrong > 0 || self.has_wrong_others || self.lacks_supplier
    }
}

impl Tally {
    /// Of no product.
    pub(crate) fn new() -> Tally
        ensures { result ≡ no_tally }
    {
        Tally {
            products: 0,
            wrong: 0,
            first: None,
            has_wrong_others: false,
            has_named: false,
            has_other: false,
        }
    }

    /// What is told of the products at the end.
    pub(crate) fn counted(&self) -> Counted
        ensures { result ≡ counted self.now }
    {
        Counted {
            wrong: self.wrong,
            has_wrong_others: self.has_wrong_others,
            lacks_supplier: self.has_other && !self.has_named,
        }
    }

    /// Takes notice of whose SupplyDetails a product has, where a supplier is named.
    pub(crate) fn see_suppliers(&mut self, named: Option<Pair<'_>>, product: &Elements<'_>)
        ensures { self.new
            ≡ with_suppliers (option_map pair_view named.entry) product.now self.old }
    {
        self.has_named = either(self.has_named, has_detail(named, false, product));
        self.has_other = either(self.has_other, has_detail(named, true, product));
    }
}

fn either(one: bool, other: bool) -> bool
    ensures { result ≡ (one || other) }
{
    one || other
}

// Whether one of the notes says that something is wrong.
fn has_wrong(notes: &[Note<'_>]) -> bool
    ensures { result ≡ has_wrong (note_views notes.now) }
{
    let mut rest = notes;
    while let [note, tail @ ..] = rest {
        if !note.is_aside && note.reason.kind.is_wrong() {
            return true;
        }
        rest = tail;
    }
    false
}

// Whether one of the notes says that a product is of other suppliers alone.
fn is_of_others(notes: &[Note<'_>]) -> bool
    ensures { result ≡ is_of_others (note_views notes.now) }
{
    let mut rest = notes;
    while let [note, tail @ ..] = rest {
        if !note.is_aside && note.reason.kind.is_of_others() {
            return true;
        }
        rest = tail;
    }
    false
}

// Counts a wrong product.
fn count_wrong(alloc: Global, tally: &mut Tally, product: &Composite<'_>) -> Result<(), AllocError>
    ensures { OnOk result (tally.new ≡ with_wrong tally.old product.now) }
{
    let Some(wrong) = tally.wrong.checked_add(1) else {
        return Err(AllocError);
    };
    tally.wrong = wrong;
    if tally.first.is_none() {
        let reference = text_or_empty(b"RecordReference", &product.below);
        tally.first = Some(WrongProduct {
            reference: Items::from_vec(Vec::from_slice(alloc, reference)?),
            place: product.line.place.copied(),
        });
    }
    Ok(())
}

/// Counts a product with these notes.
pub(crate) fn count_product(
    alloc: Global,
    tally: &mut Tally,
    product: &Composite<'_>,
    notes: &[Note<'_>],
) -> Result<(), AllocError>
    ensures { OnOk result (tally.new ≡ tallied tally.old product.now (note_views notes.now)) }
{
    if is_of_others(notes) {
        tally.has_wrong_others = either(tally.has_wrong_others, has_wrong(notes));
        return Ok(());
    }
    if has_wrong(notes) {
        count_wrong(alloc, tally, product)?;
    }
    let Some(products) = tally.products.checked_add(1) else {
        return Err(AllocError);
    };
    tally.products = products;
    Ok(())
}

// Whether more products are wrong than are allowed.
fn too_many(allowed: Allowed, wrong: u32, products: u32) -> bool
    ensures { result ≡ too_many allowed wrong products }
{
    let wrong = u64::from(wrong);
    let products = u64::from(products);
    match allowed {
        Allowed::NoWrong => 0 < wrong,
        Allowed::FewWrong => {
            (10 < wrong && products < 100 * wrong) || (1 < wrong && products < 2 * wrong)
        }
        Allowed::AllWrong => false,
    }
}

/// Why a message with these products is refused, where too many of them are wrong.
pub(crate) fn refused_for(
    alloc: Global,
    allowed: Allowed,
    tally: &Tally,
) -> Result<Option<Refusal>, AllocError>
    ensures { IfOk result (λ r. r ≡ refused_for allowed tally.now) }
{
    if !too_many(allowed, tally.wrong, tally.products) {
        return Ok(None);
    }
    let Some(first) = &tally.first else {
        return Ok(None);
    };
    let reference = Items::from_vec(Vec::from_slice(alloc, first.reference.as_slice())?);
    Ok(Some(Refusal::Wrong(tally.wrong, tally.products, reference, first.place.copied())))
}
