//! What of a Price is counted: its discounts, which are not read, and an amount that is rounded.

ghost use Rattle.std.specs.Prelude.{◌≡◌, OnOk};
ghost use Rattle.feed_mapping.specs.Notes.{note_views};

use crate::elements::{first_composite, next_composite};
use crate::notes::{Foreign, Note, push_aside};
use crate::price_amounts::rounded_amount;
use crate::price_texts::PriceTexts;
use feed_outline::Elements;
use std::alloc::AllocError;

// Adds a note on each element of this name.
fn push_unread<'a>(
    notes: &mut Vec<Note<'a>>,
    name: &[u8],
    kind: Foreign,
    elements: &Elements<'a>,
) -> Result<(), AllocError>
    ensures { OnOk result (note_views notes.new.items ≡ note_views notes.old.items) }
{
    let mut rest = elements.copy();
    while let Some((found, behind)) = next_composite(name, &rest) {
        push_aside(notes, found.line, kind, b"")?;
        rest = behind;
    }
    Ok(())
}

// Adds a note where the amount of a Price is rounded.
fn push_rounded<'a>(notes: &mut Vec<Note<'a>>, price: &PriceTexts<'a>) -> Result<(), AllocError>
    ensures { OnOk result (note_views notes.new.items ≡ note_views notes.old.items) }
{
    if rounded_amount(price.amount).is_none() {
        return Ok(());
    }
    match first_composite(b"PriceAmount", &price.below) {
        Some(amount) => push_aside(notes, amount.line, Foreign::Rounded, b""),
        None => Ok(()),
    }
}

/// Adds the notes on what of a Price is counted alone.
pub(crate) fn push_counted<'a>(
    notes: &mut Vec<Note<'a>>,
    price: &PriceTexts<'a>,
) -> Result<(), AllocError>
    ensures { OnOk result (note_views notes.new.items ≡ note_views notes.old.items) }
{
    push_unread(notes, b"Discount", Foreign::Discount, &price.below)?;
    push_unread(
        notes,
        b"DiscountCoded",
        Foreign::DiscountCoded,
        &price.below,
    )?;
    push_rounded(notes, price)
}
