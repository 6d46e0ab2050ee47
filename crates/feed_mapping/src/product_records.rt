//! The records of a Product and of its supplies.

ghost use Rattle.std.specs.Prelude.{◌≡◌, ◌++◌, ◌∷◌, ◌<◌, [], None, IfOk, OnOk, option_map};
ghost use Rattle.feed_mapping.specs.Notes.{note_views};
ghost use Rattle.feed_mapping.specs.Outcomes.{all_notes, all_records};
ghost use Rattle.feed_mapping.specs.PartyViews.{pair_view};
ghost use Rattle.feed_mapping.specs.PriceViews.{reason_read};
ghost use Rattle.feed_mapping.specs.ProductRecords.{fate_of, is_alone, notes_behind, notification_written, product_notes, product_records, fate_by, records_by, supplies_in, too_large_notes, why_emptied, written_notes};
ghost use Rattle.feed_mapping.specs.Supplies.{supplies_reason, supply_in};
ghost use Rattle.std.specs.Option.{option_map_or};
ghost use Rattle.feed_mapping.specs.Products.{bare_record, dropping, notification_in, own_reason, product_record, right_pairs};
ghost use Rattle.feed_mapping.specs.SupplyChoices.{supply_choices_view};

use crate::elements::Composite;
use crate::notes::{Foreign, Note, Reason, Wrong, push_aside, push_note};
use crate::other_suppliers::is_of_others;
use crate::parties::Pair;
use crate::products::{
    Identifiers, dropping, fill_product, is_deletion, notification_in, own_reason, reference_in,
    take_identifiers,
};
use crate::records::is_field;
use crate::supplies::add_supplies;
use crate::supply_choices::SupplyChoices;
use csv_records::buffer::RecordBuffer;
use csv_records::fields::FieldBuffer;
use feed_outline::Elements;
use onix_records::row::Opening;
use std::alloc::{AllocError, Global};

/// What becomes of a Product.
#[derive(Clone, Copy, Debug, PartialEq, Eq)]
pub enum Fate {
    /// It is written, with what is left of its supplies.
    Written,
    /// It is written without supplies, with a note that says why.
    Emptied,
    /// It is left out, since it has no RecordReference that the desk would take.
    LeftOut,
}

// Whether the desk does not ignore a product of this NotificationType.
fn is_followed(notification: &[u8]) -> bool {
    notification == b"01".as_slice()
        || notification == b"02".as_slice()
        || notification == b"03".as_slice()
        || notification == b"04".as_slice()
        || notification == b"05".as_slice()
}

// Whether a Product is of other suppliers alone.
fn is_alone(supplier: Option<Pair<'_>>, elements: &Elements<'_>) -> bool
    ensures { result ≡ is_alone (option_map pair_view supplier.entry) elements.now }
{
    supplier.is_some() && !is_deletion(elements) && is_of_others(supplier, elements)
}

// Adds the notes on a Product that is written.
fn push_written_notes<'a>(
    supplier: Option<Pair<'_>>,
    is_found: bool,
    product: &Composite<'a>,
    notes: &mut Vec<Note<'a>>,
) -> Result<(), AllocError>
    ensures { OnOk result (note_views notes.new.items ≡ note_views notes.old.items
        ++ written_notes (option_map pair_view supplier.entry) product.now.below) }
{
    let elements = &product.below;
    let notification = notification_in(elements);
    if !is_deletion(elements) && !is_found {
        push_aside(notes, product.line, Foreign::NoIsbn, b"")?;
    }
    if !is_followed(notification) {
        push_aside(notes, product.line, Foreign::Ignored, notification)?;
    }
    if is_alone(supplier, elements) {
        push_note(notes, product.line, Reason::foreign(Foreign::OfOthers, b""))?;
    }
    Ok(())
}

// Adds the record of a Product, with this NotificationType and these types and values.
fn add_record(
    notification: &[u8],
    pairs: &FieldBuffer,
    elements: &Elements<'_>,
    fields: &mut FieldBuffer,
    records: &mut RecordBuffer,
) -> Result<(), AllocError>
    ensures { OnOk result (records.new
        ≡ records.old ++ product_record notification.now pairs.now elements.now ∷ []) }
{
    fill_product(notification, pairs, elements, fields)?;
    records.push(&fields.as_record())
}

// The NotificationType of a Product that stands: of one of other suppliers alone it is such that the
// desk drops the supplies that it has.
fn notification_written<'a>(supplier: Option<Pair<'_>>, elements: &Elements<'a>) -> &'a [u8]
    ensures { result.now
        ≡ notification_written (option_map pair_view supplier.entry) elements.now }
{
    let notification = notification_in(elements);
    if is_alone(supplier, elements) {
        dropping(notification)
    } else {
        notification
    }
}

// Adds the records below a Product, and notes on what is left out of them, or gives the reason for
// which none is left.
fn add_below<'a>(
    alloc: Global,
    opening: &Opening,
    choices: &SupplyChoices<'_>,
    elements: &Elements<'a>,
    fields: &mut FieldBuffer,
    records: &mut RecordBuffer,
    notes: &mut Vec<Note<'a>>,
) -> Result<Option<Reason<'a>>, AllocError>
    ensures reason { IfOk result (λ reason. reason_read reason
        ≡ supplies_reason opening.now (supply_choices_view choices.now)
        (supplies_in elements.now)) }
    ensures records { OnOk result (records.new ≡ records.old
        ++ all_records (supply_in opening.now (supply_choices_view choices.now))
        (supplies_in elements.now)) }
    ensures notes { OnOk result (note_views notes.new.items ≡ note_views notes.old.items
        ++ all_notes (supply_in opening.now (supply_choices_view choices.now))
        (supplies_in elements.now)) }
{
    if is_deletion(elements) {
        return Ok(None);
    }
    add_supplies(alloc, opening, choices, elements, fields, records, notes)
}

// Adds what comes of a Product with these identifiers, of which no own field empties it.
fn add_sound<'a>(
    opening: &Opening,
    choices: &SupplyChoices<'_>,
    product: &Composite<'a>,
    identifiers: &Identifiers,
    fields: &mut FieldBuffer,
    records: &mut RecordBuffer,
    notes: &mut Vec<Note<'a>>,
) -> Result<Fate, AllocError>
    ensures fate { IfOk result (λ f. f ≡ fate_by
        (supplies_reason opening.now (supply_choices_view choices.now)
        (supplies_in product.now.below))) }
    ensures records { identifiers.now.pairs ≡ right_pairs product.now.below
        → OnOk result
        (records.new ≡ records.old ++ records_by opening.now (supply_choices_view choices.now)
        (supplies_reason opening.now (supply_choices_view choices.now)
        (supplies_in product.now.below))
        product.now.below) }
    ensures notes { OnOk result (note_views notes.new.items ≡ note_views notes.old.items
        ++ notes_behind opening.now (supply_choices_view choices.now) product.now.below) }
{
    let alloc = *notes.allocator();
    let count = records.len();
    let elements = &product.below;
    add_record(
        notification_written(choices.supplier, elements),
        &identifiers.pairs,
        elements,
        fields,
        records,
    )?;
    match add_below(alloc, opening, choices, elements, fields, records, notes)? {
        None => {
            push_written_notes(choices.supplier, identifiers.has_isbn, product, notes)?;
            Ok(Fate::Written)
        }
        Some(reason) => {
            records.truncate(count);
            let notification = dropping(notification_in(elements));
            add_record(notification, &identifiers.pairs, elements, fields, records)?;
            push_note(notes, product.line, reason)?;
            Ok(Fate::Emptied)
        }
    }
}

// Adds what comes of a Product that has a RecordReference, behind the notes on its identifiers.
fn add_standing<'a>(
    opening: &Opening,
    choices: &SupplyChoices<'_>,
    product: &Composite<'a>,
    identifiers: &Identifiers,
    fields: &mut FieldBuffer,
    records: &mut RecordBuffer,
    notes: &mut Vec<Note<'a>>,
) -> Result<Fate, AllocError>
    ensures fate { identifiers.now.pairs ≡ right_pairs product.now.below → IfOk result (λ f. f
        ≡ fate_by (why_emptied opening.now (supply_choices_view choices.now) product.now.below)) }
    ensures records { identifiers.now.pairs ≡ right_pairs product.now.below
        → OnOk result
        (records.new ≡ records.old ++ records_by opening.now (supply_choices_view choices.now)
        (why_emptied opening.now (supply_choices_view choices.now) product.now.below)
        product.now.below) }
    ensures notes { identifiers.now.pairs ≡ right_pairs product.now.below
        → OnOk result (note_views notes.new.items ≡ note_views notes.old.items
        ++ option_map_or (λ reason. reason ∷ [])
        (own_reason (supply_choices_view choices.now).supplier product.now.below)
        (notes_behind opening.now (supply_choices_view choices.now) product.now.below)) }
{
    match own_reason(choices.supplier, &identifiers.pairs, &product.below) {
        Some(reason) => {
            let notification = dropping(notification_in(&product.below));
            add_record(
                notification,
                &identifiers.pairs,
                &product.below,
                fields,
                records,
            )?;
            push_note(notes, product.line, reason)?;
            Ok(Fate::Emptied)
        }
        None => add_sound(
            opening,
            choices,
            product,
            identifiers,
            fields,
            records,
            notes,
        ),
    }
}

/// Adds the records of a Product and of its supplies, in a message that begins so, and notes on
/// what is left out of it; it tells what becomes of it. Of several identifiers of a supplier the
/// first of the preferred type is written, else the first. The list takes the fields of a record.
/// After an error there may be more records and notes.
pub fn add_product<'a>(
    alloc: Global,
    opening: &Opening,
    choices: &SupplyChoices<'_>,
    product: &Composite<'a>,
    fields: &mut FieldBuffer,
    records: &mut RecordBuffer,
    notes: &mut Vec<Note<'a>>,
) -> Result<Fate, AllocError>
    ensures fate { IfOk result
        (λ f. f ≡ fate_of opening.now (supply_choices_view choices.now) product.now.below) }
    ensures records { OnOk result (records.new
        ≡ records.old
        ++ product_records opening.now (supply_choices_view choices.now) product.now.below) }
    ensures notes { OnOk result (note_views notes.new.items
        ≡ note_views notes.old.items
        ++ product_notes opening.now (supply_choices_view choices.now) product.now.below) }
{
    let reference = reference_in(&product.below);
    if !is_field(reference) {
        let reason = Reason::wrong(Wrong::RecordReference, reference);
        push_note(notes, product.line, reason)?;
        return Ok(Fate::LeftOut);
    }
    let identifiers = take_identifiers(alloc, &product.below, notes)?;
    add_standing(
        opening,
        choices,
        product,
        &identifiers,
        fields,
        records,
        notes,
    )
}

/// Adds the notes on a Product that is emptied since it is too large for a message.
pub fn push_too_large<'a>(
    alloc: Global,
    product: &Composite<'a>,
    notes: &mut Vec<Note<'a>>,
) -> Result<(), AllocError>
    ensures { OnOk result (note_views notes.new.items
        ≡ note_views notes.old.items ++ too_large_notes product.now.below) }
{
    take_identifiers(alloc, &product.below, notes)?;
    push_note(notes, product.line, Reason::wrong(Wrong::TooLarge, b""))
}

/// Adds the record of a Product that is emptied since it is too large for a message, or too large
/// even so: its reference stands for its identifiers.
pub fn add_bare(
    alloc: Global,
    product: &Composite<'_>,
    fields: &mut FieldBuffer,
    records: &mut RecordBuffer,
) -> Result<(), AllocError>
    ensures { OnOk result (records.new ≡ records.old ++ bare_record product.now.below ∷ []) }
{
    let none = FieldBuffer::new(alloc);
    let notification = dropping(notification_in(&product.below));
    add_record(notification, &none, &product.below, fields, records)
}
