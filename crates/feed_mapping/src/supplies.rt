//! The supplies of a Product.

ghost use Rattle.std.specs.Prelude.{◌≡◌, ◌++◌, ◌<◌, None, IfOk, OnOk, codes};
ghost use Rattle.feed_mapping.specs.Elements.{composites};
ghost use Rattle.feed_mapping.specs.Notes.{note_views, reason_view};
ghost use Rattle.feed_mapping.specs.Outcomes.{Outcome, all_notes, all_records, notes_below, outcome_notes, outcome_reason, outcome_records};
ghost use Rattle.feed_mapping.specs.PriceViews.{reason_read};
ghost use Rattle.feed_mapping.specs.Records.{option_filter};
ghost use Rattle.feed_mapping.specs.Supplies.{detail_in, details_in, detailed_outcome, first_lost, is_lost, none_left, supplies_reason, supply_in, supply_outcome};
ghost use Rattle.feed_mapping.specs.SupplyChoices.{supply_choices_view};

use crate::details::{add_detail, first_detail_reason};
use crate::elements::{Composite, next_composite};
use crate::markets::{add_markets, first_market_reason};
use crate::notes::{Foreign, Note, Reason, ReasonKind, Wrong, push_note, push_reason};
use crate::other_suppliers::next_detail;
use crate::parties::Pair;
use crate::records::former;
use crate::supply_choices::SupplyChoices;
use csv_records::buffer::RecordBuffer;
use csv_records::fields::FieldBuffer;
use feed_outline::{Elements, Line};
use onix_records::row::Opening;
use std::alloc::{AllocError, Global};

// Adds what comes of a SupplyDetail: its records, and notes on what is left out.
fn add_one_detail<'a>(
    alloc: Global,
    opening: &Opening,
    choices: &SupplyChoices<'_>,
    detail: &Composite<'a>,
    fields: &mut FieldBuffer,
    records: &mut RecordBuffer,
    notes: &mut Vec<Note<'a>>,
) -> Result<(), AllocError>
    ensures records { OnOk result (records.new
        ≡ records.old
        ++ outcome_records (detail_in opening.now (supply_choices_view choices.now) detail.now)) }
    ensures notes { OnOk result (note_views notes.new.items ≡ note_views notes.old.items
        ++ outcome_notes
        (detail_in opening.now (supply_choices_view choices.now) detail.now)) }
{
    let left_out = add_detail(
        alloc,
        opening,
        choices,
        &detail.below,
        fields,
        records,
        notes,
    )?;
    push_reason(notes, detail.line, left_out)
}

// Adds what comes of the SupplyDetails among the elements.
fn add_details<'a>(
    alloc: Global,
    opening: &Opening,
    choices: &SupplyChoices<'_>,
    elements: &Elements<'a>,
    fields: &mut FieldBuffer,
    records: &mut RecordBuffer,
    notes: &mut Vec<Note<'a>>,
) -> Result<(), AllocError>
    ensures records { OnOk result (records.new ≡ records.old
        ++ all_records (detail_in opening.now (supply_choices_view choices.now))
        (details_in (supply_choices_view choices.now) elements.now)) }
    ensures notes { OnOk result (note_views notes.new.items ≡ note_views notes.old.items
        ++ all_notes (detail_in opening.now (supply_choices_view choices.now))
        (details_in (supply_choices_view choices.now) elements.now)) }
{
    let mut rest = elements.copy();
    while let Some((detail, behind)) = next_detail(choices.supplier, &rest) {
        add_one_detail(alloc, opening, choices, &detail, fields, records, notes)?;
        rest = behind;
    }
    Ok(())
}

// Adds the records of a ProductSupply that has SupplyDetails that count, and notes on what is left out below
// it, or gives the reason for which it is left out: the notes count only where it is not.
fn add_detailed<'a>(
    alloc: Global,
    opening: &Opening,
    choices: &SupplyChoices<'_>,
    elements: &Elements<'a>,
    fields: &mut FieldBuffer,
    records: &mut RecordBuffer,
    notes: &mut Vec<Note<'a>>,
) -> Result<Option<Reason<'a>>, AllocError>
    ensures reason { IfOk result (λ reason. reason_read reason
        ≡ outcome_reason
        (detailed_outcome opening.now (supply_choices_view choices.now) elements.now)) }
    ensures records { OnOk result (records.new ≡ records.old
        ++ outcome_records
        (detailed_outcome opening.now (supply_choices_view choices.now) elements.now)) }
    ensures notes { IfOk result (λ kind. kind ≡ None → note_views notes.new.items
        ≡ note_views notes.old.items
        ++ notes_below
        (detailed_outcome opening.now (supply_choices_view choices.now) elements.now)) }
{
    let count = records.len();
    if let Some(reason) = add_markets(alloc, elements, fields, records, notes)? {
        return Ok(Some(reason));
    }
    let with_market = records.len();
    add_details(alloc, opening, choices, elements, fields, records, notes)?;
    if records.len() == with_market {
        records.truncate(count);
        return Ok(Some(Reason::wrong(Wrong::NoDetailLeft, b"")));
    }
    Ok(None)
}

// Adds the records of a ProductSupply, and notes on what is left out below it, or gives the reason
// for which it is left out.
fn add_supply<'a>(
    alloc: Global,
    opening: &Opening,
    choices: &SupplyChoices<'_>,
    elements: &Elements<'a>,
    fields: &mut FieldBuffer,
    records: &mut RecordBuffer,
    notes: &mut Vec<Note<'a>>,
) -> Result<Option<Reason<'a>>, AllocError>
    ensures reason { IfOk result (λ reason. reason_read reason
        ≡ outcome_reason
        (supply_outcome opening.now (supply_choices_view choices.now) elements.now)) }
    ensures records { OnOk result (records.new ≡ records.old
        ++ outcome_records
        (supply_outcome opening.now (supply_choices_view choices.now) elements.now)) }
    ensures notes { IfOk result (λ kind. kind ≡ None → note_views notes.new.items
        ≡ note_views notes.old.items
        ++ notes_below
        (supply_outcome opening.now (supply_choices_view choices.now) elements.now)) }
{
    if next_detail(choices.supplier, elements).is_some() {
        return add_detailed(alloc, opening, choices, elements, fields, records, notes);
    }
    if next_composite(b"SupplyDetail", elements).is_some() {
        return Ok(None);
    }
    Ok(Some(Reason::foreign(Foreign::NoSupplyDetail, b"")))
}

// Adds the note on an element that is left out for this reason, else the notes below it.
fn push_outcome<'a>(
    notes: &mut Vec<Note<'a>>,
    line: &'a Line,
    left_out: Option<Reason<'a>>,
    below: &Vec<Note<'a>>,
) -> Result<(), AllocError>
    ensures { (outcome : Outcome) → reason_read left_out.entry ≡ outcome_reason outcome
        → (left_out.entry ≡ None → note_views below.now.items ≡ notes_below outcome)
        → OnOk result (note_views notes.new.items
        ≡ note_views notes.old.items ++ outcome_notes outcome) }
{
    match left_out {
        None => notes.extend_from_slice(below),
        Some(reason) => push_note(notes, line, reason),
    }
}

// Adds what comes of a ProductSupply: its records, and notes on what is left out. It gives the
// reason for which it is left out.
fn add_one_supply<'a>(
    alloc: Global,
    opening: &Opening,
    choices: &SupplyChoices<'_>,
    supply: &Composite<'a>,
    fields: &mut FieldBuffer,
    records: &mut RecordBuffer,
    notes: &mut Vec<Note<'a>>,
) -> Result<Option<Reason<'a>>, AllocError>
    ensures reason { IfOk result (λ reason. reason_read reason
        ≡ outcome_reason (supply_in opening.now (supply_choices_view choices.now) supply.now)) }
    ensures records { OnOk result (records.new
        ≡ records.old
        ++ outcome_records (supply_in opening.now (supply_choices_view choices.now) supply.now)) }
    ensures notes { OnOk result (note_views notes.new.items ≡ note_views notes.old.items
        ++ outcome_notes
        (supply_in opening.now (supply_choices_view choices.now) supply.now)) }
{
    let mut below: Vec<Note<'a>> = Vec::new(alloc);
    let left_out = add_supply(
        alloc,
        opening,
        choices,
        &supply.below,
        fields,
        records,
        &mut below,
    )?;
    push_outcome(notes, supply.line, left_out, &below)?;
    Ok(left_out)
}

// The reason for which a ProductSupply that has a SupplyDetail is left out.
fn lost_by<'a>(left_out: Option<Reason<'a>>) -> Option<Reason<'a>>
    ensures { reason_read result
        ≡ option_filter (λ r. is_lost r.kind) (reason_read left_out.entry) }
{
    match left_out {
        None => None,
        Some(reason) => match reason.kind {
            ReasonKind::Foreign(Foreign::NoSupplyDetail) => None,
            _ => Some(reason),
        },
    }
}

// Adds what comes of all ProductSupplys among the elements. It gives the reason for
// which the first that has a SupplyDetail is left out.
fn add_each<'a>(
    alloc: Global,
    opening: &Opening,
    choices: &SupplyChoices<'_>,
    elements: &Elements<'a>,
    fields: &mut FieldBuffer,
    records: &mut RecordBuffer,
    notes: &mut Vec<Note<'a>>,
) -> Result<Option<Reason<'a>>, AllocError>
    ensures lost { IfOk result
        (λ reason. reason_read reason ≡ first_lost opening.now (supply_choices_view choices.now)
        (composites (codes "ProductSupply") elements.now)) }
    ensures records { OnOk result (records.new ≡ records.old ++ all_records
        (supply_in opening.now (supply_choices_view choices.now))
        (composites (codes "ProductSupply") elements.now)) }
    ensures notes { OnOk result (note_views notes.new.items ≡ note_views notes.old.items
        ++ all_notes (supply_in opening.now (supply_choices_view choices.now))
        (composites (codes "ProductSupply") elements.now)) }
{
    let mut lost = None;
    let mut rest = elements.copy();
    while let Some((supply, behind)) = next_composite(b"ProductSupply", &rest) {
        let left_out = add_one_supply(alloc, opening, choices, &supply, fields, records, notes)?;
        lost = former(lost, lost_by(left_out));
        rest = behind;
    }
    Ok(lost)
}

// That no supply is left, where the first that is lost is so.
fn none_left(first: Reason<'_>) -> Reason<'static>
    ensures { reason_view result ≡ none_left (reason_view first.entry) }
{
    let kind = if first.kind.is_wrong() {
        ReasonKind::Wrong(Wrong::NoSupplyLeft)
    } else {
        ReasonKind::Foreign(Foreign::NoSupplyLeft)
    };
    Reason { kind, text: b"" }
}

/// Adds the records of all ProductSupplys among the elements, in a message that
/// begins so, and notes on what is left out of them. It gives a reason where some had a
/// SupplyDetail and none is left. Of several identifiers of a supplier the first of the preferred
/// type is written, else the first. The list takes the fields of a record.
pub(crate) fn add_supplies<'a>(
    alloc: Global,
    opening: &Opening,
    choices: &SupplyChoices<'_>,
    elements: &Elements<'a>,
    fields: &mut FieldBuffer,
    records: &mut RecordBuffer,
    notes: &mut Vec<Note<'a>>,
) -> Result<Option<Reason<'a>>, AllocError>
    ensures reason { IfOk result (λ reason. reason_read reason
        ≡ supplies_reason opening.now (supply_choices_view choices.now)
        (composites (codes "ProductSupply") elements.now)) }
    ensures records { OnOk result (records.new ≡ records.old ++ all_records
        (supply_in opening.now (supply_choices_view choices.now))
        (composites (codes "ProductSupply") elements.now)) }
    ensures notes { OnOk result (note_views notes.new.items ≡ note_views notes.old.items
        ++ all_notes (supply_in opening.now (supply_choices_view choices.now))
        (composites (codes "ProductSupply") elements.now)) }
{
    let count = records.len();
    let lost = add_each(alloc, opening, choices, elements, fields, records, notes)?;
    if records.len() != count {
        return Ok(None);
    }
    match lost {
        None => Ok(None),
        Some(first) => Ok(Some(none_left(first))),
    }
}

/// Why the first is left out of the Markets or of the SupplyDetails of a ProductSupply that count,
/// whose elements these are, where it is left out for a reason of this kind, since all of them are:
/// words for a person, of which no clause tells.
pub fn first_reason<'a>(
    alloc: Global,
    supplier: Option<Pair<'_>>,
    preferred: &[u8],
    kind: ReasonKind,
    elements: &Elements<'a>,
) -> Result<Option<Reason<'a>>, AllocError> {
    match kind {
        ReasonKind::Wrong(Wrong::NoDetailLeft) => {
            first_detail_reason(alloc, supplier, preferred, elements)
        }
        ReasonKind::Wrong(Wrong::NoMarketLeft) | ReasonKind::Foreign(Foreign::NoMarketLeft) => {
            first_market_reason(alloc, elements)
        }
        _ => Ok(None),
    }
}
