//! The Markets of a ProductSupply, as one.

ghost use Rattle.std.specs.Prelude.{◌≡◌, ◌++◌, ◌∷◌, ◌<◌, ◌||◌, [], List, None, Some, IfOk, OnOk, codes, false, option_map, option_to_list};
ghost use Rattle.std.specs.List.{flat_map, list_any};
ghost use Rattle.std.specs.Option.{option_or};
ghost use Rattle.feed_mapping.specs.Elements.{composites};
ghost use Rattle.feed_mapping.specs.Markets.{IsFilled, IsKept, early_market_reasons, first_kept, kept_area, kept_fields, kept_outcome, is_foreign_market, market_notes, markets_outcome, some_outcome, supply_record, territories_of, territory_of};
ghost use Rattle.feed_mapping.specs.Notes.{Reason as Said, foreign, note_views};
ghost use Rattle.feed_mapping.specs.Outcomes.{notes_below, outcome_reason, outcome_records};
ghost use Rattle.feed_mapping.specs.PriceViews.{reason_read};
ghost use Rattle.feed_mapping.specs.Records.{first_some};
ghost use Rattle.feed_mapping.specs.Territories.{area_view};

use crate::elements::{Composite, first_composite, next_composite};
use crate::notes::{Foreign, Note, Reason, Wrong, push_note};
use crate::records::{former as or_reason, unless};
use crate::territories::{
    Area, area_in, countries_reason, fill_as_it_stands, fill_as_union, form_reason,
    push_territory_notes, read_market, renamed_in, unsupported,
};
use crate::unions::union;
use csv_records::buffer::RecordBuffer;
use csv_records::fields::FieldBuffer;
use feed_outline::Elements;
use onix_records::row::RowFault;
use onix_terms::items::Items;
use onix_terms::territory::Territory;
use std::alloc::{AllocError, Global};

// Why a Market is left out, whatever countries it names.
fn early_reason<'a>(area: &Area<'a>) -> Option<Reason<'a>>
    ensures { reason_read result ≡ first_some (early_market_reasons (area_view area.now)) }
{
    let absent = unless(area.line.is_some(), Wrong::NoTerritory, b"");
    let formed = or_reason(form_reason(area), or_reason(absent, None));
    or_reason(unsupported(area), formed)
}

// Where a Market holds, or why it is left out.
fn read_territory<'a>(
    alloc: Global,
    area: &Area<'a>,
) -> Result<Result<Territory, Reason<'a>>, AllocError>
    ensures { IfOk result (λ r. IsKept r (area_view area.now)) }
{
    if let Some(reason) = early_reason(area) {
        return Ok(Err(reason));
    }
    let renamed = renamed_in(alloc, area)?;
    match read_market(alloc, area, &renamed) {
        Ok(supply) => Ok(Ok(supply.market)),
        Err(RowFault::Wrong) => Ok(Err(countries_reason(alloc, area, &renamed)?)),
        Err(RowFault::Memory) => Err(AllocError),
    }
}

/// Why the first Market among the elements is left out, where it is.
pub(crate) fn first_market_reason<'a>(
    alloc: Global,
    elements: &Elements<'a>,
) -> Result<Option<Reason<'a>>, AllocError> {
    match first_composite(b"Market", elements) {
        Some(market) => {
            let area = area_in(&market.below);
            match read_territory(alloc, &area)? {
                Ok(_) => Ok(None),
                Err(reason) => Ok(Some(reason)),
            }
        }
        None => Ok(None),
    }
}

// What is found of Markets: where those hold that are not left out, the first of them as it stands,
// and whether another is left out as foreign.
#[derive(Drop)]
struct Kept<'a> {
    territories: Items<Territory>,
    first: Option<Area<'a>>,
    some_foreign: bool,
}

fn former<'a>(one: Option<Area<'a>>, other: Area<'a>) -> Option<Area<'a>>
    ensures { option_map area_view result
        ≡ option_or (option_map area_view one.entry) (Some (area_view other.entry)) }
{
    match one {
        Some(area) => Some(area),
        None => Some(other),
    }
}

// Takes a Market, and adds the notes on it.
fn take_market<'a>(
    alloc: Global,
    market: &Composite<'a>,
    kept: &mut Kept<'a>,
    notes: &mut Vec<Note<'a>>,
) -> Result<(), AllocError>
    ensures territories { OnOk result
        (kept.new.territories ≡ kept.old.territories ++ option_to_list (territory_of market.now)) }
    ensures first { OnOk result
        (option_map area_view kept.new.first
        ≡ option_or (option_map area_view kept.old.first) (kept_area market.now)) }
    ensures foreign { OnOk result
        (kept.new.some_foreign ≡ (kept.old.some_foreign || is_foreign_market market.now)) }
    ensures notes { OnOk result
        (note_views notes.new.items ≡ note_views notes.old.items ++ market_notes market.now) }
{
    let area = area_in(&market.below);
    match read_territory(alloc, &area)? {
        Ok(territory) => {
            kept.territories.push(territory)?;
            kept.first = former(kept.first, area);
            push_territory_notes(notes, &area)
        }
        Err(reason) => {
            kept.some_foreign = kept.some_foreign || !reason.kind.is_wrong();
            push_note(notes, market.line, reason)
        }
    }
}

// What is found of all Markets, with the notes on them.
fn take_markets<'a>(
    alloc: Global,
    elements: &Elements<'a>,
    notes: &mut Vec<Note<'a>>,
) -> Result<Kept<'a>, AllocError>
    ensures territories { IfOk result (λ h. h.territories
        ≡ territories_of (composites (codes "Market") elements.now)) }
    ensures first { IfOk result (λ h. option_map area_view h.first
        ≡ first_kept (composites (codes "Market") elements.now)) }
    ensures foreign { IfOk result (λ h. h.some_foreign
        ≡ list_any is_foreign_market (composites (codes "Market") elements.now)) }
    ensures notes { OnOk result (note_views notes.new.items ≡ note_views notes.old.items
        ++ flat_map market_notes (composites (codes "Market") elements.now)) }
{
    let mut kept = Kept {
        territories: Items::new(alloc),
        first: None,
        some_foreign: false,
    };
    let mut rest = elements.copy();
    while let Some((market, behind)) = next_composite(b"Market", &rest) {
        take_market(alloc, &market, &mut kept, notes)?;
        rest = behind;
    }
    Ok(kept)
}

// Puts the record of a ProductSupply into the buffer, of one Market as it stands, of several as
// one. It is false where that is too long.
fn fill_kept(
    alloc: Global,
    fields: &mut FieldBuffer,
    first: &Area<'_>,
    territories: &[Territory],
) -> Result<bool, AllocError>
    ensures { IfOk result
        (λ is. IsFilled is fields.new (kept_fields (area_view first.now) territories.now)) }
{
    if territories.len() == 1 {
        fill_as_it_stands(alloc, fields, first)?;
        return Ok(true);
    }
    match union(alloc, territories)? {
        None => {
            fill_as_it_stands(alloc, fields, first)?;
            Ok(true)
        }
        Some(territory) => fill_as_union(alloc, fields, &territory),
    }
}

// Adds the record of a ProductSupply of Markets that are left, of which this is the first, or tells
// that it is too long.
fn add_first(
    alloc: Global,
    first: &Area<'_>,
    territories: &[Territory],
    fields: &mut FieldBuffer,
    records: &mut RecordBuffer,
) -> Result<Option<Reason<'static>>, AllocError>
    ensures reason { (notes : List Said)
        → IfOk result (λ reason. reason_read reason ≡ outcome_reason
        (kept_outcome (Some (area_view first.now)) territories.now false notes)) }
    ensures records { (notes : List Said) → OnOk result (records.new ≡ records.old
        ++ outcome_records
        (kept_outcome (Some (area_view first.now)) territories.now false notes)) }
{
    let is_filled = fill_kept(alloc, fields, first, territories)?;
    if is_filled {
        records.push(&fields.as_record())?;
        return Ok(None);
    }
    Ok(Some(Reason::foreign(Foreign::LongMarkets, b"")))
}

// Adds the record of a ProductSupply of what was found of its Markets, or tells why it is left out.
fn add_kept<'a>(
    alloc: Global,
    kept: &Kept<'a>,
    fields: &mut FieldBuffer,
    records: &mut RecordBuffer,
) -> Result<Option<Reason<'a>>, AllocError>
    ensures reason { (notes : List Said)
        → IfOk result (λ reason. reason_read reason ≡ outcome_reason
        (kept_outcome (option_map area_view kept.now.first) kept.now.territories
        kept.now.some_foreign notes)) }
    ensures records { (notes : List Said) → OnOk result (records.new
        ≡ records.old ++ outcome_records
        (kept_outcome (option_map area_view kept.now.first) kept.now.territories
        kept.now.some_foreign notes)) }
{
    let Some(first) = &kept.first else {
        return Ok(Some(if kept.some_foreign {
            Reason::foreign(Foreign::NoMarketLeft, b"")
        } else {
            Reason::wrong(Wrong::NoMarketLeft, b"")
        }));
    };
    add_first(alloc, first, kept.territories.as_slice(), fields, records)
}

// Adds the record of a ProductSupply of the world.
fn add_world(fields: &mut FieldBuffer, records: &mut RecordBuffer) -> Result<(), AllocError>
    ensures { OnOk result
        (records.new ≡ records.old ++ supply_record ([] ∷ [] ∷ [] ∷ []) ∷ []) }
{
    fields.clear();
    fields.push("ProductSupply")?;
    fields.push("")?;
    fields.push("")?;
    fields.push("")?;
    records.push(&fields.as_record())
}

// Adds the record of a ProductSupply that has Markets, or tells why it is left out.
fn add_some<'a>(
    alloc: Global,
    elements: &Elements<'a>,
    fields: &mut FieldBuffer,
    records: &mut RecordBuffer,
    notes: &mut Vec<Note<'a>>,
) -> Result<Option<Reason<'a>>, AllocError>
    ensures reason { IfOk result (λ reason. reason_read reason
        ≡ outcome_reason (some_outcome (composites (codes "Market") elements.now))) }
    ensures records { OnOk result (records.new ≡ records.old
        ++ outcome_records (some_outcome (composites (codes "Market") elements.now))) }
    ensures notes { OnOk result (note_views notes.new.items ≡ note_views notes.old.items
        ++ flat_map market_notes (composites (codes "Market") elements.now)) }
{
    let kept = take_markets(alloc, elements, notes)?;
    add_kept(alloc, &kept, fields, records)
}

/// Adds the record of a ProductSupply of all Markets among the elements, with notes
/// on them, or tells why they leave it out: the notes count only where they do not. The list takes
/// the fields of the record.
pub(crate) fn add_markets<'a>(
    alloc: Global,
    elements: &Elements<'a>,
    fields: &mut FieldBuffer,
    records: &mut RecordBuffer,
    notes: &mut Vec<Note<'a>>,
) -> Result<Option<Reason<'a>>, AllocError>
    ensures reason { IfOk result (λ reason. reason_read reason
        ≡ outcome_reason (markets_outcome (composites (codes "Market") elements.now))) }
    ensures records { OnOk result (records.new ≡ records.old
        ++ outcome_records (markets_outcome (composites (codes "Market") elements.now))) }
    ensures notes { IfOk result (λ kind. kind ≡ None
        → note_views notes.new.items ≡ note_views notes.old.items
        ++ notes_below (markets_outcome (composites (codes "Market") elements.now))) }
{
    if next_composite(b"Market", elements).is_none() {
        add_world(fields, records)?;
        return Ok(None);
    }
    add_some(alloc, elements, fields, records, notes)
}
