//! The records of a catalogue, in the answer that lists them.

ghost use Rattle.std.specs.Prelude.{◌≡◌, ◌++◌, ◌∷◌, [], OnOk, codes};
ghost use Rattle.std.specs.Fmt.{decimal};
ghost use Rattle.std.specs.List.{flat_map};
ghost use Rattle.desk_texts.specs.CatalogueText.{catalogue_records, entry_records};
ghost use Rattle.onix_records.specs.Product.{identifier_fields};

use crate::text_rows::{fill, push_count};
use catalogue_rules::catalogue::Catalogue;
use catalogue_rules::entry::Entry;
use csv_records::buffer::RecordBuffer;
use csv_records::fields::FieldBuffer;
use onix_records::parts::ProductIdentifier;
use onix_records::product::push_identifiers;
use onix_records::supply::append_supplies;
use onix_terms::series_name::SeriesName;
use std::alloc::{AllocError, Global};

// A reference with the identifiers of its record.
fn fill_entry(
    out: &mut FieldBuffer,
    reference: &str,
    ids: &[ProductIdentifier],
) -> Result<(), AllocError>
    ensures { OnOk result
        (out.new ≡ codes "record" ∷ reference.now ∷ flat_map identifier_fields ids.now) }
{
    fill(out, &["record", reference])?;
    push_identifiers(out, ids)
}

// Adds the records of what a catalogue keeps under a reference.
fn push_entry(
    alloc: Global,
    out: &mut FieldBuffer,
    records: &mut RecordBuffer,
    reference: &str,
    entry: &Entry,
) -> Result<(), AllocError>
    ensures { OnOk result (records.new ≡ records.old ++ entry_records (reference.now, entry.now)) }
{
    fill_entry(out, reference, entry.ids.as_slice())?;
    records.push(&out.as_record())?;
    append_supplies(alloc, out, records, entry.supplies.as_slice())
}

// The record that begins the answer: the series, and how many records follow.
fn fill_head(out: &mut FieldBuffer, series: &SeriesName, count: usize) -> Result<(), AllocError>
    ensures { OnOk result (out.new ≡ codes "catalogue" ∷ series.now ∷ decimal count ∷ []) }
{
    fill(out, &["catalogue", series.as_str()])?;
    push_count(out, count)
}

/// Adds the records of a catalogue, in order of reference.
#[tactic(auto, unfolding(crate::specs::CatalogueText::catalogue_records))]
pub(crate) fn push_catalogue(
    alloc: Global,
    out: &mut FieldBuffer,
    records: &mut RecordBuffer,
    series: &SeriesName,
    catalogue: &Catalogue,
) -> Result<(), AllocError>
    ensures { OnOk result
        (records.new ≡ records.old ++ catalogue_records series.now catalogue.now) }
{
    fill_head(out, series, catalogue.len())?;
    records.push(&out.as_record())?;
    for (reference, entry) in catalogue.entries() {
        push_entry(alloc, out, records, reference.as_str(), entry)?;
    }
    Ok(())
}
