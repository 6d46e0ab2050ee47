//! The records of a report on the gaps of a series.

ghost use Rattle.std.specs.Prelude.{◌≡◌, ◌++◌, ◌∷◌, [], OnOk, codes};
ghost use Rattle.std.specs.Fmt.{decimal};
ghost use Rattle.std.specs.Option.{option_map_or};
ghost use Rattle.desk_texts.specs.GapText.{gap_fields, gap_records, missing_fields};

use crate::text_rows::{fill, push_labelled, push_number};
use csv_records::buffer::RecordBuffer;
use csv_records::fields::FieldBuffer;
use onix_terms::number::Number;
use series_rules::answers::GapReport;
use std::alloc::{AllocError, Global};

// Adds the greatest number that has something, or nothing behind its name.
fn push_greatest(
    alloc: Global,
    out: &mut FieldBuffer,
    greatest: Option<Number>,
) -> Result<(), AllocError>
    ensures { OnOk result
        (out.new ≡ out.old ++ (codes "greatest=" ++ option_map_or decimal greatest []) ∷ []) }
{
    match greatest {
        None => out.push("greatest="),
        Some(number) => push_labelled(alloc, out, &[("greatest=", u64::from(number.value()))]),
    }
}

// The record that begins the answer: the numbers of the report, each behind its name.
#[tactic(auto, unfolding(crate::specs::GapText::gap_fields))]
fn fill_head(alloc: Global, out: &mut FieldBuffer, report: &GapReport) -> Result<(), AllocError>
    ensures { OnOk result (out.new ≡ gap_fields report.now) }
{
    let first = u64::from(report.first.value());
    let next = u64::from(report.next);
    let missing = report.missing.len() as u64;
    fill(out, &["gaps", report.series.as_str()])?;
    push_labelled(alloc, out, &[("first=", first), ("next=", next)])?;
    push_greatest(alloc, out, report.greatest)?;
    push_labelled(alloc, out, &[("held=", report.held), ("missing=", missing)])
}

// The record of numbers that are missing.
fn fill_missing(out: &mut FieldBuffer, first: Number, last: Number) -> Result<(), AllocError>
    ensures { OnOk result (out.new ≡ missing_fields (first, last)) }
{
    fill(out, &["missing"])?;
    push_number(out, first.value())?;
    push_number(out, last.value())
}

/// Adds the records of a report: its numbers, and then each range of numbers that are missing.
#[tactic(auto, unfolding(crate::specs::GapText::gap_records))]
pub(crate) fn push_gaps(
    alloc: Global,
    out: &mut FieldBuffer,
    records: &mut RecordBuffer,
    report: &GapReport,
) -> Result<(), AllocError>
    ensures { OnOk result (records.new ≡ records.old ++ gap_records report.now) }
{
    fill_head(alloc, out, report)?;
    records.push(&out.as_record())?;
    let missing = report.missing.as_slice();
    for range in missing {
        fill_missing(out, range.0, range.1)?;
        records.push(&out.as_record())?;
    }
    Ok(())
}
