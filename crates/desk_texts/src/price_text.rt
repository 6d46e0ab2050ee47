//! The records of answers about the offers of an article.

ghost use Rattle.std.specs.Prelude.{◌≡◌, ◌++◌, OnOk, Some, map};
ghost use Rattle.desk_texts.specs.PriceText.{calendar_records, choice_fields, dated_records, head_fields, listed_fields, price_records, priced_fields, span_fields};

use crate::text_rows::{fill, push_count, push_number};
use csv_records::buffer::RecordBuffer;
use csv_records::fields::FieldBuffer;
use onix_records::fields::{push_amount, push_day};
use onix_terms::isbn13::Isbn13;
use price_rules::calendar::Span;
use series_rules::answers::{ChosenOffer, ListedOffer, OfferCalendar, PricedOffer};
use std::alloc::{AllocError, Global};

// The record that begins an answer: its name, the article, and how many offers follow.
fn fill_head(
    out: &mut FieldBuffer,
    name: &str,
    isbn: &Isbn13,
    count: usize,
) -> Result<(), AllocError>
    ensures { OnOk result (out.new ≡ head_fields name.now isbn.now count) }
{
    fill(out, &[name, isbn.as_str()])?;
    push_count(out, count)
}

// Adds which offer it is.
fn push_offer(out: &mut FieldBuffer, offer: &ListedOffer) -> Result<(), AllocError>
    ensures { OnOk result (out.new ≡ out.old ++ listed_fields offer.now) }
{
    out.push(offer.series.as_str())?;
    out.push(offer.reference.as_str())?;
    push_number(out, offer.place)?;
    out.push(offer.availability.as_str())
}

fn fill_priced(alloc: Global, out: &mut FieldBuffer, priced: &PricedOffer) -> Result<(), AllocError>
    ensures { OnOk result (out.new ≡ priced_fields priced.now) }
{
    fill(out, &["offer"])?;
    push_offer(out, &priced.offer)?;
    push_amount(alloc, out, priced.amount)
}

/// Adds the records of the offers of an article with their current prices.
#[tactic(auto, unfolding(crate::specs::PriceText::price_records))]
pub(crate) fn push_prices(
    alloc: Global,
    out: &mut FieldBuffer,
    records: &mut RecordBuffer,
    isbn: &Isbn13,
    offers: &[PricedOffer],
) -> Result<(), AllocError>
    ensures { OnOk result (records.new ≡ records.old ++ price_records isbn.now offers.now) }
{
    fill_head(out, "price", isbn, offers.len())?;
    records.push(&out.as_record())?;
    for priced in offers {
        fill_priced(alloc, out, priced)?;
        records.push(&out.as_record())?;
    }
    Ok(())
}

fn fill_chosen(
    alloc: Global,
    out: &mut FieldBuffer,
    isbn: &Isbn13,
    chosen: &ChosenOffer,
) -> Result<(), AllocError>
    ensures { OnOk result (out.new ≡ choice_fields isbn.now (Some chosen.now)) }
{
    fill(out, &["choice", isbn.as_str()])?;
    push_number(out, chosen.rule)?;
    push_offer(out, &chosen.offer)?;
    push_amount(alloc, out, Some(chosen.amount))
}

/// Puts the record of the choice among the offers of an article in place of what the list had.
pub(crate) fn fill_choice(
    alloc: Global,
    out: &mut FieldBuffer,
    isbn: &Isbn13,
    choice: &Option<ChosenOffer>,
) -> Result<(), AllocError>
    ensures { OnOk result (out.new ≡ choice_fields isbn.now choice.now) }
{
    match choice {
        Some(chosen) => fill_chosen(alloc, out, isbn, chosen),
        None => fill(out, &["choice", isbn.as_str(), "none"]),
    }
}

fn fill_span(alloc: Global, out: &mut FieldBuffer, span: &Span) -> Result<(), AllocError>
    ensures { OnOk result (out.new ≡ span_fields span.now) }
{
    fill(out, &["span"])?;
    push_day(alloc, out, Some(span.first))?;
    push_day(alloc, out, Some(span.last))?;
    push_amount(alloc, out, span.amount)
}

fn push_spans(
    alloc: Global,
    out: &mut FieldBuffer,
    records: &mut RecordBuffer,
    spans: &[Span],
) -> Result<(), AllocError>
    ensures { OnOk result (records.new ≡ records.old ++ map span_fields spans.now) }
{
    for span in spans {
        fill_span(alloc, out, span)?;
        records.push(&out.as_record())?;
    }
    Ok(())
}

// Adds the records of an offer's calendar.
fn push_calendar(
    alloc: Global,
    out: &mut FieldBuffer,
    records: &mut RecordBuffer,
    calendar: &OfferCalendar,
) -> Result<(), AllocError>
    ensures { OnOk result (records.new ≡ records.old ++ dated_records calendar.now) }
{
    fill(out, &["offer"])?;
    push_offer(out, &calendar.offer)?;
    records.push(&out.as_record())?;
    push_spans(alloc, out, records, calendar.spans.as_slice())
}

/// Adds the records of the offers of an article with their calendars.
#[tactic(auto, unfolding(crate::specs::PriceText::calendar_records))]
pub(crate) fn push_calendars(
    alloc: Global,
    out: &mut FieldBuffer,
    records: &mut RecordBuffer,
    isbn: &Isbn13,
    offers: &[OfferCalendar],
) -> Result<(), AllocError>
    ensures { OnOk result (records.new ≡ records.old ++ calendar_records isbn.now offers.now) }
{
    fill_head(out, "calendar", isbn, offers.len())?;
    records.push(&out.as_record())?;
    for calendar in offers {
        push_calendar(alloc, out, records, calendar)?;
    }
    Ok(())
}
