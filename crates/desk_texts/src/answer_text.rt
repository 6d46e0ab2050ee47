//! Answers as records and as text.

ghost use Rattle.std.specs.Prelude.{◌≡◌, ◌++◌, ◌∷◌, [], IfOk, OnOk, codes, map};
ghost use Rattle.std.specs.Fmt.{decimal};
ghost use Rattle.std.specs.String.{string_bytes};
ghost use Rattle.desk_texts.specs.AnswerText.{agree_fields, answer_records, before_first_fields, delivery_fields, effect_fields, is_refused, malformed_fields, text_of, waiver_fields};

use crate::catalogue_text::push_catalogue;
use crate::gap_text::push_gaps;
use crate::price_text::{fill_choice, push_calendars, push_prices};
use crate::text_rows::{fill, push_labelled, push_number};
use csv_records::buffer::RecordBuffer;
use csv_records::fields::FieldBuffer;
use csv_records::writing::write_records;
use onix_records::Effect;
use onix_terms::number::Number;
use onix_terms::series_name::SeriesName;
use series_rules::answers::{AgreeAnswer, Answer, DeliveryAnswer, WaiveAnswer};
use std::alloc::{AllocError, Global};

// Each `fill_` function replaces the fields of the list by those of a record.

// A refusal that has nothing to add to its reason.
fn fill_refusal(out: &mut FieldBuffer, reason: &str) -> Result<(), AllocError>
    ensures { OnOk result (out.new ≡ codes "refused" ∷ reason.now ∷ []) }
{
    fill(out, &["refused", reason])
}

fn fill_malformed(out: &mut FieldBuffer, row: u32) -> Result<(), AllocError>
    ensures { OnOk result (out.new ≡ malformed_fields row) }
{
    fill(out, &["refused", "malformed"])?;
    push_number(out, row)
}

// An answer of a word, or of a refusal and its reason, about a number of a series.
fn fill_numbered(
    out: &mut FieldBuffer,
    words: &[&str],
    series: &SeriesName,
    number: Number,
) -> Result<(), AllocError>
    ensures { OnOk result
        (out.new ≡ map (λ w. w.now) words.now ++ (series.now ∷ decimal number ∷ [])) }
{
    fill(out, words)?;
    out.push(series.as_str())?;
    push_number(out, number.value())
}

fn fill_before_first(
    out: &mut FieldBuffer,
    series: &SeriesName,
    number: Number,
    first: Number,
) -> Result<(), AllocError>
    ensures { OnOk result (out.new ≡ before_first_fields series.now number first) }
{
    fill_numbered(out, &["refused", "before-first"], series, number)?;
    push_number(out, first.value())
}

fn fill_agreement(
    out: &mut FieldBuffer,
    name: &SeriesName,
    first: Number,
    answer: &AgreeAnswer,
) -> Result<(), AllocError>
    ensures { OnOk result (out.new ≡ agree_fields name.now first answer.now) }
{
    match answer {
        AgreeAnswer::Agreed => fill_numbered(out, &["agreed"], name, first),
        AgreeAnswer::NameTaken => fill(out, &["refused", "name-taken", name.as_str()]),
        AgreeAnswer::SeriesTaken { name: holder } => fill(
            out,
            &["refused", "series-taken", holder.as_str()],
        ),
    }
}

// Adds the five counts of an effect, each behind its name.
fn push_effect(alloc: Global, out: &mut FieldBuffer, effect: &Effect) -> Result<(), AllocError>
    ensures { OnOk result (out.new ≡ out.old ++ effect_fields effect.now) }
{
    push_labelled(
        alloc,
        out,
        &[
            ("replaced=", u64::from(effect.replaced)),
            ("updated=", u64::from(effect.updated)),
            ("deleted=", u64::from(effect.deleted)),
            ("unknown=", u64::from(effect.unknown)),
            ("ignored=", u64::from(effect.ignored)),
        ],
    )
}

// The answer to an applied message.
fn fill_applied(
    alloc: Global,
    out: &mut FieldBuffer,
    series: &SeriesName,
    number: Number,
    effect: &Effect,
) -> Result<(), AllocError>
    ensures { OnOk result
        (out.new ≡ codes "applied" ∷ series.now ∷ decimal number ∷ effect_fields effect.now) }
{
    fill_numbered(out, &["applied"], series, number)?;
    push_effect(alloc, out, effect)
}

fn fill_held(
    alloc: Global,
    out: &mut FieldBuffer,
    series: &SeriesName,
    number: Number,
    next: u32,
) -> Result<(), AllocError>
    ensures { OnOk result
        (out.new
        ≡ codes "held" ∷ series.now ∷ decimal number ∷ (codes "waiting-for=" ++ decimal next)
        ∷ []) }
{
    fill_numbered(out, &["held"], series, number)?;
    push_labelled(alloc, out, &[("waiting-for=", u64::from(next))])
}

fn fill_delivery(
    alloc: Global,
    out: &mut FieldBuffer,
    answer: &DeliveryAnswer,
) -> Result<(), AllocError>
    ensures { OnOk result (out.new ≡ delivery_fields answer.now) }
{
    match answer {
        DeliveryAnswer::Malformed { row } => fill_malformed(out, *row),
        DeliveryAnswer::Unnumbered => fill_refusal(out, "unnumbered"),
        DeliveryAnswer::UnknownSeries => fill_refusal(out, "unknown-series"),
        DeliveryAnswer::BeforeFirst {
            series,
            number,
            first,
        } => fill_before_first(out, series, *number, *first),
        DeliveryAnswer::Waived { series, number } => fill_numbered(
            out,
            &["refused", "waived"],
            series,
            *number,
        ),
        DeliveryAnswer::OtherContents { series, number } => fill_numbered(
            out,
            &["refused", "other-contents"],
            series,
            *number,
        ),
        DeliveryAnswer::Applied {
            series,
            number,
            effect,
        } => fill_applied(alloc, out, series, *number, effect),
        DeliveryAnswer::Held {
            series,
            number,
            waiting_for,
        } => fill_held(alloc, out, series, *number, *waiting_for),
    }
}

fn fill_waiver(
    out: &mut FieldBuffer,
    series: &SeriesName,
    number: Number,
    answer: &WaiveAnswer,
) -> Result<(), AllocError>
    ensures { OnOk result (out.new ≡ waiver_fields series.now number answer.now) }
{
    match answer {
        WaiveAnswer::UnknownSeries => fill_refusal(out, "unknown-series"),
        WaiveAnswer::BeforeFirst { first } => fill_before_first(out, series, number, *first),
        WaiveAnswer::Had => fill_numbered(out, &["refused", "had"], series, number),
        WaiveAnswer::Waived => fill_numbered(out, &["waived"], series, number),
    }
}

// Adds the records of an answer.
fn push_answer(
    alloc: Global,
    out: &mut FieldBuffer,
    records: &mut RecordBuffer,
    answer: &Answer,
) -> Result<(), AllocError>
    ensures { OnOk result (records.new ≡ records.old ++ answer_records answer.now) }
{
    match answer {
        Answer::Agreement {
            name,
            first,
            answer,
        } => {
            fill_agreement(out, name, *first, answer)?;
            records.push(&out.as_record())
        }
        Answer::Delivery(answer) => {
            fill_delivery(alloc, out, answer)?;
            records.push(&out.as_record())
        }
        Answer::Waiver {
            series,
            number,
            answer,
        } => {
            fill_waiver(out, series, *number, answer)?;
            records.push(&out.as_record())
        }
        Answer::Price { isbn, offers } => {
            push_prices(alloc, out, records, isbn, offers.as_slice())
        }
        Answer::Choice { isbn, choice } => {
            fill_choice(alloc, out, isbn, choice)?;
            records.push(&out.as_record())
        }
        Answer::Calendar { isbn, offers } => {
            push_calendars(alloc, out, records, isbn, offers.as_slice())
        }
        Answer::BadRange => records.push_fields(&["refused", "bad-range"]),
        Answer::Gaps(report) => push_gaps(alloc, out, records, report),
        Answer::Catalogue { series, catalogue } => {
            push_catalogue(alloc, out, records, series, catalogue)
        }
        Answer::UnknownSeries => records.push_fields(&["refused", "unknown-series"]),
        Answer::Malformed { row } => {
            fill_malformed(out, *row)?;
            records.push(&out.as_record())
        }
    }
}

/// The text of an answer: its records, with commas between fields and a line feed after each
/// record.
#[tactic(auto, unfolding(crate::specs::AnswerText::text_of))]
pub fn write_answer(alloc: Global, answer: &Answer) -> Result<String, AllocError>
    ensures { IfOk result (λ text. string_bytes text ≡ text_of answer.now) }
{
    let mut records = RecordBuffer::new(alloc);
    let mut fields = FieldBuffer::new(alloc);
    push_answer(alloc, &mut fields, &mut records, answer)?;
    write_records(alloc, &records.as_records())
}

/// Whether the text of an answer begins with the field `refused`.
#[tactic(auto, unfolding(crate::specs::AnswerText::is_refused, crate::specs::CatalogueText::catalogue_records, crate::specs::GapText::gap_records, crate::specs::GapText::gap_fields, crate::specs::PriceText::price_records, crate::specs::PriceText::calendar_records))]
pub fn is_refusal(answer: &Answer) -> bool
    ensures { result ≡ is_refused answer.now }
{
    match answer {
        Answer::Agreement { answer, .. } => !matches!(answer, AgreeAnswer::Agreed),
        Answer::Delivery(answer) => !matches!(
            answer,
            DeliveryAnswer::Applied { .. } | DeliveryAnswer::Held { .. }
        ),
        Answer::Waiver { answer, .. } => !matches!(answer, WaiveAnswer::Waived),
        Answer::Price { .. } | Answer::Choice { .. } | Answer::Calendar { .. } => false,
        Answer::Gaps(_) | Answer::Catalogue { .. } => false,
        Answer::BadRange | Answer::UnknownSeries | Answer::Malformed { .. } => true,
    }
}
