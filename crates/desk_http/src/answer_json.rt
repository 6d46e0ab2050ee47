//! The JSON of answers.

ghost use Rattle.std.specs.Prelude.{◌≡◌, ◌∷◌, [], IfOk, Some};
ghost use Rattle.std.specs.String.{string_bytes};
ghost use Rattle.serde_json.specs.Data.{string};
ghost use Rattle.serde_json.specs.Read.{read};
ghost use Rattle.serde_json.specs.View.{view};
ghost use Rattle.serde_json.specs.Written.{compact_text};
ghost use Rattle.series_rules.specs.declared.answers.AgreeAnswer.TheVariants.{Agreed};
ghost use Rattle.series_rules.specs.declared.answers.DeliveryAnswer.TheVariants as delivery;
ghost use Rattle.series_rules.specs.declared.answers.WaiveAnswer.TheVariants as waiver;
ghost use Rattle.desk_http.specs.AnswerJson as json;
ghost use Rattle.desk_http.specs.Json.{answered};

use crate::bodies::refused_json;
use crate::catalogue_json::catalogue_json;
use crate::member::Member;
use crate::members::{object_of, object_with};
use crate::offer_json::choice_json;
use crate::texts::offers_text;
use crate::to_json::{ToJson, array_of};
use onix_records::Effect;
use onix_terms::number::Number;
use onix_terms::series_name::SeriesName;
use serde_json::{Value, json};
use series_rules::answers::{AgreeAnswer, Answer, DeliveryAnswer, GapReport, WaiveAnswer};
use std::alloc::{AllocError, Global};

fn malformed_json(alloc: Global, row: u32) -> Result<Value, AllocError>
    ensures { IfOk result (λ v. view v ≡ json.malformed row) }
{
    let members = [
        Member::Text("answer", "refused"),
        Member::Text("reason", "malformed"),
        Member::Number("row", row),
    ];
    object_of(alloc, &members)
}

fn before_first_json(
    alloc: Global,
    series: &SeriesName,
    number: Number,
    first: Number,
) -> Result<Value, AllocError>
    ensures { IfOk result (λ v. view v ≡ json.before_first series.now number first) }
{
    let members = [
        Member::Text("answer", "refused"),
        Member::Number("first", first.value()),
        Member::Number("number", number.value()),
        Member::Text("reason", "before-first"),
        Member::Text("series", series.as_str()),
    ];
    object_of(alloc, &members)
}

// The two texts have one lifetime, since a `Member` has one.
fn not_agreed_json<'a>(
    alloc: Global,
    reason: &'a str,
    series: &'a SeriesName,
) -> Result<Value, AllocError>
    ensures { IfOk result (λ v. view v ≡ answered "refused"
        (("reason", string reason.now) ∷ ("series", string series.now) ∷ [])) }
{
    let members = [
        Member::Text("answer", "refused"),
        Member::Text("reason", reason),
        Member::Text("series", series.as_str()),
    ];
    object_of(alloc, &members)
}

// The two texts have one lifetime, since a `Member` has one.
fn number_refused_json<'a>(
    alloc: Global,
    reason: &'a str,
    series: &'a SeriesName,
    number: Number,
) -> Result<Value, AllocError>
    ensures { IfOk result (λ v. view v ≡ answered "refused"
        (("reason", string reason.now) ∷ json.numbered series.now number [])) }
{
    let members = [
        Member::Text("answer", "refused"),
        Member::Number("number", number.value()),
        Member::Text("reason", reason),
        Member::Text("series", series.as_str()),
    ];
    object_of(alloc, &members)
}

fn agreed_json(alloc: Global, series: &SeriesName, first: Number) -> Result<Value, AllocError>
    ensures { IfOk result (λ v. view v ≡ json.agreement series.now first Agreed) }
{
    let members = [
        Member::Text("answer", "agreed"),
        Member::Number("first", first.value()),
        Member::Text("series", series.as_str()),
    ];
    object_of(alloc, &members)
}

fn agreement_json(
    alloc: Global,
    name: &SeriesName,
    first: Number,
    answer: &AgreeAnswer,
) -> Result<Value, AllocError>
    ensures { IfOk result (λ v. view v ≡ json.agreement name.now first answer.now) }
{
    match answer {
        AgreeAnswer::Agreed => agreed_json(alloc, name, first),
        AgreeAnswer::NameTaken => not_agreed_json(alloc, "name-taken", name),
        AgreeAnswer::SeriesTaken { name: holder } => not_agreed_json(alloc, "series-taken", holder),
    }
}

fn applied_json(
    alloc: Global,
    series: &SeriesName,
    number: Number,
    effect: &Effect,
) -> Result<Value, AllocError>
    ensures { IfOk result (λ v. view v ≡ json.applied series.now number effect.now) }
{
    let members = [
        Member::Text("answer", "applied"),
        Member::Number("deleted", effect.deleted),
        Member::Number("ignored", effect.ignored),
        Member::Number("number", number.value()),
        Member::Number("replaced", effect.replaced),
        Member::Text("series", series.as_str()),
        Member::Number("unknown", effect.unknown),
        Member::Number("updated", effect.updated),
    ];
    object_of(alloc, &members)
}

fn held_json(
    alloc: Global,
    series: &SeriesName,
    number: Number,
    next: u32,
) -> Result<Value, AllocError>
    ensures { IfOk result (λ v. view v ≡ json.delivered (delivery.Held series.now number next)) }
{
    let members = [
        Member::Text("answer", "held"),
        Member::Number("number", number.value()),
        Member::Text("series", series.as_str()),
        Member::Number("waiting_for", next),
    ];
    object_of(alloc, &members)
}

fn delivered_json(alloc: Global, answer: &DeliveryAnswer) -> Result<Value, AllocError>
    ensures { IfOk result (λ v. view v ≡ json.delivered answer.now) }
{
    match answer {
        DeliveryAnswer::Malformed { row } => malformed_json(alloc, *row),
        DeliveryAnswer::Unnumbered => refused_json(alloc, "unnumbered"),
        DeliveryAnswer::UnknownSeries => refused_json(alloc, "unknown-series"),
        DeliveryAnswer::BeforeFirst {
            series,
            number,
            first,
        } => before_first_json(alloc, series, *number, *first),
        DeliveryAnswer::Waived { series, number } => number_refused_json(
            alloc, "waived", series, *number,
        ),
        DeliveryAnswer::OtherContents { series, number } => number_refused_json(
            alloc,
            "other-contents",
            series,
            *number,
        ),
        DeliveryAnswer::Applied {
            series,
            number,
            effect,
        } => applied_json(alloc, series, *number, effect),
        DeliveryAnswer::Held {
            series,
            number,
            waiting_for,
        } => held_json(alloc, series, *number, *waiting_for),
    }
}

fn waived_json(alloc: Global, series: &SeriesName, number: Number) -> Result<Value, AllocError>
    ensures { IfOk result (λ v. view v ≡ json.waiver_answer series.now number waiver.Waived) }
{
    let members = [
        Member::Text("answer", "waived"),
        Member::Number("number", number.value()),
        Member::Text("series", series.as_str()),
    ];
    object_of(alloc, &members)
}

fn waiver_json(
    alloc: Global,
    series: &SeriesName,
    number: Number,
    answer: &WaiveAnswer,
) -> Result<Value, AllocError>
    ensures { IfOk result (λ v. view v ≡ json.waiver_answer series.now number answer.now) }
{
    match answer {
        WaiveAnswer::UnknownSeries => refused_json(alloc, "unknown-series"),
        WaiveAnswer::BeforeFirst { first } => before_first_json(alloc, series, number, *first),
        WaiveAnswer::Had => number_refused_json(alloc, "had", series, number),
        WaiveAnswer::Waived => waived_json(alloc, series, number),
    }
}

// The first and the last of numbers that have nothing.
impl ToJson for (Number, Number) {
    ghost json_of = { json.missing };

    fn to_json(&self, alloc: Global) -> Result<Value, AllocError> {
        json!(in alloc; [self.0.value(), self.1.value()])
    }
}

fn gaps_json(alloc: Global, report: &GapReport) -> Result<Value, AllocError>
    ensures { IfOk result (λ v. view v ≡ json.gaps report.now) }
{
    let missing = array_of(alloc, report.missing.as_slice())?;
    let members = [
        Member::Text("answer", "gaps"),
        Member::Number("first", report.first.value()),
        Member::OptionalNumber("greatest", &report.greatest),
        Member::Count("held", report.held),
        Member::Number("next", report.next),
        Member::Text("series", report.series.as_str()),
    ];
    object_with(alloc, &members, "missing", missing)
}

// The text of the JSON of an answer.
fn value_text(alloc: Global, answer: &Answer, value: Value) -> Result<String, AllocError>
    requires { view value ≡ json.answer_json answer.now }
    ensures text { IfOk result
        (λ text. string_bytes text ≡ compact_text (json.answer_json answer.now)) }
    ensures reads { IfOk result
        (λ text. read (string_bytes text) ≡ Some (json.answer_json answer.now)) }
{
    value.to_string(alloc)
}

/// The text of an answer's JSON. Whoever reads it as JSON gets the answer's data. Fails only
/// where memory runs out. Of the offers of an article no more JSON is held than that of one.
pub fn answer_text(alloc: Global, answer: &Answer) -> Result<String, AllocError>
    ensures text { IfOk result
        (λ text. string_bytes text ≡ compact_text (json.answer_json answer.now)) }
    ensures reads { IfOk result
        (λ text. read (string_bytes text) ≡ Some (json.answer_json answer.now)) }
{
    match answer {
        Answer::Price { isbn, offers } => offers_text(alloc, "price", isbn, offers.as_slice()),
        Answer::Calendar { isbn, offers } => {
            offers_text(alloc, "calendar", isbn, offers.as_slice())
        }
        Answer::Agreement {
            name,
            first,
            answer: agreed,
        } => value_text(alloc, answer, agreement_json(alloc, name, *first, agreed)?),
        Answer::Delivery(delivered) => value_text(alloc, answer, delivered_json(alloc, delivered)?),
        Answer::Waiver {
            series,
            number,
            answer: waived,
        } => value_text(alloc, answer, waiver_json(alloc, series, *number, waived)?),
        Answer::Choice { isbn, choice } => {
            value_text(alloc, answer, choice_json(alloc, isbn, choice)?)
        }
        Answer::BadRange => value_text(alloc, answer, refused_json(alloc, "bad-range")?),
        Answer::Gaps(report) => value_text(alloc, answer, gaps_json(alloc, report)?),
        Answer::Catalogue { series, catalogue } => {
            value_text(alloc, answer, catalogue_json(alloc, series, catalogue)?)
        }
        Answer::UnknownSeries => value_text(alloc, answer, refused_json(alloc, "unknown-series")?),
        Answer::Malformed { row } => value_text(alloc, answer, malformed_json(alloc, *row)?),
    }
}
