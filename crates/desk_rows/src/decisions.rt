//! What an agreement, a message or a waiver does inside its transaction.

ghost use Rattle.std.specs.Prelude.{◌≡◌, if◌then◌else◌};
ghost use Rattle.desk_catalogue.specs.Achieves.{Does};
ghost use Rattle.desk_rows.specs.Answering.{AnswersMessage};
ghost use Rattle.desk_rows.specs.Desks.{Answers};
ghost use Rattle.series_rules.specs.Answers.{agree_answer, same_agreement, waive_answer};
ghost use Rattle.series_rules.specs.declared.requests.Request.{Request};

use crate::answers_at::{deliver_at, waive_at};
use desk_tables::work::Work;
use onix_message::contents::Contents;
use onix_message::parts::Header;
use onix_message::{Agreement, StoreFault};
use onix_terms::number::Number;
use onix_terms::series_name::SeriesName;
use series_rules::answers::{AgreeAnswer, DeliveryAnswer, WaiveAnswer};
use sqlite::Alter;
use std::alloc::Global;

// What an agreement is answered whose name this one has.
fn answer_named(agreed: &Agreement, agreement: &Agreement) -> AgreeAnswer
    ensures { result ≡ (if same_agreement agreed.now agreement.now
        then AgreeAnswer.Agreed else AgreeAnswer.NameTaken) }
{
    if agreed == agreement {
        AgreeAnswer::Agreed
    } else {
        AgreeAnswer::NameTaken
    }
}

/// Takes an agreement.
pub fn agree_in<S: Alter>(
    work: &mut Work<'_, S>,
    agreement: &Agreement,
) -> Result<AgreeAnswer, StoreFault>
    ensures { Does S.Store
        (Answers (Request.Agree agreement.now) (λ L. agree_answer L agreement.now))
        work.old work.new result }
{
    let named = work.series_by_name(&agreement.name)?;
    if let Some(row) = &named {
        return Ok(answer_named(&row.agreement, agreement));
    }
    drop(named);
    let taken = work.series_by_parties(&agreement.sender, agreement.addressee.as_ref())?;
    if let Some(row) = &taken {
        return Ok(AgreeAnswer::SeriesTaken {
            name: row.agreement.name,
        });
    }
    drop(taken);
    work.put_series(agreement)?;
    Ok(AgreeAnswer::Agreed)
}

/// Takes a message with a number.
pub fn deliver_in<S: Alter>(
    alloc: Global,
    work: &mut Work<'_, S>,
    header: &Header,
    number: Number,
    contents: Contents,
) -> Result<DeliveryAnswer, StoreFault>
    ensures { Does S.Store (AnswersMessage header.now number contents) work.old work.new result }
{
    let found = work.series_by_parties(&header.sender, header.addressee.as_ref())?;
    let Some(row) = &found else {
        return Ok(DeliveryAnswer::UnknownSeries);
    };
    let series = row.agreement.name;
    let first = row.agreement.first;
    if number.value() < first.value() {
        return Ok(DeliveryAnswer::BeforeFirst {
            series,
            number,
            first,
        });
    }
    contents.can_be_read_back();
    deliver_at(alloc, work, &series, row.next, number, contents)
}

/// Takes a waiver.
pub fn waive_in<S: Alter>(
    alloc: Global,
    work: &mut Work<'_, S>,
    series: &SeriesName,
    number: Number,
) -> Result<WaiveAnswer, StoreFault>
    ensures { Does S.Store
        (Answers (Request.Waive series.now number) (λ L. waive_answer L series.now number))
        work.old work.new result }
{
    let found = work.series_by_name(series)?;
    let Some(row) = &found else {
        return Ok(WaiveAnswer::UnknownSeries);
    };
    let first = row.agreement.first;
    if number.value() < first.value() {
        return Ok(WaiveAnswer::BeforeFirst { first });
    }
    waive_at(alloc, work, series, row.next, number)
}
