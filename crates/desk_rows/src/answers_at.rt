//! What comes at a number of a series.

ghost use Rattle.std.specs.Prelude.{◌≡◌};
ghost use Rattle.desk_catalogue.specs.Achieves.{Does};
ghost use Rattle.desk_rows.specs.Answering.{AnswersAgain, DeliversAt, IsStored, WaivesAt};

use crate::applying::{applied_or_held, put_new};
use crate::laws::one_standing_text;
use crate::standings::is_waived;
use desk_tables::work::Work;
use onix_message::contents::{Contents, write_contents};
use onix_message::{Effect, StoreFault};
use onix_terms::number::Number;
use onix_terms::series_name::SeriesName;
use onix_terms::text::Text;
use series_rules::answers::{DeliveryAnswer, WaiveAnswer};
use series_rules::requests::Standing;
use sqlite::Alter;
use std::alloc::Global;

/// What the tables have at a number: the text of what stands there, and what it did where it is applied.
#[derive(Drop)]
pub(crate) struct Stored {
    pub text: Text,
    pub effect: Option<Effect>,
}

/// What the tables have at a number, or `None`.
pub(crate) fn stored_at<S: Alter>(
    work: &mut Work<'_, S>,
    series: &SeriesName,
    number: Number,
) -> Result<Option<Stored>, StoreFault>
    ensures { Does S.Store
        (λ rows stored now. (now ≡ rows) × IsStored series.now number rows stored)
        work.old work.new result }
{
    let applied = work.applied_at(series, number)?;
    if let Some((text, effect)) = applied {
        return Ok(Some(Stored {
            text,
            effect: Some(effect),
        }));
    }
    let held = work.next_held(series, number)?;
    match held {
        Some(text) => Ok(Some(Stored { text, effect: None })),
        None => Ok(None),
    }
}

// The answer to a delivery with that text for a number that has something.
fn answer_again(
    series: &SeriesName,
    next: u32,
    number: Number,
    stored: &Stored,
    text: &str,
) -> DeliveryAnswer
    ensures { AnswersAgain series.now next number stored.now text.now result }
{
    one_standing_text();
    if is_waived(stored.text.as_str()) {
        return DeliveryAnswer::Waived {
            series: *series,
            number,
        };
    }
    if stored.text.as_str() == text {
        return applied_or_held(series, next, number, stored.effect);
    }
    DeliveryAnswer::OtherContents {
        series: *series,
        number,
    }
}

/// Answers a delivery for a number of a series, which is at the number `next`, and keeps it where
/// the number has nothing. `Unusable` where what is held cannot be read back; otherwise a fault is one
/// of the store, or out of memory.
pub(crate) fn deliver_at<S: Alter>(
    alloc: Global,
    work: &mut Work<'_, S>,
    series: &SeriesName,
    next: u32,
    number: Number,
    contents: Contents,
) -> Result<DeliveryAnswer, StoreFault>
    ensures { Does S.Store (DeliversAt series.now next number contents) work.old work.new result }
{
    let Ok(text) = write_contents(alloc, &contents) else {
        return Err(StoreFault::Memory);
    };
    let stored = stored_at(work, series, number)?;
    match stored {
        Some(stored) => Ok(answer_again(series, next, number, &stored, text.as_str())),
        None => {
            let standing = Standing::Message(contents);
            put_new(alloc, work, series, next, number, &standing, text.as_str())
        }
    }
}

/// Answers a waiver of a number of a series, which is at the number `next`, and keeps it where the
/// number has nothing. The faults are those of a delivery.
pub(crate) fn waive_at<S: Alter>(
    alloc: Global,
    work: &mut Work<'_, S>,
    series: &SeriesName,
    next: u32,
    number: Number,
) -> Result<WaiveAnswer, StoreFault>
    ensures { Does S.Store (WaivesAt series.now next number) work.old work.new result }
{
    one_standing_text();
    let stored = stored_at(work, series, number)?;
    let Some(stored) = stored else {
        put_new(
            alloc,
            work,
            series,
            next,
            number,
            &Standing::Waived,
            "waived",
        )?;
        return Ok(WaiveAnswer::Waived);
    };
    if is_waived(stored.text.as_str()) {
        Ok(WaiveAnswer::Waived)
    } else {
        Ok(WaiveAnswer::Had)
    }
}
