//! What is applied once the number before it is.

ghost use Rattle.std.specs.Prelude.{◌≡◌};
ghost use Rattle.desk_catalogue.specs.Achieves.{Does};
ghost use Rattle.desk_rows.specs.Changes.{Applies, AppliesAt, AppliesText, Drains, DrainsOne, PutsNew, applied_or_held};

use crate::laws::one_standing_text;
use crate::standings::read_standing;
use desk_catalogue::messages::apply_message;
use desk_tables::work::Work;
use onix_message::{Effect, StoreFault};
use onix_terms::number::Number;
use onix_terms::series_name::SeriesName;
use series_rules::answers::DeliveryAnswer;
use series_rules::requests::Standing;
use sqlite::Alter;
use std::alloc::Global;

/// What a delivery is answered whose contents stand at its number: that they are applied, where this is
/// what they did, or that they wait for the number `next`.
pub(crate) fn applied_or_held(
    series: &SeriesName,
    next: u32,
    number: Number,
    effect: Option<Effect>,
) -> DeliveryAnswer
    ensures { result ≡ applied_or_held series.now next number effect }
{
    match effect {
        Some(effect) => DeliveryAnswer::Applied {
            series: *series,
            number,
            effect,
        },
        None => DeliveryAnswer::Held {
            series: *series,
            number,
            waiting_for: next,
        },
    }
}

// Applies what stands at a number to the catalogue of the series. A waiver changes nothing.
fn apply_standing<S: Alter>(
    alloc: Global,
    work: &mut Work<'_, S>,
    series: &SeriesName,
    standing: &Standing,
) -> Result<Effect, StoreFault>
    ensures { Does S.Store (Applies series.now standing.now) work.old work.new result }
{
    match standing {
        Standing::Message(contents) => apply_message(alloc, work, series, contents),
        Standing::Waived => Ok(Effect::none()),
    }
}

// Applies what stands at a number, whose text this is, puts the series at the number after it, and gives
// what it did.
fn apply_at<S: Alter>(
    alloc: Global,
    work: &mut Work<'_, S>,
    series: &SeriesName,
    number: Number,
    standing: &Standing,
    text: &str,
) -> Result<Effect, StoreFault>
    ensures { Does S.Store (AppliesAt series.now number standing.now text.now)
        work.old work.new result }
{
    let effect = apply_standing(alloc, work, series, standing)?;
    work.put_applied(series, number, text, &effect)?;
    work.set_next(series, number.value() + 1)?;
    Ok(effect)
}

// The same for what has that text.
fn apply_text<S: Alter>(
    alloc: Global,
    work: &mut Work<'_, S>,
    series: &SeriesName,
    number: Number,
    text: &str,
) -> Result<(), StoreFault>
    ensures { Does S.Store (λ rows _ now. AppliesText series.now number text.now rows now)
        work.old work.new result }
{
    let standing = read_standing(alloc, text)?;
    apply_at(alloc, work, series, number, &standing, text)?;
    Ok(())
}

// Applies the next number where it is held, and says whether it was.
fn drain_step<S: Alter>(
    alloc: Global,
    work: &mut Work<'_, S>,
    series: &SeriesName,
    number: Number,
) -> Result<bool, StoreFault>
    ensures { Does S.Store (DrainsOne series.now number) work.old work.new result }
{
    one_standing_text();
    let taken = work.take_held(series, number)?;
    let Some(text) = taken else {
        return Ok(false);
    };
    apply_text(alloc, work, series, number, text.as_str())?;
    Ok(true)
}

// Applies what is held from that number on, up to the first that is not.
fn drain<S: Alter>(
    alloc: Global,
    work: &mut Work<'_, S>,
    series: &SeriesName,
    from: u32,
) -> Result<(), StoreFault>
    ensures { Does S.Store (λ rows _ now. Drains series.now from rows now)
        work.old work.new result }
{
    if from > 1_000_000_000 {
        return Err(StoreFault::Unusable);
    }
    for value in from..1_000_000_000 {
        let Some(number) = Number::from_value(value) else {
            return Err(StoreFault::Unusable);
        };
        let moved = drain_step(alloc, work, series, number)?;
        if !moved {
            return Ok(());
        }
    }
    Ok(())
}

/// Puts what comes at a number that has nothing, with its text, in a series that is at the number
/// `next`. Where that is the number, it is applied, and then what is held from there on. Gives what a
/// delivery of it is answered: that it is applied, with what it did, or that it waits for the next.
/// `Unusable` where what is held cannot be read back; otherwise a fault is one of the store, or out
/// of memory.
pub(crate) fn put_new<S: Alter>(
    alloc: Global,
    work: &mut Work<'_, S>,
    series: &SeriesName,
    next: u32,
    number: Number,
    standing: &Standing,
    text: &str,
) -> Result<DeliveryAnswer, StoreFault>
    ensures { Does S.Store (PutsNew series.now next number standing.now text.now)
        work.old work.new result }
{
    if number.value() != next {
        work.put_held(series, number, text)?;
        return Ok(applied_or_held(series, next, number, None));
    }
    let effect = apply_at(alloc, work, series, number, standing, text)?;
    drain(alloc, work, series, number.value() + 1)?;
    Ok(applied_or_held(series, next, number, Some(effect)))
}
