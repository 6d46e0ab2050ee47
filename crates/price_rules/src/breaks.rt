//! The days on which the current prices of an offer may change.

ghost use Rattle.std.specs.Prelude.{◌≡◌, ◌↔◌, ◌++◌, ◌∷◌, ◌+◌, ◌*◌, ◌≤◌, ◌≤ℤ◌, IfOk, OnOk, Err, length};
ghost use Rattle.std.specs.List.{flat_map};
ghost use Rattle.onix_terms.specs.Day.{IsDayNumber};
ghost use Rattle.price_rules.specs.Breaks.{IsBreakDays, IsSteady, begins_within, breaks_of, ends_within, within};
ghost use Rattle.price_rules.specs.Calendar.{IsBadRange};

use crate::calendar::{CalendarFault, is_bad_range};
use crate::offer::Offer;
use onix_records::parts::Price;
use onix_terms::day::Day;
use std::alloc::{AllocError, Global};

fn put_within(days: &mut Vec<Day>, day: Day, from: Day, to: Day) -> Result<(), AllocError>
    ensures { OnOk result (days.new.items ≡ days.old.items ++ within from to day) }
{
    if from < day && !(to < day) {
        days.push(day)?;
    }
    Ok(())
}

fn put_begin(days: &mut Vec<Day>, begin: Option<Day>, from: Day, to: Day) -> Result<(), AllocError>
    ensures { OnOk result (days.new.items ≡ days.old.items ++ begins_within from to begin) }
{
    match begin {
        None => Ok(()),
        Some(day) => put_within(days, day, from, to),
    }
}

fn put_end(days: &mut Vec<Day>, until: Option<Day>, from: Day, to: Day) -> Result<(), AllocError>
    requires first { IsDayNumber from }
    requires last { IsDayNumber to }
    ensures { OnOk result (days.new.items ≡ days.old.items ++ ends_within from to until) }
{
    let Some(day) = until else { return Ok(()) };
    match day.next() {
        None => Ok(()),
        Some(next) => put_within(days, next, from, to),
    }
}

// The first day, and each later day of the range on which one of the prices begins or the day
// before which it ended, as the prices come.
fn gather_days(alloc: Global, prices: &[Price], from: Day, to: Day) -> Result<Vec<Day>, AllocError>
    ensures { IfOk result (λ days. days.items ≡ from ∷ flat_map (breaks_of from to) prices.now) }
{
    let mut days = Vec::new(alloc);
    days.push(from)?;
    for price in prices {
        put_begin(&mut days, price.from, from, to)?;
        put_end(&mut days, price.until, from, to)?;
    }
    Ok(days)
}

/// The break days of the offer from one day to another, both included: the first day, and each
/// later day of the range on which a price begins or the day before which one ended, in order,
/// without repeats. Between two of them no current price changes. `BadRange` comes exactly where
/// the range is bad, `Memory` only if memory ran out.
pub fn break_days(
    alloc: Global,
    offer: &Offer,
    from: Day,
    to: Day,
) -> Result<Vec<Day>, CalendarFault>
    ensures days { IfOk result (λ days. IsBreakDays offer.now from to days.items) }
    ensures few { IfOk result (λ days. length days.items ≤ 2 * length offer.now.prices + 1) }
    ensures steady { IfOk result (λ days. IsSteady offer.now to days.items) }
    ensures range { IfOk result (λ _. from ≤ℤ to) }
    ensures bad_range { (result ≡ Err CalendarFault.BadRange) ↔ IsBadRange from to }
{
    if is_bad_range(from, to) {
        return Err(CalendarFault::BadRange);
    }
    let Ok(mut days) = gather_days(alloc, offer.prices.as_slice(), from, to) else {
        return Err(CalendarFault::Memory);
    };
    days.sort_unstable();
    days.dedup();
    Ok(days)
}
