//! The calendar of an offer.

ghost use Rattle.std.specs.Prelude.{◌≡◌, ◌↔◌, ◌+◌, ◌+ℤ◌, ◌≤ℤ◌, ◌<ℤ◌, ◌<◌, ℤ, pos, length, slice_index_or, IsTrue, IfOk, Err};
ghost use Rattle.std.specs.List.{AllPairs};
ghost use Rattle.onix_terms.specs.Day.{IsDayNumber};
ghost use Rattle.price_rules.specs.Breaks.{IsBreakDays, IsSteady};
ghost use Rattle.price_rules.specs.Calendar.{IsBadRange, IsCalendar, is_bad_range, on_day};
ghost use Rattle.price_rules.specs.Price.{IsCurrent};
ghost use Rattle.price_rules.specs.Queries.{calendar_query};
ghost use Rattle.price_rules.specs.Spans.{calendar_spans};
ghost use Rattle.price_rules.specs.Steps.{IsJoined};
ghost use Rattle.price_rules.specs.declared.calendar.CalendarFault.TheVariants.{Memory};

use crate::breaks::break_days;
use crate::current::current_price;
use crate::offer::{CalendarQuery, Offer, PriceQuery};
use onix_terms::amount::Amount;
use onix_terms::code::{Code2, Country, Currency};
use onix_terms::day::Day;
use onix_terms::items::Items;
use onix_terms::quantity::Quantity;
use std::alloc::{AllocError, AllocFailed, Global};
use thiserror::Error;

/// Days in a row that have one current price, or none.
#[derive(Clone, Copy, PartialEq, Eq)]
pub struct Span {
    pub first: Day,
    pub last: Day,
    pub amount: Option<Amount>,
}

/// Why there is no calendar.
#[derive(Debug, Drop, Error)]
pub enum CalendarFault {
    /// The last day is before the first, or there are more than 3,660 days.
    #[error("bad range")]
    BadRange,
    /// Memory ran out.
    #[error("memory")]
    Memory,
}

impl From<AllocError> for CalendarFault {
    ghost from_gives = { λ _ e. e ≡ Memory };

    fn from(_: AllocError) -> CalendarFault {
        CalendarFault::Memory
    }
}

impl<T: Drop> From<AllocFailed<T>> for CalendarFault {
    ghost from_gives = { λ _ e. e ≡ Memory };

    fn from(_: AllocFailed<T>) -> CalendarFault {
        CalendarFault::Memory
    }
}

/// Whether a calendar cannot be asked for from one day to another: the last is before the first,
/// or there are more than 3,660 days.
pub fn is_bad_range(from: Day, to: Day) -> bool
    ensures value { result ≡ is_bad_range from to }
    ensures meaning { IsTrue result ↔ IsBadRange from to }
    ensures first { IsDayNumber from }
    ensures last { IsDayNumber to }
{
    let first = from.number();
    let last = to.number();
    last < first || last - first >= 3_660
}

/// The current price on one day.
pub(crate) fn amount_on(offer: &Offer, query: &CalendarQuery, day: Day) -> Option<Amount>
    ensures { IsCurrent offer.now (on_day query.now day) result }
{
    let query = PriceQuery {
        day,
        country: query.country,
        currency: query.currency,
        price_type: query.price_type,
        quantity: query.quantity,
    };
    current_price(offer, &query)
}

/// Extends `before` by `span` where their amounts are equal, else pushes `before`. Gives the span
/// that is open then.
pub(crate) fn join(spans: &mut Items<Span>, before: Span, span: Span) -> Result<Span, AllocError>
    ensures { IfOk result (λ after. IsJoined before span spans.old spans.new after) }
{
    if before.amount == span.amount {
        return Ok(Span {
            first: before.first,
            last: span.last,
            amount: before.amount,
        });
    }
    spans.push(before)?;
    Ok(span)
}

// The last day before the next break day, or of the range.
fn last_of(days: &[Day], k: usize, to: Day) -> Day
    requires inside { k < length days.now }
    requires ascending { AllPairs (λ a b. a <ℤ b) days.now }
    ensures { result +ℤ pos 1 ≡ slice_index_or days.now (k + 1) (to +ℤ pos 1) }
{
    match days.get(k + 1) {
        Some(next) => next.day_before(days[k]),
        None => to,
    }
}

// One span from each break day on, equal neighbours joined.
fn spans_of(
    alloc: Global,
    offer: &Offer,
    query: &CalendarQuery,
    days: &[Day],
) -> Result<Items<Span>, AllocError>
    requires range { query.now.from ≤ℤ query.now.to }
    requires days { IsBreakDays offer.now query.now.from query.now.to days.now }
    requires steady { IsSteady offer.now query.now.to days.now }
    ensures { IfOk result (λ spans. IsCalendar offer.now query.now spans) }
{
    let mut spans = Items::new(alloc);
    let mut open = Span {
        first: query.from,
        last: last_of(days, 0, query.to),
        amount: amount_on(offer, query, query.from),
    };
    for k in 1..days.len() {
        let first = days[k];
        let last = last_of(days, k, query.to);
        let amount = amount_on(offer, query, first);
        open = join(
            &mut spans,
            open,
            Span {
                first,
                last,
                amount,
            },
        )?;
    }
    spans.push(open)?;
    Ok(spans)
}

/// The calendar of the offer: in order, the spans of days with one current price, as long as they
/// can be. `BadRange` comes exactly where the range is bad, `Memory` only if memory ran out.
pub fn calendar_for(
    alloc: Global,
    offer: &Offer,
    query: &CalendarQuery,
) -> Result<Items<Span>, CalendarFault>
    ensures meaning { IfOk result (λ spans. IsCalendar offer.now query.now spans) }
    ensures value { IfOk result (λ spans. spans ≡ calendar_spans offer.now query.now) }
    ensures bad_range { (result ≡ Err CalendarFault.BadRange)
        ↔ IsBadRange query.now.from query.now.to }
{
    let days = break_days(alloc, offer, query.from, query.to)?;
    Ok(spans_of(alloc, offer, query, days.as_slice())?)
}

/// The calendar of the offer from one day to another, both included, as `calendar_for` has it: of
/// prices of this type, in this currency, for so many copies that are sold in this country.
pub fn calendar(
    alloc: Global,
    offer: &Offer,
    from: Day,
    to: Day,
    country: Country,
    currency: Currency,
    price_type: Code2,
    quantity: Quantity,
) -> Result<Items<Span>, CalendarFault>
    ensures meaning { IfOk result (λ spans. IsCalendar offer.now
        (calendar_query from to country currency price_type quantity) spans) }
    ensures value { IfOk result (λ spans. spans ≡ calendar_spans offer.now
        (calendar_query from to country currency price_type quantity)) }
    ensures bad_range { (result ≡ Err CalendarFault.BadRange) ↔ IsBadRange from to }
{
    let query = CalendarQuery {
        from,
        to,
        country,
        currency,
        price_type,
        quantity,
    };
    calendar_for(alloc, offer, &query)
}
