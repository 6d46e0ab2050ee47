//! The calendar of an offer, day by day: a plain program with the contract of `calendar`, which
//! tests run beside it.

ghost use Rattle.std.specs.Prelude.{◌≡◌, ◌↔◌, ◌≤ℤ◌, IfOk, Err};
ghost use Rattle.price_rules.specs.Calendar.{IsBadRange, IsCalendar};
ghost use Rattle.price_rules.specs.Spans.{calendar_spans};

use crate::calendar::{CalendarFault, Span, amount_on, is_bad_range, join};
use crate::offer::{CalendarQuery, Offer};
use onix_terms::items::Items;
use std::alloc::{AllocError, Global};

// One span from each day on, equal neighbours joined.
fn daily_spans(
    alloc: Global,
    offer: &Offer,
    query: &CalendarQuery,
) -> Result<Items<Span>, AllocError>
    requires { query.now.from ≤ℤ query.now.to }
    ensures { IfOk result (λ spans. IsCalendar offer.now query.now spans) }
{
    let mut spans = Items::new(alloc);
    let mut open = Span {
        first: query.from,
        last: query.from,
        amount: amount_on(offer, query, query.from),
    };
    let more = query.from.days_to(query.to);
    for step in 0..more {
        let day = query.from.after(step + 1);
        let amount = amount_on(offer, query, day);
        open = join(
            &mut spans,
            open,
            Span {
                first: day,
                last: day,
                amount,
            },
        )?;
    }
    spans.push(open)?;
    Ok(spans)
}

/// The calendar of the offer, as `calendar` gives it, by asking for the price of each day.
pub fn calendar_day_by_day(
    alloc: Global,
    offer: &Offer,
    query: &CalendarQuery,
) -> Result<Items<Span>, CalendarFault>
    ensures meaning { IfOk result (λ spans. IsCalendar offer.now query.now spans) }
    ensures value { IfOk result (λ spans. spans ≡ calendar_spans offer.now query.now) }
    ensures bad_range { (result ≡ Err CalendarFault.BadRange)
        ↔ IsBadRange query.now.from query.now.to }
{
    if is_bad_range(query.from, query.to) {
        return Err(CalendarFault::BadRange);
    }
    Ok(daily_spans(alloc, offer, query)?)
}
