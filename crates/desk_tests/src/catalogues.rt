//! The offers of an article by a catalogue itself, and their calendar day by day, which no run of the
//! program asks.

use crate::asking::run;
use crate::cases::{expect, found, made};
use desk_memory::MemoryDesk;
use onix_terms::code::{Code2, Country, Currency};
use onix_terms::day::Day;
use onix_terms::isbn13::Isbn13;
use onix_terms::quantity::Quantity;
use onix_terms::series_name::SeriesName;
use price_rules::day_by_day::calendar_day_by_day;
use price_rules::offer::{CalendarQuery, Offer};
use price_rules::precedence::Precedence;
use series_rules::desk::Desk;
use std::alloc::Global;
use std::process::Abort;

const REQUESTS: &str = "Agree,north,06,4012345000009,06,5012345678900,1
Message,1,06,4012345000009,06,5012345678900,1,1,20250301,02,GBP
Product,R1,03,15,9781234567897
ProductSupply,GB IE,,
SupplyDetail,04,06,4012345000009,North Books,21,
Price,,12.99,,,,,,
EndMessage,5
";

// Three days, for one copy.
fn question() -> Option<CalendarQuery> {
    Some(CalendarQuery {
        from: Day::read("20250330")?,
        to: Day::read("20250401")?,
        country: Country::read("GB")?,
        currency: Currency::read("GBP")?,
        price_type: Code2::read("02")?,
        quantity: Quantity::from_value(1)?,
    })
}

// One price on all days.
fn expect_days(alloc: Global, stop: &impl Abort, offer: &Offer) {
    let query = found(stop, question(), "a question");
    let spans = made(stop, calendar_day_by_day(alloc, offer, &query));
    match spans.as_slice() {
        [span] => {
            expect(stop, span.first == query.from, "the first day");
            expect(stop, span.last == query.to, "the last day");
            expect(stop, span.amount.is_some(), "a price");
        }
        _ => stop.panic("one span"),
    }
}

// One offer, of R1.
fn expect_offers<D: Desk>(alloc: Global, stop: &impl Abort, desk: &mut D) {
    let mut output = Vec::new(alloc);
    let rules = Precedence::none(alloc);
    let asked = run(alloc, desk, &rules, &mut REQUESTS.as_bytes(), &mut output);
    made(stop, asked);
    let north = found(stop, SeriesName::read("north"), "a series");
    let catalogue = found(stop, made(stop, desk.catalogue(&north)), "a catalogue");
    let article = found(stop, Isbn13::read("9781234567897"), "an article");
    let offers = made(stop, catalogue.offers_of(&north, &article));
    match offers.as_slice() {
        [offer] => {
            expect(stop, offer.reference.as_str() == "R1", "the offer of R1");
            expect_days(alloc, stop, offer);
        }
        _ => stop.panic("one offer"),
    }
}

#[test]
fn offers_of_a_catalogue(rt: HostRuntime) {
    expect_offers(rt.alloc(), &rt, &mut MemoryDesk::new(rt.alloc()));
}
