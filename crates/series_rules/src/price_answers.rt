//! Answers about the offers of an article.

ghost use Rattle.std.specs.Prelude.{◌≡◌, [], IfOk, false, option_map};
ghost use Rattle.price_rules.specs.Calendar.{is_bad_range};
ghost use Rattle.series_rules.specs.PriceAnswers.{calendars_of, dated, listed, named_best, priced};

use crate::answers::{ChosenOffer, ListedOffer, OfferCalendar, PricedOffer};
use onix_terms::items::Items;
use price_rules::calendar::{CalendarFault, calendar_for};
use price_rules::choice::BestOffer;
use price_rules::collector::OfferCollector;
use price_rules::current::current_price;
use price_rules::offer::{CalendarQuery, Offer, PriceQuery};
use std::alloc::{AllocError, Global};

fn into_listed(offer: Offer) -> ListedOffer
    ensures { result ≡ listed offer }
{
    ListedOffer {
        series: offer.series,
        reference: offer.reference,
        place: offer.place,
        availability: offer.availability,
    }
}

fn price_offer(offer: Offer, query: &PriceQuery) -> PricedOffer
    ensures { result ≡ priced query.now offer }
{
    let amount = current_price(&offer, query);
    PricedOffer {
        offer: into_listed(offer),
        amount,
    }
}

/// The prices of the offers that were collected, which are not held themselves.
#[derive(Drop)]
pub(crate) struct PricesSoFar {
    query: PriceQuery,
    pub(crate) offers: Items<PricedOffer>,
}

impl PricesSoFar {
    /// No prices, for this question.
    pub(crate) fn new(alloc: Global, query: &PriceQuery) -> PricesSoFar
        ensures query { result.query ≡ query.now }
        ensures none { result.offers ≡ [] }
    {
        PricesSoFar {
            query: *query,
            offers: Items::new(alloc),
        }
    }
}

impl OfferCollector for PricesSoFar {
    ghost use Rattle.std.specs.Prelude.{◌++◌, ◌∷◌, []};
    ghost use Rattle.series_rules.specs.PriceAnswers.{priced};

    ghost collected = { λ s o. record s { offers = s.offers ++ priced s.query o ∷ [] } };

    fn collect(&mut self, offer: Offer) -> Result<(), AllocError> {
        self.offers.push(price_offer(offer, &self.query))
    }
}

/// The answer to a question about a choice.
pub(crate) fn into_chosen(best: Option<BestOffer>) -> Option<ChosenOffer>
    ensures { result ≡ option_map named_best best }
{
    let best = best?;
    Some(ChosenOffer {
        rule: best.rule,
        offer: into_listed(best.offer),
        amount: best.amount,
    })
}

// The offer with its calendar.
fn date_offer(
    alloc: Global,
    offer: Offer,
    query: &CalendarQuery,
) -> Result<OfferCalendar, AllocError>
    requires { is_bad_range query.now.from query.now.to ≡ false }
    ensures { IfOk result (λ o. o ≡ dated query.now offer) }
{
    let spans = calendar_for(alloc, &offer, query);
    let offer = into_listed(offer);
    match spans {
        Ok(spans) => Ok(OfferCalendar { offer, spans }),
        Err(CalendarFault::BadRange) => unreachable!(),
        Err(CalendarFault::Memory) => Err(AllocError),
    }
}

/// Each offer with its calendar, in a range that is not bad.
pub(crate) fn date_offers(
    alloc: Global,
    offers: Items<Offer>,
    query: &CalendarQuery,
) -> Result<Items<OfferCalendar>, AllocError>
    requires { is_bad_range query.now.from query.now.to ≡ false }
    ensures { IfOk result (λ dated. dated ≡ calendars_of query.now offers) }
{
    let mut dated = Items::new(alloc);
    for offer in offers.into_vec() {
        dated.push(date_offer(alloc, offer, query)?)?;
    }
    Ok(dated)
}
