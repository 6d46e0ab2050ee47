//! The choice of the shop, made while the offers are read.

ghost use Rattle.std.specs.Prelude.{◌≡◌, ◌++◌, ◌∷◌, [], IfOk, None, slice_get};
ghost use Rattle.price_rules.specs.BestOffer.{alone, best_offer};

use crate::choice::{BestOffer, choose};
use crate::collector::OfferCollector;
use crate::offer::{Offer, PriceQuery};
use crate::precedence::Precedence;
use onix_terms::items::Items;
use std::alloc::{AllocError, Global};

/// The offer that the precedence table chooses of those that were collected, if it takes one. Of
/// the others it holds none.
#[derive(Drop)]
pub struct ChoiceSoFar<'a> {
    alloc: Global,
    precedence: &'a Precedence,
    query: PriceQuery,
    pub best: Option<BestOffer>,
}

// The offer at that index, if there is one.
fn offer_at(offers: Items<Offer>, index: usize) -> Option<Offer>
    ensures { result ≡ slice_get offers index }
{
    let mut offers = offers.into_vec();
    if index < offers.len() {
        Some(offers.swap_remove(index))
    } else {
        None
    }
}

// The offer that the precedence table chooses.
fn best_offer(
    precedence: &Precedence,
    offers: Items<Offer>,
    query: &PriceQuery,
) -> Option<BestOffer>
    ensures { result ≡ best_offer precedence.now query.now offers }
{
    let choice = choose(precedence, offers.as_slice(), query)?;
    let offer = offer_at(offers, choice.offer_index)?;
    Some(BestOffer {
        rule: choice.rule,
        offer,
        amount: choice.amount,
    })
}

// The best offer, if there is one, and the next one.
fn with_next(
    alloc: Global,
    best: Option<BestOffer>,
    offer: Offer,
) -> Result<Items<Offer>, AllocError>
    ensures { IfOk result (λ offers. offers ≡ alone best ++ offer ∷ []) }
{
    let mut offers = Items::new(alloc);
    if let Some(best) = best {
        offers.push(best.offer)?;
    }
    offers.push(offer)?;
    Ok(offers)
}

impl<'a> ChoiceSoFar<'a> {
    /// No choice, for this question.
    pub fn new(alloc: Global, precedence: &'a Precedence, query: &PriceQuery) -> ChoiceSoFar<'a>
        ensures rules { result.precedence.now ≡ precedence.now }
        ensures query { result.query ≡ query.now }
        ensures none { result.best ≡ None }
    {
        ChoiceSoFar {
            alloc,
            precedence,
            query: *query,
            best: None,
        }
    }
}

impl OfferCollector for ChoiceSoFar<'_> {
    ghost use Rattle.std.specs.Prelude.{◌++◌, ◌∷◌, []};
    ghost use Rattle.price_rules.specs.BestOffer.{alone, best_offer};

    ghost collected = { λ s o. record s {
      best = best_offer s.precedence.now s.query (alone s.best ++ o ∷ []);
    } };

    fn collect(&mut self, offer: Offer) -> Result<(), AllocError> {
        let offers = with_next(self.alloc, self.best.take(), offer)?;
        self.best = best_offer(self.precedence, offers, &self.query);
        Ok(())
    }
}
