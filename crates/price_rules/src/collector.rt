//! What is made of the offers of an article, one after the other.

ghost use Rattle.std.specs.Prelude.{◌≡◌, OnOk};

use crate::offer::Offer;
use onix_terms::items::Items;
use std::alloc::AllocError;

/// What offers are given to one after the other, in their order, so that nobody has to hold them
/// all. A list of offers is one, and holds each of them.
pub trait OfferCollector: Drop {
    ghost use Rattle.price_rules.specs.declared.offer.Offer.{Offer};

    /// What it is after one more offer.
    ghost collected: { Self → Offer → Self };

    /// Takes the next offer.
    fn collect(&mut self, offer: Offer) -> Result<(), AllocError>
        ensures { OnOk result (self.new ≡ collected self.old offer) };
}

impl OfferCollector for Items<Offer> {
    ghost use Rattle.std.specs.Prelude.{◌++◌, ◌∷◌, []};

    ghost collected = { λ offers offer. offers ++ offer ∷ [] };

    fn collect(&mut self, offer: Offer) -> Result<(), AllocError> {
        self.push(offer)
    }
}
