//! The parts of contents are plain data.

ghost use Rattle.std.specs.Prelude.{◌≡◌};

use crate::parts::{Price, Product, ProductIdentifier, ProductSupply, Supplier, SupplyDetail};
use onix_terms::plain::Plain;
use std::alloc::AllocError;

impl Plain for ProductIdentifier {
    ghost use Rattle.std.proofs.Common.{ap};
    ghost use Rattle.std.specs.Cmp.Lexicographic.{bytes_decides};
    ghost use Rattle.onix_terms.specs.Plain.{decides-both, decides-same};

    ghost clone_is_same = { λ x y e. λ i. record { id_type = e.0 i; id_value = e.1 i } };

    ghost eq_decides = { λ x y. decides-same
        (λ e. λ i. record { id_type = e.0 i; id_value = e.1 i })
        (λ e. (ap (λ p. p.id_type) e, ap (λ p. p.id_value) e))
        (decides-both (bytes_decides x.id_type y.id_type) (bytes_decides x.id_value y.id_value)) };
}

impl Plain for Supplier {
    ghost use Rattle.std.proofs.Common.{ap};
    ghost use Rattle.std.specs.Cmp.Lexicographic.{bytes_decides};
    ghost use Rattle.onix_terms.specs.Plain.{decides-both, decides-same, option-clones-same, option-decides};
    ghost use Rattle.onix_terms.specs.contracts.plain.PartyPlain.TheImpl.Laws as party;

    ghost clone_is_same = { λ x y e. λ i. record {
      role = e.0 i;
      party = option-clones-same party.clone_is_same-law x.party y.party e.1.0 i;
      name = e.1.1 i;
    } };

    ghost eq_decides = { λ x y. decides-same
        (λ e. λ i. record { role = e.0 i; party = e.1.0 i; name = e.1.1 i })
        (λ e. (ap (λ p. p.role) e, (ap (λ p. p.party) e, ap (λ p. p.name) e)))
        (decides-both (bytes_decides x.role y.role)
        (decides-both (option-decides party.eq_decides-law x.party y.party)
        (bytes_decides x.name y.name))) };
}

// A derived clone may return early at each field. In a price and in a detail only what owns memory
// can fail, and the other fields are copied: that is less to prove.
impl Clone for Price {
    ghost is_clone = { λ x y. y ≡ x };

    fn clone(&self) -> Result<Price, AllocError> {
        let territory = self.territory.duplicate()?;
        Ok(Price {
            price_type: self.price_type,
            amount: self.amount,
            currency: self.currency,
            territory,
            minimum: self.minimum,
            from: self.from,
            until: self.until,
        })
    }
}

impl Plain for Price {
    ghost use Rattle.std.proofs.Common.{ap};
    ghost use Rattle.std.specs.Cmp.Lexicographic.{bytes_decides};
    ghost use Rattle.std.proofs.lemmas.Bool.Decides.{Decides-eqb, Decides-int_eq};
    ghost use Rattle.onix_terms.specs.Plain.{decides-both, decides-same, option-decides};
    ghost use Rattle.onix_terms.specs.contracts.plain.TerritoryPlain.TheImpl.Laws as territory;

    ghost clone_is_same = { λ x y e. e };

    ghost eq_decides = { λ x y. decides-same
        (λ e. λ i. record {
          price_type = e.0 i;
          amount = e.1.0 i;
          currency = e.1.1.0 i;
          territory = e.1.1.1.0 i;
          minimum = e.1.1.1.1.0 i;
          from = e.1.1.1.1.1.0 i;
          until = e.1.1.1.1.1.1 i;
        })
        (λ e. (
          ap (λ p. p.price_type) e,
          (
            ap (λ p. p.amount) e,
            (
              ap (λ p. p.currency) e,
              (
                ap (λ p. p.territory) e,
                (
                  ap (λ p. p.minimum) e,
                  (
                    ap (λ p. p.from) e,
                    ap (λ p. p.until) e,
                  ),
                ),
              ),
            ),
          ),
        ))
        (decides-both (bytes_decides x.price_type y.price_type)
        (decides-both (Decides-eqb x.amount y.amount)
        (decides-both (bytes_decides x.currency y.currency)
        (decides-both (territory.eq_decides-law x.territory y.territory)
        (decides-both (Decides-eqb x.minimum y.minimum)
        (decides-both (option-decides Decides-int_eq x.from y.from)
        (option-decides Decides-int_eq x.until y.until))))))) };
}

impl Clone for SupplyDetail {
    ghost is_clone = { λ x y. y ≡ x };

    fn clone(&self) -> Result<SupplyDetail, AllocError> {
        let supplier = self.supplier.duplicate()?;
        let prices = self.prices.duplicate()?;
        Ok(SupplyDetail {
            supplier,
            availability: self.availability,
            unpriced: self.unpriced,
            prices,
        })
    }
}

impl Plain for SupplyDetail {
    ghost use Rattle.std.proofs.Common.{ap};
    ghost use Rattle.std.specs.Cmp.Lexicographic.{bytes_decides, pointwise_decides};
    ghost use Rattle.onix_terms.specs.Plain.{decides-both, decides-same, option-decides};
    ghost use Rattle.onix_records.specs.contracts.plain.SupplierPlain.TheImpl.Laws as supplier;
    ghost use Rattle.onix_records.specs.contracts.plain.PricePlain.TheImpl.Laws as price;

    ghost clone_is_same = { λ x y e. e };

    ghost eq_decides = { λ x y. decides-same
        (λ e. λ i. record {
          supplier = e.0 i;
          availability = e.1.0 i;
          unpriced = e.1.1.0 i;
          prices = e.1.1.1 i;
        })
        (λ e. (
          ap (λ p. p.supplier) e,
          (
            ap (λ p. p.availability) e,
            (ap (λ p. p.unpriced) e, ap (λ p. p.prices) e),
          ),
        ))
        (decides-both (supplier.eq_decides-law x.supplier y.supplier)
        (decides-both (bytes_decides x.availability y.availability)
        (decides-both (option-decides bytes_decides x.unpriced y.unpriced)
        (pointwise_decides price.eq_decides-law x.prices y.prices)))) };
}

impl Plain for ProductSupply {
    ghost use Rattle.std.proofs.Common.{ap};
    ghost use Rattle.std.specs.Cmp.Lexicographic.{pointwise_decides};
    ghost use Rattle.onix_terms.specs.Plain.{clones-same, decides-both, decides-same};
    ghost use Rattle.onix_terms.specs.contracts.plain.TerritoryPlain.TheImpl.Laws as territory;
    ghost use Rattle.onix_records.specs.contracts.plain.SupplyDetailPlain.TheImpl.Laws as detail;

    ghost clone_is_same = { λ x y e. λ i. record {
      market = territory.clone_is_same-law x.market y.market e.0 i;
      details = clones-same detail.clone_is_same-law x.details y.details e.1 i;
    } };

    ghost eq_decides = { λ x y. decides-same
        (λ e. λ i. record { market = e.0 i; details = e.1 i })
        (λ e. (ap (λ p. p.market) e, ap (λ p. p.details) e))
        (decides-both (territory.eq_decides-law x.market y.market)
        (pointwise_decides detail.eq_decides-law x.details y.details)) };
}

impl Plain for Product {
    ghost use Rattle.std.proofs.Common.{ap};
    ghost use Rattle.std.specs.Cmp.Lexicographic.{bytes_decides, pointwise_decides};
    ghost use Rattle.onix_terms.specs.Plain.{clones-same, decides-both, decides-same};
    ghost use Rattle.onix_records.specs.contracts.plain.ProductIdentifierPlain.TheImpl.Laws as identifier;
    ghost use Rattle.onix_records.specs.contracts.plain.ProductSupplyPlain.TheImpl.Laws as supply;

    ghost clone_is_same = { λ x y e. λ i. record {
      reference = e.0 i;
      notification = e.1.0 i;
      ids = clones-same identifier.clone_is_same-law x.ids y.ids e.1.1.0 i;
      supplies = clones-same supply.clone_is_same-law x.supplies y.supplies e.1.1.1 i;
    } };

    ghost eq_decides = { λ x y. decides-same
        (λ e. λ i. record {
          reference = e.0 i;
          notification = e.1.0 i;
          ids = e.1.1.0 i;
          supplies = e.1.1.1 i;
        })
        (λ e. (
          ap (λ p. p.reference) e,
          (
            ap (λ p. p.notification) e,
            (ap (λ p. p.ids) e, ap (λ p. p.supplies) e),
          ),
        ))
        (decides-both (bytes_decides x.reference y.reference)
        (decides-both (bytes_decides x.notification y.notification)
        (decides-both (pointwise_decides identifier.eq_decides-law x.ids y.ids)
        (pointwise_decides supply.eq_decides-law x.supplies y.supplies)))) };
}
