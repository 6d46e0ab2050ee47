//! What a shop and a wholesaler agreed.

use onix_terms::number::Number;
use onix_terms::party::Party;
use onix_terms::plain::Plain;
use onix_terms::series_name::SeriesName;

/// What a shop and a wholesaler agreed: messages between these parties are one series with a
/// name, numbered from a first number on.
#[derive(Clone, Drop, PartialEq, Eq)]
pub struct Agreement {
    pub name: SeriesName,
    pub sender: Party,
    pub addressee: Option<Party>,
    pub first: Number,
}

impl Plain for Agreement {
    ghost use Rattle.std.proofs.Common.{ap};
    ghost use Rattle.std.specs.Cmp.Lexicographic.{bytes_decides};
    ghost use Rattle.std.proofs.lemmas.Bool.Decides.{Decides-eqb};
    ghost use Rattle.onix_terms.specs.Plain.{decides-both, decides-same, option-clones-same, option-decides};
    ghost use Rattle.onix_terms.specs.contracts.plain.PartyPlain.TheImpl.Laws as party;

    ghost clone_is_same = { λ x y e. λ i. record {
      name = e.0 i;
      sender = party.clone_is_same-law x.sender y.sender e.1.0 i;
      addressee = option-clones-same party.clone_is_same-law x.addressee y.addressee e.1.1.0 i;
      first = e.1.1.1 i;
    } };

    ghost eq_decides = { λ x y. decides-same
        (λ e. λ i. record {
          name = e.0 i;
          sender = e.1.0 i;
          addressee = e.1.1.0 i;
          first = e.1.1.1 i;
        })
        (λ e. (
          ap (λ p. p.name) e,
          (ap (λ p. p.sender) e, (ap (λ p. p.addressee) e, ap (λ p. p.first) e)),
        ))
        (decides-both (bytes_decides x.name y.name)
        (decides-both (party.eq_decides-law x.sender y.sender)
        (decides-both (option-decides party.eq_decides-law x.addressee y.addressee)
        (Decides-eqb x.first y.first)))) };
}
