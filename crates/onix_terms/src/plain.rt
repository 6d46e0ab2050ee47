//! Plain data, which contracts compare by one equation.

ghost use Rattle.std.specs.Prelude.{◌≡◌, ◌↔◌, IsTrue, IfOk};
ghost use Rattle.std.specs.Bool.{Decides};

use crate::amount::Amount;
use crate::code::Code;
use crate::day::Day;
use crate::items::Items;
use crate::party::Party;
use crate::positive::Positive;
use crate::series_name::SeriesName;
use crate::territory::Territory;
use crate::text::Text;
use std::alloc::AllocError;

/// Plain data: contracts see all that there is to it. So a clone is the same value, and `==`
/// holds exactly where two values are the same.
///
/// A struct that derives `Clone` and `PartialEq` proves both laws field by field, as `Territory`
/// does: by the lemmas of `specs/Plain.antt` for lists, options and pairs, and for a field of
/// another struct `S` by the laws of that one, `clone_is_same-law` and `eq_decides-law` of
/// `contracts.plain.SPlain.TheImpl.Laws`.
pub trait Plain: Clone + PartialEq {
    ghost clone_is_same: { (x y : Self) → Self.is_clone x y → y ≡ x };

    ghost eq_decides: { (x y : Self) → Decides (Self.eq x y) (x ≡ y) };

    /// A copy of the value. Fails only if memory runs out.
    final fn duplicate(&self) -> Result<Self, AllocError>
        ensures { IfOk result (λ d. d ≡ self.now) }
    {
        self.clone()
    }

    /// Whether two values are the same.
    final fn is_equal(&self, other: &Self) -> bool
        ensures { IsTrue result ↔ (self.now ≡ other.now) }
    {
        self == other
    }
}

impl Plain for Text {
    ghost use Rattle.std.specs.Cmp.Lexicographic.{bytes_decides};

    ghost clone_is_same = { λ x y e. e };

    ghost eq_decides = { bytes_decides };
}

impl<const FIRST: u8, const LAST: u8, const N: usize> Plain for Code<FIRST, LAST, N> {
    ghost use Rattle.std.specs.Cmp.Lexicographic.{bytes_decides};

    ghost clone_is_same = { λ x y e. e };

    ghost eq_decides = { bytes_decides };
}

impl<const DIGITS: usize, const BELOW: u32> Plain for Positive<DIGITS, BELOW> {
    ghost use Rattle.std.proofs.lemmas.Bool.Decides.{Decides-eqb};

    ghost clone_is_same = { λ x y e. e };

    ghost eq_decides = { Decides-eqb };
}

impl Plain for u32 {
    ghost use Rattle.std.proofs.lemmas.Bool.Decides.{Decides-eqb};

    ghost clone_is_same = { λ x y e. e };

    ghost eq_decides = { Decides-eqb };
}

impl Plain for Amount {
    ghost use Rattle.std.proofs.lemmas.Bool.Decides.{Decides-eqb};

    ghost clone_is_same = { λ x y e. e };

    ghost eq_decides = { Decides-eqb };
}

impl Plain for Day {
    ghost use Rattle.std.proofs.lemmas.Bool.Decides.{Decides-int_eq};

    ghost clone_is_same = { λ x y e. e };

    ghost eq_decides = { Decides-int_eq };
}

impl Plain for bool {
    ghost use Rattle.std.specs.Cmp.{booleans_Decides};

    ghost clone_is_same = { λ x y e. e };

    ghost eq_decides = { booleans_Decides };
}

impl Plain for SeriesName {
    ghost use Rattle.std.specs.Cmp.Lexicographic.{bytes_decides};

    ghost clone_is_same = { λ x y e. e };

    ghost eq_decides = { bytes_decides };
}

impl<T: Plain> Plain for Option<T> {
    ghost use Rattle.onix_terms.specs.Plain.{option-clones-same, option-decides};

    ghost clone_is_same = { option-clones-same T.Plain.clone_is_same };

    ghost eq_decides = { option-decides T.Plain.eq_decides };
}

impl<A: Plain, B: Plain> Plain for (A, B) {
    ghost use Rattle.onix_terms.specs.Plain.{pair-clones-same, pair-decides};

    ghost clone_is_same = { pair-clones-same A.Plain.clone_is_same B.Plain.clone_is_same };

    ghost eq_decides = { pair-decides A.Plain.eq_decides B.Plain.eq_decides };
}

impl<T: Plain> Plain for Items<T> {
    ghost use Rattle.std.specs.Cmp.Lexicographic.{pointwise_decides};
    ghost use Rattle.onix_terms.specs.Plain.{clones-same};

    ghost clone_is_same = { clones-same T.Plain.clone_is_same };

    ghost eq_decides = { pointwise_decides T.Plain.eq_decides };
}

impl Plain for Party {
    ghost use Rattle.std.proofs.Common.{ap};
    ghost use Rattle.std.specs.Cmp.Lexicographic.{bytes_decides};
    ghost use Rattle.onix_terms.specs.Plain.{decides-both, decides-same};

    ghost clone_is_same = { λ x y e. λ i. record { id_type = e.0 i; id_value = e.1 i } };

    ghost eq_decides = { λ x y. decides-same
        (λ e. λ i. record { id_type = e.0 i; id_value = e.1 i })
        (λ e. (ap (λ p. p.id_type) e, ap (λ p. p.id_value) e))
        (decides-both (bytes_decides x.id_type y.id_type) (bytes_decides x.id_value y.id_value)) };
}

impl Plain for Territory {
    ghost use Rattle.std.proofs.Common.{ap};
    ghost use Rattle.std.specs.Cmp.{booleans_Decides};
    ghost use Rattle.std.specs.Cmp.Lexicographic.{bytes_decides, pointwise_decides};
    ghost use Rattle.onix_terms.specs.Plain.{clones-same, decides-both, decides-same};

    ghost clone_is_same = { λ x y e. λ i. record {
      included = clones-same (λ a b h. h) x.included y.included e.0 i;
      world = e.1.0 i;
      excluded = clones-same (λ a b h. h) x.excluded y.excluded e.1.1 i;
    } };

    ghost eq_decides = { λ x y. decides-same
        (λ e. λ i. record { included = e.0 i; world = e.1.0 i; excluded = e.1.1 i })
        (λ e. (ap (λ t. t.included) e, (ap (λ t. t.world) e, ap (λ t. t.excluded) e)))
        (decides-both (pointwise_decides bytes_decides x.included y.included)
        (decides-both (booleans_Decides x.world y.world)
        (pointwise_decides bytes_decides x.excluded y.excluded))) };
}
