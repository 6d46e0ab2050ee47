//! The table of terms.

ghost use Rattle.std.specs.Prelude.{◌≡◌, ◌≤◌, IfOk, length, []};
ghost use Rattle.std.specs.Option.{option_copied};

use crate::fits::{fits, is_for};
use crate::price::GivenPrice;
use crate::term::{Term, TermsFault};
use crate::toml_terms::read_table;
use onix_terms::text::Text;
use std::alloc::{AllocError, Global};
use std::marker::Model;

/// The terms of the shop with a wholesaler, which contracts see as the list of them, of which there
/// are at most 1,000. The first one that fits a price counts.
#[derive(Drop)]
pub struct Terms {
    terms: Vec<Term>,
}

impl Model for Terms {
    ghost use Rattle.std.specs.Prelude.{List, length, ◌≤◌};
    ghost use Rattle.feed_terms.specs.declared.term.Term.{Term};

    ghost Value = { List Term };

    ghost view = { λ t. t.terms.items };

    ghost invariant = { λ t. length t.terms.items ≤ 1_000 };
}

impl Terms {
    ghost use Rattle.std.specs.Prelude.{IfErr, Ok, option_map};
    ghost use Rattle.feed_terms.specs.Fits.{fitting};
    ghost use Rattle.feed_terms.specs.TermsFile.{Explains, table_of};

    /// The table without terms. It does not allocate.
    pub fn none(alloc: Global) -> Terms
        ensures { result ≡ [] }
    {
        Terms {
            terms: Vec::new(alloc),
        }
    }

    /// The terms in their order.
    pub fn terms(&self) -> &[Term]
        ensures terms { result.now ≡ self.now }
        ensures few { length self.now ≤ 1_000 }
    {
        self.terms.as_slice()
    }

    /// The table that a TOML text writes: an array `term` of tables, each with `types`, `net` and
    /// `percent`, and optionally `codes`, `scheme`, `supplier`, `currency` and `tax`. An empty text
    /// has no terms.
    ///
    /// `NotToml` comes exactly where the text is no TOML document, or its top-level table has
    /// another key than `term`, or `term` is no array. Else `BadTerm` names the first item, from 1,
    /// that is past number 1,000 or is no such table. `Memory` comes only where memory ran out.
    pub fn read(alloc: Global, text: &str) -> Result<Terms, TermsFault>
        ensures terms { IfOk result (λ t. table_of text.now ≡ Ok t) }
        ensures fault { IfErr result (Explains (table_of text.now)) }
    {
        let terms = read_table(alloc, text)?;
        Ok(Terms { terms })
    }

    /// The first term that fits a price of this supplier.
    pub fn fitting(&self, supplier: Option<&Text>, given: &GivenPrice) -> Option<&Term>
        ensures { option_copied result
            ≡ fitting (option_copied supplier.entry) given.now self.now }
    {
        let mut rest = self.terms.as_slice();
        while let [term, tail @ ..] = rest {
            if fits(term, supplier, given) {
                return Some(term);
            }
            rest = tail;
        }
        None
    }

    /// Whether the table has a term for the type and the currency of a price.
    pub fn is_for(&self, given: &GivenPrice) -> bool {
        let price_type = given.price.price_type;
        let currency = given.price.currency;
        self.terms
            .iter()
            .any(|term| is_for(term, price_type, currency))
    }
}
