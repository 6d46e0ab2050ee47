//! Terms: which prices they are for, and what is taken off.

ghost use Rattle.std.specs.Prelude.{◌≡◌};

use crate::percent::Percent;
use onix_terms::code::{Code2, Currency};
use onix_terms::items::Items;
use onix_terms::text::Text;
use std::alloc::{AllocError, AllocFailed};
use thiserror::Error;

/// A percent of a term.
#[derive(Clone, Copy, Debug)]
pub enum Rate {
    /// The same of each price.
    Fixed(Percent),
    /// What the price says of itself in the feed.
    Feed,
}

/// A term of the shop: which prices it is for, of what type the net prices are that it computes,
/// and what is taken off. A code and the supplier are texts, each two digits of its type, a comma
/// and its value.
#[derive(Drop)]
pub struct Term {
    /// The types of the prices.
    pub types: Items<Code2>,
    /// The discount codes of which a price has one, if the term asks for one.
    pub codes: Option<Items<Text>>,
    /// The name of the scheme that these codes are of, if the term asks for one.
    pub scheme: Option<Text>,
    /// The identifier of the supplier, if the term asks for one.
    pub supplier: Option<Text>,
    /// The currency, if the term asks for one.
    pub currency: Option<Currency>,
    /// The type of the net prices.
    pub net: Code2,
    /// The discount.
    pub percent: Rate,
    /// The tax that a price includes, which is taken out first.
    pub tax: Option<Rate>,
}

/// Why a text is no table of terms.
#[derive(Debug, Drop, Error)]
pub enum TermsFault {
    /// The text is no TOML document, or its top-level table has another key than `term`, or `term`
    /// is no array.
    #[error("not TOML")]
    NotToml,
    /// This item of the array `term`, counted from 1, is the first that is past number 1,000 or
    /// no term.
    #[error("bad term {index}")]
    BadTerm { index: u32 },
    /// Memory ran out.
    #[error("memory")]
    Memory,
}

impl From<AllocError> for TermsFault {
    ghost use Rattle.feed_terms.specs.declared.term.TermsFault.TheVariants.{Memory};

    ghost from_gives = { λ _ e. e ≡ Memory };

    fn from(_: AllocError) -> TermsFault {
        TermsFault::Memory
    }
}

impl<T: Drop> From<AllocFailed<T>> for TermsFault {
    ghost use Rattle.feed_terms.specs.declared.term.TermsFault.TheVariants.{Memory};

    ghost from_gives = { λ _ e. e ≡ Memory };

    fn from(_: AllocFailed<T>) -> TermsFault {
        TermsFault::Memory
    }
}
