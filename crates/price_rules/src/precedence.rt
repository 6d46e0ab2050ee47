//! The precedence table.

ghost use Rattle.std.specs.Prelude.{◌≡◌, ◌≤◌, length, []};

use crate::toml_rules::read_rules;
use onix_terms::amount::Amount;
use onix_terms::code::Code2;
use onix_terms::items::Items;
use onix_terms::series_name::SeriesName;
use std::alloc::{AllocError, AllocFailed, Global};
use std::marker::Model;
use thiserror::Error;

/// A rule of the shop: it admits the offers of a series, or of all series where it names none,
/// that have one of these availability codes and whose current price is not above the greatest
/// amount, if the rule has one.
#[derive(Drop)]
pub struct Rule {
    pub series: Option<SeriesName>,
    pub codes: Items<Code2>,
    pub max: Option<Amount>,
}

/// Why a text is no precedence table.
#[derive(Debug, Drop, Error)]
pub enum PrecedenceFault {
    /// The text is no TOML document, or its top-level table has another key than `rule`, or `rule`
    /// is no array.
    #[error("not TOML")]
    NotToml,
    /// This item of the array `rule`, counted from 1, is the first that is past number 1,000 or
    /// no rule.
    #[error("bad rule {index}")]
    BadRule { index: u32 },
    /// Memory ran out.
    #[error("memory")]
    Memory,
}

impl From<AllocError> for PrecedenceFault {
    ghost use Rattle.price_rules.specs.declared.precedence.PrecedenceFault.TheVariants.{Memory};

    ghost from_gives = { λ _ e. e ≡ Memory };

    fn from(_: AllocError) -> PrecedenceFault {
        PrecedenceFault::Memory
    }
}

impl<T: Drop> From<AllocFailed<T>> for PrecedenceFault {
    ghost use Rattle.price_rules.specs.declared.precedence.PrecedenceFault.TheVariants.{Memory};

    ghost from_gives = { λ _ e. e ≡ Memory };

    fn from(_: AllocFailed<T>) -> PrecedenceFault {
        PrecedenceFault::Memory
    }
}

/// The precedence table of the shop, which contracts see as the list of its rules, of which there
/// are at most 1,000. An earlier rule goes before a later one.
#[derive(Drop)]
pub struct Precedence {
    rules: Vec<Rule>,
}

impl Model for Precedence {
    ghost use Rattle.std.specs.Prelude.{List, length, ◌≤◌};
    ghost use Rattle.price_rules.specs.declared.precedence.Rule.{Rule};

    ghost Value = { List Rule };

    ghost view = { λ p. p.rules.items };

    ghost invariant = { λ p. length p.rules.items ≤ 1_000 };
}

impl Precedence {
    ghost use Rattle.std.specs.Prelude.{IfOk, IfErr, Ok};
    ghost use Rattle.price_rules.specs.RulesFile.{Explains, precedence_of};

    /// The table without rules. It does not allocate.
    pub fn none(alloc: Global) -> Precedence
        ensures { result ≡ [] }
    {
        Precedence {
            rules: Vec::new(alloc),
        }
    }

    /// The rules in their order.
    pub fn rules(&self) -> &[Rule]
        ensures rules { result.now ≡ self.now }
        ensures few { length self.now ≤ 1_000 }
    {
        self.rules.as_slice()
    }

    /// The table that a TOML text writes: an array `rule` of tables, each with `series` (the name
    /// of a series, or `*` for all), `codes` (one or more availability codes) and optionally
    /// `max` (an amount), all texts. An empty text has no rules.
    ///
    /// `NotToml` comes exactly where the text is no TOML document, or its top-level table has
    /// another key than `rule`, or `rule` is no array. Else `BadRule` names the first item, from 1,
    /// that is past number 1,000 or is no such table. `Memory` comes only if memory ran out.
    pub fn read(alloc: Global, text: &str) -> Result<Precedence, PrecedenceFault>
        ensures rules { IfOk result (λ p. precedence_of text.now ≡ Ok p) }
        ensures fault { IfErr result (Explains (precedence_of text.now)) }
    {
        let rules = read_rules(alloc, text)?;
        Ok(Precedence { rules })
    }
}
