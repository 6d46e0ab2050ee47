//! Territories, of a market or a price.

ghost use Rattle.std.specs.Prelude.{◌≡◌, ◌↔◌, IsTrue, Contains};

use crate::code::Country;
use crate::countries::{read_countries, read_world};
use crate::items::Items;
use std::alloc::{AllocError, Global};
use thiserror::Error;

/// Why fields gave no territory.
#[derive(Debug, Drop, Error)]
pub enum TermFault {
    /// The fields write none.
    #[error("no territory")]
    NotATerm,
    /// Memory ran out.
    #[error("out of memory")]
    Memory,
}

impl From<AllocError> for TermFault {
    ghost use Rattle.onix_terms.specs.declared.territory.TermFault.TheVariants.{Memory};

    ghost from_gives = { λ _ e. e ≡ Memory };

    fn from(_e: AllocError) -> TermFault {
        TermFault::Memory
    }
}

/// Where a price or a market holds: what the fields CountriesIncluded, RegionsIncluded and
/// CountriesExcluded say. The lists of a territory that was read are in order, without repeats.
#[derive(Clone, Debug, Drop, PartialEq, Eq)]
pub struct Territory {
    /// The countries that are included by name.
    pub included: Items<Country>,
    /// Whether all countries are included.
    pub world: bool,
    /// The countries that are excluded even so.
    pub excluded: Items<Country>,
}

fn has_country(countries: &[Country], country: Country) -> bool
    ensures { IsTrue result ↔ Contains countries.now country }
{
    countries.iter().any(|c| *c == country)
}

impl Territory {
    ghost use Rattle.onix_terms.specs.Territory.{Gives, IsIn, territory_of};

    /// The territory of the three fields. `NotATerm` exactly where they write none.
    pub fn read(
        alloc: Global,
        included: &str,
        regions: &str,
        excluded: &str,
    ) -> Result<Territory, TermFault>
        ensures { Gives result (territory_of included.now regions.now excluded.now) }
    {
        let includes_none = included.is_empty() && regions.is_empty();
        let included = read_countries(alloc, included)?;
        let world = read_world(regions)?;
        let excluded = read_countries(alloc, excluded)?;
        Ok(Territory {
            included,
            world: world || includes_none,
            excluded,
        })
    }

    /// Whether a country lies in the territory.
    pub fn contains(&self, country: Country) -> bool
        ensures { IsTrue result ↔ IsIn country self.now }
    {
        if has_country(self.excluded.as_slice(), country) {
            return false;
        }
        self.world || has_country(self.included.as_slice(), country)
    }
}
