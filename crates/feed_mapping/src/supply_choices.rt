//! What the caller chooses for the supplies of a Product.

use crate::parties::Pair;
use feed_terms::table::Terms;

/// The supplier whose SupplyDetails alone count, if one is named; the type of identifier of a
/// supplier that is preferred, and the terms of the shop, if it has any.
#[derive(Clone, Copy)]
pub struct SupplyChoices<'a> {
    pub supplier: Option<Pair<'a>>,
    pub id_type: &'a [u8],
    pub terms: Option<&'a Terms>,
}
