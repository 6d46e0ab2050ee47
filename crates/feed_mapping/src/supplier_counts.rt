//! Whether a Product has SupplyDetails of the supplier that is named, and of others.

ghost use Rattle.std.specs.Prelude.{◌≡◌, option_map};
ghost use Rattle.std.specs.List.{list_any};
ghost use Rattle.feed_mapping.specs.Elements.{each_at};
ghost use Rattle.feed_mapping.specs.PartyViews.{pair_view};
ghost use Rattle.feed_mapping.specs.SupplierCounts.{has_detail, is_such};

use crate::elements::{elements_in, next_composite};
use crate::identifiers::{SUPPLIER, has_pair};
use crate::other_suppliers::is_of_other;
use crate::parties::Pair;
use crate::products::is_deletion;
use feed_outline::Elements;

// Whether a SupplyDetail is of another than the supplier that is named, or else, of that one.
fn is_such(named: Pair<'_>, of_other: bool, detail: &Elements<'_>) -> bool
    ensures { result ≡ is_such (pair_view named.entry) of_other detail.now }
{
    if of_other {
        is_of_other(Some(named), detail)
    } else {
        has_pair(SUPPLIER, named, &elements_in(b"Supplier", detail))
    }
}

// Whether a ProductSupply has such a SupplyDetail.
fn is_in(named: Pair<'_>, of_other: bool, supply: &Elements<'_>) -> bool
    ensures { result ≡ list_any (λ d. is_such (pair_view named.entry) of_other d.below)
        (each_at "SupplyDetail" supply.now) }
{
    let mut rest = supply.copy();
    while let Some((detail, behind)) = next_composite(b"SupplyDetail", &rest) {
        if is_such(named, of_other, &detail.below) {
            return true;
        }
        rest = behind;
    }
    false
}

/// Whether a Product has a SupplyDetail of another than the supplier that is named, or else, of
/// that one. A deletion has none.
pub fn has_detail(named: Option<Pair<'_>>, of_other: bool, product: &Elements<'_>) -> bool
    ensures { result ≡ has_detail (option_map pair_view named.entry) of_other product.now }
{
    let Some(named) = named else {
        return false;
    };
    if is_deletion(product) {
        return false;
    }
    let mut rest = product.copy();
    while let Some((supply, behind)) = next_composite(b"ProductSupply", &rest) {
        if is_in(named, of_other, &supply.below) {
            return true;
        }
        rest = behind;
    }
    false
}
