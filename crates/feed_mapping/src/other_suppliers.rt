//! Which SupplyDetails are of another supplier than the one that is named: they are as absent.

ghost use Rattle.std.specs.Prelude.{◌≡◌, option_map};
ghost use Rattle.feed_mapping.specs.Elements.{with_others};
ghost use Rattle.feed_mapping.specs.OtherSuppliers.{has_own_detail, is_of_other, is_of_others, own_details, says_who};
ghost use Rattle.feed_mapping.specs.PartyViews.{pair_view};

use crate::elements::{Composite, elements_in, next_composite, text_or_empty};
use crate::identifiers::{SUPPLIER, has_pair, next_identifier};
use crate::parties::Pair;
use feed_outline::Elements;

// Whether a Supplier says who it is, by an identifier or a name.
fn says_who(supplier: &Elements<'_>) -> bool
    ensures { result ≡ says_who supplier.now }
{
    next_identifier(SUPPLIER, supplier).is_some()
        || !text_or_empty(b"SupplierName", supplier).is_empty()
}

/// Whether a SupplyDetail is of another than the supplier that is named.
pub fn is_of_other(named: Option<Pair<'_>>, detail: &Elements<'_>) -> bool
    ensures { result ≡ is_of_other (option_map pair_view named.entry) detail.now }
{
    let Some(named) = named else {
        return false;
    };
    let supplier = elements_in(b"Supplier", detail);
    says_who(&supplier) && !has_pair(SUPPLIER, named, &supplier)
}

/// The first SupplyDetail that counts, and the elements behind it.
pub fn next_detail<'a>(
    named: Option<Pair<'_>>,
    supply: &Elements<'a>,
) -> Option<(Composite<'a>, Elements<'a>)>
    ensures { let details = own_details (option_map pair_view named.entry) in
        with_others details result ≡ details supply.now }
{
    let mut rest = supply.copy();
    while let Some((detail, behind)) = next_composite(b"SupplyDetail", &rest) {
        if !is_of_other(named, &detail.below) {
            return Some((detail, behind));
        }
        rest = behind;
    }
    None
}

// Whether a Product has a SupplyDetail that counts.
fn has_own_detail(named: Option<Pair<'_>>, product: &Elements<'_>) -> bool
    ensures { result ≡ has_own_detail (option_map pair_view named.entry) product.now }
{
    let mut rest = product.copy();
    while let Some((supply, behind)) = next_composite(b"ProductSupply", &rest) {
        if next_detail(named, &supply.below).is_some() {
            return true;
        }
        rest = behind;
    }
    false
}

/// Whether a Product has SupplyDetails, and all of them are of others.
pub fn is_of_others(named: Option<Pair<'_>>, product: &Elements<'_>) -> bool
    ensures { result ≡ is_of_others (option_map pair_view named.entry) product.now }
{
    has_own_detail(None, product) && !has_own_detail(named, product)
}
