//! Which strangers below a Product count: elements that are called as one that counts where they
//! stand, and do not count.

ghost use Rattle.std.specs.Prelude.{◌≡◌, option_map};
ghost use Rattle.feed_mapping.specs.PartyViews.{pair_view};
ghost use Rattle.feed_mapping.specs.Strangers.{has_own_stranger, has_stranger_in, has_stranger_in_supply};

use crate::other_suppliers::is_of_other;
use crate::parties::Pair;
use feed_outline::{Elements, has_stranger};

// The name of a stranger.
const STRANGER: &[u8] = b":";

/// Whether one of the elements is a stranger, or a stranger stands in one of this name.
pub(crate) fn has_stranger_in(name: &[u8], elements: &Elements<'_>) -> bool
    ensures { result ≡ has_stranger_in name.now elements.now }
{
    let mut rest = elements.copy();
    while let Some(node) = rest.first() {
        let called = node.line.name;
        if called == STRANGER || (called == name && has_stranger(&node.below)) {
            return true;
        }
        rest = node.rest;
    }
    false
}

// Whether one counts that stands in a ProductSupply; in a SupplyDetail of another than the supplier
// that is named, where it might say whose it is.
fn has_stranger_in_supply(named: Option<Pair<'_>>, supply: &Elements<'_>) -> bool
    ensures { result ≡ has_stranger_in_supply (option_map pair_view named.entry) supply.now }
{
    let mut rest = supply.copy();
    while let Some(node) = rest.first() {
        let name = node.line.name;
        let is_strange = if name == b"SupplyDetail".as_slice() && is_of_other(named, &node.below) {
            has_stranger_in(b"Supplier", &node.below)
        } else {
            has_stranger(&node.below)
        };
        if name == STRANGER || is_strange {
            return true;
        }
        rest = node.rest;
    }
    false
}

/// Whether one counts that stands in a Product.
pub(crate) fn has_own_stranger(named: Option<Pair<'_>>, product: &Elements<'_>) -> bool
    ensures { result ≡ has_own_stranger (option_map pair_view named.entry) product.now }
{
    let mut rest = product.copy();
    while let Some(node) = rest.first() {
        let name = node.line.name;
        let is_strange = if name == b"ProductSupply".as_slice() {
            has_stranger_in_supply(named, &node.below)
        } else {
            has_stranger(&node.below)
        };
        if name == STRANGER || is_strange {
            return true;
        }
        rest = node.rest;
    }
    false
}
