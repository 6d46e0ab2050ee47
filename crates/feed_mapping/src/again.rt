//! Elements that come again though they do not repeat.

ghost use Rattle.std.specs.Prelude.{◌≡◌};
ghost use Rattle.feed_mapping.specs.Again.{again_in, comes_again, is_repeatable};
ghost use Rattle.feed_mapping.specs.PriceViews.{text_view};

use crate::elements::first_composite;
use feed_outline::{Elements, text_in};

// Whether an element of this name repeats in a Price or a Market, or is counted alone.
fn is_repeatable(name: &[u8]) -> bool
    ensures { result ≡ is_repeatable name.now }
{
    name == b"PriceCondition".as_slice()
        || name == b"PriceConstraint".as_slice()
        || name == b"PriceDate".as_slice()
        || name == b"Discount".as_slice()
        || name == b"DiscountCoded".as_slice()
        || name == b":".as_slice()
        || name == b"Tax".as_slice()
        || name == b";".as_slice()
}

/// Whether an element of this name and text comes again among these: a composite, empty or not; and
/// of one of text, which has a text, another with one.
pub(crate) fn comes_again(name: &[u8], text: &[u8], rest: &Elements<'_>) -> bool
    ensures { result ≡ comes_again name.now text.now rest.now }
{
    if name == b"Territory".as_slice()
        || name == b"PriceCoded".as_slice()
        || name == b"EpubLicense".as_slice()
        || name == b"EpubLicenseWithDate".as_slice()
    {
        first_composite(name, rest).is_some()
    } else {
        !text.is_empty() && text_in(name, rest).is_some()
    }
}

/// The name of the first element that comes again though it does not repeat, at whatever depth;
/// what stands in a PriceDate, or is read for the terms of the shop, is not looked at.
pub(crate) fn again_in(elements: &Elements<'_>) -> Option<&'static [u8]>
    ensures { text_view result ≡ again_in elements.now }
{
    let mut rest = elements.copy();
    while let Some(node) = rest.first() {
        let name = node.line.name;
        if !is_repeatable(name) && comes_again(name, node.line.text.as_slice(), &node.rest) {
            return Some(name);
        }
        if name != b"PriceDate".as_slice()
            && name != b"Discount".as_slice()
            && name != b"DiscountCoded".as_slice()
            && name != b"Tax".as_slice()
        {
            if let Some(other) = again_in(&node.below) {
                return Some(other);
            }
        }
        rest = node.rest;
    }
    None
}
