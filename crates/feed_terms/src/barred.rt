//! Which prices are not computed, since the shop does not know what another beside them costs.

ghost use Rattle.std.specs.Prelude.{◌≡◌, IfOk, map};
ghost use Rattle.std.specs.Option.{option_copied};
ghost use Rattle.feed_terms.specs.Fits.{is_among};
ghost use Rattle.feed_terms.specs.HeldBack.{place_text, unfitted};

use crate::fits::is_among;
use crate::price::GivenPrice;
use crate::table::Terms;
use onix_terms::items::Items;
use onix_terms::text::Text;
use std::alloc::{AllocError, Global};

// The type, the currency and the territory of a price.
fn place_text(alloc: Global, given: &GivenPrice) -> Result<Text, AllocError>
    ensures { IfOk result (λ text. text ≡ place_text given.now) }
{
    let mut text = Text::from_str(alloc, given.price.price_type.as_str())?;
    text.push_str(given.price.currency.as_str())?;
    text.push_str(given.area.as_str())?;
    Ok(text)
}

/// The types, currencies and territories of those prices of a SupplyDetail of this supplier that no
/// term fits.
pub(crate) fn unfitted_places(
    alloc: Global,
    terms: &Terms,
    supplier: Option<&Text>,
    given: &[GivenPrice],
) -> Result<Items<Text>, AllocError>
    ensures { IfOk result (λ places. places
        ≡ map place_text (unfitted terms.now (option_copied supplier.entry) given.now)) }
{
    let mut places = Items::new(alloc);
    let mut rest = given;
    while let [price, tail @ ..] = rest {
        if terms.fitting(supplier, price).is_none() {
            let place = place_text(alloc, price)?;
            places.push(place)?;
        }
        rest = tail;
    }
    Ok(places)
}

/// Whether one of them is that of a price.
pub(crate) fn is_barred(
    alloc: Global,
    places: &[Text],
    given: &GivenPrice,
) -> Result<bool, AllocError>
    ensures { IfOk result (λ is. is ≡ is_among places.now (place_text given.now)) }
{
    let place = place_text(alloc, given)?;
    Ok(is_among(places, &place))
}
