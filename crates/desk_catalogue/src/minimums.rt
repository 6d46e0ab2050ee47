//! Whether prices hold from more than one copy on.

ghost use Rattle.std.specs.Prelude.{◌≡◌};
ghost use Rattle.desk_catalogue.specs.Minimums.{details_have_minimums, prices_have_minimums, products_have_minimums, supplies_have_minimums};

use onix_message::parts::{Price, Product, ProductSupply, SupplyDetail};

fn prices_have_minimums(prices: &[Price]) -> bool
    ensures { result ≡ prices_have_minimums prices.now }
{
    prices.iter().any(|price| price.minimum.value() > 1)
}

fn details_have_minimums(details: &[SupplyDetail]) -> bool
    ensures { result ≡ details_have_minimums details.now }
{
    details
        .iter()
        .any(|detail| prices_have_minimums(detail.prices.as_slice()))
}

fn supplies_have_minimums(supplies: &[ProductSupply]) -> bool
    ensures { result ≡ supplies_have_minimums supplies.now }
{
    supplies
        .iter()
        .any(|supply| details_have_minimums(supply.details.as_slice()))
}

/// Whether a price of the products has a minimum above 1.
pub fn products_have_minimums(products: &[Product]) -> bool
    ensures { result ≡ products_have_minimums products.now }
{
    products.iter().any(|product| supplies_have_minimums(product.supplies.as_slice()))
}
