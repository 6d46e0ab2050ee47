//! The parts of a message.

use onix_terms::amount::Amount;
use onix_terms::code::{Code2, Currency};
use onix_terms::day::Day;
use onix_terms::items::Items;
use onix_terms::number::Number;
use onix_terms::party::Party;
use onix_terms::quantity::Quantity;
use onix_terms::territory::Territory;
use onix_terms::text::Text;

/// The header of a message.
#[derive(Drop)]
pub struct Header {
    pub sender: Party,
    pub addressee: Option<Party>,
    pub number: Option<Number>,
    pub repeat: Option<u32>,
    pub sent: Text,
    pub default_type: Option<Code2>,
    pub default_currency: Option<Currency>,
}

/// An identifier of a product, by its type of code list 5.
#[derive(Clone, Drop, PartialEq, Eq)]
pub struct ProductIdentifier {
    pub id_type: Code2,
    pub id_value: Text,
}

/// Who supplies a product, by an identifier, a name or both.
#[derive(Clone, Drop, PartialEq, Eq)]
pub struct Supplier {
    pub role: Code2,
    pub party: Option<Party>,
    pub name: Text,
}

/// A price of a type and a currency, from a number of copies on, where and when it holds.
#[derive(Drop, PartialEq, Eq)]
pub struct Price {
    pub price_type: Code2,
    pub amount: Amount,
    pub currency: Currency,
    pub territory: Territory,
    pub minimum: Quantity,
    /// The first day on which it holds, if there is one.
    pub from: Option<Day>,
    /// The last day on which it holds, if there is one.
    pub until: Option<Day>,
}

/// One supplier's availability of a product, and its prices.
#[derive(Drop, PartialEq, Eq)]
pub struct SupplyDetail {
    pub supplier: Supplier,
    pub availability: Code2,
    pub unpriced: Option<Code2>,
    pub prices: Items<Price>,
}

/// The supply of a product to a market.
#[derive(Clone, Drop, PartialEq, Eq)]
pub struct ProductSupply {
    pub market: Territory,
    pub details: Items<SupplyDetail>,
}

/// One product of a message.
#[derive(Clone, Drop, PartialEq, Eq)]
pub struct Product {
    pub reference: Text,
    pub notification: Code2,
    pub ids: Items<ProductIdentifier>,
    pub supplies: Items<ProductSupply>,
}
