//! Offers, and what is asked of them.

ghost use Rattle.std.specs.Prelude.{◌≡◌, option_map};
ghost use Rattle.price_rules.specs.Queries.{copies_asked, price_query, until};

use onix_records::parts::{Price, Supplier};
use onix_terms::code::{Code2, Country, Currency};
use onix_terms::day::Day;
use onix_terms::items::Items;
use onix_terms::quantity::Quantity;
use onix_terms::series_name::SeriesName;
use onix_terms::territory::Territory;
use onix_terms::text::Text;

/// What one supplier offers of a record: a SupplyDetail with its market, in a series. Its place,
/// from 1, is its number among all SupplyDetails of the record.
#[derive(Drop)]
pub struct Offer {
    pub series: SeriesName,
    pub reference: Text,
    pub place: u32,
    pub supplier: Supplier,
    pub availability: Code2,
    pub market: Territory,
    pub prices: Items<Price>,
}

/// Which prices are asked for: of this type, in this currency, for so many copies that are sold
/// in this country on this day.
#[derive(Clone, Copy)]
pub struct PriceQuery {
    pub day: Day,
    pub country: Country,
    pub currency: Currency,
    pub price_type: Code2,
    pub quantity: Quantity,
}

/// Which calendar is asked for: of prices of this type, in this currency, for so many copies that
/// are sold in this country, from one day to another, both included.
#[derive(Clone, Copy)]
pub struct CalendarQuery {
    pub from: Day,
    pub to: Day,
    pub country: Country,
    pub currency: Currency,
    pub price_type: Code2,
    pub quantity: Quantity,
}

// For how many copies prices are asked: for one if no text says it.
fn copies_asked(quantity: Option<&str>) -> Option<Quantity>
    ensures { result ≡ copies_asked (option_map (λ q. q.now) quantity.entry) }
{
    match quantity {
        None => Quantity::from_value(1),
        Some(text) => Quantity::read(text),
    }
}

impl PriceQuery {
    /// Which prices these texts ask for: for one copy if none says how many. `None` if one of
    /// them is outside its grammar.
    #[tactic(auto, unfolding(crate::specs::Queries::price_query))]
    pub fn read(
        day: &str,
        country: &str,
        currency: &str,
        price_type: &str,
        quantity: Option<&str>,
    ) -> Option<PriceQuery>
        ensures { result
            ≡ price_query day.now country.now currency.now price_type.now
            (option_map (λ q. q.now) quantity.entry) }
    {
        Some(PriceQuery {
            day: Day::read(day)?,
            country: Country::read(country)?,
            currency: Currency::read(currency)?,
            price_type: Code2::read(price_type)?,
            quantity: copies_asked(quantity)?,
        })
    }

    /// The calendar of these prices, from their day to a last one.
    pub fn until(&self, last: Day) -> CalendarQuery
        ensures { result ≡ until self.now last }
    {
        CalendarQuery {
            from: self.day,
            to: last,
            country: self.country,
            currency: self.currency,
            price_type: self.price_type,
            quantity: self.quantity,
        }
    }
}
