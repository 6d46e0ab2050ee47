//! Calls of one row, over whole tables, and over a record, that no crate of the desk makes: tests do
//! alone. They are part of what the tables offer.

ghost use Rattle.std.specs.Prelude.{◌≡◌, Err};
ghost use Rattle.desk_tables.specs.Calls.{Adds, AddsMade, Asks, Changes};
ghost use Rattle.desk_tables.specs.RecordAnswers.{AreArticlesInOrder, AreMinimums, AreOffersInOrder, ArePricesInOrder, ArePricesWith, AreRising};
ghost use Rattle.desk_tables.specs.RecordChanges.{has_record, with_article, with_minimum, with_offer, with_price, with_price_and_minimum, with_record, without_articles};
ghost use Rattle.desk_tables.specs.RecordRows.{minimum_row, offer_row, price_row};
ghost use Rattle.desk_tables.specs.Rows.{AreSeriesInOrder};

use crate::articles::{ARTICLE_ROWS, ArticleRow, DELETE_ARTICLES, PUT_ARTICLE, article_row_values};
use crate::offers::{OFFER_ROWS, OfferRow, PUT_OFFER, offer_row_values};
use crate::prices::{
    MINIMUM_ROWS, MinimumRow, PRICE_ROWS, PUT_MINIMUM, PUT_PRICE, PriceRow, all_prices,
    minimum_row_values, price_row_values,
};
use crate::records::{HAS_RECORD, PUT_RECORD_IF_NEW};
use crate::rows::written::territory_texts;
use crate::series::{SERIES_ROWS, SeriesRow};
use crate::work::Work;
use onix_message::StoreFault;
use onix_terms::series_name::SeriesName;
use sqlite::{Alter, params};

impl<S: Alter> Work<'_, S> {
    /// All series, in the order of the bytes of their names.
    pub fn series_rows(&mut self) -> Result<Vec<SeriesRow>, StoreFault>
        ensures { Asks S.Store (λ rows series. AreSeriesInOrder rows series.items)
            self.old self.new result }
    {
        self.select(SERIES_ROWS, &[])
    }

    /// Sees to it that the series has the record: adds its row, or nothing where it is there.
    /// `Unusable` if no series has that name.
    pub fn put_record(&mut self, series: &SeriesName, reference: &str) -> Result<(), StoreFault>
        ensures { Adds S.Store
            (with_record (record { series = series.now; reference = reference.now }))
            self.old self.new result }
    {
        self.run(PUT_RECORD_IF_NEW, params![series.as_str(), reference])
    }

    /// Adds a row. `Unusable` where the record has an identifier at that place, or the series has
    /// no such record.
    pub fn put_article(&mut self, row: &ArticleRow) -> Result<(), StoreFault>
        ensures { Adds S.Store (with_article row.now) self.old self.new result }
    {
        self.run(PUT_ARTICLE, &article_row_values(row))
    }

    // Adds a row whose market has these texts.
    fn put_offer_texts(
        &mut self,
        row: &OfferRow,
        included: &str,
        excluded: &str,
    ) -> Result<(), StoreFault>
        ensures { Adds S.Store
            (with_offer (record (offer_row row.now) {
              included = included.now;
              excluded = excluded.now;
            }))
            self.old self.new result }
    {
        self.run(PUT_OFFER, &offer_row_values(row, included, excluded))
    }

    /// Adds a row. `Unusable` where the record has an offer at that place, or the series has no
    /// such record.
    pub fn put_offer(&mut self, row: &OfferRow) -> Result<(), StoreFault>
        ensures { AddsMade S.Store (with_offer (offer_row row.now)) self.old self.new result }
    {
        if self.spent {
            return Err(StoreFault::Unusable);
        }
        let texts = match territory_texts(&row.reference, &row.market) {
            Ok(texts) => texts,
            Err(fault) => {
                self.spent = true;
                return Err(fault);
            }
        };
        self.put_offer_texts(row, texts.included.as_str(), texts.excluded.as_str())
    }

    // Adds a row of `price` whose territory has these texts.
    fn put_price_texts(
        &mut self,
        row: &PriceRow,
        included: &str,
        excluded: &str,
    ) -> Result<(), StoreFault>
        ensures { Adds S.Store
            (with_price (record (price_row row.now) {
              included = included.now;
              excluded = excluded.now;
            }))
            self.old self.new result }
    {
        self.run(PUT_PRICE, &price_row_values(row, included, excluded))
    }

    // Adds a row of `price_minimum`.
    fn put_minimum(&mut self, row: &PriceRow) -> Result<(), StoreFault>
        ensures { Adds S.Store (with_minimum (minimum_row row.now)) self.old self.new result }
    {
        self.run(PUT_MINIMUM, &minimum_row_values(row))
    }

    /// Adds a price, and its minimum where that is above 1. `Unusable` where the offer has a price
    /// at that place, or the record has no such offer.
    pub fn put_price(&mut self, row: &PriceRow) -> Result<(), StoreFault>
        ensures { AddsMade S.Store (with_price_and_minimum row.now) self.old self.new result }
    {
        if self.spent {
            return Err(StoreFault::Unusable);
        }
        let texts = match territory_texts(&row.reference, &row.price.territory) {
            Ok(texts) => texts,
            Err(fault) => {
                self.spent = true;
                return Err(fault);
            }
        };
        self.put_price_texts(row, texts.included.as_str(), texts.excluded.as_str())?;
        if row.price.minimum.value() > 1 {
            return self.put_minimum(row);
        }
        Ok(())
    }

    /// Whether the series has the record.
    pub fn has_record(&mut self, series: &SeriesName, reference: &str) -> Result<bool, StoreFault>
        ensures { Asks S.Store (λ rows there. there ≡ has_record series.now reference.now rows)
            self.old self.new result }
    {
        self.select(HAS_RECORD, params![series.as_str(), reference])
    }

    /// Removes all rows of a record.
    pub fn delete_articles(
        &mut self,
        series: &SeriesName,
        reference: &str,
    ) -> Result<(), StoreFault>
        ensures { Changes S.Store (without_articles series.now reference.now)
            self.old self.new result }
    {
        self.run(DELETE_ARTICLES, params![series.as_str(), reference])
    }

    /// All rows of a series, in the order of the bytes of their references, and then of their
    /// places.
    pub fn article_rows(&mut self, series: &SeriesName) -> Result<Vec<ArticleRow>, StoreFault>
        ensures { Asks S.Store (λ rows articles. AreArticlesInOrder series.now rows articles.items)
            self.old self.new result }
    {
        self.select(ARTICLE_ROWS, params![series.as_str()])
    }

    /// All rows of a series, in the order of the bytes of their references, and then of their
    /// places.
    pub fn offer_rows(&mut self, series: &SeriesName) -> Result<Vec<OfferRow>, StoreFault>
        ensures { Asks S.Store (λ rows offers. AreOffersInOrder series.now rows offers.items)
            self.old self.new result }
    {
        self.select(OFFER_ROWS, params![series.as_str()])
    }

    // The minimums of a series, in the order of its prices.
    fn shown_minimums(&mut self, series: &SeriesName) -> Result<Vec<MinimumRow>, StoreFault>
        ensures { Asks S.Store
            (λ rows minimums. AreMinimums series.now rows minimums.items
            × AreRising minimums.items)
            self.old self.new result }
    {
        self.select(MINIMUM_ROWS, params![series.as_str()])
    }

    // The prices of a series, with those minimums.
    fn shown_prices(
        &mut self,
        series: &SeriesName,
        minimums: &[MinimumRow],
    ) -> Result<Vec<PriceRow>, StoreFault>
        ensures { Asks S.Store
            (λ rows prices. AreRising minimums.now
            → ArePricesWith minimums.now series.now rows prices.items)
            self.old self.new result }
    {
        let rows = self.rows(PRICE_ROWS, params![series.as_str()])?;
        self.or_spend(all_prices(&rows, minimums))
    }

    /// All prices of a series, in the order of the bytes of their references, then of the places
    /// of their offers, and then of their own.
    pub fn price_rows(&mut self, series: &SeriesName) -> Result<Vec<PriceRow>, StoreFault>
        ensures { Asks S.Store (λ rows prices. ArePricesInOrder series.now rows prices.items)
            self.old self.new result }
    {
        let minimums = self.shown_minimums(series)?;
        self.shown_prices(series, minimums.as_slice())
    }
}
