//! INSERT of many rows into a table of the catalogues: eight by one statement while there are as many,
//! and then one by one.

ghost use Rattle.std.specs.Prelude.{◌≡◌, ◌*◌, ◌≤◌, length};
ghost use Rattle.sqlite.specs.Values.{bound};
ghost use Rattle.desk_tables.specs.ManyRows.{many_of, text_of, width_of, InsertsEach, InsertsRows, InsertsValues};

use crate::articles::{PUT_8_ARTICLES, PUT_ARTICLE};
use crate::offers::{PUT_8_OFFERS, PUT_OFFER};
use crate::prices::{PUT_8_MINIMUMS, PUT_8_PRICES, PUT_MINIMUM, PUT_PRICE};
use crate::records::{PUT_8_RECORDS, PUT_RECORD};
use crate::work::Work;
use onix_message::StoreFault;
use sqlite::Alter;
use sqlite::types::ValueRef;
use std::alloc::AllocError;

/// A table that keeps the catalogues.
#[derive(Clone, Copy)]
pub enum CatalogueTable {
    Record,
    Article,
    Offer,
    Price,
    PriceMinimum,
}

impl CatalogueTable {
    // How many values a row has.
    fn width(self) -> usize
        ensures { result ≡ width_of self }
    {
        match self {
            CatalogueTable::Record => 2,
            CatalogueTable::Article => 5,
            CatalogueTable::Offer => 13,
            CatalogueTable::Price => 12,
            CatalogueTable::PriceMinimum => 5,
        }
    }

    // The INSERT of eight rows, or of one.
    fn text(self, eight: bool) -> &'static str
        ensures { result.now ≡ text_of self eight }
    {
        match (self, eight) {
            (CatalogueTable::Record, false) => PUT_RECORD,
            (CatalogueTable::Record, true) => PUT_8_RECORDS,
            (CatalogueTable::Article, false) => PUT_ARTICLE,
            (CatalogueTable::Article, true) => PUT_8_ARTICLES,
            (CatalogueTable::Offer, false) => PUT_OFFER,
            (CatalogueTable::Offer, true) => PUT_8_OFFERS,
            (CatalogueTable::Price, false) => PUT_PRICE,
            (CatalogueTable::Price, true) => PUT_8_PRICES,
            (CatalogueTable::PriceMinimum, false) => PUT_MINIMUM,
            (CatalogueTable::PriceMinimum, true) => PUT_8_MINIMUMS,
        }
    }
}

// How many rows a statement puts.
fn many(eight: bool) -> usize
    ensures { result ≡ many_of eight }
{
    if eight { 8 } else { 1 }
}

impl<S: Alter> Work<'_, S> {
    // Puts rows by statements of eight, or of one: those of the statements from one up to another.
    fn insert_each(
        &mut self,
        table: CatalogueTable,
        eight: bool,
        from: usize,
        to: usize,
        values: &[ValueRef<'_>],
    ) -> Result<(), StoreFault>
        requires rising { from ≤ to }
        requires within { many_of eight * to * width_of table ≤ length values.now }
        ensures { InsertsEach S.Store table eight from to (bound values.now)
            self.old self.new result }
    {
        if self.spent {
            return Err(StoreFault::Unusable);
        }
        let sql = table.text(eight);
        let length = many(eight) * table.width();
        for place in from..to {
            let start = place * length;
            self.run(sql, &values[start..start + length])?;
        }
        Ok(())
    }

    // Puts the rows of these values.
    fn insert_rows(
        &mut self,
        table: CatalogueTable,
        values: &[ValueRef<'_>],
    ) -> Result<(), StoreFault>
        ensures { InsertsRows S.Store table (bound values.now) self.old self.new result }
    {
        let count = values.len() / table.width();
        let eights = count / 8;
        self.insert_each(table, true, 0, eights, values)?;
        self.insert_each(table, false, 8 * eights, count, values)
    }

    // Puts the rows of these values, if memory sufficed for them.
    pub(crate) fn insert_values(
        &mut self,
        table: CatalogueTable,
        values: Result<Vec<ValueRef<'_>>, AllocError>,
    ) -> Result<(), StoreFault>
        ensures { InsertsValues S.Store table values.entry (λ v. bound v.items)
            self.old self.new result }
    {
        if self.spent {
            return Err(StoreFault::Unusable);
        }
        match values {
            Ok(values) => self.insert_rows(table, values.as_slice()),
            Err(_) => {
                self.spent = true;
                Err(StoreFault::Memory)
            }
        }
    }
}
