//! Runs of new records, which are written table by table.

ghost use Rattle.std.specs.Prelude.{◌≡◌, ◌+◌, ◌++◌, ◌<◌, ◌≤◌, ◌^◌, ℕ, IfOk, List, OnOk, length};
ghost use Rattle.std.specs.List.{flat_map, list_any};
ghost use Rattle.std.specs.Str.{bytes_eq};
ghost use Rattle.catalogue_rules.specs.Plans.{total};
ghost use Rattle.desk_catalogue.specs.Achieves.{Does};
ghost use Rattle.desk_catalogue.specs.Calls.{ChangesRows, KeepsRows};
ghost use Rattle.desk_catalogue.specs.EntryRows.{record_row};
ghost use Rattle.desk_catalogue.specs.Runs.{brings_new, is_replaced, ended, AppliesRun, BeginsWith};
ghost use Rattle.desk_catalogue.specs.WrittenRows.{product_articles, product_offers, product_prices, product_records, with_identifiers_of, with_products, with_supplies_of};
ghost use Rattle.onix_records.specs.declared.parts.Product.{Product};

use crate::build::{add_article_rows, add_offer_rows, add_price_rows};
use crate::record_rows::{FoundRecord, find_record};
use crate::records::{put_offers_and_prices, put_records_and_articles};
use catalogue_rules::change::Change;
use desk_tables::articles::ArticleRow;
use desk_tables::offers::OfferRow;
use desk_tables::prices::PriceRow;
use desk_tables::records::RecordRow;
use desk_tables::work::Work;
use onix_message::parts::Product;
use onix_message::{Effect, StoreFault};
use onix_terms::series_name::SeriesName;
use onix_terms::text::Text;
use sqlite::Alter;
use std::alloc::Global;

// The most products of a run: the more, the fewer statements, and the more looks for a reference.
const LONGEST_RUN: usize = 64;

/// The row of the record of a product.
pub fn record_row(
    alloc: Global,
    series: &SeriesName,
    product: &Product,
) -> Result<RecordRow, StoreFault>
    ensures { IfOk result (λ row. row ≡ record_row series.now product.now.reference) }
{
    match product.reference.copy(alloc) {
        Ok(reference) => Ok(RecordRow {
            series: *series,
            reference,
        }),
        Err(_) => Err(StoreFault::Memory),
    }
}

// Whether the product brings a whole record.
fn is_replaced(product: &Product) -> bool
    ensures { result ≡ is_replaced product.now }
{
    match Change::of(product.notification) {
        Change::Replace => true,
        Change::Update | Change::Delete | Change::Ignore => false,
    }
}

// Whether the product brings a whole record that is not there.
fn brings_new(product: &Product, is_there: bool) -> bool
    ensures { result ≡ brings_new product.now is_there }
{
    is_replaced(product) && !is_there
}

// Whether one of the products has the reference.
fn has_reference(products: &[Product], reference: &Text) -> bool
    ensures { result ≡ list_any (λ p. bytes_eq p.reference reference.now) products.now }
{
    products
        .iter()
        .any(|product| product.reference == *reference)
}

/// The run of new records that begins some products.
#[derive(Clone, Copy)]
pub struct Run {
    /// How many products it has.
    pub count: usize,
    /// What is there of the record of the product that ends it, where that was looked up.
    pub found: Option<FoundRecord>,
}

/// The run of new records, of other references each, that begins the products, and what is there of
/// the product that ends it. A fault is one of the store, or out of memory; `Unusable` where a row
/// cannot be read back.
pub fn find_run<S: Alter>(
    alloc: Global,
    work: &mut Work<'_, S>,
    series: &SeriesName,
    products: &[Product],
    with_minimums: bool,
) -> Result<Run, StoreFault>
    requires { 0 < length products.now }
    ensures within { IfOk result (λ run. run.count + ended run.found ≤ length products.now) }
    ensures some { IfOk result (λ run. 0 < run.count + ended run.found) }
    ensures does { Does S.Store (KeepsRows (BeginsWith with_minimums series.now products.now))
        work.old work.new result }
{
    let most = products.len().min(LONGEST_RUN);
    for i in 0..most {
        let product = &products[i];
        if has_reference(&products[..i], &product.reference) {
            return Ok(Run {
                count: i,
                found: None,
            });
        }
        let row = record_row(alloc, series, product)?;
        let found = find_record(alloc, work, &row, product, with_minimums)?;
        let is_new = brings_new(product, found.is_there());
        if !is_new {
            return Ok(Run {
                count: i,
                found: Some(found),
            });
        }
    }
    Ok(Run {
        count: most,
        found: None,
    })
}

// A row that a product has in a table: a record, an identifier, an offer or a price.
trait ProductRow: Drop {
    // The rows of a product of the series.
    ghost rows_of: { List ℕ → Product → List Self };

    // Adds them. `Memory` if memory runs out, and `Size` where places of rows do.
    fn add_rows_of(
        alloc: Global,
        series: &SeriesName,
        product: &Product,
        rows: &mut Vec<Self>,
    ) -> Result<(), StoreFault>
        ensures { OnOk result (rows.new.items ≡ rows.old.items ++ rows_of series.now product.now) };
}

impl ProductRow for RecordRow {
    ghost rows_of = { product_records };

    fn add_rows_of(
        alloc: Global,
        series: &SeriesName,
        product: &Product,
        rows: &mut Vec<RecordRow>,
    ) -> Result<(), StoreFault> {
        let row = record_row(alloc, series, product)?;
        if rows.push(row).is_err() {
            return Err(StoreFault::Memory);
        }
        Ok(())
    }
}

impl ProductRow for ArticleRow {
    ghost rows_of = { product_articles };

    fn add_rows_of(
        alloc: Global,
        series: &SeriesName,
        product: &Product,
        rows: &mut Vec<ArticleRow>,
    ) -> Result<(), StoreFault> {
        add_article_rows(
            alloc,
            series,
            &product.reference,
            product.ids.as_slice(),
            rows,
        )
    }
}

impl ProductRow for OfferRow {
    ghost rows_of = { product_offers };

    fn add_rows_of(
        alloc: Global,
        series: &SeriesName,
        product: &Product,
        rows: &mut Vec<OfferRow>,
    ) -> Result<(), StoreFault> {
        add_offer_rows(
            alloc,
            series,
            &product.reference,
            product.supplies.as_slice(),
            rows,
        )
    }
}

impl ProductRow for PriceRow {
    ghost rows_of = { product_prices };

    fn add_rows_of(
        alloc: Global,
        series: &SeriesName,
        product: &Product,
        rows: &mut Vec<PriceRow>,
    ) -> Result<(), StoreFault> {
        add_price_rows(
            alloc,
            series,
            &product.reference,
            product.supplies.as_slice(),
            rows,
        )
    }
}

// The rows of the products in one table.
fn rows_of<R: ProductRow>(
    alloc: Global,
    series: &SeriesName,
    products: &[Product],
) -> Result<Vec<R>, StoreFault>
    ensures { IfOk result (λ rows. rows.items ≡ flat_map (R.rows_of series.now) products.now) }
{
    let mut rows = Vec::new(alloc);
    for product in products {
        R::add_rows_of(alloc, series, product, &mut rows)?;
    }
    Ok(rows)
}

// Adds the records of the products and their identifiers.
fn put_identifiers_of<S: Alter>(
    alloc: Global,
    work: &mut Work<'_, S>,
    series: &SeriesName,
    products: &[Product],
) -> Result<(), StoreFault>
    ensures { Does S.Store (ChangesRows (with_identifiers_of series.now products.now))
        work.old work.new result }
{
    let records: Vec<RecordRow> = rows_of(alloc, series, products)?;
    let articles: Vec<ArticleRow> = rows_of(alloc, series, products)?;
    put_records_and_articles(alloc, work, records.as_slice(), articles.as_slice())
}

// Adds the offers of the products and their prices.
fn put_supplies_of<S: Alter>(
    alloc: Global,
    work: &mut Work<'_, S>,
    series: &SeriesName,
    products: &[Product],
) -> Result<(), StoreFault>
    ensures { Does S.Store (ChangesRows (with_supplies_of series.now products.now))
        work.old work.new result }
{
    let offers: Vec<OfferRow> = rows_of(alloc, series, products)?;
    let prices: Vec<PriceRow> = rows_of(alloc, series, products)?;
    put_offers_and_prices(alloc, work, offers.as_slice(), prices.as_slice())
}

// Adds the records of the products, which have no rows, table by table.
fn write_products<S: Alter>(
    alloc: Global,
    work: &mut Work<'_, S>,
    series: &SeriesName,
    products: &[Product],
) -> Result<(), StoreFault>
    ensures { Does S.Store (ChangesRows (with_products series.now products.now))
        work.old work.new result }
{
    put_identifiers_of(alloc, work, series, products)?;
    put_supplies_of(alloc, work, series, products)
}

/// Applies products that are new records, of other references each, and gives the counts with them. A
/// fault is one of the store, or out of memory; `Unusable` where the series is not there.
pub fn apply_run<S: Alter>(
    alloc: Global,
    work: &mut Work<'_, S>,
    series: &SeriesName,
    products: &[Product],
    effect: Effect,
) -> Result<Effect, StoreFault>
    requires { total effect + length products.now < 2 ^ 32 }
    ensures counted { IfOk result (λ e. total e ≡ total effect + length products.now) }
    ensures does { Does S.Store (AppliesRun series.now products.now effect)
        work.old work.new result }
{
    write_products(alloc, work, series, products)?;
    let mut counts = effect;
    counts.replaced += products.len() as u32;
    Ok(counts)
}
