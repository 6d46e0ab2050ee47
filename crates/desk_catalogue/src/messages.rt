//! A message applied to the rows of a catalogue.

ghost use Rattle.std.specs.Prelude.{◌≡◌, ◌+◌, ◌<◌, ◌^◌, false, IfOk, length};
ghost use Rattle.catalogue_rules.specs.Effects.{counted};
ghost use Rattle.catalogue_rules.specs.Plans.{total};
ghost use Rattle.catalogue_rules.specs.declared.change.Change.TheVariants as asked;
ghost use Rattle.desk_catalogue.specs.Achieves.{Does};
ghost use Rattle.desk_catalogue.specs.Calls.{KeepsRows, Rewrites, CarriesOut, AppliesMessage};
ghost use Rattle.desk_catalogue.specs.Runs.{AppliesFound, AppliesSome, IsStep};
ghost use Rattle.desk_catalogue.specs.Minimums.{products_have_minimums};
ghost use Rattle.desk_catalogue.specs.declared.record_rows.FoundRecord.{FoundRecord};
ghost use Rattle.desk_tables.specs.RecordAnswers.{has_minimums};

use crate::minimums::products_have_minimums;
use crate::record_rows::FoundRecord;
use crate::records::{remove_record, replace_supplies, write_record};
use crate::runs::{apply_run, find_run, record_row};
use catalogue_rules::change::{Change, counted};
use desk_tables::records::RecordRow;
use desk_tables::work::Work;
use onix_message::contents::Contents;
use onix_message::parts::{Product, ProductIdentifier, ProductSupply};
use onix_message::{Effect, StoreFault};
use onix_terms::code::Code2;
use onix_terms::series_name::SeriesName;
use sqlite::Alter;
use std::alloc::Global;

// Removes the rows of a record and writes those of one with these identifiers and supplies.
fn rewrite_record<S: Alter>(
    alloc: Global,
    work: &mut Work<'_, S>,
    row: &RecordRow,
    ids: &[ProductIdentifier],
    supplies: &[ProductSupply],
) -> Result<(), StoreFault>
    ensures { Does S.Store (Rewrites row.now ids.now supplies.now) work.old work.new result }
{
    remove_record(work, row)?;
    write_record(alloc, work, row, ids, supplies)
}

// Carries out 01, 02 or 03. A record that has it all is not written.
fn replace<S: Alter>(
    alloc: Global,
    work: &mut Work<'_, S>,
    row: &RecordRow,
    product: &Product,
    found: FoundRecord,
) -> Result<(), StoreFault>
    ensures { Does S.Store (CarriesOut asked.Replace row.now product.now found)
        work.old work.new result }
{
    let is_same = found.is_same();
    if is_same {
        return Ok(());
    }
    let ids = product.ids.as_slice();
    let supplies = product.supplies.as_slice();
    let is_there = found.is_there();
    if is_there {
        return rewrite_record(alloc, work, row, ids, supplies);
    }
    write_record(alloc, work, row, ids, supplies)
}

// Carries out 04: a known record gets the supplies of the product, where it has some and the record
// has others.
fn update<S: Alter>(
    alloc: Global,
    work: &mut Work<'_, S>,
    row: &RecordRow,
    product: &Product,
    found: FoundRecord,
) -> Result<(), StoreFault>
    ensures { Does S.Store (CarriesOut asked.Update row.now product.now found)
        work.old work.new result }
{
    let is_empty = product.supplies.is_empty();
    if is_empty {
        return Ok(());
    }
    match found {
        FoundRecord::Absent => Ok(()),
        FoundRecord::Present { same_supplies, .. } => {
            if same_supplies {
                return Ok(());
            }
            replace_supplies(alloc, work, row, product.supplies.as_slice())
        }
    }
}

// Carries out 05.
fn delete<S: Alter>(
    work: &mut Work<'_, S>,
    row: &RecordRow,
    product: &Product,
    found: FoundRecord,
) -> Result<(), StoreFault>
    ensures { Does S.Store (CarriesOut asked.Delete row.now product.now found)
        work.old work.new result }
{
    let is_there = found.is_there();
    if is_there {
        return remove_record(work, row);
    }
    Ok(())
}

// Carries out what the product asks for.
fn change_record<S: Alter>(
    alloc: Global,
    work: &mut Work<'_, S>,
    row: &RecordRow,
    product: &Product,
    change: Change,
    found: FoundRecord,
) -> Result<(), StoreFault>
    ensures { Does S.Store (CarriesOut change row.now product.now found)
        work.old work.new result }
{
    match change {
        Change::Replace => replace(alloc, work, row, product, found),
        Change::Update => update(alloc, work, row, product, found),
        Change::Delete => delete(work, row, product, found),
        Change::Ignore => Ok(()),
    }
}

// Applies one product, of whose record that was found, and gives the counts with it.
fn apply_product<S: Alter>(
    alloc: Global,
    work: &mut Work<'_, S>,
    series: &SeriesName,
    product: &Product,
    found: FoundRecord,
    effect: Effect,
) -> Result<Effect, StoreFault>
    requires { total effect + 1 < 2 ^ 32 }
    ensures one { IfOk result (λ e. total e ≡ total effect + 1) }
    ensures does { Does S.Store (AppliesFound series.now product.now found effect)
        work.old work.new result }
{
    let row = record_row(alloc, series, product)?;
    let change = Change::of(product.notification);
    change_record(alloc, work, &row, product, change, found)?;
    Ok(counted(effect, change, found.is_there()))
}

// Products that were applied at once.
#[derive(Clone, Copy)]
struct Step {
    // How many.
    count: usize,
    // The counts with them.
    effect: Effect,
}

// Applies some of the products, from the first on: a run of new records, and the product that ends
// it, where that was looked up. Gives how many, and the counts with them.
fn apply_some<S: Alter>(
    alloc: Global,
    work: &mut Work<'_, S>,
    series: &SeriesName,
    products: &[Product],
    effect: Effect,
    with_minimums: bool,
) -> Result<Step, StoreFault>
    requires some { 0 < length products.now }
    requires few { total effect + length products.now < 2 ^ 32 }
    ensures counted { IfOk result (λ step. IsStep (total effect) (length products.now) step) }
    ensures does { Does S.Store (AppliesSome with_minimums series.now products.now effect)
        work.old work.new result }
{
    let run = find_run(alloc, work, series, products, with_minimums)?;
    let count = run.count;
    let effect = apply_run(alloc, work, series, &products[..count], effect)?;
    let Some(found) = run.found else {
        return Ok(Step { count, effect });
    };
    let effect = apply_product(alloc, work, series, &products[count], found, effect)?;
    Ok(Step {
        count: count + 1,
        effect,
    })
}

// Whether prices of the series may have minimums while these products are applied: one that is there
// has, or one of the products. Mostly none does, and then no record's minimums are asked for.
fn may_have_minimums<S: Alter>(
    work: &mut Work<'_, S>,
    series: &SeriesName,
    products: &[Product],
) -> Result<bool, StoreFault>
    ensures products { IfOk result
        (λ may. may ≡ false → products_have_minimums products.now ≡ false) }
    ensures does { Does S.Store
        (KeepsRows (λ rows may. may ≡ false → has_minimums series.now rows ≡ false))
        work.old work.new result }
{
    let among = products_have_minimums(products);
    if among {
        return Ok(true);
    }
    work.has_minimums(series)
}

/// Applies the products of a message, one after the other, to the catalogue of the series, and gives
/// how many did what. A record that stays as it is is not written. `Unusable` where the series is not
/// there or its rows cannot be read back; otherwise a fault is one of the store, or out of memory.
pub fn apply_message<S: Alter>(
    alloc: Global,
    work: &mut Work<'_, S>,
    series: &SeriesName,
    contents: &Contents,
) -> Result<Effect, StoreFault>
    ensures applied { Does S.Store (AppliesMessage series.now contents.now)
        work.old work.new result }
{
    contents.can_be_read_back();
    let products = contents.products();
    let with_minimums = may_have_minimums(work, series, products)?;
    let mut done = 0;
    let mut effect = Effect::none();
    while done < products.len() {
        let step = apply_some(
            alloc,
            work,
            series,
            &products[done..],
            effect,
            with_minimums,
        )?;
        done += step.count;
        effect = step.effect;
    }
    Ok(effect)
}
