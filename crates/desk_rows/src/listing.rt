//! What stands, listed: the agreements, and the text of what stands at a number.

ghost use Rattle.std.specs.Prelude.{◌≡◌, IfOk, IsTrue, map};
ghost use Rattle.sqlite.specs.Held.{state};
ghost use Rattle.desk_catalogue.specs.Achieves.{Does};
ghost use Rattle.desk_rows.specs.Desks.{OnlyAnswers};
ghost use Rattle.series_rules.specs.Listing.{agreements_by_name, text_after};
ghost use Rattle.desk_rows.specs.Listing.{NamesRise};
ghost use Rattle.desk_rows.specs.Seen.{seen_in};
ghost use Rattle.series_rules.specs.Views.{AsksOnly};

use crate::answers_at::stored_at;
use desk_tables::series::SeriesRow;
use desk_tables::tables::Tables;
use desk_tables::work::Work;
use onix_message::{Agreement, StoreFault};
use onix_terms::items::Items;
use onix_terms::number::Number;
use onix_terms::series_name::SeriesName;
use onix_terms::text::Text;
use sqlite::Alter;
use std::alloc::{AllocError, Global};

// The names rise.
fn names_rise(rows: &[SeriesRow]) -> bool
    ensures { IsTrue result → NamesRise rows.now }
{
    for k in 1..rows.len() {
        let before = &rows[k - 1].agreement.name;
        let name = &rows[k].agreement.name;
        if !before.is_before(name) {
            return false;
        }
    }
    true
}

// The agreements of these rows.
fn agreements_of(alloc: Global, rows: Vec<SeriesRow>) -> Result<Items<Agreement>, AllocError>
    ensures { IfOk result (λ agreements. agreements ≡ map (λ r. r.agreement) rows.items) }
{
    let agreements: Vec<Agreement> = rows.into_iter().map(|row| row.agreement).collect(alloc)?;
    Ok(Items::from_vec(agreements))
}

// The same, of rows whose names rise. `Unusable` where they do not.
fn agreements_in_order(alloc: Global, rows: Vec<SeriesRow>) -> Result<Items<Agreement>, StoreFault>
    ensures { IfOk result (λ agreements. NamesRise rows.items
        × (agreements ≡ map (λ r. r.agreement) rows.items)) }
{
    if !names_rise(rows.as_slice()) {
        return Err(StoreFault::Unusable);
    }
    match agreements_of(alloc, rows) {
        Ok(agreements) => Ok(agreements),
        Err(AllocError) => Err(StoreFault::Memory),
    }
}

// All agreements, in the order of the bytes of their names.
fn agreements_in<S: Alter>(
    alloc: Global,
    work: &mut Work<'_, S>,
) -> Result<Items<Agreement>, StoreFault>
    ensures { Does S.Store (OnlyAnswers agreements_by_name) work.old work.new result }
{
    let rows = work.series_rows()?;
    let agreements = agreements_in_order(alloc, rows)?;
    Ok(agreements)
}

/// Asks for all agreements, in the order of the bytes of their names.
pub fn ask_agreements<S: Alter>(
    alloc: Global,
    tables: &mut Tables<S>,
) -> Result<Items<Agreement>, StoreFault>
    ensures { AsksOnly agreements_by_name
        (seen_in (state S.Store tables.old.connection))
        (seen_in (state S.Store tables.new.connection)) result }
{
    let mut work = tables.work()?;
    agreements_in(alloc, &mut work)
}

// The text of what stands at a number, or `None`.
fn text_in<S: Alter>(
    work: &mut Work<'_, S>,
    series: &SeriesName,
    number: Number,
) -> Result<Option<Text>, StoreFault>
    ensures { Does S.Store (OnlyAnswers (text_after series.now number))
        work.old work.new result }
{
    let stored = stored_at(work, series, number)?;
    match stored {
        Some(stored) => Ok(Some(stored.text)),
        None => Ok(None),
    }
}

/// Asks for the text of what stands at a number of a series.
pub fn ask_text<S: Alter>(
    tables: &mut Tables<S>,
    series: &SeriesName,
    number: Number,
) -> Result<Option<Text>, StoreFault>
    ensures { AsksOnly (text_after series.now number)
        (seen_in (state S.Store tables.old.connection))
        (seen_in (state S.Store tables.new.connection)) result }
{
    let mut work = tables.work()?;
    text_in(&mut work, series, number)
}
