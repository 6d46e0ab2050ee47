//! Questions, each in a transaction that is let go.

ghost use Rattle.std.specs.Prelude.{IfOk, IsTrue, fold};
ghost use Rattle.sqlite.specs.Held.{state};
ghost use Rattle.desk_catalogue.specs.Achieves.{Does};
ghost use Rattle.desk_rows.specs.Desks.{OnlyAnswers, Reports};
ghost use Rattle.desk_rows.specs.Seen.{seen_in};
ghost use Rattle.series_rules.specs.Answers.{catalogue_answer, gaps_answer};
ghost use Rattle.series_rules.specs.Gaps.{AreRisingFrom};
ghost use Rattle.series_rules.specs.Offers.{offers_after};
ghost use Rattle.series_rules.specs.Views.{AsksOnly};

use catalogue_rules::catalogue::Catalogue;
use desk_catalogue::catalogues::read_catalogue;
use desk_tables::series::SeriesRow;
use desk_tables::tables::Tables;
use desk_tables::work::Work;
use onix_message::StoreFault;
use onix_terms::isbn13::Isbn13;
use onix_terms::items::Items;
use onix_terms::number::Number;
use onix_terms::series_name::SeriesName;
use price_rules::collector::OfferCollector;
use price_rules::offer::Offer;
use series_rules::answers::GapReport;
use series_rules::gaps::gap_report;
use sqlite::Alter;
use std::alloc::Global;

// The catalogue of a series, or `None` where no agreement has the name.
fn catalogue_in<S: Alter>(
    alloc: Global,
    work: &mut Work<'_, S>,
    series: &SeriesName,
) -> Result<Option<Catalogue>, StoreFault>
    ensures { Does S.Store (OnlyAnswers (λ L. catalogue_answer L series.now))
        work.old work.new result }
{
    let found = work.series_by_name(series)?;
    let Some(_row) = &found else {
        return Ok(None);
    };
    let catalogue = read_catalogue(alloc, work, series)?;
    Ok(Some(catalogue))
}

/// Asks for the catalogue of a series.
pub fn ask_catalogue<S: Alter>(
    alloc: Global,
    tables: &mut Tables<S>,
    series: &SeriesName,
) -> Result<Option<Catalogue>, StoreFault>
    ensures { AsksOnly (λ L. catalogue_answer L series.now)
        (seen_in (state S.Store tables.old.connection))
        (seen_in (state S.Store tables.new.connection)) result }
{
    let mut work = tables.work()?;
    catalogue_in(alloc, &mut work, series)
}

/// Gives a collector the offers of an article, and gives it back.
pub fn collect_offers<S: Alter, C: OfferCollector>(
    tables: &mut Tables<S>,
    isbn: &Isbn13,
    collector: C,
) -> Result<C, StoreFault>
    ensures { AsksOnly (λ L. fold C.collected collector (offers_after L isbn.now))
        (seen_in (state S.Store tables.old.connection))
        (seen_in (state S.Store tables.new.connection)) result }
{
    let mut work = tables.work()?;
    work.collect_offers(isbn, collector)
}

/// Asks for the list of these offers.
pub fn ask_offers<S: Alter>(
    alloc: Global,
    tables: &mut Tables<S>,
    isbn: &Isbn13,
) -> Result<Items<Offer>, StoreFault>
    ensures { AsksOnly (λ L. offers_after L isbn.now)
        (seen_in (state S.Store tables.old.connection))
        (seen_in (state S.Store tables.new.connection)) result }
{
    let mut work = tables.work()?;
    work.offers_by_article(alloc, isbn)
}

// The numbers rise, from the first one on.
fn are_rising(from: u32, numbers: &[Number]) -> bool
    ensures { IsTrue result → AreRisingFrom from numbers.now }
{
    let mut least = from;
    for number in numbers {
        if number.value() < least {
            return false;
        }
        least = number.value() + 1;
    }
    true
}

// The report on the series of a row whose held numbers are these. `Unusable` where the numbers are
// those of no series.
fn report_of(
    alloc: Global,
    series: SeriesName,
    row: &SeriesRow,
    held: &[Number],
) -> Result<GapReport, StoreFault>
    ensures { IfOk result (λ report. AreRisingFrom row.now.next held.now
        × Reports series row.now.agreement.first row.now.next held.now report) }
{
    let first = row.agreement.first;
    let next = row.next;
    if next < first.value() || next > 1_000_000_000 || !are_rising(next, held) {
        return Err(StoreFault::Unusable);
    }
    Ok(gap_report(alloc, series, first, next, held)?)
}

// Which numbers a series lacks, or `None` where no agreement has the name.
fn gaps_in<S: Alter>(
    alloc: Global,
    work: &mut Work<'_, S>,
    series: &SeriesName,
) -> Result<Option<GapReport>, StoreFault>
    ensures { Does S.Store (OnlyAnswers (λ L. gaps_answer L series.now)) work.old work.new result }
{
    let found = work.series_by_name(series)?;
    let Some(row) = &found else {
        return Ok(None);
    };
    let held = work.gap_rows(series)?;
    let report = report_of(alloc, *series, row, held.as_slice())?;
    Ok(Some(report))
}

/// Asks which numbers a series lacks.
pub fn ask_gaps<S: Alter>(
    alloc: Global,
    tables: &mut Tables<S>,
    series: &SeriesName,
) -> Result<Option<GapReport>, StoreFault>
    ensures { AsksOnly (λ L. gaps_answer L series.now)
        (seen_in (state S.Store tables.old.connection))
        (seen_in (state S.Store tables.new.connection)) result }
{
    let mut work = tables.work()?;
    gaps_in(alloc, &mut work, series)
}
