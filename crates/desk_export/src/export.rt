//! What stands in a series, as the requests that make it again.

ghost use Rattle.std.specs.Prelude.{◌≡◌, ◌-◌, ◌∷◌, [], Some, ⊤};
ghost use Rattle.desk_export.specs.Exporting.{
  IsTaken,
  Takes,
  end_after,
  requests_between,
  texts_of,
};
ghost use Rattle.desk_export.specs.Exports.{requests_at, requests_from, series_requests};
ghost use Rattle.desk_export.specs.RequestRecords.{request_text};
ghost use Rattle.series_rules.specs.Agreements.{agreements_of, named};
ghost use Rattle.series_rules.specs.Firsts.{first_at};
ghost use Rattle.series_rules.specs.declared.requests.Request.{Request};

use crate::request_text::{write_agreement, write_standing};
use crate::taking::TakesTexts;
use csv_records::reading::LIMIT;
use onix_records::{Agreement, StoreFault};
use onix_terms::number::Number;
use onix_terms::series_name::SeriesName;
use series_rules::answers::GapReport;
use series_rules::laws::gaps_are_true;
use series_rules::listing::ListedDesk;
use std::alloc::{AllocError, Global};

/// Why a desk was not listed to its end.
#[derive(Drop)]
pub enum ExportFault<F> {
    /// The store failed.
    Store(StoreFault),
    /// The message at this number is above 4,194,304 bytes as a text, which no batch takes.
    TooLarge { series: SeriesName, number: Number },
    /// A text was not taken.
    Taking(F),
    /// Memory ran out.
    Memory,
}

impl<F> From<AllocError> for ExportFault<F> {
    fn from(_: AllocError) -> ExportFault<F> {
        ExportFault::Memory
    }
}

/// Hands a text on.
pub(crate) fn take_text<T: TakesTexts>(
    taker: &mut T,
    text: &str,
) -> Result<(), ExportFault<T::Fault>>
    ensures { Takes T.takes T.takes_part taker.old taker.new (text.now ∷ []) result }
{
    match taker.take(text) {
        Ok(()) => Ok(()),
        Err(fault) => Err(ExportFault::Taking(fault)),
    }
}

// Exports what is at a number of an agreed series.
fn export_number<D: ListedDesk, T: TakesTexts>(
    alloc: Global,
    desk: &mut D,
    agreement: &Agreement,
    number: Number,
    taker: &mut T,
) -> Result<(), ExportFault<T::Fault>>
    ensures { IsTaken T.takes T.takes_part (λ L. ⊤) (λ L. texts_of
        (requests_at agreement.now number (first_at L agreement.now.name number)))
        (D.seen desk.old) (D.seen desk.new) taker.old taker.new result }
{
    let stored = match desk.text_at(&agreement.name, number) {
        Ok(stored) => stored,
        Err(fault) => return Err(ExportFault::Store(fault)),
    };
    let Some(stored) = stored else {
        return Ok(());
    };
    let text = write_standing(alloc, agreement, number, stored.as_str())?;
    if text.len() > LIMIT {
        return Err(ExportFault::TooLarge {
            series: agreement.name,
            number,
        });
    }
    take_text(taker, text.as_str())
}

// Exports what is at the numbers of an agreed series from one on, up to an end.
fn export_range<D: ListedDesk, T: TakesTexts>(
    alloc: Global,
    desk: &mut D,
    agreement: &Agreement,
    from: u32,
    end: u32,
    taker: &mut T,
) -> Result<(), ExportFault<T::Fault>>
    ensures { IsTaken T.takes T.takes_part (λ L. ⊤)
        (λ L. texts_of (requests_from L agreement.now from (end - from)))
        (D.seen desk.old) (D.seen desk.new) taker.old taker.new result }
{
    for n in from..end {
        let Some(number) = Number::from_value(n) else {
            return Err(ExportFault::Store(StoreFault::Unusable));
        };
        export_number(alloc, desk, agreement, number, taker)?;
    }
    Ok(())
}

// The number behind the greatest that has something, or else the first.
fn end_of(report: &GapReport) -> u32
    ensures { result ≡ end_after report.now.first report.now.greatest }
{
    match report.greatest {
        Some(greatest) => greatest.value() + 1,
        None => report.first.value(),
    }
}

// Exports what is at the numbers of an agreed series, without those that are missing.
fn export_held<D: ListedDesk, T: TakesTexts>(
    alloc: Global,
    desk: &mut D,
    agreement: &Agreement,
    report: &GapReport,
    taker: &mut T,
) -> Result<(), ExportFault<T::Fault>>
    ensures { IsTaken T.takes T.takes_part (λ L. ⊤)
        (λ L. texts_of (requests_between L agreement.now report.now.first report.now.missing
        (end_after report.now.first report.now.greatest)))
        (D.seen desk.old) (D.seen desk.new) taker.old taker.new result }
{
    let end = end_of(report);
    let mut from = report.first.value();
    let missing = report.missing.as_slice();
    for range in missing {
        export_range(alloc, desk, agreement, from, range.0.value(), taker)?;
        from = range.1.value() + 1;
    }
    export_range(alloc, desk, agreement, from, end, taker)
}

/// Hands on the request for an agreement.
pub(crate) fn take_agreement<T: TakesTexts>(
    alloc: Global,
    agreement: &Agreement,
    taker: &mut T,
) -> Result<(), ExportFault<T::Fault>>
    ensures { Takes T.takes T.takes_part taker.old taker.new
        (request_text (Request.Agree agreement.now) ∷ []) result }
{
    let text = write_agreement(alloc, agreement)?;
    take_text(taker, text.as_str())
}

/// Exports an agreed series: its agreement, and then what is at each number, in order.
pub(crate) fn export_series<D: ListedDesk, T: TakesTexts>(
    alloc: Global,
    desk: &mut D,
    agreement: &Agreement,
    taker: &mut T,
) -> Result<(), ExportFault<T::Fault>>
    ensures { IsTaken T.takes T.takes_part
        (λ L. named (agreements_of L) agreement.now.name ≡ Some agreement.now)
        (λ L. texts_of (series_requests L agreement.now))
        (D.seen desk.old) (D.seen desk.new) taker.old taker.new result }
{
    gaps_are_true();
    let report = match desk.gaps(&agreement.name) {
        Ok(Some(report)) => report,
        // It is agreed, so there is a report.
        Ok(None) => return Err(ExportFault::Store(StoreFault::Unusable)),
        Err(fault) => return Err(ExportFault::Store(fault)),
    };
    take_agreement(alloc, agreement, taker)?;
    export_held(alloc, desk, agreement, &report, taker)
}
