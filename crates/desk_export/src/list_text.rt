//! What a desk lists, as text: its agreements, which numbers its series lack, and all that it
//! holds.

ghost use Rattle.std.specs.Prelude.{◌≡◌, ◌∷◌, [], OnErr, OnOk, Some, ⊤};
ghost use Rattle.std.specs.Io.KnownBytes.{Appends};
ghost use Rattle.series_rules.specs.Agreements.{agreements_of, named};
ghost use Rattle.desk_export.specs.Asking.{IsAsked};
ghost use Rattle.desk_export.specs.Exporting.{AppendsFront, IsTaken};
ghost use Rattle.desk_export.specs.ListTexts.{listed_text, listed_texts, report_text, series_texts};

use crate::export::{ExportFault, export_series, take_agreement, take_text};
use crate::taking::TakesTexts;
use csv_records::streams::WriteFault;
use desk_texts::answer_text::write_answer;
use onix_records::{Agreement, StoreFault};
use series_rules::answers::Answer;
use series_rules::listing::ListedDesk;
use std::alloc::Global;
use std::io::Write;

/// What is listed of each series of a desk.
#[derive(Clone, Copy)]
pub enum Listed {
    /// Its agreement, as the request of a batch.
    Agreements,
    /// The report on which numbers it lacks.
    Gaps,
    /// The requests that make it again: its agreement, and then for each number in order the
    /// message or the waiver that stands there.
    Requests,
}

// Hands on which numbers an agreed series lacks.
fn list_gaps<D: ListedDesk, T: TakesTexts>(
    alloc: Global,
    desk: &mut D,
    agreement: &Agreement,
    taker: &mut T,
) -> Result<(), ExportFault<T::Fault>>
    ensures { IsTaken T.takes T.takes_part
        (λ L. named (agreements_of L) agreement.now.name ≡ Some agreement.now)
        (λ L. report_text L agreement.now ∷ [])
        (D.seen desk.old) (D.seen desk.new) taker.old taker.new result }
{
    let report = match desk.gaps(&agreement.name) {
        Ok(Some(report)) => report,
        // It is agreed, so there is a report.
        Ok(None) => return Err(ExportFault::Store(StoreFault::Unusable)),
        Err(fault) => return Err(ExportFault::Store(fault)),
    };
    let text = write_answer(alloc, &Answer::Gaps(report))?;
    take_text(taker, text.as_str())
}

// Hands on what is listed of an agreed series.
fn list_series<D: ListedDesk, T: TakesTexts>(
    alloc: Global,
    desk: &mut D,
    listed: Listed,
    agreement: &Agreement,
    taker: &mut T,
) -> Result<(), ExportFault<T::Fault>>
    ensures { IsTaken T.takes T.takes_part
        (λ L. named (agreements_of L) agreement.now.name ≡ Some agreement.now)
        (λ L. series_texts listed L agreement.now)
        (D.seen desk.old) (D.seen desk.new) taker.old taker.new result }
{
    match listed {
        Listed::Agreements => take_agreement(alloc, agreement, taker),
        Listed::Gaps => list_gaps(alloc, desk, agreement, taker),
        Listed::Requests => export_series(alloc, desk, agreement, taker),
    }
}

/// Lists a desk: hands what is listed of each series, in order of name, to a taker, one text after
/// the other, with one message at a time in memory. The desk is only asked.
pub fn list_desk<D: ListedDesk, T: TakesTexts>(
    alloc: Global,
    desk: &mut D,
    listed: Listed,
    taker: &mut T,
) -> Result<(), ExportFault<T::Fault>>
    ensures { IsTaken T.takes T.takes_part (λ L. ⊤) (listed_texts listed)
        (D.seen desk.old) (D.seen desk.new) taker.old taker.new result }
{
    let agreements = match desk.agreements() {
        Ok(agreements) => agreements,
        Err(fault) => return Err(ExportFault::Store(fault)),
    };
    let all = agreements.as_slice();
    for agreement in all {
        list_series(alloc, desk, listed, agreement, taker)?;
    }
    Ok(())
}

/// Writes what is listed of each series of a desk, in order of name. The desk is only asked. After
/// a fault a first part of the text is written.
pub fn write_list<D: ListedDesk, W: Write>(
    alloc: Global,
    desk: &mut D,
    listed: Listed,
    writer: &mut W,
) -> Result<(), ExportFault<WriteFault>>
    ensures { IsAsked (D.seen desk.old) (D.seen desk.new)
        (λ L. OnOk result
        (Appends (W.contents writer.old) (W.contents writer.new) (listed_text listed L))
        × OnErr result
        (AppendsFront (W.contents writer.old) (W.contents writer.new) (listed_text listed L))) }
{
    list_desk(alloc, desk, listed, writer)
}
