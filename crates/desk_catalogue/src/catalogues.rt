//! The catalogue of a series, read.

ghost use Rattle.desk_catalogue.specs.Achieves.{Does};
ghost use Rattle.desk_catalogue.specs.Calls.{KeepsRows, IsCatalogueOf};
ghost use Rattle.desk_catalogue.specs.ReadRecords.{AreReadOf};

use crate::record_rows::read_record;
use catalogue_rules::catalogue::Catalogue;
use desk_tables::records::RecordRow;
use desk_tables::work::Work;
use onix_message::StoreFault;
use onix_terms::series_name::SeriesName;
use sqlite::Alter;
use std::alloc::Global;

// The catalogue of these records alone.
fn read_records<S: Alter>(
    alloc: Global,
    work: &mut Work<'_, S>,
    records: &[RecordRow],
) -> Result<Catalogue, StoreFault>
    ensures { Does S.Store (KeepsRows (AreReadOf records.now)) work.old work.new result }
{
    let mut catalogue = Catalogue::new(alloc);
    for record in records {
        let entry = read_record(alloc, work, record)?;
        if catalogue.put(record.reference.as_str(), entry).is_err() {
            return Err(StoreFault::Memory);
        }
    }
    Ok(catalogue)
}

/// The catalogue of a series, which has no record where the series has no rows. `Unusable` where its
/// rows cannot be read back; otherwise a fault is one of the store, or out of memory.
pub fn read_catalogue<S: Alter>(
    alloc: Global,
    work: &mut Work<'_, S>,
    series: &SeriesName,
) -> Result<Catalogue, StoreFault>
    ensures catalogue { Does S.Store (KeepsRows (IsCatalogueOf series.now))
        work.old work.new result }
{
    let records = work.record_rows(series)?;
    read_records(alloc, work, records.as_slice())
}
