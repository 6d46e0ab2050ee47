//! How many messages wait and are applied, by calls of the tables over files in one transaction.

use desk_tables::tables::Tables;
use desk_tables::work::Work;
use onix_message::StoreFault;
use onix_terms::number::Number;
use onix_terms::series_name::SeriesName;
use sqlite::Alter;

// Whether each of the numbers from 1 to 41 has been applied, or none has.
fn are_applied<S: Alter>(
    work: &mut Work<'_, S>,
    north: &SeriesName,
    wanted: bool,
) -> Result<bool, StoreFault> {
    for value in 1..=41u32 {
        let Some(number) = Number::from_value(value) else {
            return Err(StoreFault::Size);
        };
        let found = work.applied_at(north, number)?;
        if found.is_some() != wanted {
            return Ok(false);
        }
    }
    Ok(true)
}

fn held<S: Alter>(work: &mut Work<'_, S>, north: &SeriesName) -> Result<usize, StoreFault> {
    let numbers = work.gap_rows(north)?;
    Ok(numbers.len())
}

fn count<S: Alter>(work: &mut Work<'_, S>, north: &SeriesName) -> Result<&'static str, StoreFault> {
    let held = held(work, north)?;
    if held == 40 && are_applied(work, north, false)? {
        return Ok("40 wait");
    }
    if held == 0 && are_applied(work, north, true)? {
        return Ok("41 are applied");
    }
    Ok("some are applied")
}

/// Which of the forty messages and the first wait, and which are applied.
pub fn counted<S: Alter>(tables: &mut Tables<S>) -> Result<&'static str, StoreFault> {
    let Some(north) = SeriesName::read("north") else {
        return Err(StoreFault::Size);
    };
    let mut work = tables.work()?;
    let counted = count(&mut work, &north)?;
    work.commit()?;
    Ok(counted)
}
