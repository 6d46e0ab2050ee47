//! The report on the gaps of a series.

ghost use Rattle.std.specs.Prelude.{◌≡◌, ◌<◌, ◌≤◌, ◌++◌, ℕ, IfOk, OnOk, Option};
ghost use Rattle.series_rules.specs.Gaps.{AreHeldFrom, IsGreatest, NoneBelow, lacking, numbers_up_to, range_below, ranges_of, report_by};
ghost use Rattle.series_rules.specs.Series.{IsNext};
ghost use Rattle.series_rules.specs.declared.requests.Standing.{Standing};

use crate::answers::GapReport;
use onix_terms::items::Items;
use onix_terms::number::Number;
use onix_terms::series_name::SeriesName;
use std::alloc::{AllocError, Global};

fn number_of(value: u32) -> Number
    requires above { 0 < value }
    requires below { value < 1000000000 }
    ensures { result ≡ value }
{
    Number::from_value(value).unwrap()
}

// The greatest number that has something.
fn greatest_number(first: Number, next: u32, held: &[Number]) -> Option<Number>
    requires { next ≤ 1000000000 }
    ensures { (f : ℕ → Option Standing) → NoneBelow f first → IsNext f first next
        → AreHeldFrom f next held.now → IsGreatest f result }
{
    if let Some(number) = held.last() {
        return Some(*number);
    }
    if first.value() < next {
        return Some(number_of(next - 1));
    }
    None
}

// Adds the numbers from `from` on that are below `number`, where there are some.
fn push_range(
    missing: &mut Items<(Number, Number)>,
    from: u32,
    number: Number,
) -> Result<(), AllocError>
    requires { 0 < from }
    ensures { OnOk result (missing.new ≡ missing.old ++ range_below from number) }
{
    if from < number.value() {
        missing.push((number_of(from), number_of(number.value() - 1)))?;
    }
    Ok(())
}

// The numbers from `next` on that have nothing, up to the greatest that has something.
fn missing_numbers(
    alloc: Global,
    next: u32,
    held: &[Number],
) -> Result<Items<(Number, Number)>, AllocError>
    requires { 0 < next }
    ensures { (f : ℕ → Option Standing) (greatest : Option ℕ) → AreHeldFrom f next held.now
        → IsGreatest f greatest →
        IfOk result
        (λ missing. missing ≡ ranges_of (lacking f next (numbers_up_to next greatest))) }
{
    let mut missing = Items::new(alloc);
    let mut seen = next;
    for number in held {
        push_range(&mut missing, seen, *number)?;
        seen = number.value() + 1;
    }
    Ok(missing)
}

/// The report on a series that has nothing below its first number, where `next` is the least number
/// from the first on that has nothing, and `held` are the numbers from there on that have
/// something, in order. Fails only where memory runs out.
pub fn gap_report(
    alloc: Global,
    series: SeriesName,
    first: Number,
    next: u32,
    held: &[Number],
) -> Result<GapReport, AllocError>
    requires above { first ≤ next }
    requires below { next ≤ 1000000000 }
    ensures { (f : ℕ → Option Standing) (greatest : Option ℕ) → NoneBelow f first
        → IsNext f first next → AreHeldFrom f next held.now → IsGreatest f greatest →
        IfOk result (λ report. report ≡ report_by series f first next greatest) }
{
    let missing = missing_numbers(alloc, next, held)?;
    Ok(GapReport {
        series,
        first,
        next,
        greatest: greatest_number(first, next, held),
        held: held.len() as u64,
        missing,
    })
}
