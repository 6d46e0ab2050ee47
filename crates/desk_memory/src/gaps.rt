//! The numbers of one series that are held.

ghost use Rattle.std.specs.Prelude.{◌≤◌, IfOk};
ghost use Rattle.std.specs.BTreeMap.{get};
ghost use Rattle.std.specs.Ordering.{nat_cmp};
ghost use Rattle.series_rules.specs.Gaps.{AreHeldFrom};
ghost use Rattle.series_rules.specs.Series.{IsNext};

use onix_terms::number::Number;
use series_rules::requests::Standing;
use std::alloc::{AllocError, Global};
use std::collections::BTreeMap;

/// The first number that has nothing, and the numbers from there on that have something, in order.
pub(crate) fn held_numbers(
    alloc: Global,
    numbers: &BTreeMap<Number, Standing>,
    first: Number,
) -> Result<(u32, Vec<Number>), AllocError>
    ensures below { IfOk result (λ found. found.0 ≤ 1000000000) }
    ensures next { IfOk result (λ found. IsNext (get nat_cmp numbers.now) first found.0) }
    ensures held { IfOk result
        (λ found. AreHeldFrom (get nat_cmp numbers.now) found.0 found.1.items) }
{
    let mut next = first.value();
    let mut held = Vec::new(alloc);
    for (number, _) in numbers.range(first..) {
        if number.value() == next {
            next += 1;
        } else {
            held.push(*number)?;
        }
    }
    Ok((next, held))
}
