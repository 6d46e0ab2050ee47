//! Where the parts of a buffer end.

ghost use Rattle.std.specs.Prelude.{◌≡◌, ◌≤◌, ◌<◌, ◌+◌, ◌-◌, ◌^◌, ◌++◌, OnOk, OnErr, All, length, map};
ghost use Rattle.csv_records.specs.Cuts.{end_before};

use std::alloc::AllocError;

// Where the parts before this one end.
pub(crate) fn end_of(ends: &Vec<usize>, count: usize) -> usize
    requires { count ≤ length ends.now.items }
    ensures { result ≡ end_before 0 ends.now.items count }
{
    if count == 0 { 0 } else { ends[count - 1] }
}

// Where a part starts and ends.
pub(crate) fn span(ends: &Vec<usize>, index: usize) -> (usize, usize)
    requires { index < length ends.now.items }
    ensures start { result.0 ≡ end_before 0 ends.now.items index }
    ensures end { result.1 ≡ end_before 0 ends.now.items (index + 1) }
{
    (end_of(ends, index), ends[index])
}

// Adds ends of parts that began at `first`, as ends of parts that begin at `start`, all of them, or
// none if memory runs out.
pub(crate) fn add_ends(
    ends: &mut Vec<usize>,
    added: &[usize],
    first: usize,
    start: usize,
) -> Result<(), AllocError>
    requires { All (λ e. (first ≤ e) × ((e - first) + start < 2 ^ 64)) added.now }
    ensures ok { OnOk result
        (ends.new.items ≡ ends.old.items ++ map (λ e. (e - first) + start) added.now) }
    ensures err { OnErr result (ends.new.items ≡ ends.old.items) }
{
    ends.reserve(added.len())?;
    for end in added {
        ends.push_reserved(*end - first + start);
    }
    Ok(())
}
