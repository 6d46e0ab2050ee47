//! Records made of texts and numbers. The fields of each are put into one borrowed list, which is
//! used again for the next.

ghost use Rattle.std.specs.Prelude.{◌≡◌, ◌++◌, ◌∷◌, [], OnOk, map};
ghost use Rattle.std.specs.Fmt.{decimal};

use csv_records::fields::FieldBuffer;
use itoa::Buffer;
use std::alloc::{AllocError, Global};

/// Puts these fields in place of what the list had.
pub(crate) fn fill(out: &mut FieldBuffer, fields: &[&str]) -> Result<(), AllocError>
    ensures { OnOk result (out.new ≡ map (λ f. f.now) fields.now) }
{
    out.clear();
    out.push_all(fields)
}

/// Adds a field of this number.
pub(crate) fn push_number(out: &mut FieldBuffer, number: u32) -> Result<(), AllocError>
    ensures { OnOk result (out.new ≡ out.old ++ decimal number ∷ []) }
{
    let mut buffer = Buffer::new();
    out.push(buffer.format(number))
}

/// Adds a field of this count.
pub(crate) fn push_count(out: &mut FieldBuffer, count: usize) -> Result<(), AllocError>
    ensures { OnOk result (out.new ≡ out.old ++ decimal count ∷ []) }
{
    let mut buffer = Buffer::new();
    out.push(buffer.format(count))
}

/// Adds a field of each label and its number.
pub(crate) fn push_labelled(
    alloc: Global,
    out: &mut FieldBuffer,
    fields: &[(&str, u64)],
) -> Result<(), AllocError>
    ensures { OnOk result (out.new ≡ out.old ++ map (λ f. f.0.now ++ decimal f.1) fields.now) }
{
    for item in fields {
        let (label, number) = item;
        let text = format!(in alloc; "{label}{number}")?;
        out.push(text.as_str())?;
    }
    Ok(())
}
