//! Values that one field writes.

ghost use Rattle.std.specs.Prelude.{ℕ};
ghost use Rattle.onix_records.specs.Fields.{unless_empty, value_or_default};
ghost use Rattle.onix_records.specs.Gives.{GivesOfParsed};

use crate::row::RowFault;
use onix_terms::NotATerm;
use std::str::FromStr;

/// The value that a field writes. `Wrong` where it writes none.
pub fn read_term<T: FromStr<Err = NotATerm>>(text: &str) -> Result<T, RowFault>
    ensures { GivesOfParsed T.from_str_gives text.now (λ value. value) result }
{
    Ok(text.parse()?)
}

// A value, or none where the text is empty.
pub(crate) fn read_optional<T: FromStr<Err = NotATerm> + Drop>(
    text: &str,
) -> Result<Option<T>, RowFault>
    ensures { GivesOfParsed T.from_str_gives text.now (unless_empty text.now) result }
{
    let parsed = text.parse::<T>();
    if text.is_empty() {
        return Ok(None);
    }
    Ok(Some(parsed?))
}

// A value, or the default where the text is empty.
pub(crate) fn read_or_default<T: FromStr<Err = NotATerm> + Drop>(
    default: Option<T>,
    text: &str,
) -> Result<T, RowFault>
    ensures { GivesOfParsed T.from_str_gives text.now (value_or_default default text.now) result }
{
    let parsed = text.parse::<T>();
    if text.is_empty() {
        return default.ok_or(RowFault::Wrong);
    }
    Ok(parsed?)
}
