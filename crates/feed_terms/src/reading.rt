//! Reading a table of terms from bytes.

ghost use Rattle.std.specs.Prelude.{◌≤◌, length};
ghost use Rattle.csv_records.specs.RecordTexts.{limit};
ghost use Rattle.feed_terms.specs.Reading.{TermsFit};

use crate::table::Terms;
use crate::term::TermsFault;
use std::alloc::Global;

/// Why a text gives no table of terms.
#[derive(Drop)]
pub enum ReadFault {
    /// It cannot be read.
    Unreadable,
    /// Its text is no table: `NotToml` also where it has more than 4,194,304 bytes or is not UTF-8.
    /// Or memory ran out.
    Table(TermsFault),
}

/// The table that these bytes are the text of.
pub fn terms_of(alloc: Global, bytes: &[u8]) -> Result<Terms, ReadFault>
    requires { length bytes.now ≤ limit }
    ensures { TermsFit bytes.now result }
{
    let Ok(text) = std::str::from_utf8(bytes) else {
        return Err(ReadFault::Table(TermsFault::NotToml));
    };
    match Terms::read(alloc, text) {
        Ok(terms) => Ok(terms),
        Err(fault) => Err(ReadFault::Table(fault)),
    }
}
