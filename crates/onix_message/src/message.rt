//! Messages: a header and contents, read from records.

ghost use Rattle.std.specs.Prelude.{◌≡◌, ◌∷◌, IfOk, IfErr, Some, true, false};
ghost use Rattle.onix_records.specs.Draft.{has_ended};
ghost use Rattle.onix_records.specs.ContentsText.{IsContents};
ghost use Rattle.onix_records.specs.Grammar.{IsMessage};
ghost use Rattle.onix_message.specs.Faults.{Explains};
ghost use Rattle.onix_records.specs.Opening.{opening_of};
ghost use Rattle.onix_message.specs.declared.message.MessageFault.TheVariants.{Malformed};

use crate::contents::Contents;
use csv_records::record::Record;
use csv_records::records::Records;
use onix_records::MOST_RECORDS;
use onix_records::draft::{Draft, Part};
use onix_records::laws::contents_of_messages;
use onix_records::opening::read_opening;
use onix_records::parts::Header;
use onix_records::row::{Opening, RowFault};
use onix_records::step::read_next;
use onix_terms::items::Items;
use std::alloc::Global;
use thiserror::Error;

/// Why a list of records is no message.
#[derive(Debug, Drop, Error)]
pub enum MessageFault {
    /// It stops being one at this row, counted from 1.
    #[error("no message: row {row} is wrong or may not stand there")]
    Malformed { row: u32 },
    /// Memory ran out.
    #[error("out of memory")]
    Memory,
}

// Whether the last row was an end.
fn has_ended(part: &Part) -> bool
    ensures { result ≡ has_ended part.now }
{
    match part {
        Part::Ended(_) => true,
        _ => false,
    }
}

// The contents of a draft, where its last row was an end. Otherwise the message is malformed at
// this row.
fn close(draft: Draft, row: u32) -> Result<Contents, MessageFault>
    requires { has_ended draft.part ≡ true → IsContents draft.products }
    ensures ended { IfOk result
        (λ contents. (has_ended draft.part ≡ true) × (contents ≡ draft.products)) }
    ensures fault { IfErr result (λ e. (has_ended draft.part ≡ false) × (e ≡ Malformed row)) }
{
    let is_whole = has_ended(&draft.part);
    let Draft { products, part } = draft;
    drop(part);
    if is_whole {
        Ok(Contents::from_products(products))
    } else {
        drop(products);
        Err(MessageFault::Malformed { row })
    }
}

// Reads the records after the first, which opened the message so. The list takes the fields of each
// in turn.
fn read_products<'a>(
    alloc: Global,
    opening: &Opening,
    first: &Record<'a>,
    rest: &Records<'a>,
    fields: &mut Vec<&'a str>,
) -> Result<Contents, MessageFault>
    requires { opening_of first.now ≡ Some opening.now }
    ensures message { IfOk result
        (λ contents. IsMessage (first.now ∷ rest.now) opening.now.header contents) }
    ensures fault { IfErr result (λ e. Explains (first.now ∷ rest.now) e) }
{
    let mut draft = Draft {
        products: Items::new(alloc),
        part: Part::Nothing,
    };
    for i in 0..rest.len() {
        let next = rest.record(i);
        if i + 1 >= MOST_RECORDS {
            drop(draft);
            return Err(MessageFault::Malformed {
                row: MOST_RECORDS as u32 + 1,
            });
        }
        match read_next(alloc, opening, &mut draft, &next, fields, i + 1) {
            Ok(()) => {}
            Err(RowFault::Wrong) => {
                drop(draft);
                return Err(MessageFault::Malformed { row: i as u32 + 2 });
            }
            Err(RowFault::Memory) => {
                drop(draft);
                return Err(MessageFault::Memory);
            }
        }
    }
    contents_of_messages();
    close(draft, rest.len() as u32 + 2)
}

/// Reads a message. `Malformed` exactly where the records are none, with the row at which they
/// stop being one; `Memory` if memory ran out.
pub fn read_message(
    alloc: Global,
    records: &Records<'_>,
) -> Result<(Header, Contents), MessageFault>
    ensures message { IfOk result (λ m. IsMessage records.now m.0 m.1) }
    ensures fault { IfErr result (λ e. Explains records.now e) }
{
    let Some((first, rest)) = records.split_first() else {
        return Err(MessageFault::Malformed { row: 1 });
    };
    // One list takes the fields of each record in turn.
    let mut fields = Vec::new(alloc);
    match read_opening(alloc, &first, &mut fields) {
        Ok(opening) => match read_products(alloc, &opening, &first, &rest, &mut fields) {
            Ok(contents) => Ok((opening.header, contents)),
            Err(fault) => {
                drop(opening);
                Err(fault)
            }
        },
        Err(RowFault::Wrong) => Err(MessageFault::Malformed { row: 1 }),
        Err(RowFault::Memory) => Err(MessageFault::Memory),
    }
}
