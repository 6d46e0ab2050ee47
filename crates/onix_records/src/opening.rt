//! The row with which a message begins.

ghost use Rattle.std.specs.Prelude.{map};
ghost use Rattle.onix_records.specs.Fields.{optional};
ghost use Rattle.onix_records.specs.Gives.{Gives};
ghost use Rattle.onix_records.specs.Opening.{form_of, opening_fields, opening_from, opening_of};
ghost use Rattle.onix_terms.specs.Digits.{digits_of};

use crate::fields::{read_fields, read_optional_party, read_party};
use crate::parts::Header;
use crate::row::{Form, Opening, RowFault};
use crate::term::read_optional;
use csv_records::record::Record;
use onix_terms::digits::read_digits;
use onix_terms::text::Text;
use std::alloc::Global;

fn read_form(text: &str) -> Result<Form, RowFault>
    ensures { Gives result (form_of text.now) }
{
    if text == "1" {
        return Ok(Form::One);
    }
    if text == "2" {
        return Ok(Form::Two);
    }
    Err(RowFault::Wrong)
}

fn read_repeat(text: &str) -> Result<Option<u32>, RowFault>
    ensures { Gives result (optional digits_of text.now) }
{
    if text.is_empty() {
        return Ok(None);
    }
    Ok(Some(read_digits(text).ok_or(RowFault::Wrong)?))
}

#[tactic(auto, unfolding(crate::specs::Opening::opening_from))]
fn make_opening(
    alloc: Global,
    version: &str,
    sender_type: &str,
    sender_value: &str,
    to_type: &str,
    to_value: &str,
    number: &str,
    repeat: &str,
    sent: &str,
    price_type: &str,
    currency: &str,
) -> Result<Opening, RowFault>
    ensures { Gives result
        (opening_from version.now sender_type.now sender_value.now to_type.now to_value.now
        number.now repeat.now sent.now price_type.now currency.now) }
{
    let form = read_form(version)?;
    let number = read_optional(number)?;
    let repeat = read_repeat(repeat)?;
    let default_type = read_optional(price_type)?;
    let default_currency = read_optional(currency)?;
    let sent = Text::from_str(alloc, sent)?;
    let sender = read_party(alloc, sender_type, sender_value)?;
    let addressee = read_optional_party(alloc, to_type, to_value)?;
    Ok(Opening {
        form,
        header: Header {
            sender,
            addressee,
            number,
            repeat,
            sent,
            default_type,
            default_currency,
        },
    })
}

// What the fields after the name say.
#[tactic(auto, unfolding(crate::specs::Opening::opening_fields))]
fn read_opening_fields(alloc: Global, fields: &[&str]) -> Result<Opening, RowFault>
    ensures { Gives result (opening_fields (map (λ f. f.now) fields.now)) }
{
    let [
        version,
        sender_type,
        sender_value,
        to_type,
        to_value,
        number,
        repeat,
        sent,
        price_type,
        currency,
    ] = fields
    else {
        return Err(RowFault::Wrong);
    };
    make_opening(
        alloc,
        version,
        sender_type,
        sender_value,
        to_type,
        to_value,
        number,
        repeat,
        sent,
        price_type,
        currency,
    )
}

/// What a message says that begins with this record. The list takes the record's fields.
#[tactic(auto, unfolding(crate::specs::Opening::opening_of))]
pub fn read_opening<'a>(
    alloc: Global,
    from: &Record<'a>,
    fields: &mut Vec<&'a str>,
) -> Result<Opening, RowFault>
    ensures { Gives result (opening_of from.now) }
{
    read_fields(from, fields)?;
    let [name, rest @ ..] = fields.as_slice() else {
        return Err(RowFault::Wrong);
    };
    if *name != "Message" {
        return Err(RowFault::Wrong);
    }
    read_opening_fields(alloc, rest)
}
