//! The fields of a record, and those that several rows have.

ghost use Rattle.std.specs.Prelude.{◌≡◌, ◌++◌, ◌∷◌, [], IsErrOf, OnOk, length, map, nat_le, true, false};
ghost use Rattle.std.specs.List.{list_all};
ghost use Rattle.std.specs.Option.{option_map_or};
ghost use Rattle.onix_records.specs.Fields.{has_no_control, is_clean, is_control, optional_party, party_of, party_fields, territory_fields};
ghost use Rattle.onix_records.specs.Gives.{Gives};
ghost use Rattle.onix_terms.specs.Amount.{amount_text};
ghost use Rattle.onix_terms.specs.Day.{day_text};
ghost use Rattle.onix_terms.specs.Options.{nonempty};
ghost use Rattle.onix_terms.specs.Territory.{territory_of};

use crate::row::RowFault;
use crate::term::read_term;
use csv_records::fields::FieldBuffer;
use csv_records::record::Record;
use onix_terms::amount::Amount;
use onix_terms::countries::countries_text;
use onix_terms::day::Day;
use onix_terms::party::Party;
use onix_terms::territory::{TermFault, Territory};
use onix_terms::text::Text;
use std::alloc::{AllocError, Global};

/// The most bytes that a field may have.
const MOST_BYTES: usize = 1_024;

// Whether a byte is a control character.
fn is_control_byte(byte: u8) -> bool
    ensures { result ≡ is_control byte }
{
    byte < 32 || byte == 127
}

// Whether a text has no control character.
fn has_no_control(bytes: &[u8]) -> bool
    ensures { result ≡ has_no_control bytes.now }
{
    // It goes on after a control character, since a loop without an early exit is faster.
    let mut is_plain = true;
    for byte in bytes {
        is_plain = is_plain & !is_control_byte(*byte);
    }
    is_plain
}

/// Whether a text may be a field: it has at most 1,024 bytes and no control character.
pub fn is_clean(text: &[u8]) -> bool
    ensures { result ≡ is_clean text.now }
{
    text.len() <= MOST_BYTES && has_no_control(text)
}

// Whether no field has more than 1,024 bytes.
fn are_short(fields: &[&str]) -> bool
    ensures { result ≡ list_all (λ f. nat_le (length f.now) 1024) fields.now }
{
    fields.iter().all(|field| field.len() <= MOST_BYTES)
}

/// Puts the fields of a record into a list, in place of what it held. A record is `Wrong` exactly
/// if one of its fields has more than 1,024 bytes or a control character.
pub fn read_fields<'a>(from: &Record<'a>, fields: &mut Vec<&'a str>) -> Result<(), RowFault>
    ensures fields { OnOk result (map (λ f. f.now) fields.new.items ≡ from.now) }
    ensures clean { OnOk result (list_all is_clean from.now ≡ true) }
    ensures wrong { IsErrOf result RowFault.Wrong → list_all is_clean from.now ≡ false }
{
    from.fill(fields)?;
    if !are_short(fields.as_slice()) {
        return Err(RowFault::Wrong);
    }
    // The bytes of all fields lie side by side, so one pass tests them.
    if has_no_control(from.as_bytes()) {
        Ok(())
    } else {
        Err(RowFault::Wrong)
    }
}

// A text that is not empty.
pub(crate) fn read_filled(alloc: Global, text: &str) -> Result<Text, RowFault>
    ensures { Gives result (nonempty text.now) }
{
    if text.is_empty() {
        return Err(RowFault::Wrong);
    }
    Ok(Text::from_str(alloc, text)?)
}

/// A party by the type and the value of its identifier.
pub fn read_party(alloc: Global, id_type: &str, id_value: &str) -> Result<Party, RowFault>
    ensures { Gives result (party_of id_type.now id_value.now) }
{
    let id_type = read_term(id_type)?;
    let id_value = read_filled(alloc, id_value)?;
    Ok(Party { id_type, id_value })
}

/// A party, or none where both fields are empty.
pub fn read_optional_party(
    alloc: Global,
    id_type: &str,
    id_value: &str,
) -> Result<Option<Party>, RowFault>
    ensures { Gives result (optional_party id_type.now id_value.now) }
{
    if id_type.is_empty() && id_value.is_empty() {
        return Ok(None);
    }
    Ok(Some(read_party(alloc, id_type, id_value)?))
}

pub(crate) fn read_territory(
    alloc: Global,
    included: &str,
    regions: &str,
    excluded: &str,
) -> Result<Territory, RowFault>
    ensures { Gives result (territory_of included.now regions.now excluded.now) }
{
    match Territory::read(alloc, included, regions, excluded) {
        Ok(territory) => Ok(territory),
        Err(TermFault::NotATerm) => Err(RowFault::Wrong),
        Err(TermFault::Memory) => Err(RowFault::Memory),
    }
}

// Appends the two fields of a party, both empty if there is none.
pub(crate) fn push_party(fields: &mut FieldBuffer, party: &Option<Party>) -> Result<(), AllocError>
    ensures { OnOk result (fields.new ≡ fields.old ++ party_fields party.now) }
{
    match party {
        Some(party) => {
            fields.push(party.id_type.as_str())?;
            fields.push(party.id_value.as_str())
        }
        None => {
            fields.push("")?;
            fields.push("")
        }
    }
}

/// Appends the field of an amount, which is empty if there is none.
pub fn push_amount(
    alloc: Global,
    fields: &mut FieldBuffer,
    amount: Option<Amount>,
) -> Result<(), AllocError>
    ensures { OnOk result (fields.new ≡ fields.old ++ option_map_or amount_text amount [] ∷ []) }
{
    match amount {
        Some(amount) => fields.push(amount.text(alloc)?.as_str()),
        None => fields.push(""),
    }
}

/// Appends the field of a day, which is empty if there is none.
pub fn push_day(alloc: Global, fields: &mut FieldBuffer, day: Option<Day>) -> Result<(), AllocError>
    ensures { OnOk result (fields.new ≡ fields.old ++ option_map_or day_text day [] ∷ []) }
{
    match day {
        Some(day) => fields.push(day.text(alloc)?.as_str()),
        None => fields.push(""),
    }
}

// Appends the three fields of a territory.
pub(crate) fn push_territory(
    alloc: Global,
    fields: &mut FieldBuffer,
    territory: &Territory,
) -> Result<(), AllocError>
    ensures { OnOk result (fields.new ≡ fields.old ++ territory_fields territory.now) }
{
    fields.push(countries_text(alloc, territory.included.as_slice())?.as_str())?;
    fields.push(if territory.world { "WORLD" } else { "" })?;
    fields.push(countries_text(alloc, territory.excluded.as_slice())?.as_str())
}
