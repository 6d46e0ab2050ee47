//! A detail of a supply: its row, and its records.

ghost use Rattle.std.specs.Prelude.{◌≡◌, ◌++◌, ◌∷◌, [], OnOk, OnErr, map};
ghost use Rattle.std.specs.Option.{unwrap_or};
ghost use Rattle.onix_records.specs.Gives.{Gives};
ghost use Rattle.onix_records.specs.Detail.{detail_from, detail_of, detail_record, detail_records, supplier_name};

use crate::fields::{push_party, read_filled, read_optional_party};
use crate::parts::{Supplier, SupplyDetail};
use crate::price::append_price;
use crate::row::RowFault;
use crate::term::{read_optional, read_term};
use csv_records::buffer::RecordBuffer;
use csv_records::fields::FieldBuffer;
use onix_terms::code::Code2;
use onix_terms::items::Items;
use onix_terms::party::Party;
use onix_terms::text::Text;
use std::alloc::{AllocError, Global};

fn read_supplier_name(alloc: Global, party: &Option<Party>, name: &str) -> Result<Text, RowFault>
    ensures { Gives result (supplier_name party.now name.now) }
{
    match party {
        Some(_) => Ok(Text::from_str(alloc, name)?),
        None => read_filled(alloc, name),
    }
}

fn make_detail(
    alloc: Global,
    role: &str,
    id_type: &str,
    id_value: &str,
    name: &str,
    availability: &str,
    unpriced: &str,
) -> Result<SupplyDetail, RowFault>
    ensures { Gives result
        (detail_from role.now id_type.now id_value.now name.now availability.now unpriced.now) }
{
    let role = read_term(role)?;
    let availability = read_term(availability)?;
    let unpriced = read_optional(unpriced)?;
    let party = read_optional_party(alloc, id_type, id_value)?;
    let name = read_supplier_name(alloc, &party, name)?;
    Ok(SupplyDetail {
        supplier: Supplier { role, party, name },
        availability,
        unpriced,
        prices: Items::new(alloc),
    })
}

/// The SupplyDetail that the fields of a record say, without the prices below it.
#[tactic(auto, unfolding(crate::specs::Detail::detail_of))]
pub fn read_detail(alloc: Global, fields: &[&str]) -> Result<SupplyDetail, RowFault>
    ensures { Gives result (detail_of (map (λ f. f.now) fields.now)) }
{
    let [role, id_type, id_value, name, availability, unpriced] = fields else {
        return Err(RowFault::Wrong);
    };
    make_detail(alloc, role, id_type, id_value, name, availability, unpriced)
}

fn push_optional_code(fields: &mut FieldBuffer, code: &Option<Code2>) -> Result<(), AllocError>
    ensures { OnOk result (fields.new ≡ fields.old ++ unwrap_or code.now [] ∷ []) }
{
    match code {
        Some(code) => fields.push(code.as_str()),
        None => fields.push(""),
    }
}

// Puts the fields of a detail's own record in place of what the list held.
fn fill_detail(fields: &mut FieldBuffer, detail: &SupplyDetail) -> Result<(), AllocError>
    ensures { OnOk result (fields.new ≡ detail_record detail.now) }
{
    fields.clear();
    fields.push("SupplyDetail")?;
    fields.push(detail.supplier.role.as_str())?;
    push_party(fields, &detail.supplier.party)?;
    fields.push(detail.supplier.name.as_str())?;
    fields.push(detail.availability.as_str())?;
    push_optional_code(fields, &detail.unpriced)
}

// Appends the records of a detail: its own, and those of its prices. If memory runs out, the
// records stay as they were.
#[tactic(auto, unfolding(crate::specs::Detail::detail_records))]
pub(crate) fn append_detail(
    alloc: Global,
    fields: &mut FieldBuffer,
    records: &mut RecordBuffer,
    detail: &SupplyDetail,
) -> Result<(), AllocError>
    ensures ok { OnOk result (records.new ≡ records.old ++ detail_records detail.now) }
    ensures err { OnErr result (records.new ≡ records.old) }
{
    let count = records.len();
    fill_detail(fields, detail)?;
    records.push(&fields.as_record())?;
    for price in detail.prices.as_slice() {
        let Ok(()) = append_price(alloc, fields, records, price) else {
            records.truncate(count);
            return Err(AllocError);
        };
    }
    Ok(())
}
