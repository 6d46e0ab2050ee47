//! The supply of a product to a market: its row, and its records.

ghost use Rattle.std.specs.Prelude.{◌≡◌, ◌++◌, OnOk, OnErr, map};
ghost use Rattle.onix_records.specs.Supply.{supplies_records, supply_of, supply_record, supply_records};
ghost use Rattle.onix_records.specs.Gives.{Gives};

use crate::detail::append_detail;
use crate::fields::{push_territory, read_territory};
use crate::parts::ProductSupply;
use crate::row::RowFault;
use csv_records::buffer::RecordBuffer;
use csv_records::fields::FieldBuffer;
use onix_terms::items::Items;
use std::alloc::{AllocError, Global};

/// The ProductSupply that the fields of a record say, without the details below it.
pub fn read_supply(alloc: Global, fields: &[&str]) -> Result<ProductSupply, RowFault>
    ensures { Gives result (supply_of (map (λ f. f.now) fields.now)) }
{
    let [included, regions, excluded] = fields else {
        return Err(RowFault::Wrong);
    };
    let market = read_territory(alloc, included, regions, excluded)?;
    Ok(ProductSupply {
        market,
        details: Items::new(alloc),
    })
}

// Puts the fields of a supply's own record in place of what the list held.
fn fill_supply(
    alloc: Global,
    fields: &mut FieldBuffer,
    supply: &ProductSupply,
) -> Result<(), AllocError>
    ensures { OnOk result (fields.new ≡ supply_record supply.now) }
{
    fields.clear();
    fields.push("ProductSupply")?;
    push_territory(alloc, fields, &supply.market)
}

// Appends the records of a supply: its own, and those of its details. If memory runs out, the
// records stay as they were.
#[tactic(auto, unfolding(crate::specs::Supply::supply_records))]
fn append_supply(
    alloc: Global,
    fields: &mut FieldBuffer,
    records: &mut RecordBuffer,
    supply: &ProductSupply,
) -> Result<(), AllocError>
    ensures ok { OnOk result (records.new ≡ records.old ++ supply_records supply.now) }
    ensures err { OnErr result (records.new ≡ records.old) }
{
    let count = records.len();
    fill_supply(alloc, fields, supply)?;
    records.push(&fields.as_record())?;
    for detail in supply.details.as_slice() {
        let Ok(()) = append_detail(alloc, fields, records, detail) else {
            records.truncate(count);
            return Err(AllocError);
        };
    }
    Ok(())
}

/// Appends the records of a product's supplies: those of each supply and its details. Where memory
/// runs out, the records stay as they were. The list of fields is used for each record in turn, and
/// what it holds is lost.
#[tactic(auto, unfolding(crate::specs::Supply::supplies_records))]
pub fn append_supplies(
    alloc: Global,
    fields: &mut FieldBuffer,
    records: &mut RecordBuffer,
    supplies: &[ProductSupply],
) -> Result<(), AllocError>
    ensures ok { OnOk result (records.new ≡ records.old ++ supplies_records supplies.now) }
    ensures err { OnErr result (records.new ≡ records.old) }
{
    let count = records.len();
    for supply in supplies {
        let Ok(()) = append_supply(alloc, fields, records, supply) else {
            records.truncate(count);
            return Err(AllocError);
        };
    }
    Ok(())
}
