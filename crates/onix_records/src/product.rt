//! A product: its row, and its records.

ghost use Rattle.std.specs.Prelude.{◌≡◌, ◌++◌, OnOk, OnErr, map};
ghost use Rattle.std.specs.List.{flat_map};
ghost use Rattle.onix_records.specs.Gives.{Gives};
ghost use Rattle.onix_records.specs.Product.{identifier_fields, identifier_of, pairs_of, product_of, product_record, product_records};

use crate::fields::read_filled;
use crate::parts::{Product, ProductIdentifier};
use crate::row::RowFault;
use crate::supply::append_supplies;
use crate::term::read_term;
use csv_records::buffer::RecordBuffer;
use csv_records::fields::FieldBuffer;
use onix_terms::items::Items;
use std::alloc::{AllocError, Global};

fn read_identifier(
    alloc: Global,
    id_type: &str,
    id_value: &str,
) -> Result<ProductIdentifier, RowFault>
    ensures { Gives result (identifier_of id_type.now id_value.now) }
{
    let id_type = read_term(id_type)?;
    let id_value = read_filled(alloc, id_value)?;
    Ok(ProductIdentifier { id_type, id_value })
}

// Pairs of a type and a value.
#[tactic(auto, unfolding(crate::specs::Product::pairs_of))]
fn read_pairs(alloc: Global, fields: &[&str]) -> Result<Items<ProductIdentifier>, RowFault>
    ensures { Gives result (pairs_of (map (λ f. f.now) fields.now)) }
{
    let mut ids = Items::new(alloc);
    let mut rest = fields;
    while let [id_type, id_value, more @ ..] = rest {
        ids.push(read_identifier(alloc, id_type, id_value)?)?;
        rest = more;
    }
    if !rest.is_empty() {
        return Err(RowFault::Wrong);
    }
    Ok(ids)
}

/// The Product that the fields of a record say, without the supplies below it.
#[tactic(auto, unfolding(crate::specs::Product::product_of))]
pub fn read_product(alloc: Global, fields: &[&str]) -> Result<Product, RowFault>
    ensures { Gives result (product_of (map (λ f. f.now) fields.now)) }
{
    let [reference, notification, pairs @ ..] = fields else {
        return Err(RowFault::Wrong);
    };
    if pairs.is_empty() {
        return Err(RowFault::Wrong);
    }
    let notification = read_term(notification)?;
    let reference = read_filled(alloc, reference)?;
    let ids = read_pairs(alloc, pairs)?;
    Ok(Product {
        reference,
        notification,
        ids,
        supplies: Items::new(alloc),
    })
}

fn push_identifier(fields: &mut FieldBuffer, id: &ProductIdentifier) -> Result<(), AllocError>
    ensures ok { OnOk result (fields.new ≡ fields.old ++ identifier_fields id.now) }
    ensures err { OnErr result (fields.new ≡ fields.old) }
{
    fields.push_all(&[id.id_type.as_str(), id.id_value.as_str()])
}

/// Appends the types and values of identifiers to the fields of a record, pair after pair. Where
/// memory runs out, the fields stay as they were.
pub fn push_identifiers(
    fields: &mut FieldBuffer,
    ids: &[ProductIdentifier],
) -> Result<(), AllocError>
    ensures ok { OnOk result (fields.new ≡ fields.old ++ flat_map identifier_fields ids.now) }
    ensures err { OnErr result (fields.new ≡ fields.old) }
{
    let count = fields.len();
    for id in ids {
        let Ok(()) = push_identifier(fields, id) else {
            fields.truncate(count);
            return Err(AllocError);
        };
    }
    Ok(())
}

// Puts the fields of a product's own record in place of what the list held.
fn fill_product(fields: &mut FieldBuffer, product: &Product) -> Result<(), AllocError>
    ensures { OnOk result (fields.new ≡ product_record product.now) }
{
    fields.clear();
    fields.push("Product")?;
    fields.push(product.reference.as_str())?;
    fields.push(product.notification.as_str())?;
    push_identifiers(fields, product.ids.as_slice())
}

/// Appends the records of a product: its own, and those of its supplies. If memory runs out, the
/// records stay as they were. The list of fields is used for each record in turn, and what it holds
/// is lost.
#[tactic(auto, unfolding(crate::specs::Product::product_records))]
pub fn append_product(
    alloc: Global,
    fields: &mut FieldBuffer,
    records: &mut RecordBuffer,
    product: &Product,
) -> Result<(), AllocError>
    ensures ok { OnOk result (records.new ≡ records.old ++ product_records product.now) }
    ensures err { OnErr result (records.new ≡ records.old) }
{
    let count = records.len();
    fill_product(fields, product)?;
    records.push(&fields.as_record())?;
    let Ok(()) = append_supplies(alloc, fields, records, product.supplies.as_slice()) else {
        records.truncate(count);
        return Err(AllocError);
    };
    Ok(())
}
