//! One step of reading a message: the row that a record is joins the rows so far. Each kind of row
//! is added where it is read, since a value that may be of any kind is large.

ghost use Rattle.std.specs.Prelude.{◌≡◌, ℕ, map, option_map};
ghost use Rattle.onix_records.specs.Detail.{detail_of};
ghost use Rattle.onix_records.specs.Gives.{Gives};
ghost use Rattle.onix_records.specs.Price.{price_of};
ghost use Rattle.onix_records.specs.Product.{product_of};
ghost use Rattle.onix_records.specs.Row.{end_of, named_row, row_of};
ghost use Rattle.onix_records.specs.Supply.{supply_of};
ghost use Rattle.onix_records.specs.declared.row.Row.TheVariants as row;
ghost use Rattle.onix_records.specs.Draft.{DraftHasDetails, Steps};

use crate::detail::read_detail;
use crate::draft::{Draft, add_detail, add_end, add_price, add_product, add_supply};
use crate::fields::read_fields;
use crate::price::read_price;
use crate::product::read_product;
use crate::row::{Opening, RowFault};
use crate::supply::read_supply;
use csv_records::record::Record;
use onix_terms::digits::read_digits;
use std::alloc::Global;

fn add_read_product(alloc: Global, draft: &mut Draft, fields: &[&str]) -> Result<(), RowFault>
    requires { DraftHasDetails draft.old }
    ensures { (before : ℕ)
        → Steps result
        (option_map row.Product
        (product_of (map (λ f. f.now) fields.now))) draft.old before draft.new }
{
    add_product(draft, read_product(alloc, fields)?)
}

fn add_read_supply(alloc: Global, draft: &mut Draft, fields: &[&str]) -> Result<(), RowFault>
    requires { DraftHasDetails draft.old }
    ensures { (before : ℕ)
        → Steps result
        (option_map row.ProductSupply
        (supply_of (map (λ f. f.now) fields.now))) draft.old before draft.new }
{
    add_supply(draft, read_supply(alloc, fields)?)
}

fn add_read_detail(alloc: Global, draft: &mut Draft, fields: &[&str]) -> Result<(), RowFault>
    requires { DraftHasDetails draft.old }
    ensures { (before : ℕ)
        → Steps result
        (option_map row.SupplyDetail
        (detail_of (map (λ f. f.now) fields.now))) draft.old before draft.new }
{
    add_detail(draft, read_detail(alloc, fields)?)
}

fn add_read_price(
    alloc: Global,
    opening: &Opening,
    draft: &mut Draft,
    fields: &[&str],
) -> Result<(), RowFault>
    requires { DraftHasDetails draft.old }
    ensures { (before : ℕ)
        → Steps result
        (option_map row.Price
        (price_of opening.now (map (λ f. f.now) fields.now))) draft.old before draft.new }
{
    add_price(draft, read_price(alloc, opening, fields)?)
}

fn read_end(fields: &[&str]) -> Result<u32, RowFault>
    ensures { Gives result (end_of (map (λ f. f.now) fields.now)) }
{
    let [count] = fields else {
        return Err(RowFault::Wrong);
    };
    read_digits(count).ok_or(RowFault::Wrong)
}

// An end says how many records come before it.
fn add_read_end(draft: &mut Draft, fields: &[&str], before: usize) -> Result<(), RowFault>
    requires { DraftHasDetails draft.old }
    ensures { Steps result
        (option_map row.EndMessage
        (end_of (map (λ f. f.now) fields.now))) draft.old before draft.new }
{
    let count = read_end(fields)?;
    if count as usize != before {
        return Err(RowFault::Wrong);
    }
    add_end(draft, count)
}

// Adds the row that the fields after a name make, where it may come next.
fn add_named(
    alloc: Global,
    opening: &Opening,
    draft: &mut Draft,
    name: &str,
    fields: &[&str],
    before: usize,
) -> Result<(), RowFault>
    requires { DraftHasDetails draft.old }
    ensures { Steps result
        (named_row opening.now name.now (map (λ f. f.now) fields.now)) draft.old before draft.new }
{
    // A message has one header, which is read before this.
    if name == "Message" {
        return Err(RowFault::Wrong);
    }
    if name == "Product" {
        return add_read_product(alloc, draft, fields);
    }
    if name == "ProductSupply" {
        return add_read_supply(alloc, draft, fields);
    }
    if name == "SupplyDetail" {
        return add_read_detail(alloc, draft, fields);
    }
    if name == "Price" {
        return add_read_price(alloc, opening, draft, fields);
    }
    if name == "EndMessage" {
        return add_read_end(draft, fields, before);
    }
    Err(RowFault::Wrong)
}

/// Adds the row that a record is to a draft, where it may come next after so many records.
/// `Wrong` where it is no row, or one that may not; `Memory` if memory ran out. The draft is
/// good for nothing then. The list takes the record's fields.
#[tactic(auto, unfolding(crate::specs::Row::row_of))]
pub fn read_next<'a>(
    alloc: Global,
    opening: &Opening,
    draft: &mut Draft,
    from: &Record<'a>,
    fields: &mut Vec<&'a str>,
    before: usize,
) -> Result<(), RowFault>
    requires { DraftHasDetails draft.old }
    ensures { Steps result (row_of opening.now from.now) draft.old before draft.new }
{
    read_fields(from, fields)?;
    let [name, rest @ ..] = fields.as_slice() else {
        return Err(RowFault::Wrong);
    };
    add_named(alloc, opening, draft, name, rest, before)
}
