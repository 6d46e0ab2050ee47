//! A message that is being read, row by row. What is left over where a row is refused is dropped by
//! a call: what goes out of scope on several ways out is dear to prove on each of them.

ghost use Rattle.std.specs.Prelude.{◌≡◌, ◌≢◌, ◌++◌, [], IfOk, IfErr, OnOk, Some, true};
ghost use Rattle.std.specs.List.{AllByRecursion, flat_map};
ghost use Rattle.onix_records.specs.Draft.{Adds, AllowsProduct, DraftHasDetails, PartHasDetails, Refuses, RefusesProduct, RefusesSupply, allows, open_rows, part_rows};
ghost use Rattle.onix_records.specs.PartRows.{SuppliesHaveDetails, detail_rows, product_rows, supply_rows};
ghost use Rattle.onix_records.specs.declared.parts.ProductSupply.{ProductSupply};
ghost use Rattle.onix_records.specs.declared.draft.Part.TheVariants.{InSupply};
ghost use Rattle.onix_records.specs.declared.row.Row.TheVariants as row;

use crate::parts::{Price, Product, ProductSupply, SupplyDetail};
use crate::row::RowFault;
use onix_terms::items::Items;
use std::alloc::AllocError;
use std::mem;

/// The part of the last product that stands open: the product, or it and its last supply, with that
/// supply's last detail where it has one.
#[derive(Drop)]
pub enum Part {
    Nothing,
    InProduct(Product),
    InSupply(Product, ProductSupply, Option<SupplyDetail>),
    Ended(u32),
}

/// The rows so far: the products that are closed, and what stands open.
#[derive(Drop)]
pub struct Draft {
    pub products: Items<Product>,
    pub part: Part,
}

// The supply with the detail that stood open.
fn close_detail(
    mut supply: ProductSupply,
    detail: SupplyDetail,
) -> Result<ProductSupply, AllocError>
    ensures rows { IfOk result (λ s. supply_rows s ≡ supply_rows supply ++ detail_rows detail) }
    ensures details { IfOk result (λ s. s.details ≢ []) }
{
    supply.details.push(detail)?;
    Ok(supply)
}

// The product with the supply that stood open.
fn close_supply(mut product: Product, supply: ProductSupply) -> Result<Product, AllocError>
    requires before { SuppliesHaveDetails product }
    requires own { supply.details ≢ [] }
    ensures rows { IfOk result (λ p. product_rows p ≡ product_rows product ++ supply_rows supply) }
    ensures details { IfOk result (λ p. SuppliesHaveDetails p) }
{
    product.supplies.push(supply)?;
    Ok(product)
}

// The product with the supply and the detail that stood open, if there is such a detail.
fn close_last(
    product: Product,
    supply: ProductSupply,
    last: Option<SupplyDetail>,
) -> Result<Product, RowFault>
    requires { SuppliesHaveDetails product }
    ensures rows { IfOk result
        (λ p. product_rows p ≡ product_rows product ++ open_rows supply last) }
    ensures details { IfOk result (λ p. SuppliesHaveDetails p) }
    ensures allowed { IfOk result
        (λ p. (s : ProductSupply)
        → allows (InSupply product supply last) (row.ProductSupply s) ≡ true) }
    ensures refused { IfErr result (λ e. RefusesSupply (InSupply product supply last) e) }
{
    let Some(detail) = last else {
        drop(product);
        drop(supply);
        return Err(RowFault::Wrong);
    };
    let Ok(supply) = close_detail(supply, detail) else {
        drop(product);
        return Err(RowFault::Memory);
    };
    Ok(close_supply(product, supply)?)
}

// The product that stands open, where a supply may come.
fn close_to_product(part: Part) -> Result<Product, RowFault>
    requires { PartHasDetails part }
    ensures rows { IfOk result (λ p. product_rows p ≡ part_rows part) }
    ensures details { IfOk result (λ p. SuppliesHaveDetails p) }
    ensures allowed { IfOk result
        (λ p. (s : ProductSupply) → allows part (row.ProductSupply s) ≡ true) }
    ensures refused { IfErr result (λ e. RefusesSupply part e) }
{
    match part {
        Part::InProduct(product) => Ok(product),
        Part::InSupply(product, supply, last) => close_last(product, supply, last),
        other => {
            drop(other);
            Err(RowFault::Wrong)
        }
    }
}

fn push_product(products: &mut Items<Product>, product: Product) -> Result<(), AllocError>
    requires before { AllByRecursion SuppliesHaveDetails products.old }
    requires own { SuppliesHaveDetails product }
    ensures rows { OnOk result
        (flat_map product_rows products.new
        ≡ flat_map product_rows products.old ++ product_rows product) }
    ensures details { OnOk result (AllByRecursion SuppliesHaveDetails products.new) }
{
    products.push(product)
}

// All products, where another or the end may come: the one that stands open joins those before it.
fn close_to_products(products: &mut Items<Product>, part: Part) -> Result<(), RowFault>
    requires before { AllByRecursion SuppliesHaveDetails products.old }
    requires own { PartHasDetails part }
    ensures rows { OnOk result
        (flat_map product_rows products.new
        ≡ flat_map product_rows products.old ++ part_rows part) }
    ensures details { OnOk result (AllByRecursion SuppliesHaveDetails products.new) }
    ensures allowed { OnOk result (AllowsProduct part) }
    ensures refused { IfErr result (λ e. RefusesProduct part e) }
{
    match part {
        Part::Nothing => Ok(()),
        open => match close_to_product(open) {
            Ok(product) => Ok(push_product(products, product)?),
            Err(fault) => Err(fault),
        },
    }
}

// What stood open is dropped by `drop` here and below: an assignment would drop it part by part,
// which costs more to prove.
pub(crate) fn add_product(draft: &mut Draft, product: Product) -> Result<(), RowFault>
    requires bare { product.supplies ≡ [] }
    requires details { DraftHasDetails draft.old }
    ensures added { OnOk result (Adds draft.old (row.Product product) draft.new) }
    ensures refused { IfErr result (λ e. Refuses draft.old (row.Product product) e) }
{
    let part = mem::replace(&mut draft.part, Part::Nothing);
    match close_to_products(&mut draft.products, part) {
        Ok(()) => {
            drop(mem::replace(&mut draft.part, Part::InProduct(product)));
            Ok(())
        }
        Err(fault) => {
            drop(product);
            Err(fault)
        }
    }
}

pub(crate) fn add_end(draft: &mut Draft, count: u32) -> Result<(), RowFault>
    requires { DraftHasDetails draft.old }
    ensures added { OnOk result (Adds draft.old (row.EndMessage count) draft.new) }
    ensures refused { IfErr result (λ e. Refuses draft.old (row.EndMessage count) e) }
{
    let part = mem::replace(&mut draft.part, Part::Nothing);
    close_to_products(&mut draft.products, part)?;
    drop(mem::replace(&mut draft.part, Part::Ended(count)));
    Ok(())
}

// The supply replaces the one that stood open, which joins those of its product with this
// detail.
fn next_supply(
    product: &mut Product,
    last: &mut ProductSupply,
    detail: SupplyDetail,
    supply: ProductSupply,
) -> Result<(), AllocError>
    requires { SuppliesHaveDetails product.old }
    ensures rows { OnOk result
        (product_rows product.new
        ≡ product_rows product.old ++ (supply_rows last.old ++ detail_rows detail)) }
    ensures details { OnOk result (SuppliesHaveDetails product.new) }
    ensures last { OnOk result (last.new ≡ supply) }
{
    let Ok(()) = last.details.push(detail) else {
        drop(supply);
        return Err(AllocError);
    };
    product.supplies.push(mem::replace(last, supply))
}

// What stands open stays where it lies, since it is large: only its lists grow.
pub(crate) fn add_supply(draft: &mut Draft, supply: ProductSupply) -> Result<(), RowFault>
    requires bare { supply.details ≡ [] }
    requires details { DraftHasDetails draft.old }
    ensures added { OnOk result (Adds draft.old (row.ProductSupply supply) draft.new) }
    ensures refused { IfErr result (λ e. Refuses draft.old (row.ProductSupply supply) e) }
{
    if let Part::InSupply(product, last, detail) = &mut draft.part {
        return match detail.take() {
            Some(detail) => Ok(next_supply(product, last, detail, supply)?),
            None => {
                drop(supply);
                Err(RowFault::Wrong)
            }
        };
    }
    match mem::replace(&mut draft.part, Part::Nothing) {
        Part::InProduct(product) => {
            drop(mem::replace(&mut draft.part, Part::InSupply(product, supply, None)));
            Ok(())
        }
        other => {
            drop(other);
            drop(supply);
            Err(RowFault::Wrong)
        }
    }
}

// The detail stands open in its supply, and the one before it joins those of the supply.
fn next_detail(
    supply: &mut ProductSupply,
    last: &mut Option<SupplyDetail>,
    detail: SupplyDetail,
) -> Result<(), AllocError>
    ensures rows { OnOk result
        (open_rows supply.new last.new ≡ open_rows supply.old last.old ++ detail_rows detail) }
    ensures last { OnOk result (last.new ≡ Some detail) }
{
    match last {
        Some(before) => supply.details.push(mem::replace(before, detail)),
        None => {
            *last = Some(detail);
            Ok(())
        }
    }
}

pub(crate) fn add_detail(draft: &mut Draft, detail: SupplyDetail) -> Result<(), RowFault>
    requires bare { detail.prices ≡ [] }
    requires details { DraftHasDetails draft.old }
    ensures added { OnOk result (Adds draft.old (row.SupplyDetail detail) draft.new) }
    ensures refused { IfErr result (λ e. Refuses draft.old (row.SupplyDetail detail) e) }
{
    match &mut draft.part {
        Part::InSupply(_, supply, last) => Ok(next_detail(supply, last, detail)?),
        _ => {
            drop(detail);
            Err(RowFault::Wrong)
        }
    }
}

pub(crate) fn add_price(draft: &mut Draft, price: Price) -> Result<(), RowFault>
    requires { DraftHasDetails draft.old }
    ensures added { OnOk result (Adds draft.old (row.Price price) draft.new) }
    ensures refused { IfErr result (λ e. Refuses draft.old (row.Price price) e) }
{
    match &mut draft.part {
        Part::InSupply(_, _, Some(detail)) => Ok(detail.prices.push(price)?),
        _ => {
            drop(price);
            Err(RowFault::Wrong)
        }
    }
}
