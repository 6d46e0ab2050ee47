//! One record of a message, as a row.

ghost use Rattle.std.specs.Prelude.{◌≡◌};

use crate::parts::{Header, Price, Product, ProductSupply, SupplyDetail};
use onix_terms::NotATerm;
use std::alloc::AllocError;

/// The form of a message, which its first record names.
#[derive(Clone, Copy, PartialEq, Eq)]
pub enum Form {
    One,
    Two,
}

/// What the first record of a message says: its form and its header.
#[derive(Drop)]
pub struct Opening {
    pub form: Form,
    pub header: Header,
}

/// One record of a message. A product, a supply and a detail stand without what is below them.
#[derive(Drop)]
pub enum Row {
    Message(Header),
    Product(Product),
    ProductSupply(ProductSupply),
    SupplyDetail(SupplyDetail),
    Price(Price),
    EndMessage(u32),
}

/// Why a record is no row, or one that may not stand where it does.
#[derive(Drop)]
pub enum RowFault {
    /// A field is wrong, there are too few or too many, or another row has to come there.
    Wrong,
    /// Memory ran out.
    Memory,
}

impl From<AllocError> for RowFault {
    ghost use Rattle.onix_records.specs.declared.row.RowFault.TheVariants.{Memory};

    ghost from_gives = { λ _ e. e ≡ Memory };

    fn from(_e: AllocError) -> RowFault {
        RowFault::Memory
    }
}

impl From<NotATerm> for RowFault {
    ghost use Rattle.onix_records.specs.declared.row.RowFault.TheVariants.{Wrong};

    ghost from_gives = { λ _ e. e ≡ Wrong };

    fn from(_e: NotATerm) -> RowFault {
        RowFault::Wrong
    }
}
