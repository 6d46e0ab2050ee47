//! What a catalogue keeps of a record.

ghost use Rattle.std.specs.Prelude.{◌≡◌, IfOk};

use onix_message::parts::{ProductIdentifier, ProductSupply};
use onix_terms::items::Items;
use onix_terms::plain::Plain;
use std::alloc::AllocError;

/// What a catalogue keeps of a record: the identifiers of the product and its supplies.
#[derive(Drop)]
pub struct Entry {
    pub ids: Items<ProductIdentifier>,
    pub supplies: Items<ProductSupply>,
}

impl Clone for Entry {
    ghost is_clone = { λ x y. y ≡ x };

    fn clone(&self) -> Result<Entry, AllocError> {
        Entry::copy_of(&self.ids, &self.supplies)
    }
}

impl Entry {
    /// An entry with copies of these.
    pub(crate) fn copy_of(
        ids: &Items<ProductIdentifier>,
        supplies: &Items<ProductSupply>,
    ) -> Result<Entry, AllocError>
        ensures { IfOk result (λ e. e ≡ record { ids = ids.now; supplies = supplies.now }) }
    {
        Ok(Entry {
            ids: ids.duplicate()?,
            supplies: supplies.duplicate()?,
        })
    }
}
