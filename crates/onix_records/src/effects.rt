//! What the products of a message did.

ghost use Rattle.std.specs.Prelude.{◌≡◌};

/// How many products of a message did what. Each product is counted once.
#[derive(Clone, Copy, PartialEq, Eq)]
pub struct Effect {
    /// Products that added a record or replaced it whole.
    pub replaced: u32,
    /// Updates of references that have a record.
    pub updated: u32,
    /// Products that removed a record.
    pub deleted: u32,
    /// Updates and deletions of references that have no record.
    pub unknown: u32,
    /// Products of any other notification type.
    pub ignored: u32,
}

impl Effect {
    /// The counts of no product.
    pub fn none() -> Effect
        ensures { result
            ≡ record { replaced = 0; updated = 0; deleted = 0; unknown = 0; ignored = 0 } }
    {
        Effect {
            replaced: 0,
            updated: 0,
            deleted: 0,
            unknown: 0,
            ignored: 0,
        }
    }
}
