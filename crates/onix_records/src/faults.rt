//! Why a store could not answer.

ghost use Rattle.std.specs.Prelude.{◌≡◌};

use std::alloc::AllocError;
use thiserror::Error;

/// Why a desk could not answer. Nothing has changed then.
#[derive(Debug, Drop, Error)]
pub enum StoreFault {
    /// Memory ran out.
    #[error("memory")]
    Memory,
    /// A value is larger than the store takes.
    #[error("size")]
    Size,
    /// The disk failed.
    #[error("disk")]
    Disk,
    /// The store refused for any other reason.
    #[error("unusable")]
    Unusable,
}

impl From<AllocError> for StoreFault {
    ghost use Rattle.onix_records.specs.declared.faults.StoreFault.TheVariants.{Memory};

    ghost from_gives = { λ _ e. e ≡ Memory };

    fn from(_e: AllocError) -> StoreFault {
        StoreFault::Memory
    }
}
