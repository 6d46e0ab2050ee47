//! Why an input has no request that can be asked.

ghost use Rattle.std.specs.Prelude.{◌≡◌};
ghost use Rattle.http_requests.specs.declared.fault.InputFault.TheVariants.{Memory, Read, Refused};

use crate::refusal::Refusal;
use std::alloc::{AllocError, AllocFailed};
use std::io;

/// Why an input has no request that can be asked.
#[derive(Drop)]
pub enum InputFault {
    /// It is refused.
    Refused(Refusal),
    /// A read failed.
    Read,
    /// Memory ran out.
    Memory,
}

impl From<AllocError> for InputFault {
    ghost from_gives = { λ _ e. e ≡ Memory };

    fn from(_e: AllocError) -> InputFault {
        InputFault::Memory
    }
}

impl<T: Drop> From<AllocFailed<T>> for InputFault {
    ghost from_gives = { λ _ e. e ≡ Memory };

    fn from(_e: AllocFailed<T>) -> InputFault {
        InputFault::Memory
    }
}

impl From<io::Error> for InputFault {
    ghost from_gives = { λ _ e. e ≡ Read };

    fn from(_e: io::Error) -> InputFault {
        InputFault::Read
    }
}

impl From<Refusal> for InputFault {
    ghost from_gives = { λ why e. e ≡ Refused why };

    fn from(why: Refusal) -> InputFault {
        InputFault::Refused(why)
    }
}
