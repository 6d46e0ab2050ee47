//! The faults of requests and of batches, as they end the program.

use desk_batch::{BatchFault, RequestFault};
use program_clients::fault::Fault;

/// The fault of one request.
pub fn fault_of_request(fault: RequestFault) -> Fault {
    match fault {
        RequestFault::Store(fault) => Fault::from(fault),
        RequestFault::Write => Fault::Output,
        RequestFault::Memory => Fault::Memory,
    }
}

/// The fault of a batch.
pub fn fault_of_batch(fault: BatchFault) -> Fault {
    match fault {
        BatchFault::Records(fault) => Fault::from(fault),
        BatchFault::Store { fault, .. } => Fault::from(fault),
        BatchFault::Read => Fault::InputRead,
        BatchFault::Write { .. } => Fault::Output,
        BatchFault::Memory { .. } => Fault::Memory,
    }
}
