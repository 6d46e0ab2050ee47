//! Desks of three kinds, which lists of requests are asked of: in memory, in tables over a store in memory,
//! and in files that are opened for each request. What asks a desk is generic over its kind, since a
//! function that names one is dear to prove.

use crate::asking::{End, ask_memory, ask_store, end_of_fault};
use crate::refusals::Refusals;
use desk_memory::MemoryDesk;
use desk_store::{DeskStore, OpenFault};
use price_rules::precedence::Precedence;
use sqlite::MemStore;
use std::alloc::Global;
use std::process::Abort;

/// A desk of a kind.
pub trait TestDesk {
    /// A new one, or how its opening ended.
    fn open(alloc: Global) -> Result<Self, End>
    where
        Self: Sized;

    /// Asks it under rules. What is answered is all that the output holds then. Files can be given other
    /// calls too.
    fn ask(
        &mut self,
        alloc: Global,
        rules: &Precedence,
        request: &str,
        output: &mut Vec<u8>,
    ) -> End;
}

/// A desk over files, of which one may fail.
pub trait StoppedDesk: TestDesk {
    /// Over new files of which one fails each call from that one on, the log or the database.
    fn failing(alloc: Global, calls: u64, is_log: bool) -> Self
    where
        Self: Sized;

    /// Over what was written to its files, whether or not it was synced, in files of which one fails so.
    fn copied(&self, alloc: Global, calls: u64, is_log: bool) -> Option<Self>
    where
        Self: Sized;

    /// Stops the machine: what was not synced is lost. Says whether a file had failed before.
    fn stop_machine(&mut self) -> bool;
}

impl TestDesk for MemoryDesk {
    fn open(alloc: Global) -> Result<MemoryDesk, End> {
        Ok(MemoryDesk::new(alloc))
    }

    fn ask(
        &mut self,
        alloc: Global,
        rules: &Precedence,
        request: &str,
        output: &mut Vec<u8>,
    ) -> End {
        ask_memory(alloc, self, rules, request, output)
    }
}

impl TestDesk for DeskStore<MemStore> {
    fn open(alloc: Global) -> Result<DeskStore<MemStore>, End> {
        match DeskStore::open_in_memory(alloc) {
            Ok(desk) => Ok(desk),
            Err(OpenFault::Store(fault)) => Err(end_of_fault(fault)),
            Err(OpenFault::OtherVersion { .. }) => Err(End::Other),
        }
    }

    fn ask(
        &mut self,
        alloc: Global,
        rules: &Precedence,
        request: &str,
        output: &mut Vec<u8>,
    ) -> End {
        ask_store(alloc, self, rules, request, output)
    }
}

/// A new desk; where memory is refused it is opened once more.
pub fn opened<D: TestDesk + Drop>(alloc: Global, stop: &impl Abort, met: &mut Refusals) -> D {
    match D::open(alloc) {
        Err(End::Memory(_)) => {
            met.meet(stop);
            met.own(stop, D::open(alloc))
        }
        Ok(desk) => desk,
        Err(_) => stop.panic("a desk that does not open"),
    }
}
