//! Requests to a desk, and how each ended. A request is a batch, or an exchange over HTTP. The caller lends
//! what is written to, so that no function here owns memory.

use crate::cases::{expect, expect_bytes};
use csv_records::reading::RecordFault;
use desk_batch::{BatchFault, run_batch};
use desk_http::{HttpFault, serve_one};
use desk_memory::MemoryDesk;
use desk_store::DeskStore;
use onix_message::StoreFault;
use price_rules::precedence::Precedence;
use series_rules::desk::Desk;
use sqlite::Alter;
use std::alloc::Global;
use std::io::{Read, Write};
use std::process::Abort;

/// Whether a request that ended out of memory has taken effect, as its fault says.
#[derive(Clone, Copy)]
pub enum Taken {
    Yes,
    No,
    /// The fault does not say.
    Either,
}

/// How a request ended, as far as the tests tell the ways apart.
#[derive(Clone, Copy)]
pub enum End {
    Done,
    /// Out of memory, of the desk or of the text that the test lets it write to.
    Memory(Taken),
    Disk,
    /// A disk failed before files were opened for it.
    Unopened,
    /// A disk may not be used again.
    Lost,
    Other,
}

/// How a call ends that has made its changes and gives this text, on a line.
pub fn end_of_line(text: &str, output: &mut Vec<u8>) -> End {
    if output.extend_from_slice(text.as_bytes()).is_ok() && output.push(b'\n').is_ok() {
        End::Done
    } else {
        End::Memory(Taken::Yes)
    }
}

/// How a fault of a store is told, after which nothing has changed.
pub fn end_of_fault(fault: StoreFault) -> End {
    match fault {
        StoreFault::Memory => End::Memory(Taken::No),
        StoreFault::Disk => End::Disk,
        StoreFault::Size | StoreFault::Unusable => End::Other,
    }
}

// Of a batch of one request: whether that has taken effect, where so many have.
fn taken_of(done: u64) -> Taken {
    if done == 1 { Taken::Yes } else { Taken::No }
}

fn end_of_batch(ended: Result<u64, BatchFault>) -> End {
    match ended {
        Ok(_) => End::Done,
        Err(
            BatchFault::Store {
                done,
                fault: StoreFault::Memory,
            },
        ) => End::Memory(taken_of(done)),
        Err(BatchFault::Store { fault, .. }) => end_of_fault(fault),
        Err(BatchFault::Records(RecordFault::Memory)) => End::Memory(Taken::No),
        Err(BatchFault::Memory { done } | BatchFault::Write { done }) => {
            End::Memory(taken_of(done))
        }
        Err(BatchFault::Records(_) | BatchFault::Read) => End::Other,
    }
}

// How an exchange with this reply ended.
fn end_of_reply(status: u16, reply: &[u8]) -> End {
    if status != 503 {
        End::Done
    } else if reply.ends_with("\"memory\"}".as_bytes()) {
        End::Memory(Taken::No)
    } else if reply.ends_with("\"disk\"}".as_bytes()) {
        End::Disk
    } else {
        End::Other
    }
}

// Out of memory outside the desk, with nothing written.
fn end_unwritten(taken: bool, reply: &[u8]) -> End {
    match taken {
        _ if !reply.is_empty() => End::Other,
        true => End::Memory(Taken::Yes),
        false => End::Memory(Taken::No),
    }
}

fn end_of_exchange(ended: Result<u16, HttpFault>, reply: &[u8]) -> End {
    match ended {
        Ok(status) => end_of_reply(status, reply),
        Err(HttpFault::Memory { taken }) => end_unwritten(taken, reply),
        Err(HttpFault::Write { status: 503 }) => End::Memory(Taken::No),
        Err(HttpFault::Write { .. }) => End::Memory(Taken::Yes),
        Err(HttpFault::Read) => End::Other,
    }
}

// These promise nothing, so that what calls them carries none of what the libraries promise.

/// Runs a batch.
pub fn run<D: Desk, R: Read, W: Write>(
    alloc: Global,
    desk: &mut D,
    rules: &Precedence,
    reader: &mut R,
    writer: &mut W,
) -> Result<u64, BatchFault> {
    run_batch(alloc, desk, rules, reader, writer)
}

/// Serves an exchange.
pub fn serve<D: Desk, R: Read, W: Write>(
    alloc: Global,
    desk: &mut D,
    rules: &Precedence,
    reader: &mut R,
    writer: &mut W,
) -> Result<u16, HttpFault> {
    serve_one(alloc, desk, rules, reader, writer)
}

fn batch<D: Desk>(
    alloc: Global,
    desk: &mut D,
    rules: &Precedence,
    text: &str,
    output: &mut Vec<u8>,
) -> End {
    end_of_batch(run(alloc, desk, rules, &mut text.as_bytes(), output))
}

// A line end is written behind the reply, as behind all that tests compare. That of a fault is no answer.
fn exchange<D: Desk>(
    alloc: Global,
    desk: &mut D,
    rules: &Precedence,
    text: &str,
    output: &mut Vec<u8>,
) -> End {
    let served = serve(alloc, desk, rules, &mut text.as_bytes(), output);
    match end_of_exchange(served, output.as_slice()) {
        End::Done if output.push(b'\n').is_err() => End::Memory(Taken::Yes),
        End::Done => End::Done,
        ended => {
            output.clear();
            ended
        }
    }
}

fn ask_desk<D: Desk>(
    alloc: Global,
    desk: &mut D,
    rules: &Precedence,
    request: &str,
    output: &mut Vec<u8>,
) -> End {
    output.clear();
    if request.starts_with("GET ") || request.starts_with("POST ") {
        exchange(alloc, desk, rules, request, output)
    } else {
        batch(alloc, desk, rules, request, output)
    }
}

// A function that calls what is generic over a desk with a known one is dear to prove, so each kind has one.

/// Asks the desk in memory. What is answered is all that the output holds then.
pub fn ask_memory(
    alloc: Global,
    desk: &mut MemoryDesk,
    rules: &Precedence,
    request: &str,
    output: &mut Vec<u8>,
) -> End {
    ask_desk(alloc, desk, rules, request, output)
}

/// The same of a desk in tables.
pub fn ask_store<S: Alter>(
    alloc: Global,
    desk: &mut DeskStore<S>,
    rules: &Precedence,
    request: &str,
    output: &mut Vec<u8>,
) -> End {
    ask_desk(alloc, desk, rules, request, output)
}

/// Ends the test with the name of the case, unless a request was asked to its end and these are its
/// answers.
pub fn expect_asked(stop: &impl Abort, ended: End, output: &[u8], answers: &str, name: &str) {
    expect_bytes(stop, output, answers.as_bytes(), name);
    expect(stop, matches!(ended, End::Done), name);
}
