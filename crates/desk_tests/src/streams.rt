//! Outputs that take part of what is written and then nothing. No run of the program shows these;
//! tests/program/desk/broken_streams.py has streams that fail.

use crate::asking::{run, serve};
use crate::cases::{expect, expect_bytes};
use desk_batch::BatchFault;
use desk_http::HttpFault;
use desk_memory::MemoryDesk;
use price_rules::precedence::Precedence;
use series_rules::desk::Desk;
use std::alloc::Global;
use std::io::{self, ErrorKind, Write};
use std::process::Abort;

// Takes so many bytes, one a write, and then nothing.
#[derive(Drop)]
struct SmallOutput {
    left: usize,
    written: Vec<u8>,
}

impl Write for SmallOutput {
    fn write(&mut self, bytes: &[u8]) -> io::Result<usize> {
        match bytes {
            [first, ..] if self.left > 0 => {
                let Ok(()) = self.written.push(*first) else {
                    return Err(io::Error::from(ErrorKind::OutOfMemory));
                };
                self.left -= 1;
                Ok(1)
            }
            _ => Ok(0),
        }
    }

    fn flush(&mut self) -> io::Result<()> {
        Ok(())
    }
}

const BATCH: &str = "AskGaps,north\nAskGaps,south\n";

const ANSWERS: &str = "refused,unknown-series\nrefused,unknown-series\n";

// The answer that an output ends in which takes so many bytes, from 1.
fn answer_at(bytes: usize) -> u64 {
    if bytes < 23 { 1 } else { 2 }
}

// Where the output takes these bytes alone, they are written, and that is told of the answer in them.
fn expect_batch_cut<D: Desk>(alloc: Global, stop: &impl Abort, desk: &mut D, taken: &[u8]) {
    let mut output = SmallOutput {
        left: taken.len(),
        written: Vec::new(alloc),
    };
    let rules = Precedence::none(alloc);
    let ended = run(alloc, desk, &rules, &mut BATCH.as_bytes(), &mut output);
    let wanted = answer_at(taken.len());
    let is_write = matches!(&ended, Err(BatchFault::Write { done }) if *done == wanted);
    expect(stop, is_write, "an output that takes nothing");
    expect_bytes(stop, output.written.as_slice(), taken, "what it took");
}

const QUESTION: &str = "GET /series/north/gaps HTTP/1.1\r\n\r\n";

const REPLY: &str = "HTTP/1.1 404 Not Found\r
Content-Type: application/json\r
Content-Length: 46\r
Connection: close\r
\r
{\"answer\":\"refused\",\"reason\":\"unknown-series\"}";

// The same of an exchange.
fn expect_reply_cut<D: Desk>(alloc: Global, stop: &impl Abort, desk: &mut D, taken: &[u8]) {
    let mut output = SmallOutput {
        left: taken.len(),
        written: Vec::new(alloc),
    };
    let rules = Precedence::none(alloc);
    let served = serve(alloc, desk, &rules, &mut QUESTION.as_bytes(), &mut output);
    let is_write = matches!(&served, Err(HttpFault::Write { status: 404 }));
    expect(stop, is_write, "a client that takes nothing");
    expect_bytes(stop, output.written.as_slice(), taken, "what it took");
}

// Each part of the answers, and of the reply.
fn expect_cuts<D: Desk>(alloc: Global, stop: &impl Abort, desk: &mut D) {
    for at in 0..ANSWERS.len() {
        expect_batch_cut(alloc, stop, desk, &ANSWERS.as_bytes()[..at]);
    }
    for at in 0..REPLY.len() {
        expect_reply_cut(alloc, stop, desk, &REPLY.as_bytes()[..at]);
    }
}

#[test]
fn outputs_that_take_nothing(rt: HostRuntime) {
    expect_cuts(rt.alloc(), &rt, &mut MemoryDesk::new(rt.alloc()));
}
