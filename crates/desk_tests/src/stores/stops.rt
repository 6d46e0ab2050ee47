//! The desk over files of which one fails from some call on: what stands after the machine has stopped, or
//! the program alone, and that the requests can then be made again; and files of version 1 that are brought to
//! version 2 so.

use crate::asking::{End, expect_asked};
use crate::cases::{Step, add_steps, expect, found, made};
use crate::desks::{StoppedDesk, TestDesk};
use crate::files::FileDesk;
use crate::lists::expect_list;
use crate::lists::steps::STEPS;
use crate::lists::versions::{FIRST_FILES, MIGRATED};
use crate::refusals::Refusals;
use price_rules::precedence::Precedence;
use std::alloc::{AllocError, Global};
use std::process::Abort;

// A list whose requests are one batch.
#[derive(Clone, Copy)]
struct Batch<'a> {
    // The report before the first.
    before: &'a str,
    steps: &'a [Step<'a>],
    rules: &'a Precedence,
    // All requests, and the same between two reports.
    first: &'a str,
    again: &'a str,
}

impl<'a> Batch<'a> {
    // Whether a text begins with the report after so many requests.
    fn begins_after(&self, text: &[u8], count: usize) -> bool {
        let report = match count.checked_sub(1) {
            None => self.before,
            Some(last) => match self.steps.get(last) {
                Some(step) => step.after,
                None => return false,
            },
        };
        text.starts_with(report.as_bytes())
    }

    // Whether it ends with the last report.
    fn ends_at_last(&self, text: &[u8]) -> bool {
        match self.steps.last() {
            Some(step) => text.ends_with(step.after.as_bytes()),
            None => false,
        }
    }

    // To how many of the requests these are the answers, or none where one is wrong.
    fn answered(&self, output: &[u8]) -> Option<usize> {
        let mut rest = output;
        for (count, step) in self.steps.iter().enumerate() {
            match rest.strip_prefix(step.wanted.as_bytes()) {
                Some(more) => rest = more,
                None => return rest.is_empty().then_some(count),
            }
        }
        rest.is_empty().then_some(self.steps.len())
    }
}

// All requests, one after the other, between two reports.
fn again(alloc: Global, report: &str, steps: &[Step<'_>]) -> Result<String, AllocError> {
    let mut text = String::from_str(alloc, report)?;
    for step in steps {
        text.push_str(step.given)?;
    }
    text.push_str(report)?;
    Ok(text)
}

// How many of the requests were answered before the disk failed, or none where the files were not opened.
fn count_of(stop: &impl Abort, batch: Batch<'_>, end: End, output: &[u8]) -> Option<usize> {
    let is_caused = matches!(end, End::Done | End::Disk | End::Unopened);
    expect(stop, is_caused, "a fault that is not the disk's");
    if matches!(end, End::Unopened) {
        return None;
    }
    let count = batch.answered(output);
    expect(stop, count.is_some(), "a wrong answer");
    count
}

// Ends the test unless the report is the one after so many requests, or after one more, and that of no
// request where the files were not opened; and unless the last report, when all requests are made again,
// is that of a desk that was never stopped.
fn expect_goes_on<D: TestDesk>(
    alloc: Global,
    stop: &impl Abort,
    desk: &mut D,
    batch: Batch<'_>,
    count: Option<usize>,
    output: &mut Vec<u8>,
) {
    let end = desk.ask(alloc, batch.rules, batch.again, output);
    let reported = output.as_slice();
    let is_left = match count {
        Some(count) => {
            batch.begins_after(reported, count)
                || batch.begins_after(reported, count.saturating_add(1))
        }
        None => batch.begins_after(reported, 0),
    };
    expect(stop, is_left, "what stands after a stop");
    let is_done = matches!(end, End::Done) && batch.ends_at_last(reported);
    expect(stop, is_done, "the requests made again");
}

// Asks files of which one fails; then the program stops, and the machine: whether a file had failed.
fn stops<D: StoppedDesk + Drop>(
    alloc: Global,
    stop: &impl Abort,
    desk: &mut D,
    batch: Batch<'_>,
    output: &mut Vec<u8>,
) -> bool {
    let end = desk.ask(alloc, batch.rules, batch.first, output);
    let count = count_of(stop, batch, end, output.as_slice());
    let mut written = found(stop, desk.copied(alloc, u64::MAX, true), "no copy");
    expect_goes_on(alloc, stop, &mut written, batch, count, output);
    drop(written);
    let failed = desk.stop_machine();
    let is_caused = failed || count == Some(batch.steps.len());
    expect(stop, is_caused, "a fault without a cause");
    expect_goes_on(alloc, stop, desk, batch, count, output);
    failed
}

// Fails from each call of a file on in turn, until no call is left.
fn expect_stops_of<D: StoppedDesk + Drop, R: Abort>(
    alloc: Global,
    stop: &R,
    batch: Batch<'_>,
    is_log: bool,
    output: &mut Vec<u8>,
) {
    for calls in 0..2_000u64 {
        let mut desk = D::failing(alloc, calls, is_log);
        if !stops(alloc, stop, &mut desk, batch, output) {
            return;
        }
    }
    stop.panic("each run had too few calls")
}

// The same of a list. Each file has a test of its own, since a test has a minute.
fn expect_stops<D: StoppedDesk + Drop, R: Abort>(
    alloc: Global,
    stop: &R,
    list: &str,
    is_log: bool,
) {
    let rules = Precedence::none(alloc);
    let mut steps = Vec::new(alloc);
    made(stop, add_steps(stop, list, &mut steps));
    let [told, requests @ ..] = steps.as_slice() else {
        stop.panic("no cases")
    };
    let again = made(stop, again(alloc, told.given, requests));
    let first = again.as_str().strip_prefix(told.given).unwrap_or("");
    let batch = Batch {
        before: told.wanted,
        steps: requests,
        rules: &rules,
        first: first.strip_suffix(told.given).unwrap_or(""),
        again: again.as_str(),
    };
    let mut output = Vec::new(alloc);
    expect_stops_of::<D, R>(alloc, stop, batch, is_log, &mut output);
}

#[test]
fn stops_of_the_log(rt: HostRuntime) {
    expect_stops::<FileDesk, HostRuntime>(rt.alloc(), &rt, STEPS, true);
}

#[test]
fn stops_of_the_database(rt: HostRuntime) {
    expect_stops::<FileDesk, HostRuntime>(rt.alloc(), &rt, STEPS, false);
}

// Migrates files of which one fails, stops the machine, and migrates what is left: whether a disk failed.
fn migrates<D: StoppedDesk>(
    alloc: Global,
    stop: &impl Abort,
    desk: &mut D,
    rules: &Precedence,
    output: &mut Vec<u8>,
) -> bool {
    let first = desk.ask(alloc, rules, "migrate", output);
    let failed = desk.stop_machine();
    let second = desk.ask(alloc, rules, "migrate", output);
    let is_caused = failed || matches!(first, End::Done);
    expect(stop, is_caused, "a fault without a cause");
    expect_asked(
        stop,
        second,
        output.as_slice(),
        "version 2\n",
        "what is left",
    );
    failed
}

// Fails from each call of a file on in turn, until no call is left: the log, or the database. The desk in
// what is left goes on.
fn expect_migrations<D: StoppedDesk + Drop, R: Abort>(
    alloc: Global,
    stop: &R,
    given: &D,
    rules: &Precedence,
    is_log: bool,
    output: &mut Vec<u8>,
) {
    for calls in 0..1_000u64 {
        let mut files = found(stop, given.copied(alloc, calls, is_log), "no files");
        let failed = migrates(alloc, stop, &mut files, rules, output);
        expect_list(alloc, stop, &mut Refusals::none(), &mut files, MIGRATED);
        if !failed {
            return;
        }
    }
    stop.panic("each run had too few calls")
}

// Of files that the first call of a list makes.
fn expect_migrations_of<D: StoppedDesk + Drop, R: Abort>(alloc: Global, stop: &R, list: &str) {
    let rules = Precedence::none(alloc);
    let mut steps = Vec::new(alloc);
    made(stop, add_steps(stop, list, &mut steps));
    let [_, first, ..] = steps.as_slice() else {
        stop.panic("no files of version 1")
    };
    let mut output = Vec::new(alloc);
    let mut given: D = made(stop, D::open(alloc));
    given.ask(alloc, &rules, first.given, &mut output);
    expect_migrations(alloc, stop, &given, &rules, true, &mut output);
    expect_migrations(alloc, stop, &given, &rules, false, &mut output);
}

#[test]
fn migrations(rt: HostRuntime) {
    expect_migrations_of::<FileDesk, HostRuntime>(rt.alloc(), &rt, FIRST_FILES);
}
