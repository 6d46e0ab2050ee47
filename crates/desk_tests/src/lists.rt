//! Lists of requests with their answers and what is reported between them, of any desk, while memory may
//! be refused once: then what is reported is what was reported before the request, or what is to be after
//! it, whichever the fault says, and made again it is answered as it is to be.
//!
//! A list is a text of cases. The first says what is asked for a report, what is reported of a new desk, and
//! the text of the rules that all requests are asked under; each other one is a request, with its answer and
//! the report after it, where one is told: the report itself, or that it is as before.

pub mod drain;
pub mod exchanges;
pub mod questions;
pub mod steps;
pub mod tables;
pub mod versions;

use crate::asking::{End, Taken, expect_asked};
use crate::cases::{Step, add_steps, expect};
use crate::desks::TestDesk;
use crate::refusals::Refusals;
use price_rules::precedence::{Precedence, PrecedenceFault};
use std::alloc::Global;
use std::process::Abort;

// A desk that is asked, the rules, what is asked for a report, the report from before a request, and what was
// answered last.
#[derive(Drop)]
struct Asked<'d, 'r, 'a, D: TestDesk> {
    alloc: Global,
    refusals: &'d mut Refusals,
    desk: &'d mut D,
    rules: &'r Precedence,
    report: &'a str,
    before: &'a str,
    output: Vec<u8>,
}

// The rules of a text; where memory is refused they are read once more.
fn rules_of(
    alloc: Global,
    stop: &impl Abort,
    refusals: &mut Refusals,
    text: &str,
) -> Result<Precedence, PrecedenceFault> {
    match Precedence::read(alloc, text) {
        Err(PrecedenceFault::Memory) => {
            refusals.meet(stop);
            Precedence::read(alloc, text)
        }
        rules => rules,
    }
}

// Whether a report is the one from before a request, or the one after it if that has taken effect.
fn is_of(taken: Taken, reported: &[u8], before: &str, after: &str) -> bool {
    match taken {
        Taken::Yes => reported == after.as_bytes(),
        Taken::No => reported == before.as_bytes(),
        Taken::Either => reported == before.as_bytes() || reported == after.as_bytes(),
    }
}

impl<'d, 'r, 'a, D: TestDesk> Asked<'d, 'r, 'a, D> {
    fn ask(&mut self, request: &str) -> End {
        self.desk
            .ask(self.alloc, self.rules, request, &mut self.output)
    }

    // Ends the test unless a request that lacked memory left answers that begin as they are to be, and the
    // report is as the fault says.
    fn expect_report(
        &mut self,
        stop: &impl Abort,
        taken: Taken,
        wanted: &str,
        after: &str,
        name: &str,
    ) {
        let is_begun = wanted.as_bytes().starts_with(self.output.as_slice());
        self.ask(self.report);
        let is_so = is_of(taken, self.output.as_slice(), self.before, after);
        expect(stop, is_begun && is_so, name);
    }

    // Ends the test unless a request is answered so, with that report after it.
    fn expect_answers(
        &mut self,
        stop: &impl Abort,
        given: &str,
        wanted: &str,
        after: &str,
        name: &str,
    ) {
        let mut ended = self.ask(given);
        if let Some(taken) = self.refusals.met(stop, ended) {
            self.expect_report(stop, taken, wanted, after, name);
            ended = self.ask(given);
        }
        expect_asked(stop, ended, self.output.as_slice(), wanted, name);
    }

    // The same of a request as its step says, and of the report after it.
    fn expect_step(&mut self, stop: &impl Abort, step: &Step<'a>) {
        self.expect_answers(stop, step.given, step.wanted, step.after, step.name);
        self.before = step.after;
        if !step.after.is_empty() {
            self.expect_answers(stop, self.report, step.after, step.after, step.name);
        }
    }

    // Asks requests one after the other.
    fn expect_steps(&mut self, stop: &impl Abort, steps: &[Step<'a>]) {
        for step in steps {
            self.expect_step(stop, step);
            if self.refusals.are_over() {
                return;
            }
        }
    }
}

// The same under the rules of a list and between its reports.
fn expect_requests<'a, D: TestDesk>(
    alloc: Global,
    stop: &impl Abort,
    refusals: &'a mut Refusals,
    desk: &'a mut D,
    told: Step<'a>,
    requests: &[Step<'a>],
) {
    let rules = rules_of(alloc, stop, refusals, told.after);
    let rules = refusals.own(stop, rules);
    let mut asked = Asked {
        alloc,
        refusals,
        desk,
        rules: &rules,
        report: told.given,
        before: told.wanted,
        output: Vec::new(alloc),
    };
    asked.expect_steps(stop, requests);
}

/// Asks all requests of a list.
pub fn expect_list<D: TestDesk>(
    alloc: Global,
    stop: &impl Abort,
    refusals: &mut Refusals,
    desk: &mut D,
    list: &str,
) {
    let mut steps = Vec::new(alloc);
    refusals.own(stop, add_steps(stop, list, &mut steps));
    match steps.as_slice() {
        [told, requests @ ..] => expect_requests(alloc, stop, refusals, desk, *told, requests),
        [] => stop.panic("no cases"),
    }
}
