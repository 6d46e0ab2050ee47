//! The lists of requests, of desks of all kinds, and the calls that are made of files alone.
//! `tests/refused-memory` refuses each request for memory of these tests in turn.

use crate::cases::{expect, made};
use crate::desks::{TestDesk, opened};
use crate::files::FileDesk;
use crate::lists::drain::{DRAIN, forty};
use crate::lists::exchanges::EXCHANGES;
use crate::lists::expect_list;
use crate::lists::questions::QUESTIONS;
use crate::lists::steps::STEPS;
use crate::lists::tables::DRAINED_ROWS;
use crate::lists::versions::{FIRST_FILES, MIGRATION};
use crate::refusals::{Refusals, are_chosen};
use desk_memory::MemoryDesk;
use desk_store::DeskStore;
use sqlite::MemStore;
use std::alloc::Global;
use std::process::Abort;
use std::rt::Env;

// Asks a new desk a list, where it is chosen: whether it is.
fn ask_list<D: TestDesk + Drop, R: Abort + Env>(
    alloc: Global,
    rt: &R,
    name: &str,
    list: &str,
) -> bool {
    if !are_chosen(rt, name) {
        return false;
    }
    let mut met = Refusals::of(rt);
    let mut desk: D = opened(alloc, rt, &mut met);
    expect_list(alloc, rt, &mut met, &mut desk, list);
    true
}

// The same of a list behind another one, in which no memory is refused.
fn ask_behind<D: TestDesk + Drop, R: Abort + Env>(
    alloc: Global,
    rt: &R,
    first: &str,
    name: &str,
    list: &str,
) -> bool {
    if !are_chosen(rt, name) {
        return false;
    }
    let mut desk: D = opened(alloc, rt, &mut Refusals::none());
    expect_list(alloc, rt, &mut Refusals::none(), &mut desk, first);
    expect_list(alloc, rt, &mut Refusals::of(rt), &mut desk, list);
    true
}

// The same behind the forty that wait.
fn ask_behind_forty<D: TestDesk + Drop, R: Abort + Env>(
    alloc: Global,
    rt: &R,
    name: &str,
    list: &str,
) -> bool {
    if !are_chosen(rt, name) {
        return false;
    }
    let first = made(rt, forty(alloc));
    ask_behind::<D, R>(alloc, rt, first.as_str(), name, list)
}

// Asks new desks of a kind the lists that are chosen.
fn ask_lists<D: TestDesk + Drop, R: Abort + Env>(alloc: Global, rt: &R) {
    let steps = ask_list::<D, R>(alloc, rt, "steps", STEPS);
    let questions = ask_list::<D, R>(alloc, rt, "questions", QUESTIONS);
    let exchanges = ask_list::<D, R>(alloc, rt, "exchanges", EXCHANGES);
    let drain = ask_behind_forty::<D, R>(alloc, rt, "drain", DRAIN);
    let is_one = steps | questions | exchanges | drain;
    expect(rt, is_one, "no cases of this name");
}

#[test]
fn desk_in_memory(rt: HostRuntime) {
    ask_lists::<MemoryDesk, HostRuntime>(rt.alloc(), &rt);
}

#[test]
fn tables_in_memory(rt: HostRuntime) {
    ask_lists::<DeskStore<MemStore>, HostRuntime>(rt.alloc(), &rt);
}

#[test]
fn desk_in_files(rt: HostRuntime) {
    ask_lists::<FileDesk, HostRuntime>(rt.alloc(), &rt);
}

// The lists of calls that are made of files alone.
fn make_calls<D: TestDesk + Drop, R: Abort + Env>(alloc: Global, rt: &R) {
    let migration = ask_behind::<D, R>(alloc, rt, FIRST_FILES, "migration", MIGRATION);
    let rows = ask_behind_forty::<D, R>(alloc, rt, "rows", DRAINED_ROWS);
    expect(rt, migration | rows, "no cases of this name");
}

#[test]
fn tables_in_files(rt: HostRuntime) {
    make_calls::<FileDesk, HostRuntime>(rt.alloc(), &rt);
}
