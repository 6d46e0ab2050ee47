//! The desk in the file of a path, and in two files on disks of the caller's own, as a program has it that
//! uses the library: opened, asked and closed, and opened again. The program itself opens files that it is
//! handed, under options of its own.

use crate::asking::expect_asked;
use crate::cases::expect;
use crate::disks::failing_files;
use crate::files::{ask_in_files, close};
use desk_store::{DeskStore, MigrateAnswer, migrate, migrate_files};
use price_rules::precedence::Precedence;
use sqlite::{FileStore, Files, Unknown};
use sqlite_disk::{Disk, Start};
use std::alloc::Global;
use std::process::Abort;

// In the folder that the test is run in.
const PATH: &str = "shop.db";

fn ask_and_close<D: Disk + Drop>(
    alloc: Global,
    stop: &impl Abort,
    mut desk: DeskStore<FileStore<D>>,
    request: &str,
    answers: &str,
) -> Files<D> {
    let rules = Precedence::none(alloc);
    let mut output = Vec::new(alloc);
    let ended = ask_in_files(alloc, &mut desk, &rules, request, &mut output);
    expect_asked(stop, ended, output.as_slice(), answers, request);
    let (files, is_closed) = close(desk);
    expect(stop, is_closed, "a desk that does not close");
    files
}

fn ask<S: Start>(rt: &HostRuntime, stop: &impl Abort, start: S, request: &str, answers: &str) {
    match DeskStore::open(rt, PATH, start) {
        Ok(desk) => drop(ask_and_close(rt.alloc(), stop, desk, request, answers)),
        Err(_) => stop.panic("a desk that does not open"),
    }
}

#[test]
fn desk_at_a_path(rt: HostRuntime) {
    let agreement = "Agree,north,06,4012345000009,06,5012345678900,1\n";
    ask(&rt, &rt, Unknown, agreement, "agreed,north,1\n");
    let report = "gaps,north,first=1,next=1,greatest=,held=0,missing=0\n";
    ask(&rt, &rt, Unknown, "AskGaps,north\n", report);
    match migrate(&rt, PATH, Unknown) {
        Ok((answer, _)) => {
            let is_two = matches!(answer, MigrateAnswer::AlreadyTwo);
            expect(&rt, is_two, "a desk of another version");
        }
        Err(_) => rt.panic("a desk that is not migrated"),
    }
}

fn ask_in<D: Disk + Drop>(
    alloc: Global,
    stop: &impl Abort,
    files: Files<D>,
    request: &str,
    answers: &str,
) -> Files<D> {
    if !files.may_be_used() {
        stop.panic("files that may not be used");
    }
    match DeskStore::open_files(alloc, files) {
        Ok(desk) => ask_and_close(alloc, stop, desk, request, answers),
        Err(_) => stop.panic("a desk that does not open"),
    }
}

fn migrate_in<D: Disk + Drop>(alloc: Global, stop: &impl Abort, files: Files<D>) -> Files<D> {
    if !files.may_be_used() {
        stop.panic("files that may not be used");
    }
    match migrate_files(alloc, files) {
        Ok((answer, files)) => {
            let is_two = matches!(answer, MigrateAnswer::AlreadyTwo);
            expect(stop, is_two, "a desk of another version");
            files
        }
        Err(_) => stop.panic("a desk that is not migrated"),
    }
}

#[test]
fn desk_in_two_files(rt: HostRuntime) {
    let files = failing_files(rt.alloc(), u64::MAX, true);
    let agreement = "Agree,north,06,4012345000009,06,5012345678900,1\n";
    let files = ask_in(rt.alloc(), &rt, files, agreement, "agreed,north,1\n");
    let files = migrate_in(rt.alloc(), &rt, files);
    let report = "gaps,north,first=1,next=1,greatest=,held=0,missing=0\n";
    ask_in(rt.alloc(), &rt, files, "AskGaps,north\n", report);
}
