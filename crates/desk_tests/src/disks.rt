//! Files on disks in memory, of which one may fail from some call on.

use sqlite::{Files, Options};
use sqlite_disk::{Crash, Disk, Fuse, Memory};
use std::alloc::Global;
use std::io;

/// So few pages in memory, and so short a log, that pages of a transaction go to the log before its
/// commit, and the log is copied into the database file before the next one.
pub const OPTIONS: Options = Options {
    cache_pages: 8,
    spill_pages: 8,
    checkpoint_frames: 8,
    seed: 1,
};

/// Files in memory. All tests have them of this type, since each further one is proved anew.
pub type TestFiles = Files<Fuse<Memory>>;

fn fused(log: Memory, db: Memory, calls: u64, is_log: bool) -> TestFiles {
    let (log_calls, db_calls) = if is_log {
        (calls, u64::MAX)
    } else {
        (u64::MAX, calls)
    };
    Files {
        log: Fuse::new(log, log_calls),
        db: Fuse::new(db, db_calls),
    }
}

/// New files of which one fails each call from that one on, the log or the database.
pub fn failing_files(alloc: Global, calls: u64, is_log: bool) -> TestFiles {
    fused(Memory::new(alloc), Memory::new(alloc), calls, is_log)
}

fn copy_of(alloc: Global, disk: &Fuse<Memory>) -> io::Result<Memory> {
    let mut copy = Memory::new(alloc);
    copy.write_at(0, disk.inner().bytes())?;
    copy.sync()?;
    Ok(copy)
}

/// What was written to files, whether or not it was synced, in files of which one fails each call from
/// that one on, the log or the database.
pub fn copied(alloc: Global, files: &TestFiles, calls: u64, is_log: bool) -> io::Result<TestFiles> {
    let log = copy_of(alloc, &files.log)?;
    let db = copy_of(alloc, &files.db)?;
    Ok(fused(log, db, calls, is_log))
}

// Whether a disk has passed on all the calls that it was made for.
fn is_blown(disk: &mut Fuse<Memory>) -> bool {
    !disk.may_be_used() || disk.len().is_err()
}

/// Stops the machine: what was not synced is lost. Says whether a file had failed before.
pub fn stop_machine(files: &mut TestFiles) -> bool {
    let failed = is_blown(&mut files.log) || is_blown(&mut files.db);
    files.log.crash();
    files.db.crash();
    failed
}
