//! The database file, looked at before it is opened.

ghost use Rattle.std.specs.Prelude.{◌≡◌, ◌⊎◌, ◌↔◌, IfErr, IsTrue, OnOk};
ghost use Rattle.program_databases.specs.Found.{IsEmpty, IsMissing, IsRefused, IsStray, store_creation};
ghost use Rattle.onix_records.specs.declared.faults.StoreFault.TheVariants.{Unusable};

use desk_store::Creation;
use onix_records::StoreFault;
use program_desks::kept_desks;
use std::fs::Metadata;
use std::io::{Error, ErrorKind, Write};

/// Of a file of more bytes it is said that it is checked, since that takes some seconds.
const LARGE: u64 = 50_000_000;

// In which databases a desk is created.
pub(crate) fn creation_of(creation: kept_desks::Creation) -> Creation
    ensures { result ≡ store_creation creation }
{
    match creation {
        kept_desks::Creation::Anywhere => Creation::Anywhere,
        kept_desks::Creation::InEmpty => Creation::InEmpty,
        kept_desks::Creation::Never => Creation::Never,
    }
}

// Whether there is no such file.
fn is_missing(found: &Result<Metadata, Error>) -> bool
    ensures { IsTrue result ↔ IsMissing found.now }
{
    match found {
        Ok(_) => false,
        Err(error) => error.kind() == ErrorKind::NotFound,
    }
}

// Whether a file has no byte.
fn is_empty(found: &Result<Metadata, Error>) -> bool
    ensures { IsTrue result ↔ IsEmpty found.now }
{
    match found {
        Ok(file) => file.len() == 0,
        Err(_) => false,
    }
}

// Whether a file is missing that has to be there, or has no byte where a desk has to be in it.
fn is_refused(creation: Creation, found: &Result<Metadata, Error>) -> bool
    ensures { IsTrue result ↔ IsRefused creation found.now }
{
    match creation {
        Creation::Anywhere => false,
        Creation::InEmpty => is_missing(found),
        Creation::Never => is_missing(found) || is_empty(found),
    }
}

// Whether a file has one byte, which no opening under way has left.
fn is_stray(found: &Result<Metadata, Error>, log: &Result<Metadata, Error>) -> bool
    ensures { IsTrue result ↔ IsStray found.now log.now }
{
    let Ok(file) = found else {
        return false;
    };
    match log {
        Ok(beside) => file.len() == 1 && beside.len() == 0,
        Err(_) => file.len() == 1,
    }
}

// Says that a large file is checked, and how long that takes on a machine of no great speed.
fn announce<E: Write>(name: &str, bytes: u64, errors: &mut E) {
    if bytes > LARGE {
        let size = bytes / 1_000_000;
        let seconds = bytes / LARGE;
        let _ = write!(
            errors,
            "onixdesk: checking {name}, {size} MB: {seconds} s or so\n"
        );
    }
}

/// Looks at the database file before it is opened, by what was found of it and of its log: a desk
/// reads and checks all of it. A line may say so of one of more than 50 MB.
/// `Unusable` where the file has to be there and is missing, or has no byte and a desk has to be in
/// it, so that none is made; and where it is of one byte that no opening has left, since it would be
/// written over.
pub fn look_at<E: Write>(
    is_shown: bool,
    name: &str,
    creation: Creation,
    found: &Result<Metadata, Error>,
    log: &Result<Metadata, Error>,
    errors: &mut E,
) -> Result<(), StoreFault>
    ensures there { OnOk result (¬ IsRefused creation found.now) }
    ensures own { OnOk result (¬ IsStray found.now log.now) }
    ensures err { IfErr result (λ fault. (fault ≡ Unusable)
        × (IsRefused creation found.now ⊎ IsStray found.now log.now)) }
{
    if is_refused(creation, found) || is_stray(found, log) {
        return Err(StoreFault::Unusable);
    }
    match found {
        Ok(file) if is_shown => announce(name, file.len(), errors),
        _ => {}
    }
    Ok(())
}
