//! A run over FILEs.

ghost use Rattle.std.specs.Prelude.{◌≡◌, ◌≢◌, ◌⊎◌, ◌≤◌, ℕ, List, [], Option, IfErr, IfOk, codes, map, max, true, false};
ghost use Rattle.std.specs.Io.KnownBytes.{Appends};
ghost use Rattle.feed_conversion.specs.Views.{options_view};
ghost use Rattle.program_files.specs.Names.{is_packed};
ghost use Rattle.feed_files.specs.Ends.{IsEnd, IsOfCounted, IsUnconverted, StaysPacked, asking, file_end, is_converted};
ghost use Rattle.feed_files.specs.Runs.{IsUnusable, FilesEnd, outputs, run_asking};

use crate::collected::Collected;
use crate::ended::Ended;
use crate::fault::write_fault;
use crate::notes::{Notes, PREFIX};
use crate::refusal::{RefusedFile, push_packed, push_refusal};
use crate::summary::Summary;
use crate::watched::{Showing, Watched};
use feed_conversion::{Counted, Fault, Options, Outcome, convert};
use program_files::{
    FileFault, MadeFiles, NamedFiles, PartFiles, STANDARD_INPUT, Spool, is_packed, name_of,
};
use std::alloc::{AllocError, Global};
use std::io::{Read, Write};
use std::time::Clock;

/// What a run is asked to do.
#[derive(Clone, Copy)]
pub struct Run<'a> {
    /// How each message is converted.
    pub options: Options<'a>,
    /// The folder that takes the messages, or none where they go to standard output.
    pub folder: Option<&'a str>,
}

// Where a run tells what it does not convert: standard error, and the summary behind its FILEs. Lines
// that cannot be written are lost: there is nowhere left to say so.
#[derive(Drop)]
struct Telling<'a, E> {
    errors: &'a mut E,
    summary: Summary,
}

// Says what ended a FILE.
fn report_fault<E: Write>(alloc: Global, fault: &FileFault, errors: &mut E) -> Ended
    ensures { result ≡ Ended.Fault }
{
    write_fault(alloc, fault, errors);
    Ended::Fault
}

// Says that a FILE cannot be read.
fn report_unread<E: Write>(alloc: Global, known: &RefusedFile<'_>, errors: &mut E) -> Ended
    ensures { result ≡ Ended.Fault }
{
    match known.unread {
        Some(fault) => report_fault(alloc, fault, errors),
        None => {
            let fault = FileFault::new(alloc, known.file, "cannot be read");
            report_fault(alloc, &fault, errors)
        }
    }
}

// Says why a FILE is refused.
fn report_refusal<E: Write>(
    alloc: Global,
    known: &RefusedFile<'_>,
    fault: &Fault,
    errors: &mut E,
) -> Ended
    ensures { (result ≡ Ended.Fault) ⊎ (result ≡ Ended.Refused) }
{
    let mut line = String::new(alloc);
    match push_refusal(&mut line, known, fault) {
        Ok(()) => {
            let _ = errors.write_all(line.as_bytes());
            Ended::Refused
        }
        Err(AllocError) => report_fault(alloc, &FileFault::Memory, errors),
    }
}

// Says what ended the reading of a FILE.
fn report_ended<E: Write>(
    alloc: Global,
    known: &RefusedFile<'_>,
    fault: &Fault,
    errors: &mut E,
) -> Ended
    ensures { IsUnconverted fault.now result }
{
    match fault {
        Fault::Unread(feed_outline::Fault::Document(feed_xml::Fault::Read), _) => {
            report_unread(alloc, known, errors)
        }
        Fault::Unread(feed_outline::Fault::Document(feed_xml::Fault::Memory), _) => {
            report_fault(alloc, &FileFault::Memory, errors)
        }
        Fault::Unread(feed_outline::Fault::Document(feed_xml::Fault::Refused), _) | Fault::Memory =>
            report_fault(alloc, &FileFault::Memory, errors),
        _ => report_refusal(alloc, known, fault, errors),
    }
}

// How a FILE ended that was read so; where what was read could not be kept, that is said.
fn end_of<E: Write>(
    alloc: Global,
    known: &RefusedFile<'_>,
    read: &Result<Counted, Fault>,
    kept: &Option<FileFault>,
    errors: &mut E,
) -> Ended
    ensures ok { IfOk read.now (λ told. IsOfCounted told result) }
    ensures err { IfErr read.now (λ f. IsUnconverted f result) }
{
    match read {
        Ok(told) => Ended::of_converted(*told),
        Err(fault) => match kept {
            Some(kept) => report_fault(alloc, kept, errors),
            None => report_ended(alloc, known, fault, errors),
        },
    }
}

// How a FILE ended of which this was seen and noted, and why a read failed, where one did.
fn end_of_seen<E: Write>(
    alloc: Global,
    notes: &Notes<'_>,
    unread: Option<FileFault>,
    options: &Options<'_>,
    read: Result<Counted, Fault>,
    kept: Option<FileFault>,
    errors: &mut E,
) -> Ended
    ensures ok { IfOk read (λ told. IsOfCounted told result) }
    ensures err { IfErr read (λ f. IsUnconverted f result) }
{
    let known = RefusedFile {
        file: notes.scope.file,
        options,
        notes,
        unread: &unread,
    };
    end_of(alloc, &known, &read, &kept, errors)
}

// Writes the notes of a FILE that was converted, and counts them. Where memory runs out, the
// summary counts less.
fn tell<E: Write>(notes: &Notes<'_>, telling: &mut Telling<'_, E>) {
    let _ = telling.errors.write_all(notes.all.text.as_bytes());
    let _ = telling.summary.add_all(&notes.summary);
}

// Converts a FILE to standard output.
fn convert_out<C: Clock, F: NamedFiles, R: Read, W: Write, E: Write>(
    showing: &Showing<'_, C>,
    file: &str,
    files: &F,
    leave: &F::Leave,
    reader: &mut R,
    options: &Options<'_>,
    output: &mut W,
    telling: &mut Telling<'_, E>,
) -> Ended
    ensures { (written : List ℕ) × Appends (W.contents output.old) (W.contents output.new) written
        × IsEnd (asking (options_view options.now) None) file.now (R.remaining reader.old)
        (file_end result written (F.holds files.now) (F.holds files.now)) }
{
    let alloc = showing.alloc;
    let target = Collected {
        store: Spool::new(alloc, files, leave),
        notes: Notes::new(alloc, file, options),
        fault: None,
    };
    let mut watched = Watched::new(showing, file, reader, &mut *telling.errors);
    let Outcome { target, ended } = convert(alloc, &mut watched, options, target);
    let unread = watched.into_fault();
    let Collected {
        store,
        mut notes,
        fault,
    } = target;
    notes.end(&ended);
    let ended = end_of_seen(alloc, &notes, unread, options, ended, fault, telling.errors);
    if !ended.is_converted() {
        return ended;
    }
    match store.place(output) {
        Ok(()) => {
            tell(&notes, telling);
            ended
        }
        Err(fault) => report_fault(alloc, &fault, telling.errors),
    }
}

// Gives the files of a FILE their names, and says whether they have them.
fn place_parts<F: NamedFiles, E: Write>(
    alloc: Global,
    files: &mut F,
    made: &MadeFiles<F>,
    folder: &str,
    name: &str,
    parts: u32,
    errors: &mut E,
) -> bool {
    match made.place(files, folder, name, parts) {
        Ok(()) => true,
        Err(fault) => {
            write_fault(alloc, &fault, errors);
            false
        }
    }
}

// Converts a FILE into a folder.
fn convert_into<C: Clock, F: NamedFiles, R: Read, E: Write>(
    showing: &Showing<'_, C>,
    file: &str,
    files: &mut F,
    leave: &F::Leave,
    reader: &mut R,
    options: &Options<'_>,
    folder: &str,
    telling: &mut Telling<'_, E>,
) -> Ended
    ensures { IsEnd (asking (options_view options.now) (Some folder.now)) file.now
        (R.remaining reader.old) (file_end result [] (F.holds files.old) (F.holds files.new)) }
{
    let alloc = showing.alloc;
    let name = name_of(file);
    let target = Collected {
        store: PartFiles::new(alloc, files, leave, folder, name),
        notes: Notes::new(alloc, file, options),
        fault: None,
    };
    let mut watched = Watched::new(showing, file, reader, &mut *telling.errors);
    let Outcome { target, ended } = convert(alloc, &mut watched, options, target);
    let unread = watched.into_fault();
    let Collected {
        store,
        mut notes,
        fault,
    } = target;
    notes.end(&ended);
    let errors = &mut *telling.errors;
    let read = end_of_seen(alloc, &notes, unread, options, ended, fault, errors);
    let made = store.finish();
    if !read.is_converted() {
        made.discard(files);
        return read;
    }
    let is_placed = place_parts(
        alloc,
        files,
        &made,
        folder,
        name,
        options.choices.parts,
        errors,
    );
    made.discard(files);
    if !is_placed {
        return Ended::Fault;
    }
    tell(&notes, telling);
    read
}

// Says that a FILE is packed.
fn report_packed<E: Write>(alloc: Global, file: &str, errors: &mut E) -> Ended
    ensures { StaysPacked result }
{
    let mut line = String::new(alloc);
    match push_packed(&mut line, file) {
        Ok(()) => {
            let _ = errors.write_all(line.as_bytes());
            Ended::Packed
        }
        Err(AllocError) => report_fault(alloc, &FileFault::Memory, errors),
    }
}

// Converts one FILE.
fn convert_file<C: Clock, F: NamedFiles, R: Read, W: Write, E: Write>(
    showing: &Showing<'_, C>,
    run: &Run<'_>,
    file: &str,
    files: &mut F,
    leave: &F::Leave,
    input: &mut R,
    output: &mut W,
    telling: &mut Telling<'_, E>,
) -> Ended
    ensures end { (bytes : Option (List ℕ)) × (written : List ℕ)
        × (file.now ≡ codes "-" → bytes ≡ R.remaining input.old)
        × (file.now ≢ codes "-" → bytes ≡ F.holds files.old file.now)
        × Appends (W.contents output.old) (W.contents output.new) written
        × IsEnd (run_asking run.now) file.now bytes
        (file_end result written (F.holds files.old) (F.holds files.new)) }
    ensures untouched { file.now ≢ codes "-" → input.new ≡ input.old }
    ensures packed { is_packed file.now ≡ true → StaysPacked result }
{
    let options = &run.options;
    if file == STANDARD_INPUT {
        return match run.folder {
            Some(folder) => convert_into(
                showing, file, files, leave, input, options, folder, telling,
            ),
            None => convert_out(showing, file, files, leave, input, options, output, telling),
        };
    }
    if is_packed(file) {
        return report_packed(showing.alloc, file, telling.errors);
    }
    let mut reader = match files.open(file) {
        Ok(reader) => reader,
        Err(fault) => return report_fault(showing.alloc, &fault, telling.errors),
    };
    let reader = &mut reader;
    match run.folder {
        Some(folder) => convert_into(
            showing, file, files, leave, reader, options, folder, telling,
        ),
        None => convert_out(
            showing, file, files, leave, reader, options, output, telling,
        ),
    }
}

// Writes the summary of a run. Where memory runs out, it is lost.
fn write_summary<E: Write>(alloc: Global, summary: &Summary, errors: &mut E) {
    let mut text = String::new(alloc);
    if let Ok(()) = summary.push_lines(PREFIX, &mut text) {
        let _ = errors.write_all(text.as_bytes());
    }
}

fn greater(one: u8, other: u8) -> u8
    ensures is { result ≡ max one other }
    ensures most { one ≤ 3 → other ≤ 3 → result ≤ 3 }
{
    if one < other { other } else { one }
}

// Whether the folder that is to take messages is one; a line says so where it is none.
fn has_folder<F: NamedFiles, E: Write>(
    alloc: Global,
    run: &Run<'_>,
    files: &F,
    errors: &mut E,
) -> bool
    ensures { result ≡ false → IsUnusable (F.lacks_folder files.now) (run_asking run.now) }
{
    match run.folder {
        Some(folder) if !files.is_folder(folder) => {
            write_fault(alloc, &FileFault::new(alloc, folder, "no folder"), errors);
            false
        }
        _ => true,
    }
}

/// Converts each FILE in turn, where `-` is standard input and each other one is opened by its
/// name, and gives the status: 0, or 1 where one was refused or a wrong product left out, or 3
/// where a file could not be read or written or memory ran out, which outweighs 1. What one ends
/// in does not keep the others from being converted.
pub fn convert_files<C: Clock, F: NamedFiles, R: Read, W: Write, E: Write>(
    showing: &Showing<'_, C>,
    run: &Run<'_>,
    names: &[&str],
    files: &mut F,
    input: &mut R,
    output: &mut W,
    errors: &mut E,
) -> u8
    ensures end { FilesEnd (run_asking run.now) (R.remaining input.old)
        (F.holds files.old) (F.holds files.new) (F.lacks_folder files.old)
        (map (λ name. name.now) names.now)
        (λ ends. Appends (W.contents output.old) (W.contents output.new) (outputs ends)) result }
    ensures most { result ≤ 3 }
{
    let alloc = showing.alloc;
    if !has_folder(alloc, run, files, errors) {
        return 3;
    }
    let leave = files.leave();
    let mut telling = Telling {
        errors,
        summary: Summary::new(alloc),
    };
    let mut status = 0;
    for file in names {
        let ended = convert_file(
            showing,
            run,
            file,
            files,
            &leave,
            input,
            output,
            &mut telling,
        );
        status = greater(status, ended.status());
    }
    let Telling { errors, summary } = telling;
    write_summary(alloc, &summary, errors);
    status
}
