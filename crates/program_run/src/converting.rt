//! The command `convert`.

ghost use Rattle.std.specs.Prelude.{◌≡◌, ◌≤◌, option_map};
ghost use Rattle.std.specs.Io.KnownBytes.{Appends};
ghost use Rattle.program_words.specs.ConvertWords.{asked_view};
ghost use Rattle.program_run.specs.ConvertEnds.{ConvertEnds, ConvertsBy};

use feed_conversion::Options;
use feed_files::{Run, Showing, convert_files};
use feed_mapping::Choices;
use feed_terms::table::Terms;
use program_commands::streams::Streams;
use program_files::NamedFiles;
use program_rules::terms::open_terms;
use program_words::convert_words::Conversion;
use std::alloc::Global;
use std::io::{Read, Write};
use std::time::Clock;

// A copy of what is chosen, field by field, since the prover has no rule for one that is moved out
// of a struct that owns memory.
fn copied<'a>(choices: &Choices<'a>) -> Choices<'a>
    ensures { result ≡ choices.now }
{
    Choices {
        parts: choices.parts,
        number: choices.number,
        offset: choices.offset,
        sender: choices.sender,
        addressee: choices.addressee,
        supplier: choices.supplier,
        id_type: choices.id_type,
    }
}

// Converts FILEs by these terms or by none.
fn convert_by<C: Clock, F: NamedFiles, R: Read, W: Write, E: Write>(
    alloc: Global,
    clock: &C,
    conversion: &Conversion<'_>,
    terms: Option<&Terms>,
    files: &mut F,
    streams: &mut Streams<R, W, E>,
) -> u8
    ensures status { result ≤ 3 }
    ensures end { ConvertsBy (F.holds files.old) (F.holds files.new)
        (F.lacks_folder files.old) (R.remaining streams.old.input)
        (Appends (W.contents streams.old.output) (W.contents streams.new.output))
        (asked_view conversion.now) (option_map (λ terms. terms.now) terms.entry) result }
{
    let run = Run {
        options: Options {
            choices: copied(&conversion.options.choices),
            wrong: conversion.options.wrong,
            terms,
        },
        folder: conversion.folder,
    };
    let showing = Showing {
        alloc,
        clock,
        is_shown: streams.errors.is_terminal,
    };
    let names = conversion.files.as_slice();
    convert_files(
        &showing,
        &run,
        names,
        files,
        &mut streams.input,
        &mut streams.output,
        &mut streams.errors.writer,
    )
}

/// Converts FILEs, by the terms of a file where one is named. Where there are no terms in that file,
/// that is reported, and no FILE is opened.
pub(crate) fn convert<C: Clock, F: NamedFiles, R: Read, W: Write, E: Write>(
    alloc: Global,
    clock: &C,
    conversion: &Conversion<'_>,
    files: &mut F,
    streams: &mut Streams<R, W, E>,
) -> u8
    ensures status { result ≤ 3 }
    ensures end { ConvertEnds (F.holds files.old) (F.holds files.new)
        (F.lacks_folder files.old) (R.remaining streams.old.input)
        (Appends (W.contents streams.old.output) (W.contents streams.new.output))
        (asked_view conversion.now) result }
{
    let Some(name) = conversion.terms else {
        return convert_by(alloc, clock, conversion, None, files, streams);
    };
    match open_terms(alloc, files, name, &mut streams.errors.writer) {
        Ok(terms) => convert_by(alloc, clock, conversion, Some(&terms), files, streams),
        Err(status) => status,
    }
}
