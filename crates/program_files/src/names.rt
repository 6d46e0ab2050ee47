//! Names of files.

ghost use Rattle.std.specs.Prelude.{◌≡◌, ◌<◌, ◌≤◌, ◌-◌, ◌==◌, ◌++◌, ◌∷◌, [], IfOk, OnOk, length, map, not, slice_index, string_bytes};
ghost use Rattle.std.specs.Char.{to_ascii_lowercase};
ghost use Rattle.std.specs.List.{repeat, suffix_len};
ghost use Rattle.std.specs.Fmt.{decimal};
ghost use Rattle.program_files.specs.Names.{digit_count, ends_in_slash, ends_so, is_packed, is_slash, last_part, name_of, padded, part_mark, part_name, path_in, without_extension, without_slashes};

use std::alloc::{AllocError, Global};

/// The FILE that stands for standard input.
pub const STANDARD_INPUT: &str = "-";

// Where a path ends without the slashes behind it.
fn end_of(path: &[u8]) -> usize
    ensures is { result ≡ length path.now - suffix_len is_slash path.now }
    ensures within { result ≤ length path.now }
    ensures next { result < length path.now → slice_index path.now result ≡ 47 }
{
    let mut end = 0;
    for (at, byte) in path.iter().enumerate() {
        if *byte != b'/' {
            end = at + 1;
        }
    }
    end
}

// Where that begins which stands behind the last such byte.
fn behind_last(text: &[u8], byte: u8) -> usize
    ensures is { result ≡ length text.now - suffix_len (λ c. not (c == byte)) text.now }
    ensures within { result ≤ length text.now }
    ensures before { 0 < result → slice_index text.now (result - 1) ≡ byte }
{
    let mut start = 0;
    for (at, other) in text.iter().enumerate() {
        if *other == byte {
            start = at + 1;
        }
    }
    start
}

// A path without the slashes behind it.
fn without_slashes(path: &[u8]) -> &[u8]
    ensures { result.now ≡ without_slashes path.entry.now }
{
    &path[..end_of(path)]
}

// Whether a path ends so, in capital letters or small ones. The ending has small letters.
fn ends_so(path: &[u8], ending: &[u8]) -> bool
    requires { map to_ascii_lowercase ending.now ≡ ending.now }
    ensures { result ≡ ends_so path.now ending.now }
{
    let start = path.len().saturating_sub(ending.len());
    path[start..].eq_ignore_ascii_case(ending)
}

/// Whether a FILE is packed by its name: it ends in `.gz` or `.zip`, in capital letters or small
/// ones.
pub fn is_packed(file: &str) -> bool
    ensures { result ≡ is_packed file.now }
{
    let path = without_slashes(file.as_bytes());
    ends_so(path, b".gz") || ends_so(path, b".zip")
}

// The last part of a path, without slashes behind it.
fn last_part(path: &str) -> &str
    ensures { result.now ≡ last_part path.entry.now }
{
    let path = &path[..end_of(path.as_bytes())];
    &path[behind_last(path.as_bytes(), b'/')..]
}

// A name without its last extension.
fn without_extension(name: &str) -> &str
    ensures { result.now ≡ without_extension name.entry.now }
{
    let behind = behind_last(name.as_bytes(), b'.');
    if behind > 1 && behind < name.len() {
        &name[..behind - 1]
    } else {
        name
    }
}

/// The NAME of the messages of a FILE: its last part without the last extension, or `message` for
/// standard input.
pub fn name_of(file: &str) -> &str
    ensures { result.now ≡ name_of file.entry.now }
{
    if file == STANDARD_INPUT {
        "message"
    } else {
        without_extension(last_part(file))
    }
}

// The digits of a number.
fn decimal(alloc: Global, number: u32) -> Result<String, AllocError>
    ensures { IfOk result (λ text. string_bytes text ≡ decimal number) }
{
    format!(in alloc; "{number}")
}

// How many digits the numbers of so many parts have in names: two, or as many as the greatest has.
fn digit_count(alloc: Global, parts: u32) -> Result<usize, AllocError>
    ensures { IfOk result (λ count. count ≡ digit_count parts) }
{
    Ok(decimal(alloc, parts)?.len().max(2))
}

// Adds so many zeros.
fn push_zeros(text: &mut String, count: usize) -> Result<(), AllocError>
    ensures { OnOk result
        (string_bytes text.new ≡ string_bytes text.old ++ repeat count (48 ∷ [])) }
{
    for _ in 0..count {
        text.push_str("0")?;
    }
    Ok(())
}

// Adds a number with so many digits at least.
fn push_number(
    alloc: Global,
    text: &mut String,
    number: u32,
    width: usize,
) -> Result<(), AllocError>
    ensures { OnOk result (string_bytes text.new ≡ string_bytes text.old ++ padded width number) }
{
    let digits = decimal(alloc, number)?;
    push_zeros(text, width.saturating_sub(digits.len()))?;
    text.push_str(digits.as_str())
}

// Adds what stands in a name for one part of several.
fn push_mark(alloc: Global, text: &mut String, part: u32, parts: u32) -> Result<(), AllocError>
    ensures { OnOk result (string_bytes text.new ≡ string_bytes text.old ++ part_mark part parts) }
{
    if parts > 1 {
        let width = digit_count(alloc, parts)?;
        text.push_str(".part-")?;
        push_number(alloc, text, part, width)?;
    }
    Ok(())
}

/// The name of the file of a part, which is the only one of its message or one of several.
pub(crate) fn part_name(
    alloc: Global,
    name: &str,
    part: u32,
    parts: u32,
) -> Result<String, AllocError>
    ensures { IfOk result (λ text. string_bytes text ≡ part_name name.now part parts) }
{
    let mut text = String::from_str(alloc, name)?;
    push_mark(alloc, &mut text, part, parts)?;
    text.push_str(".csv")?;
    Ok(text)
}

// Whether a folder ends in a slash.
fn ends_in_slash(folder: &str) -> bool
    ensures { result ≡ ends_in_slash folder.now }
{
    match folder.as_bytes() {
        [.., last] => *last == b'/',
        [] => false,
    }
}

/// The path of a file in a folder, of which `.` is the one that the program runs in.
pub(crate) fn path_in(alloc: Global, folder: &str, name: &str) -> Result<String, AllocError>
    ensures { IfOk result (λ path. string_bytes path ≡ path_in folder.now name.now) }
{
    if folder == "." {
        return String::from_str(alloc, name);
    }
    let mut path = String::from_str(alloc, folder)?;
    if !ends_in_slash(folder) {
        path.push_str("/")?;
    }
    path.push_str(name)?;
    Ok(path)
}
