//! The reading of documents.

ghost use Rattle.std.specs.Prelude.{◌≡◌, ◌≤◌, ◌<◌, ℕ, List, IfOk, IfErr, OnOk, OnErr, true, false, vec_len, IsErrOf, IfSome, [], length, take, drop, fold, Some, None};
ghost use Rattle.std.specs.Io.KnownBytes.{Consumes, IsAtEnd};
ghost use Rattle.feed_xml.specs.Grammar.{Token};
ghost use Rattle.feed_xml.specs.Pieces.{Begins, Explains, HasNoToken};
ghost use Rattle.feed_xml.specs.View.{piece_view};
ghost use Rattle.feed_xml.specs.private.Places.{IsComplete, section_of, steps};
ghost use Rattle.feed_xml.specs.Documents.{IsDocument};
ghost use Rattle.feed_xml.specs.private.Faults.{IsUnknown, TellsText, TellsWindow};
ghost use Rattle.feed_xml.specs.private.Windows.{Advances, Grows, IsTold, is_whole};
ghost use Rattle.feed_xml.specs.EncodingNames.{IsTextOf, encoding_at};
ghost use Rattle.feed_xml.specs.Encodings.{decoded};
ghost use Rattle.feed_xml.specs.private.Decoders.{decoded_rest, text_left};
ghost use Rattle.feed_xml.specs.Faults.{IsOfEnd, IsOfPlace, IsOfReading, Tells};
ghost use Rattle.feed_xml.specs.Texts.{IsSmall, is_start};
ghost use Rattle.feed_xml.specs.private.Bounds.{IsLargeTag, OpensOneMore};

use crate::bytes::Bytes;
use crate::classes::is_filled;
use crate::encoding_names::{encoding_at, unknown_name};
use crate::encodings::{Encoding, push_decoded};
use crate::fault::Fault;
use crate::pieces::{Piece, read_piece};
use crate::place::Place;
use crate::sink::Sink;
use crate::stop::Stop;
use crate::texts::{Part, follow, is_start};
use std::alloc::Global;
use std::io::Read;

// What the rest begins with at a place.
fn next_piece<'a>(place: &Place, rest: &'a [u8]) -> Result<(Piece<'a>, &'a [u8]), Stop>
    ensures ok { IfOk result (λ x. Begins (section_of place.now.tail) rest.now
        (piece_view x.0) x.1.now) }
    ensures err { IfErr result (λ e. Explains (section_of place.now.tail) e rest.now) }
{
    read_piece(place.section(), rest)
}

// Goes on by what the rest begins with.
fn take_some(place: &mut Place, piece: &Piece<'_>) -> Result<(), Fault>
    ensures ok { OnOk result (steps place.old (piece_view piece.now) ≡ Some place.new) }
    ensures malformed { IsErrOf result Fault.Malformed
        → steps place.old (piece_view piece.now) ≡ None }
    ensures deep { IsErrOf result Fault.TooDeep → OpensOneMore place.old (piece_view piece.now) }
    ensures large { IsErrOf result Fault.LargeTag → IsLargeTag (piece_view piece.now) }
    ensures fault { IfErr result IsOfPlace }
{
    match piece {
        Piece::Markup(token) => place.take_markup(token),
        Piece::Section(run) => place.take_section(run),
        Piece::Text(run) => place.take_text(run),
    }
}

// Tells where what may not stand begins.
fn stop<S: Sink>(place: &Place, rest: &[u8], sink: &mut S)
    ensures { sink.new ≡ sink.old }
{
    let (front, stuck) = rest.split_at(place.fitting(rest));
    sink.stuck(front, stuck);
}

// Hands on each token that is whole, and counts their bytes.
fn drain<S: Sink>(window: &[u8], place: &mut Place, sink: &mut S) -> Result<usize, Fault>
    ensures within { IfOk result (λ n. n ≤ length window.now) }
    ensures whole { IfOk result (λ n. (tokens : List Token)
        × Advances window.now tokens (drop n window.now) place.old place.new
        × (sink.new ≡ fold S.after sink.old tokens)) }
    ensures no_more { IfOk result (λ n. HasNoToken (section_of place.new.tail)
        (drop n window.now)) }
    ensures fault { IfErr result
        (TellsWindow S.after S.goes_on place.old window.now sink.old sink.new) }
{
    let mut rest = window;
    'reading: loop {
        match next_piece(place, rest) {
            Ok((piece, next)) => {
                match take_some(place, &piece) {
                    Ok(()) => {}
                    Err(fault) => {
                        stop(place, rest, sink);
                        return Err(fault);
                    }
                }
                match sink.take(piece, &rest[..rest.len() - next.len()]) {
                    Ok(true) => rest = next,
                    Ok(false) => return Err(Fault::Refused),
                    Err(_) => return Err(Fault::Memory),
                }
            }
            Err(Stop::More) => return Ok(window.len() - rest.len()),
            Err(Stop::Never) => {
                stop(place, rest, sink);
                return Err(Fault::Malformed);
            }
        }
    }
}

// The most bytes that a token may have before it is refused, and how many are read at once.
const MOST_WAITING: usize = 4_194_304;

const CHUNK: usize = 65_536;

/// Within how many bytes the encoding of a document is told: where it has fewer, its end is met
/// once before any of it is handed on.
pub const HEAD: usize = 1024;

// Reads a document in an encoding to the end of the input, and hands on its tokens. Its first
// bytes, the head, were read before.
fn read_encoded<R: Read, S: Sink>(
    alloc: Global,
    head: &[u8],
    reader: &mut R,
    encoding: Encoding,
    sink: &mut S,
) -> Result<(), Fault>
    ensures document { OnOk result ((input : List ℕ) × (tokens : List Token)
        × IsTold (text_left encoding head.now (R.remaining reader.old)) input
        × IsComplete input tokens × (sink.new ≡ fold S.after sink.old tokens)) }
    ensures fault { IfErr result (TellsText S.after S.goes_on
        (text_left encoding head.now (R.remaining reader.old)) sink.old sink.new) }
{
    let mut place = Place::first(alloc);
    let (begun, first) = begin(alloc, encoding, head)?;
    let mut window = begun;
    let mut part = first;
    let mut chunk = chunk_buffer(alloc)?;
    for _ in 0..u64::MAX {
        let count = drain(&window, &mut place, sink)?;
        drop_front(alloc, &mut window, count)?;
        let Some(at) = part else {
            return Err(Fault::NotText);
        };
        if window.len() > MOST_WAITING {
            return Err(Fault::TooLong);
        }
        let (more, next) = refill(reader, encoding, at, &mut chunk, &mut window)?;
        part = next;
        if !more {
            if let Some(last) = next {
                return end_of(&window, &place, last);
            }
        }
    }
    Err(Fault::Read)
}

/// Reads a document to the end of the input, and hands on its tokens. Its first bytes tell its
/// encoding: a byte order mark, else the declaration, and it is UTF-8 where neither does.
///
/// `Refused` is what the sink does.
pub fn read_document<R: Read, S: Sink>(
    alloc: Global,
    reader: &mut R,
    sink: &mut S,
) -> Result<(), Fault>
    ensures document { OnOk result ((text : List ℕ) × (tokens : List Token)
        × IsTextOf (R.remaining reader.old) text
        × IsDocument text tokens × (sink.new ≡ fold S.after sink.old tokens)) }
    ensures fault { IfErr result
        (Tells S.after (R.remaining reader.old) sink.old sink.new S.goes_on) }
{
    let head = read_head(alloc, reader)?;
    let Some((encoding, mark)) = encoding_at(front(&head)) else {
        return Err(unknown_encoding(alloc, front(&head)));
    };
    read_encoded(alloc, behind(&head, mark), reader, encoding, sink)
}

// That the encoding of a document that begins so is none that is known.
fn unknown_encoding(alloc: Global, head: &[u8]) -> Fault
    requires { encoding_at head.now ≡ None }
    ensures { IsUnknown head.now result }
{
    match Vec::from_slice(alloc, unknown_name(head)) {
        Ok(name) => Fault::UnknownEncoding(Bytes::from_vec(name)),
        Err(_) => Fault::Memory,
    }
}

// The bytes that tell the encoding.
fn front(head: &[u8]) -> &[u8]
    ensures { result.now ≡ take HEAD head.now }
{
    if head.len() > HEAD {
        &head[..HEAD]
    } else {
        head
    }
}

// The bytes behind the first ones, as many as the count says.
fn behind(bytes: &[u8], count: usize) -> &[u8]
    requires { count ≤ length bytes.now }
    ensures { result.now ≡ drop count bytes.now }
{
    &bytes[count..]
}

// Reads the bytes that tell the encoding, or all that there are, and maybe more.
fn read_head<R: Read>(alloc: Global, reader: &mut R) -> Result<Vec<u8>, Fault>
    ensures read { IfOk result (λ head. Consumes
        (R.remaining reader.old) (R.remaining reader.new) head.items) }
    ensures whole { IfOk result (λ head. IfSome (R.remaining reader.old)
        (λ bytes. take HEAD bytes ≡ take HEAD head.items)) }
    ensures fault { IfErr result IsOfReading }
{
    let mut chunk = chunk_buffer(alloc)?;
    let mut head = Vec::new(alloc);
    while head.len() < HEAD {
        match reader.read(&mut chunk) {
            Ok(0) => return Ok(head),
            Ok(n) => {
                if head.extend_from_slice(&chunk[..n]).is_err() {
                    return Err(Fault::Memory);
                }
            }
            Err(_) => return Err(Fault::Read),
        }
    }
    Ok(head)
}

// A window with the text of the bytes that were read before, and where the next byte stands.
fn begin(alloc: Global, encoding: Encoding, head: &[u8]) -> Result<(Vec<u8>, Option<Part>), Fault>
    ensures grows { IfOk result (λ x. Grows [] x.0.items Part.Whole
        (decoded encoding head.now) x.1) }
    ensures fault { IfErr result IsOfReading }
{
    let Ok(mut window) = Vec::with_capacity(alloc, CHUNK) else {
        return Err(Fault::Memory);
    };
    let part = take_in(&mut window, encoding, Part::Whole, head)?;
    Ok((window, part))
}

// Whether a document may end here.
fn end_of(window: &[u8], place: &Place, part: Part) -> Result<(), Fault>
    ensures ok { OnOk result (is_whole window.now place.now part ≡ true) }
    ensures malformed { OnErr result (is_whole window.now place.now part ≡ false) }
    ensures garbled { IsErrOf result Fault.NotText → is_start part ≡ false }
    ensures fault { IfErr result IsOfEnd }
{
    if !is_start(part) {
        return Err(Fault::NotText);
    }
    if !is_filled(window) && place.is_last() {
        Ok(())
    } else {
        Err(Fault::Malformed)
    }
}

// Keeps of the bytes from a place of the window on those that are a text, and tells where the next
// byte stands.
fn keep_text(window: &mut Vec<u8>, start: usize, part: Part) -> Option<Part>
    requires small { IsSmall part }
    requires start { start ≤ length window.old.items }
    ensures { Grows (take start window.old.items) window.new.items part
        (drop start window.old.items) result }
{
    match follow(part, &window.as_slice()[start..]) {
        Ok(next) => Some(next),
        Err(whole) => {
            window.truncate(start + whole);
            None
        }
    }
}

// The text of bytes goes behind the window, as far as it is one.
fn take_in(
    window: &mut Vec<u8>,
    encoding: Encoding,
    part: Part,
    bytes: &[u8],
) -> Result<Option<Part>, Fault>
    requires { IsSmall part }
    ensures grows { IfOk result (Grows window.old.items window.new.items part
        (decoded encoding bytes.now)) }
    ensures fault { IfErr result IsOfReading }
{
    let start = window.len();
    let Ok(()) = push_decoded(window, encoding, bytes) else {
        return Err(Fault::Memory);
    };
    Ok(keep_text(window, start, part))
}

// One read, whose text goes behind the window; whether there were bytes, and where the next one
// stands.
fn refill<R: Read>(
    reader: &mut R,
    encoding: Encoding,
    part: Part,
    chunk: &mut Vec<u8>,
    window: &mut Vec<u8>,
) -> Result<(bool, Option<Part>), Fault>
    requires small { IsSmall part }
    requires room { 0 < length chunk.old.items }
    ensures size { IfOk result (λ _. length chunk.new.items ≡ length chunk.old.items) }
    ensures read { IfOk result (λ x. (piece : List ℕ)
        × Grows window.old.items window.new.items part piece x.1
        × Consumes (decoded_rest encoding (R.remaining reader.old))
        (decoded_rest encoding (R.remaining reader.new)) piece
        × (x.0 ≡ false → piece ≡ [])) }
    ensures end { IfOk result (λ x. x.0 ≡ false
        → IsAtEnd (decoded_rest encoding (R.remaining reader.new))) }
    ensures fault { IfErr result IsOfReading }
{
    match reader.read(chunk) {
        Ok(0) => Ok((false, Some(part))),
        Ok(n) => {
            let next = take_in(window, encoding, part, &chunk[..n])?;
            Ok((true, next))
        }
        Err(_) => Err(Fault::Read),
    }
}

// A buffer for what is read at once, all zero.
fn chunk_buffer(alloc: Global) -> Result<Vec<u8>, Fault>
    ensures size { IfOk result (λ bytes. vec_len bytes ≡ CHUNK) }
    ensures fault { IfErr result IsOfReading }
{
    match vec![in alloc; 0u8; CHUNK] {
        Ok(bytes) => Ok(bytes),
        Err(_) => Err(Fault::Memory),
    }
}

// Lets go of the bytes at the front, as many as the count says.
fn drop_front(alloc: Global, bytes: &mut Vec<u8>, count: usize) -> Result<(), Fault>
    requires { count ≤ length bytes.old.items }
    ensures rest { OnOk result (bytes.new.items ≡ drop count bytes.old.items) }
    ensures fault { IfErr result IsOfReading }
{
    let Ok(rest) = Vec::from_slice(alloc, &bytes.as_slice()[count..]) else {
        return Err(Fault::Memory);
    };
    *bytes = rest;
    Ok(())
}
