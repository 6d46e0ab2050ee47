//! The parts of a message, into which its products are packed.

ghost use Rattle.std.specs.Prelude.{◌≡◌, ◌+◌, ◌++◌, ◌∷◌, [], IfOk, OnOk, Some, None, length};
ghost use Rattle.std.specs.String.{string_bytes};
ghost use Rattle.csv_records.specs.RecordTexts.{records_text};
ghost use Rattle.feed_conversion.specs.Packing.{beyond_at};
ghost use Rattle.feed_conversion.specs.private.Stages.{end_text, first_text, grown, has_room, stored, kept, in_next_part, with_part, IsKept};
ghost use Rattle.feed_conversion.specs.private.StageViews.{begun_view};

use crate::messages::{end_text, record_text};
use crate::refusal::Refusal;
use crate::tally::Tally;
use crate::target::Target;
use csv_records::buffer::RecordBuffer;
use csv_records::fields::FieldBuffer;
use csv_records::reading::LIMIT;
use csv_records::writing::write_records;
use feed_xml::Position;
use itoa::Buffer;
use onix_records::MOST_RECORDS;
use onix_records::row::Opening;
use std::alloc::{AllocError, Global};

// The record that ends a message has at most this many bytes.
const MOST_END: usize = 36;

/// The parts of a message.
#[derive(Drop)]
pub struct OpenParts {
    /// The fields of their first records before the number.
    pub(crate) front: FieldBuffer,
    /// The fields behind it.
    pub(crate) back: FieldBuffer,
    /// The number of the first part.
    pub(crate) number: u32,
    /// What the record of the first part says.
    pub(crate) opening: Opening,
    /// How many parts are full.
    pub(crate) full: u32,
    /// How many records the part behind them has so far.
    pub(crate) count: usize,
    /// The text of those.
    pub(crate) text: Vec<u8>,
    /// The place of the first product for which there is no part.
    pub(crate) beyond: Option<Position>,
    /// How many products there are, and how many of them are wrong.
    pub(crate) tally: Tally,
}

/// Where a message is.
#[derive(Drop)]
pub enum Stage {
    /// Before its Header.
    Unbegun,
    /// Refused.
    Refused(Refusal),
    /// In its parts.
    Within(OpenParts),
}

// The text of the first record of the part behind so many.
pub(crate) fn first_text(
    alloc: Global,
    begun: &OpenParts,
    before: u32,
) -> Result<String, AllocError>
    ensures { IfOk result (λ text. string_bytes text ≡ first_text (begun_view begun.now) before) }
{
    let Some(number) = begun.number.checked_add(before) else {
        return Err(AllocError);
    };
    let mut buffer = Buffer::new();
    let mut fields = FieldBuffer::new(alloc);
    fields.push_record(&begun.front.as_record())?;
    fields.push(buffer.format(number))?;
    fields.push_record(&begun.back.as_record())?;
    record_text(alloc, &fields)
}

// Whether a part of so many records and bytes has room for so many more. The record that ends it is
// written only near the limit, since writing it for each product takes long.
#[tactic(auto, unfolding(crate::specs::private::Stages::has_room))]
fn has_room(
    alloc: Global,
    count: usize,
    size: usize,
    more: usize,
    bytes: usize,
) -> Result<bool, AllocError>
    ensures { IfOk result (λ is. is ≡ has_room count size more bytes) }
{
    let Some(count) = count.checked_add(more) else {
        return Ok(false);
    };
    if count >= MOST_RECORDS {
        return Ok(false);
    }
    let size = size.saturating_add(bytes);
    if size <= LIMIT - MOST_END {
        return Ok(true);
    }
    let end = end_text(alloc, count)?;
    let size = size.saturating_add(end.len());
    Ok(size <= LIMIT)
}

// Adds so many records, of this text, to the part that was begun.
fn grow(begun: &mut OpenParts, more: usize, text: &str) -> Result<(), AllocError>
    ensures { OnOk result (begun_view begun.new ≡ grown (begun_view begun.old) more text.now) }
{
    let Some(count) = begun.count.checked_add(more) else {
        return Err(AllocError);
    };
    begun.count = count;
    begun.text.extend_from_slice(text.as_bytes())?;
    Ok(())
}

// The place of the first product for which there is no part.
fn beyond_at(most: u32, full: u32, earlier: &Option<Position>, place: &Position) -> Option<Position>
    ensures { result ≡ beyond_at most full earlier.now place.now }
{
    match earlier {
        Some(earlier) => Some(earlier.copied()),
        None => {
            if full < most {
                None
            } else {
                Some(place.copied())
            }
        }
    }
}

// Hands on the text of the part behind so many, which has so many records, where there is such a
// part.
pub(crate) fn hand_on<T: Target>(
    alloc: Global,
    most: u32,
    full: u32,
    count: usize,
    text: &mut Vec<u8>,
    target: &mut T,
) -> Result<(), AllocError>
    ensures { OnOk result (T.parts target.new
        ≡ with_part T.with_part most full (text.old.items ++ end_text count) (T.parts target.old)) }
{
    if full >= most {
        return Ok(());
    }
    let end = end_text(alloc, count)?;
    text.extend_from_slice(end.as_bytes())?;
    target.part(text)
}

// Begins the next part with a product at this place, of so many records and this text.
fn turn(
    begun: &mut OpenParts,
    most: u32,
    first: &str,
    place: &Position,
    more: usize,
    text: &str,
) -> Result<(), AllocError>
    ensures { first.now ≡ first_text (begun_view begun.old) (begun.old.full + 1)
        → OnOk result (begun_view begun.new
        ≡ in_next_part most (begun_view begun.old) place.now more text.now) }
{
    let Some(full) = begun.full.checked_add(1) else {
        return Err(AllocError);
    };
    let Some(count) = 1_usize.checked_add(more) else {
        return Err(AllocError);
    };
    begun.beyond = beyond_at(most, full, &begun.beyond, place);
    begun.full = full;
    begun.count = count;
    begun.text.clear();
    begun.text.extend_from_slice(first.as_bytes())?;
    begun.text.extend_from_slice(text.as_bytes())?;
    Ok(())
}

// Puts a product of so many records and this text into the part that was begun where that has room,
// else into the next one. It is false where that has none either.
#[tactic(auto, unfolding(crate::specs::private::Stages::kept))]
fn keep_text<T: Target>(
    alloc: Global,
    most: u32,
    begun: &mut OpenParts,
    target: &mut T,
    place: &Position,
    more: usize,
    text: &str,
) -> Result<bool, AllocError>
    ensures { IfOk result (λ is. IsKept is
        (stored (begun_view begun.old) (T.parts target.old))
        (stored (begun_view begun.new) (T.parts target.new))
        (kept T.with_part most
        (stored (begun_view begun.old) (T.parts target.old))
        place.now more text.now)) }
{
    if has_room(alloc, begun.count, begun.text.len(), more, text.len())? {
        grow(begun, more, text)?;
        return Ok(true);
    }
    let Some(next) = begun.full.checked_add(1) else {
        return Err(AllocError);
    };
    let first = first_text(alloc, begun, next)?;
    if !has_room(alloc, 1, first.len(), more, text.len())? {
        return Ok(false);
    }
    hand_on(
        alloc,
        most,
        begun.full,
        begun.count,
        &mut begun.text,
        target,
    )?;
    turn(begun, most, &first, place, more, text)?;
    Ok(true)
}

/// Puts the records of a product into the part that was begun where that has room, else into the
/// next one. It is false where that has none either.
pub(crate) fn keep<T: Target>(
    alloc: Global,
    most: u32,
    begun: &mut OpenParts,
    target: &mut T,
    place: &Position,
    records: &RecordBuffer,
) -> Result<bool, AllocError>
    ensures { IfOk result (λ is. IsKept is
        (stored (begun_view begun.old) (T.parts target.old))
        (stored (begun_view begun.new) (T.parts target.new))
        (kept T.with_part most
        (stored (begun_view begun.old) (T.parts target.old))
        place.now (length records.now) (records_text records.now))) }
{
    let text = write_records(alloc, &records.as_records())?;
    keep_text(alloc, most, begun, target, place, records.len(), &text)
}
