//! The conversion of a feed.

ghost use Rattle.std.specs.Prelude.{◌≡◌, ◌+◌, ◌-◌, IfErr, IfOk, Ok, OnOk, fold};
ghost use Rattle.feed_conversion.specs.Outcomes.{ExplainsFault, Yields};
ghost use Rattle.feed_conversion.specs.Tallies.{counted, no_tally};
ghost use Rattle.feed_conversion.specs.private.Endings.{Comes, Ends, IsUnread};
ghost use Rattle.feed_conversion.specs.Packing.{Converted};
ghost use Rattle.feed_conversion.specs.Conversion.{Options as Chosen, vocabulary_by};
ghost use Rattle.feed_conversion.specs.private.Stages.{all_parts, empty_parts, ended, ended_at, finished, first_state, stored, taken};
ghost use Rattle.feed_conversion.specs.Views.{options_view};
ghost use Rattle.feed_conversion.specs.private.StageViews.{begun_view};

use crate::converter::{Converter, WordConverter};
use crate::options::Options;
use crate::packing::{OpenParts, Stage, first_text, hand_on};
use crate::refusal::{Fault, Refusal};
use crate::tally::{Counted, refused_for};
use crate::target::Target;
use crate::words::{DeskWords, TermsWords, Words};
use feed_outline::{RefusalHints, Stopped, outlines_tell, read_message};
use std::alloc::{AllocError, Global};
use std::io::Read;
use std::marker::PhantomData;

/// What has come of a feed: the target, and what is told of its products, or why nothing came of it.
#[derive(Drop)]
pub struct Outcome<T> {
    pub target: T,
    pub ended: Result<Counted, Fault>,
}

// Hands on the parts behind so many, which are messages without products.
fn hand_empty<T: Target>(
    alloc: Global,
    most: u32,
    begun: &OpenParts,
    before: u32,
    target: &mut T,
) -> Result<(), AllocError>
    ensures { OnOk result (T.parts target.new ≡ fold T.with_part
        (T.parts target.old) (empty_parts (begun_view begun.now) before (most - before))) }
{
    let mut before = before;
    while before < most {
        let mut text = first_text(alloc, begun, before)?.into_bytes();
        hand_on(alloc, most, before, 1, &mut text, target)?;
        before += 1;
    }
    Ok(())
}

// Hands on the part that was begun, and those that are left over.
fn hand_rest<T: Target>(
    alloc: Global,
    most: u32,
    begun: &mut OpenParts,
    target: &mut T,
) -> Result<(), AllocError>
    ensures { OnOk result (T.parts target.new
        ≡ all_parts T.with_part most
        (stored (begun_view begun.old) (T.parts target.old))) }
{
    let Some(next) = begun.full.checked_add(1) else {
        return Err(AllocError);
    };
    hand_on(
        alloc,
        most,
        begun.full,
        begun.count,
        &mut begun.text,
        target,
    )?;
    hand_empty(alloc, most, begun, next, target)
}

// Ends a message that was begun, of which not too many products are wrong.
fn end_parts<T: Target>(
    alloc: Global,
    most: u32,
    begun: &mut OpenParts,
    target: &mut T,
) -> Result<Counted, Fault>
    ensures { Ends result (T.parts target.new) (ended_at T.with_part most
        (stored (begun_view begun.old) (T.parts target.old))
        begun.old.beyond) }
{
    let counted = begun.tally.counted();
    if let Some(place) = &begun.beyond {
        return match begun.full.checked_add(1) {
            Some(needed) => Err(Fault::Refused(Refusal::Parts(needed, place.copied()))),
            None => Err(Fault::Memory),
        };
    }
    match hand_rest(alloc, most, begun, target) {
        Ok(()) => Ok(counted),
        Err(_) => Err(Fault::Memory),
    }
}

// Ends a message that was begun.
fn end<T: Target>(
    alloc: Global,
    options: &Options<'_>,
    begun: &mut OpenParts,
    target: &mut T,
) -> Result<Counted, Fault>
    ensures { Ends result (T.parts target.new)
        (ended T.with_part (options_view options.now)
        (stored (begun_view begun.old) (T.parts target.old))) }
{
    match refused_for(alloc, options.wrong, &begun.tally) {
        Ok(None) => end_parts(alloc, options.choices.parts, begun, target),
        Ok(Some(refusal)) => Err(Fault::Refused(refusal)),
        Err(_) => Err(Fault::Memory),
    }
}

// Ends a message.
fn finish<T: Target + Drop>(converter: Converter<'_, T>) -> Outcome<T>
    ensures { Ends result.ended (T.parts result.target)
        (finished T.with_part converter.entry) }
{
    let Converter {
        alloc,
        options,
        mut target,
        stage,
    } = converter;
    let ended = match stage {
        Stage::Unbegun => Err(Fault::Refused(Refusal::NoHeader(None))),
        Stage::Refused(refusal) => Err(Fault::Refused(refusal)),
        Stage::Within(mut begun) => end(alloc, options, &mut begun, &mut target),
    };
    Outcome { target, ended }
}

// What has come of a feed that was not read.
fn unread<T: Target + Drop>(target: T, fault: feed_outline::Fault, told: RefusalHints) -> Outcome<T>
    ensures { IsUnread result.ended fault }
{
    let ended = match fault {
        feed_outline::Fault::Document(feed_xml::Fault::Memory) => Err(Fault::Memory),
        fault => Err(Fault::Unread(fault, told)),
    };
    Outcome { target, ended }
}

// Reads a feed of which the elements with these words count.
fn convert_by<R: Read, T: Target + Drop, W: Words + Drop>(
    alloc: Global,
    reader: &mut R,
    converter: Converter<'_, T>,
) -> Outcome<T>
    ensures { (o : Chosen) (parts : T.Parts)
        → vocabulary_by o.terms ≡ W.words → converter.entry ≡ first_state o parts
        → Comes T.with_part (R.remaining reader.old) o (taken parts (counted no_tally))
        result.ended (T.parts result.target) }
{
    outlines_tell();
    let words: PhantomData<W> = PhantomData;
    match read_message(alloc, reader, WordConverter { converter, words }) {
        Ok(taker) => finish(taker.converter),
        Err(stopped) => {
            let Stopped { fault, taker, told } = stopped;
            unread(taker.converter.into_target(), fault, told)
        }
    }
}

/// Reads a feed, and hands to the target the texts of the messages that come of it, and the notes
/// on what is left out, of which no clause says more. With an error the target may have taken some of them. What is refused is
/// read to its end all the same, so that a fault of its form goes before.
pub fn convert<'a, R: Read, T: Target + Drop>(
    alloc: Global,
    reader: &mut R,
    options: &'a Options<'a>,
    target: T,
) -> Outcome<T>
    ensures converted { IfOk result.ended (λ told. (made : Converted)
        × Yields (R.remaining reader.old) (options_view options.now) (Ok made)
        × (told ≡ made.counted)
        × (T.parts result.target ≡ fold T.with_part (T.parts target) made.parts)) }
    ensures fault { IfErr result.ended
        (λ e. ExplainsFault (R.remaining reader.old) (options_view options.now) e) }
{
    let converter = Converter::new(alloc, options, target);
    match options.terms {
        None => convert_by::<R, T, DeskWords>(alloc, reader, converter),
        Some(_) => convert_by::<R, T, TermsWords>(alloc, reader, converter),
    }
}
