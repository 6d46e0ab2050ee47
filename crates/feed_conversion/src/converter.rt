//! The state of a conversion, which takes the Header and the Products of a message.

ghost use Rattle.std.specs.Prelude.{◌≡◌, ◌∷◌, [], ℕ, IfOk, OnOk, option_map};
ghost use Rattle.feed_mapping.specs.Header.{heading_in};
ghost use Rattle.feed_mapping.specs.HeaderViews.{choices_view, heading_view};
ghost use Rattle.feed_mapping.specs.Notes.{note_views};
ghost use Rattle.feed_mapping.specs.PartyViews.{pair_view};
ghost use Rattle.feed_mapping.specs.SupplyChoices.{supply_choices_view};
ghost use Rattle.feed_mapping.specs.ProductRecords.{smaller_variants, smallest_variant};
ghost use Rattle.feed_conversion.specs.private.Stages.{IsKept, after_element, after_product, at_stage, begun_by, first_begun, first_state, seen_by, stored, noted, stage_after_header, stage_after_stranger, unbegun, with_variant, with_variants, with_product};
ghost use Rattle.feed_conversion.specs.Conversion.{Options as Chosen, supply_choices};
ghost use Rattle.feed_conversion.specs.Views.{options_view};
ghost use Rattle.feed_conversion.specs.private.StageViews.{begun_view, stage_view};

use crate::messages::record_text;
use crate::options::Options;
use crate::packing::{OpenParts, Stage, keep};
use crate::refusal::Refusal;
use crate::tally::{Tally, count_product};
use crate::target::Target;
use crate::words::Words;
use csv_records::buffer::RecordBuffer;
use csv_records::fields::FieldBuffer;
use feed_mapping::{
    Choices, Composite, Fate, HeaderFault, Heading, Note, Pair, Reason, ReasonKind, SupplyChoices,
    Wrong, add_bare, add_product, fill_message, push_too_large, read_heading, text_or_empty,
};
use feed_outline::{Elements, Line, Taker, Vocabulary, has_stranger, outlined};
use onix_records::row::RowFault;
use onix_terms::items::Items;
use std::alloc::{AllocError, Global};
use std::marker::{Model, PhantomData};

/// What converts a message: it takes its Header and its Products, and hands on parts and notes.
#[derive(Drop)]
pub struct Converter<'a, T: Target> {
    pub(crate) alloc: Global,
    pub(crate) options: &'a Options<'a>,
    pub(crate) target: T,
    pub(crate) stage: Stage,
}

impl<'a, T: Target> Model for Converter<'a, T> {
    ghost use Rattle.feed_conversion.specs.private.Stages.{State};
    ghost use Rattle.feed_conversion.specs.private.StageViews.{state};

    ghost Value = { State T.Parts };

    ghost view = { λ c. state c.options.now (T.parts c.target) c.stage };
}

// Counts a product with these notes, and hands it on with its records.
fn note_product<T: Target>(
    alloc: Global,
    begun: &mut OpenParts,
    target: &mut T,
    product: &Composite<'_>,
    records: &RecordBuffer,
    notes: &[Note<'_>],
) -> Result<(), AllocError>
    ensures { OnOk result
        (stored (begun_view begun.new) (T.parts target.new)
        ≡ noted product.now (note_views notes.now)
        (stored (begun_view begun.old) (T.parts target.old))) }
{
    count_product(alloc, &mut begun.tally, product, notes)?;
    target.product(product, records, notes)
}

// Puts the records of a form of a product into a part, and hands on the notes on it. It is false
// where they are too large for any.
fn keep_variant<T: Target>(
    alloc: Global,
    most: u32,
    begun: &mut OpenParts,
    target: &mut T,
    product: &Composite<'_>,
    records: &RecordBuffer,
    notes: &[Note<'_>],
) -> Result<bool, AllocError>
    ensures { IfOk result (λ is. IsKept is
        (stored (begun_view begun.old) (T.parts target.old))
        (stored (begun_view begun.new) (T.parts target.new))
        (with_variant T.with_part most
        (stored (begun_view begun.old) (T.parts target.old))
        product.now records.now (note_views notes.now))) }
{
    let is_kept = keep(alloc, most, begun, target, &product.line.place, records)?;
    if is_kept {
        note_product(alloc, begun, target, product, records, notes)?;
    }
    Ok(is_kept)
}

// Leaves out a product that is too large in each form.
fn leave_out<T: Target>(
    alloc: Global,
    begun: &mut OpenParts,
    target: &mut T,
    product: &Composite<'_>,
) -> Result<(), AllocError>
    ensures { (most : ℕ) → OnOk result
        (stored (begun_view begun.new) (T.parts target.new)
        ≡ with_variants T.with_part most
        (stored (begun_view begun.old) (T.parts target.old)) product.now []) }
{
    let kind = ReasonKind::Wrong(Wrong::TooLarge);
    let line = product.line;
    let reason = Reason { kind, text: b"" };
    let none = RecordBuffer::new(alloc);
    note_product(
        alloc,
        begun,
        target,
        product,
        &none,
        &[Note {
            line,
            reason,
            is_aside: false,
        }],
    )
}

// Takes the smallest form of a product, with its reference in place of its identifiers.
fn add_smallest<T: Target>(
    alloc: Global,
    most: u32,
    begun: &mut OpenParts,
    target: &mut T,
    product: &Composite<'_>,
    notes: &[Note<'_>],
) -> Result<(), AllocError>
    ensures { OnOk result
        (stored (begun_view begun.new) (T.parts target.new)
        ≡ with_variants T.with_part most
        (stored (begun_view begun.old) (T.parts target.old))
        product.now (smallest_variant product.now.below (note_views notes.now) ∷ [])) }
{
    let mut fields = FieldBuffer::new(alloc);
    let mut records = RecordBuffer::new(alloc);
    add_bare(alloc, product, &mut fields, &mut records)?;
    let is_kept = keep_variant(alloc, most, begun, target, product, &records, notes)?;
    if is_kept {
        return Ok(());
    }
    leave_out(alloc, begun, target, product)
}

// Takes a product that is too large as it is.
fn add_smaller<T: Target>(
    alloc: Global,
    most: u32,
    begun: &mut OpenParts,
    target: &mut T,
    product: &Composite<'_>,
    fate: Fate,
    notes: &[Note<'_>],
) -> Result<(), AllocError>
    ensures { OnOk result
        (stored (begun_view begun.new) (T.parts target.new)
        ≡ with_variants T.with_part most
        (stored (begun_view begun.old) (T.parts target.old))
        product.now (smaller_variants fate (note_views notes.now) product.now.below)) }
{
    match fate {
        Fate::Written => {
            let mut large = Vec::new(alloc);
            push_too_large(alloc, product, &mut large)?;
            add_smallest(alloc, most, begun, target, product, &large)
        }
        Fate::Emptied => add_smallest(alloc, most, begun, target, product, notes),
        Fate::LeftOut => leave_out(alloc, begun, target, product),
    }
}

// Takes notice of whose SupplyDetails a product has, where a supplier is named.
fn see_suppliers(begun: &mut OpenParts, named: Option<Pair<'_>>, product: &Composite<'_>)
    ensures { begun_view begun.new
        ≡ seen_by (option_map pair_view named.entry) product.now.below (begun_view begun.old) }
{
    begun.tally.see_suppliers(named, &product.below);
}

// What is chosen for the supplies of a product.
fn supply_choices<'a>(options: &Options<'a>) -> SupplyChoices<'a>
    ensures { supply_choices_view result ≡ supply_choices (options_view options.now) }
{
    SupplyChoices {
        supplier: options.choices.supplier,
        id_type: options.choices.id_type,
        terms: options.terms,
    }
}

// Takes a product of a message that was begun.
#[tactic(auto, unfolding(crate::specs::private::Stages::after_product))]
fn add<T: Target>(
    alloc: Global,
    options: &Options<'_>,
    begun: &mut OpenParts,
    target: &mut T,
    product: &Composite<'_>,
) -> Result<(), AllocError>
    ensures { OnOk result
        (stored (begun_view begun.new) (T.parts target.new)
        ≡ after_product T.with_part (options_view options.now)
        (stored (begun_view begun.old) (T.parts target.old)) product.now) }
{
    let mut fields = FieldBuffer::new(alloc);
    let mut records = RecordBuffer::new(alloc);
    let mut notes = Vec::new(alloc);
    let fate = add_product(
        alloc,
        &begun.opening,
        &supply_choices(options),
        product,
        &mut fields,
        &mut records,
        &mut notes,
    )?;
    see_suppliers(begun, options.choices.supplier, product);
    let most = options.choices.parts;
    let is_kept = keep_variant(alloc, most, begun, target, product, &records, &notes)?;
    if is_kept {
        return Ok(());
    }
    add_smaller(alloc, most, begun, target, product, fate, &notes)
}

// The parts of a message with this heading, before the first product. The list takes the fields of
// the record with which the first one begins.
fn begin_with(
    alloc: Global,
    heading: Heading<'_>,
    elements: &Elements<'_>,
    fields: &mut FieldBuffer,
) -> Result<OpenParts, RowFault>
    ensures { IfOk result (λ b. begun_view b
        ≡ first_begun (heading_view heading.entry) elements.now) }
{
    let Heading {
        sender,
        addressee,
        number,
        opening,
    } = heading;
    fill_message(sender, addressee, number, elements, fields)?;
    let record = fields.as_record();
    if record.len() != 11 {
        return Err(RowFault::Wrong);
    }
    let mut front = FieldBuffer::new(alloc);
    front.push_record(&record.part(0, 6))?;
    let mut back = FieldBuffer::new(alloc);
    back.push_record(&record.part(7, 11))?;
    let text = record_text(alloc, fields)?.into_bytes();
    Ok(OpenParts {
        front,
        back,
        number,
        opening,
        full: 0,
        count: 1,
        text,
        beyond: None,
        tally: Tally::new(),
    })
}

// Where a message is after its Header.
fn begin<'a>(
    alloc: Global,
    choices: &Choices<'a>,
    header: &Composite<'a>,
) -> Result<Stage, AllocError>
    ensures { (o : Chosen) → o.choices ≡ choices_view choices.now
        → IfOk result (λ s. stage_view s ≡ stage_after_header unbegun o header.now) }
{
    if has_stranger(&header.below) {
        let place = header.line.place.copied();
        return Ok(Stage::Refused(Refusal::OtherNamespace(place)));
    }
    begin_own(alloc, choices, header)
}

// Where a message is after its Header, in which no element is of another namespace.
fn begin_own<'a>(
    alloc: Global,
    choices: &Choices<'a>,
    header: &Composite<'a>,
) -> Result<Stage, AllocError>
    ensures { IfOk result (λ s. stage_view s
        ≡ begun_by header.now (heading_in (choices_view choices.now) header.now.below)) }
{
    let mut fields = FieldBuffer::new(alloc);
    match read_heading(alloc, choices, &header.below, &mut fields) {
        Ok(heading) => match begin_with(alloc, heading, &header.below, &mut fields) {
            Ok(begun) => Ok(Stage::Within(begun)),
            // A heading has such a record, so it is memory that ran out.
            Err(_) => Err(AllocError),
        },
        Err(HeaderFault::Refused(refusal)) => {
            let number = text_or_empty(b"MessageNumber", &header.below);
            let number = Items::from_vec(Vec::from_slice(alloc, number)?);
            Ok(Stage::Refused(Refusal::Header(refusal, number, header.line.place.copied())))
        }
        Err(HeaderFault::Memory) => Err(AllocError),
    }
}

impl<'a, T: Target + Drop> Converter<'a, T> {
    /// Before the Header.
    pub(crate) fn new(alloc: Global, options: &'a Options<'a>, target: T) -> Converter<'a, T>
        ensures { result
            ≡ first_state (options_view options.now) (T.parts target) }
    {
        Converter {
            alloc,
            options,
            target,
            stage: Stage::Unbegun,
        }
    }

    /// The target.
    pub(crate) fn into_target(self) -> T {
        self.target
    }

    // Goes to another stage.
    fn set_stage(&mut self, stage: Stage)
        ensures { self.new ≡ at_stage self.old (stage_view stage) }
    {
        self.stage = stage;
    }

    // Takes a Header, which begins the message where it is the first.
    fn take_header(&mut self, header: &Composite<'_>) -> Result<(), AllocError>
        ensures { OnOk result (self.new
            ≡ at_stage self.old (stage_after_header self.old.stage self.old.options header.now)) }
    {
        match &self.stage {
            Stage::Unbegun => {
                let stage = begin(self.alloc, &self.options.choices, header)?;
                self.set_stage(stage);
                Ok(())
            }
            Stage::Refused(_) => Ok(()),
            Stage::Within(_) => {
                let place = header.line.place.copied();
                self.set_stage(Stage::Refused(Refusal::SecondHeader(place)));
                Ok(())
            }
        }
    }

    // Takes an element of another namespace, which refuses the message.
    fn take_stranger(&mut self, element: &Composite<'_>)
        ensures { self.new ≡ at_stage self.old (stage_after_stranger self.old.stage element.now) }
    {
        let place = element.line.place.copied();
        match &self.stage {
            Stage::Refused(_) => {}
            Stage::Unbegun => self.set_stage(Stage::Refused(Refusal::OtherNamespace(place))),
            Stage::Within(_) => self.set_stage(Stage::Refused(Refusal::OtherNamespace(place))),
        }
    }

    // Takes a Product.
    fn take_product(&mut self, product: &Composite<'_>) -> Result<(), AllocError>
        ensures { OnOk result
            (self.new ≡ with_product T.with_part self.old.stage self.old product.now) }
    {
        match &mut self.stage {
            Stage::Unbegun => {
                let place = Some(product.line.place.copied());
                self.set_stage(Stage::Refused(Refusal::NoHeader(place)));
                Ok(())
            }
            Stage::Refused(_) => Ok(()),
            Stage::Within(begun) => {
                let target = &mut self.target;
                add(self.alloc, self.options, begun, target, product)
            }
        }
    }

    // Takes an element.
    fn take_element(&mut self, element: &Composite<'_>) -> Result<(), AllocError>
        ensures { OnOk result (self.new ≡ after_element T.with_part self.old element.now) }
    {
        if element.line.name == b"Header".as_slice() {
            self.target.notice(element);
            self.take_header(element)
        } else if element.line.name == b"Product".as_slice() {
            self.take_product(element)
        } else if element.line.name == b":".as_slice() {
            self.target.notice(element);
            self.take_stranger(element);
            Ok(())
        } else {
            self.target.notice(element);
            Ok(())
        }
    }
}

/// The same, of a message of which the elements with these words count.
#[derive(Drop)]
pub(crate) struct WordConverter<'a, T: Target, W> {
    pub(crate) converter: Converter<'a, T>,
    pub(crate) words: PhantomData<W>,
}

impl<'a, T: Target, W> Model for WordConverter<'a, T, W> {
    ghost use Rattle.feed_conversion.specs.private.Stages.{State};

    ghost Value = { State T.Parts };

    ghost view = { λ c. c.converter };
}

impl<'a, T: Target + Drop, W: Words> Taker for WordConverter<'a, T, W> {
    ghost use Rattle.feed_outline.specs.Outlined.{outlined};
    ghost use Rattle.feed_outline.specs.Views.{vocabulary_view};
    ghost use Rattle.feed_conversion.specs.private.Stages.{after_nodes};

    ghost vocabulary = { W.words };

    ghost after = { λ s lines. after_nodes T.with_part s (outlined lines) };

    fn vocabulary() -> Vocabulary
        ensures { vocabulary_view result ≡ W.words }
    {
        W::vocabulary()
    }

    // Lines that are the outline of no element change nothing.
    fn take(&mut self, lines: &[Line]) -> Result<(), AllocError> {
        match outlined(lines) {
            None => Ok(()),
            Some(node) => self.converter.take_element(&Composite {
                line: node.line,
                below: node.below,
            }),
        }
    }
}
