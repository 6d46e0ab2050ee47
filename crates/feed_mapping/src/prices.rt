//! Prices.

ghost use Rattle.std.specs.Prelude.{◌≡◌, ◌++◌, ◌∷◌, ◌<◌, [], ℕ, List, None, Some, IfOk, IsErrOf, OnOk, false, true, ◌&&◌, is_some, map, not, codes, option_map};
ghost use Rattle.std.specs.List.{list_all};
ghost use Rattle.std.specs.Option.{option_copied, option_to_list};
ghost use Rattle.std.specs.Str.{is_utf8};
ghost use Rattle.feed_mapping.specs.Notes.{foreign, is_wrong, note_views, wrong};
ghost use Rattle.feed_mapping.specs.Outcomes.{outcome_notes, outcome_records};
ghost use Rattle.feed_mapping.specs.PriceViews.{reason_read, text_view};
ghost use Rattle.feed_mapping.specs.PriceTexts.{price_view};
ghost use Rattle.feed_mapping.specs.Amounts.{amount_written, rounded_text};
ghost use Rattle.feed_mapping.specs.Prices.{AddsUnless, AreOwned, closed_reason, context_view, is_taken, last_reason, long_reason, narrowed, written_fields, early_reasons, eight_fields, fields_in, free_reason, is_for_others, is_nothing, outcome_of, price_fields, price_outcome, price_reasons};
ghost use Rattle.feed_mapping.specs.Records.{first_some, option_filter, parsed};
ghost use Rattle.feed_mapping.specs.Territories.{AreRenamed};
ghost use Rattle.feed_mapping.specs.declared.notes.Wrong.TheVariants.{OldElement};
ghost use Rattle.onix_records.specs.Gives.{Gives};
ghost use Rattle.onix_records.specs.Price.{day_field, price_of};

use crate::dates::{right_days, wrong_date};
use crate::discounts::push_counted;
use crate::minimums::greater_of;
use crate::narrower::First;
use crate::narrower_prices::narrowed_in;
use crate::notes::{Foreign, Note, Reason, Wrong, push_reason};
use crate::price_amounts::{is_zero, rounded_text};
use crate::price_kinds::{has_kind, kind_in};
use crate::price_texts::PriceTexts;
use crate::reasons::field_reason;
use crate::records::{first_of, push_texts};
use crate::territories::{
    Renamed, area_fields, form_reason, push_territory_notes, renamed_in, unsupported,
};
use csv_records::buffer::RecordBuffer;
use csv_records::fields::FieldBuffer;
use csv_records::record::Record;
use feed_terms::price::Kind;
use onix_records::fields::read_fields;
use onix_records::parts::Price;
use onix_records::price::read_price;
use onix_records::row::{Opening, RowFault};
use onix_terms::day::Day;
use onix_terms::text::Text;
use std::alloc::{AllocError, Global};

/// The context of a Price: what its message begins with, whether the record of its SupplyDetail
/// has an UnpricedItemType, the quantity that stands for a minimum that is not greater, the types
/// and currencies of which a Price beside it is left out for its PriceDates alone, and the Prices
/// beside it that go before one of the world.
#[derive(Clone, Copy)]
pub struct PriceContext<'a, 'b, 'c> {
    pub opening: &'a Opening,
    pub is_unpriced: bool,
    pub minimum: Option<&'b [u8]>,
    pub closed: &'c [Kind],
    pub firsts: &'c [First],
}

// A foreign reason, where there is a text that is one.
fn because<'a>(kind: Foreign, text: Option<&'a [u8]>) -> Option<Reason<'a>>
    ensures { reason_read result ≡ option_map (foreign kind) (text_view text.entry) }
{
    match text {
        Some(text) => Some(Reason::foreign(kind, text)),
        None => None,
    }
}

/// That there is an element of ONIX 2.1, which has this name.
pub(crate) fn because_old(text: Option<&'static [u8]>) -> Option<Reason<'static>>
    ensures { reason_read result ≡ option_map (wrong OldElement) (text_view text.entry) }
{
    match text {
        Some(text) => Some(Reason::wrong(Wrong::OldElement, text)),
        None => None,
    }
}

fn if_foreign<'a>(reason: Option<Reason<'a>>) -> Option<Reason<'a>>
    ensures { reason_read result
        ≡ option_filter (λ r. not (is_wrong r.kind)) (reason_read reason.entry) }
{
    match reason {
        Some(reason) => if reason.kind.is_wrong() {
            None
        } else {
            Some(reason)
        },
        None => None,
    }
}

fn if_wrong<'a>(reason: Option<Reason<'a>>) -> Option<Reason<'a>>
    ensures { reason_read result ≡ option_filter (λ r. is_wrong r.kind) (reason_read reason.entry) }
{
    match reason {
        Some(reason) => if reason.kind.is_wrong() {
            Some(reason)
        } else {
            None
        },
        None => None,
    }
}

/// That the amount of a Price is 0.
pub(crate) fn free_reason<'a>(price: &PriceTexts<'a>) -> Option<Reason<'a>>
    ensures { reason_read result ≡ free_reason (price_view price.now) }
{
    if is_zero(price.amount) {
        Some(Reason::foreign(Foreign::NoCharge, price.amount))
    } else {
        None
    }
}

/// Why a Price is another than the desk knows.
pub(crate) fn early_reason<'a>(
    dated: Option<Reason<'a>>,
    free: Option<Reason<'a>>,
    price: &PriceTexts<'a>,
) -> Option<Reason<'a>>
    ensures { reason_read result ≡ first_some
        (early_reasons (reason_read dated.entry) (reason_read free.entry) (price_view price.now)) }
{
    first_of(&[
        because(Foreign::PriceQualifier, price.qualifier),
        because(Foreign::PricePer, price.per),
        because(Foreign::PriceCondition, price.condition),
        because(Foreign::PriceConstraint, price.constraint),
        because(Foreign::PriceCoded, price.coded),
        because(Foreign::CurrencyZone, price.zone),
        because(Foreign::EpubLicense, price.license),
        because(Foreign::EpubLicenseWithDate, price.dated_license),
        unsupported(&price.area),
        free,
        if_foreign(dated),
        because_old(price.old),
        form_reason(&price.area),
        if_wrong(dated),
    ])
}

/// Whether a Price is for others than the shop, for another unit than a copy, for those who have a
/// licence, or of 0.
pub(crate) fn is_for_others(price: &PriceTexts<'_>) -> bool
    ensures { result ≡ is_for_others (price_view price.now) }
{
    price.qualifier.is_some()
        || price.per.is_some()
        || price.condition.is_some()
        || price.constraint.is_some()
        || price.license.is_some()
        || price.dated_license.is_some()
        || is_zero(price.amount)
}

/// Whether a Price is nothing: it has no amount and no PriceCoded, and the record of its
/// SupplyDetail an UnpricedItemType.
pub(crate) fn is_nothing(context: &PriceContext<'_, '_, '_>, price: &PriceTexts<'_>) -> bool
    ensures { result ≡ is_nothing (context_view context.now) (price_view price.now) }
{
    context.is_unpriced && !price.has_amount && price.coded.is_none()
}

// The text of a day, empty where there is none.
fn day_field(alloc: Global, day: Option<Day>) -> Result<Text, AllocError>
    ensures { IfOk result (λ t. t ≡ day_field day) }
{
    match day {
        Some(day) => day.text(alloc),
        None => Ok(Text::new(alloc)),
    }
}

// The texts of a Price that do not stand in it as they are written: an amount that is rounded, what
// is renamed of its countries, and its days.
#[derive(Drop)]
struct Owned {
    amount: Option<Text>,
    renamed: Renamed,
    first: Text,
    last: Text,
}

fn owned_texts(alloc: Global, price: &PriceTexts<'_>) -> Result<Owned, AllocError>
    ensures texts { IfOk result (λ o. AreOwned o (price_view price.now)) }
    ensures renamed { IfOk result (λ o. AreRenamed o.renamed (price_view price.now).area) }
{
    let days = right_days(&price.dated);
    Ok(Owned {
        amount: rounded_text(alloc, price.amount)?,
        renamed: renamed_in(alloc, &price.area)?,
        first: day_field(alloc, days.first)?,
        last: day_field(alloc, days.last)?,
    })
}

// An amount as it is written.
fn amount_written<'b>(owned: &'b Owned, said: &'b [u8]) -> &'b [u8]
    ensures { owned.now.amount ≡ rounded_text said.now
        → result.now ≡ amount_written said.now }
{
    match &owned.amount {
        Some(text) => text.as_str().as_bytes(),
        None => said,
    }
}

// The texts of the fields that each Price has, in a territory of these fields.
fn eight_texts<'b>(
    owned: &'b Owned,
    territory: [&'b [u8]; 3],
    price: &PriceTexts<'b>,
) -> [&'b [u8]; 8]
    ensures { AreOwned owned.now (price_view price.now)
        → map (λ t. t.now) result
        ≡ eight_fields (map (λ t. t.now) territory.entry) (price_view price.now) }
{
    let [included, world, excluded] = territory;
    [
        price.price_type,
        amount_written(owned, price.amount),
        price.currency,
        included,
        world,
        excluded,
        owned.first.as_str().as_bytes(),
        owned.last.as_str().as_bytes(),
    ]
}

/// Puts a record of this name in place of what the list had. `Wrong` exactly where a text is no
/// UTF-8.
pub(crate) fn fill_record(
    fields: &mut FieldBuffer,
    name: &str,
    texts: &[&[u8]],
) -> Result<(), RowFault>
    ensures record { OnOk result (fields.new ≡ name.now ∷ map (λ t. t.now) texts.now) }
    ensures utf8 { OnOk result (list_all is_utf8 (map (λ t. t.now) texts.now) ≡ true) }
    ensures wrong { IsErrOf result RowFault.Wrong
        → list_all is_utf8 (map (λ t. t.now) texts.now) ≡ false }
{
    fields.clear();
    fields.push(name)?;
    push_texts(fields, texts)
}

// Puts the record of a Price in place of what the list had. `Wrong` exactly where a text is no
// UTF-8.
fn fill_price(
    fields: &mut FieldBuffer,
    texts: &[&[u8]],
    minimum: Option<&[u8]>,
) -> Result<(), RowFault>
    ensures record { OnOk result (fields.new ≡ codes "Price"
        ∷ (map (λ t. t.now) texts.now ++ option_to_list (text_view minimum.entry))) }
    ensures utf8 { OnOk result (list_all is_utf8
        (map (λ t. t.now) texts.now ++ option_to_list (text_view minimum.entry)) ≡ true) }
    ensures wrong { IsErrOf result RowFault.Wrong → list_all is_utf8
        (map (λ t. t.now) texts.now ++ option_to_list (text_view minimum.entry)) ≡ false }
{
    fill_record(fields, "Price", texts)?;
    match minimum {
        Some(minimum) => push_texts(fields, &[minimum]),
        None => Ok(()),
    }
}

// The Price that the desk reads of fields that are UTF-8.
fn parse_fields(alloc: Global, opening: &Opening, from: &Record<'_>) -> Result<Price, RowFault>
    ensures { list_all is_utf8 from.now ≡ true
        → Gives result (parsed (price_of opening.now) from.now) }
{
    let mut fields = Vec::new(alloc);
    read_fields(from, &mut fields)?;
    read_price(alloc, opening, &fields)
}

/// The Price that the desk reads of a record, where it takes that.
pub(crate) fn price_in(
    alloc: Global,
    opening: &Opening,
    price_record: &Record<'_>,
) -> Result<Option<Price>, AllocError>
    ensures { (fields : List (List ℕ)) → price_record.now ≡ codes "Price" ∷ fields
        → list_all is_utf8 fields ≡ true
        → IfOk result (λ price. price ≡ parsed (price_of opening.now) fields) }
{
    let Some((_, behind)) = price_record.split_first() else {
        return Ok(None);
    };
    match parse_fields(alloc, opening, &behind) {
        Ok(price) => Ok(Some(price)),
        Err(RowFault::Wrong) => Ok(None),
        Err(RowFault::Memory) => Err(AllocError),
    }
}

// Puts the record of a Price in place of what the list had, and says whether the desk takes it.
fn take_price(
    alloc: Global,
    opening: &Opening,
    fields: &mut FieldBuffer,
    texts: &[&[u8]],
    minimum: Option<&[u8]>,
) -> Result<bool, AllocError>
    ensures record { IfOk result (λ is. is ≡ true → fields.new ≡ codes "Price"
        ∷ (map (λ t. t.now) texts.now ++ option_to_list (text_view minimum.entry))) }
    ensures taken { IfOk result (λ is. is ≡ is_some (parsed (price_of opening.now)
        (map (λ t. t.now) texts.now ++ option_to_list (text_view minimum.entry)))) }
{
    match fill_price(fields, texts, minimum) {
        Ok(()) => Ok(price_in(alloc, opening, &fields.as_record())?.is_some()),
        Err(RowFault::Wrong) => Ok(false),
        Err(RowFault::Memory) => Err(AllocError),
    }
}

// Puts the record of a Price in a territory of these fields, with these texts, in place of what the
// list had, and says whether the desk takes it.
fn take_texts<'b>(
    alloc: Global,
    context: &PriceContext<'_, '_, '_>,
    owned: &'b Owned,
    territory: [&'b [u8]; 3],
    price: &PriceTexts<'b>,
    fields: &mut FieldBuffer,
) -> Result<bool, AllocError>
    ensures record { AreOwned owned.now (price_view price.now)
        → IfOk result (λ is. is ≡ true
        → fields.new ≡ codes "Price" ∷ fields_in (context_view context.now) (price_view price.now)
        (map (λ t. t.now) territory.entry)) }
    ensures taken { AreOwned owned.now (price_view price.now)
        → IfOk result (λ is. is ≡ is_some (parsed (price_of context.now.opening.now)
        (fields_in (context_view context.now) (price_view price.now)
        (map (λ t. t.now) territory.entry)))) }
{
    let minimum = greater_of(price.minimum, context.minimum);
    take_price(
        alloc,
        context.opening,
        fields,
        &eight_texts(owned, territory, price),
        minimum,
    )
}

// That a Price beside this one, of its type and currency, is left out for its PriceDates alone.
fn closed_reason(
    context: &PriceContext<'_, '_, '_>,
    price: &PriceTexts<'_>,
) -> Option<Reason<'static>>
    ensures { reason_read result ≡ closed_reason (context_view context.now) (price_view price.now) }
{
    let kind = kind_in(context.opening, price);
    if !has_kind(&kind, context.closed) {
        return None;
    }
    Some(Reason::foreign(Foreign::BesideDates, b""))
}

// The fields of the territory that is the world without these countries.
fn world_without<'b>(excluded: &'b Text) -> [&'b [u8]; 3]
    ensures { map (λ t. t.now) result ≡ [] ∷ codes "WORLD" ∷ excluded.now ∷ [] }
{
    let none: &'b [u8] = b"";
    let world: &'b [u8] = b"WORLD";
    let excluded: &'b [u8] = excluded.as_str().as_bytes();
    [none, world, excluded]
}

// Puts the record of a Price that is written as it stands, which the list has, as of the world
// without these countries, where there are such. It says whether the desk takes it so.
fn take_narrowed<'b>(
    alloc: Global,
    context: &PriceContext<'_, '_, '_>,
    owned: &'b Owned,
    excluded: Option<&'b Text>,
    price: &PriceTexts<'b>,
    fields: &mut FieldBuffer,
) -> Result<bool, AllocError>
    ensures record { option_copied excluded.entry ≡ narrowed (context_view context.now) (price_view price.now)
        → AreOwned owned.now (price_view price.now)
        → fields.old ≡ codes "Price" ∷ price_fields (context_view context.now) (price_view price.now)
        → IfOk result (λ is. is ≡ true
        → fields.new ≡ codes "Price" ∷ written_fields (context_view context.now) (price_view price.now)) }
    ensures taken { option_copied excluded.entry ≡ narrowed (context_view context.now) (price_view price.now)
        → AreOwned owned.now (price_view price.now)
        → is_taken (context_view context.now) (price_view price.now) ≡ true
        → IfOk result (λ is. is ≡ is_some (parsed (price_of context.now.opening.now)
        (written_fields (context_view context.now) (price_view price.now)))) }
{
    match excluded {
        None => Ok(true),
        Some(excluded) => {
            let territory = world_without(excluded);
            take_texts(alloc, context, owned, territory, price, fields)
        }
    }
}

// Adds the record of a Price that the desk takes as it stands, which the list has, or gives the
// reason for which it is left out.
fn push_price<'b>(
    alloc: Global,
    context: &PriceContext<'_, '_, '_>,
    owned: &'b Owned,
    excluded: Option<&'b Text>,
    price: &PriceTexts<'b>,
    fields: &mut FieldBuffer,
    records: &mut RecordBuffer,
) -> Result<Option<Reason<'static>>, AllocError>
    ensures reason { option_copied excluded.entry ≡ narrowed (context_view context.now) (price_view price.now)
        → AreOwned owned.now (price_view price.now)
        → is_taken (context_view context.now) (price_view price.now) ≡ true
        → IfOk result (λ reason. reason_read reason
        ≡ long_reason (context_view context.now) (price_view price.now)) }
    ensures record { option_copied excluded.entry ≡ narrowed (context_view context.now) (price_view price.now)
        → AreOwned owned.now (price_view price.now)
        → fields.old ≡ codes "Price" ∷ price_fields (context_view context.now) (price_view price.now)
        → is_taken (context_view context.now) (price_view price.now) ≡ true
        → OnOk result (records.new ≡ records.old ++ outcome_records
        (outcome_of (long_reason (context_view context.now) (price_view price.now))
        (context_view context.now) (price_view price.now))) }
{
    if take_narrowed(alloc, context, owned, excluded, price, fields)? {
        records.push(&fields.as_record())?;
        return Ok(None);
    }
    Ok(Some(Reason::foreign(Foreign::LongTerritory, b"")))
}

// Adds the record of a Price, or gives the reason for which it is left out.
fn write_price<'a>(
    alloc: Global,
    context: &PriceContext<'_, '_, '_>,
    price: &PriceTexts<'a>,
    fields: &mut FieldBuffer,
    records: &mut RecordBuffer,
) -> Result<Option<Reason<'a>>, AllocError>
    ensures reason { IfOk result (λ reason. reason_read reason
        ≡ last_reason (context_view context.now) (price_view price.now)) }
    ensures record { OnOk result (records.new ≡ records.old ++ outcome_records
        (outcome_of (last_reason (context_view context.now) (price_view price.now))
        (context_view context.now) (price_view price.now))) }
{
    let owned = owned_texts(alloc, price)?;
    let territory = area_fields(&price.area, &owned.renamed);
    if !take_texts(alloc, context, &owned, territory, price, fields)? {
        let field = field_reason(alloc, context.opening, &owned.renamed, price)?;
        return match field {
            Some(reason) => Ok(Some(reason)),
            None => Ok(Some(Reason::wrong(Wrong::Price, b""))),
        };
    }
    if let Some(reason) = closed_reason(context, price) {
        return Ok(Some(reason));
    }
    let excluded = narrowed_in(alloc, context, &owned.renamed, price)?;
    push_price(
        alloc,
        context,
        &owned,
        excluded.as_ref(),
        price,
        fields,
        records,
    )
}

// Adds what comes of a Price that is none other than the desk knows, or gives the reason for which
// the desk would not take it.
fn add_known<'a>(
    context: &PriceContext<'_, '_, '_>,
    price: &PriceTexts<'a>,
    fields: &mut FieldBuffer,
    records: &mut RecordBuffer,
    notes: &mut Vec<Note<'a>>,
) -> Result<Option<Reason<'a>>, AllocError>
    ensures { IfOk result (λ reason. AddsUnless (last_reason (context_view context.now) (price_view price.now))
        (context_view context.now) (price_view price.now) (reason_read reason) records.old records.new
        (note_views notes.old.items) (note_views notes.new.items)) }
{
    let alloc = *notes.allocator();
    let left_out = write_price(alloc, context, price, fields, records)?;
    if left_out.is_none() {
        push_territory_notes(notes, &price.area)?;
        push_counted(notes, price)?;
    }
    Ok(left_out)
}

// Adds what comes of a Price that is something: its record, or the reason for which it is left out.
fn add_priced<'a>(
    context: &PriceContext<'_, '_, '_>,
    price: &PriceTexts<'a>,
    fields: &mut FieldBuffer,
    records: &mut RecordBuffer,
    notes: &mut Vec<Note<'a>>,
) -> Result<Option<Reason<'a>>, AllocError>
    ensures { IfOk result (λ reason. AddsUnless
        (first_some (price_reasons (context_view context.now) (price_view price.now)))
        (context_view context.now) (price_view price.now) (reason_read reason) records.old
        records.new (note_views notes.old.items) (note_views notes.new.items)) }
{
    match early_reason(wrong_date(&price.dated), free_reason(price), price) {
        None => add_known(context, price, fields, records, notes),
        Some(reason) => Ok(Some(reason)),
    }
}

/// Whether the desk takes the record of a Price.
pub(crate) fn is_taken<'a>(
    alloc: Global,
    context: &PriceContext<'_, '_, '_>,
    price: &PriceTexts<'a>,
    fields: &mut FieldBuffer,
) -> Result<bool, AllocError>
    ensures { IfOk result
        (λ is. is ≡ is_taken (context_view context.now) (price_view price.now)) }
{
    let owned = owned_texts(alloc, price)?;
    let territory = area_fields(&price.area, &owned.renamed);
    take_texts(alloc, context, &owned, territory, price, fields)
}

/// Adds what comes of a Price: its record, where it has one, and notes on what is left out. The
/// list takes the fields of the record.
pub(crate) fn add_price<'a>(
    context: &PriceContext<'_, '_, '_>,
    price: &PriceTexts<'a>,
    fields: &mut FieldBuffer,
    records: &mut RecordBuffer,
    notes: &mut Vec<Note<'a>>,
) -> Result<(), AllocError>
    ensures records { OnOk result (records.new ≡ records.old
        ++ outcome_records (price_outcome (context_view context.now) (price_view price.now))) }
    ensures notes { OnOk result (note_views notes.new.items ≡ note_views notes.old.items
        ++ outcome_notes (price_outcome (context_view context.now) (price_view price.now))) }
{
    if is_nothing(context, price) {
        return Ok(());
    }
    let left_out = add_priced(context, price, fields, records, notes)?;
    push_reason(notes, price.line, left_out)
}
