//! Where a Market or a Price holds.

ghost use Rattle.std.specs.Prelude.{◌≡◌, ◌++◌, ◌<◌, ◌&&◌, [], None, Some, IfOk, OnOk, if◌then◌else◌, is_some, map, option_map};
ghost use Rattle.std.specs.Option.{unwrap_or};
ghost use Rattle.feed_mapping.specs.Markets.{IsFilled, supply_record, union_fields};
ghost use Rattle.feed_mapping.specs.Notes.{note_views, reason_view, wrong};
ghost use Rattle.feed_mapping.specs.PriceViews.{reason_read, text_view};
ghost use Rattle.feed_mapping.specs.Records.{clean, first_some, parsed_term};
ghost use Rattle.feed_mapping.specs.Territories.{AreRenamed, area_fields, area_in, area_reasons, area_reason, area_view, country_as_region, form_reasons, has_country, is_silent, market_of, territory_notes, unsupported};
ghost use Rattle.feed_mapping.specs.declared.notes.Wrong.TheVariants as bad;
ghost use Rattle.onix_records.specs.Fields.{territory_fields};
ghost use Rattle.onix_records.specs.Gives.{Gives};
ghost use Rattle.onix_records.specs.Supply.{supply_of};
ghost use Rattle.feed_mapping.specs.Regions.{names_world};
ghost use Rattle.onix_terms.specs.Territory.{countries_of, world_text};

use crate::again::again_in;
use crate::elements::{first_composite, text_or_empty};
use crate::notes::{Foreign, Note, Reason, Wrong};
use crate::records::{former, push_texts, unless, utf8_text};
use crate::regions::{
    countries_written, first_region, names_world, push_other_names, push_regions,
    region_of_no_country, renamed, two_letters_in,
};
use csv_records::fields::FieldBuffer;
use feed_outline::{Elements, Line};
use onix_records::fields::read_fields;
use onix_records::parts::ProductSupply;
use onix_records::row::RowFault;
use onix_records::supply::read_supply;
use onix_terms::countries::{countries_text, read_countries};
use onix_terms::territory::{TermFault, Territory};
use std::alloc::{AllocError, Global};

/// Where a Market or a Price holds: the line of its Territory, where it has one, the four texts in
/// that, each empty where it has none, and the name of an element of the Market or the Price that
/// comes again, though it does not repeat.
#[derive(Clone, Copy)]
pub struct Area<'a> {
    pub line: Option<&'a Line>,
    pub included: &'a [u8],
    pub regions_included: &'a [u8],
    pub excluded: &'a [u8],
    pub regions_excluded: &'a [u8],
    pub again: Option<&'static [u8]>,
}

/// Where a Market or a Price holds, by the elements in it. Without a
/// Territory it is the world.
pub fn area_in<'a>(elements: &Elements<'a>) -> Area<'a>
    ensures { area_view result ≡ area_in elements.now }
{
    let again = again_in(elements);
    match first_composite(b"Territory", elements) {
        None => Area {
            line: None,
            included: b"",
            regions_included: b"",
            excluded: b"",
            regions_excluded: b"",
            again,
        },
        Some(territory) => Area {
            line: Some(territory.line),
            included: text_or_empty(b"CountriesIncluded", &territory.below),
            regions_included: text_or_empty(b"RegionsIncluded", &territory.below),
            excluded: text_or_empty(b"CountriesExcluded", &territory.below),
            regions_excluded: text_or_empty(b"RegionsExcluded", &territory.below),
            again,
        },
    }
}

// Whether a country or the world is included.
fn has_country(area: &Area<'_>) -> bool
    ensures { result ≡ has_country (area_view area.now) }
{
    !area.included.is_empty() || names_world(area.regions_included)
}

// Two letters among the regions, without which the territory would hold where it must not.
fn country_as_region<'a>(area: &Area<'a>) -> Option<&'a [u8]>
    ensures { option_map (λ r. r.now) result ≡ country_as_region (area_view area.now) }
{
    if !has_country(area) {
        if let Some(region) = two_letters_in(area.regions_included) {
            return Some(region);
        }
    }
    two_letters_in(area.regions_excluded)
}

// A reason for what the desk would not take, where there is a text that is one.
fn because<'a>(kind: Wrong, text: Option<&'a [u8]>) -> Option<Reason<'a>>
    ensures { reason_read result ≡ option_map (wrong kind) (text_view text.entry) }
{
    match text {
        Some(text) => Some(Reason::wrong(kind, text)),
        None => None,
    }
}

// That a Territory has no text.
fn empty_reason(area: &Area<'_>) -> Option<Reason<'static>>
    ensures { reason_read result
        ≡ (if is_some (area_view area.now).territory && is_silent (area_view area.now)
        then Some (wrong bad.EmptyTerritory []) else None) }
{
    let is_silent = area.included.is_empty()
        && area.regions_included.is_empty()
        && area.excluded.is_empty()
        && area.regions_excluded.is_empty();
    if area.line.is_some() && is_silent {
        Some(Reason::wrong(Wrong::EmptyTerritory, b""))
    } else {
        None
    }
}

/// Why a territory does not say where, or says it in a form that does not count.
pub(crate) fn form_reason<'a>(area: &Area<'a>) -> Option<Reason<'a>>
    ensures { reason_read result ≡ first_some (form_reasons (area_view area.now)) }
{
    let country = because(Wrong::CountryAsRegion, country_as_region(area));
    let again = because(Wrong::ComesAgain, area.again);
    former(again, former(empty_reason(area), former(country, None)))
}

/// Why the desk does not support a territory, whatever is left out of it.
pub fn unsupported<'a>(area: &Area<'a>) -> Option<Reason<'a>>
    ensures { reason_read result ≡ unsupported (area_view area.now) }
{
    if !has_country(area) {
        if let Some(text) = first_region(area.regions_included) {
            return Some(Reason::foreign(Foreign::RegionAlone, text));
        }
    }
    match region_of_no_country(area.regions_excluded) {
        Some(text) => Some(Reason::foreign(Foreign::RegionOfNoCountry, text)),
        None => None,
    }
}

/// What of the countries of a territory is renamed.
#[derive(Drop)]
pub struct Renamed {
    pub(crate) included: Option<Vec<u8>>,
    pub(crate) excluded: Option<Vec<u8>>,
}

/// What is renamed of the countries of a territory.
pub(crate) fn renamed_in(alloc: Global, area: &Area<'_>) -> Result<Renamed, AllocError>
    ensures { IfOk result (λ r. AreRenamed r (area_view area.now)) }
{
    Ok(Renamed {
        included: renamed(alloc, area.included)?,
        excluded: renamed(alloc, area.excluded)?,
    })
}

/// RegionsIncluded as they are written: `WORLD` alone.
pub(crate) fn world_field(regions: &[u8]) -> &'static [u8]
    ensures { result.now ≡ world_text (names_world regions.now) }
{
    if names_world(regions) { b"WORLD" } else { b"" }
}

/// CountriesIncluded, RegionsIncluded and CountriesExcluded as they are written: countries by their
/// codes, of the regions `WORLD` alone.
pub(crate) fn area_fields<'b>(area: &'b Area<'_>, renamed: &'b Renamed) -> [&'b [u8]; 3]
    ensures { AreRenamed renamed.now (area_view area.now)
        → map (λ t. t.now) result ≡ area_fields (area_view area.now) }
{
    let included: &'b [u8] = countries_written(area.included, &renamed.included);
    let world: &'b [u8] = world_field(area.regions_included);
    let excluded: &'b [u8] = countries_written(area.excluded, &renamed.excluded);
    [included, world, excluded]
}

/// Adds the notes on a territory that the desk supports.
pub(crate) fn push_territory_notes<'a>(
    notes: &mut Vec<Note<'a>>,
    area: &Area<'a>,
) -> Result<(), AllocError>
    ensures { OnOk result (note_views notes.new.items
        ≡ note_views notes.old.items ++ territory_notes (area_view area.now)) }
{
    let Some(line) = area.line else {
        return Ok(());
    };
    push_regions(notes, line, Foreign::RegionIncluded, area.regions_included)?;
    push_regions(notes, line, Foreign::RegionExcluded, area.regions_excluded)?;
    push_other_names(notes, line, area.included)?;
    push_other_names(notes, line, area.excluded)
}

// The market that the fields of a record say.
fn read_fields_of_market(alloc: Global, buffer: &FieldBuffer) -> Result<ProductSupply, RowFault>
    ensures { Gives result (clean supply_of buffer.now) }
{
    let record = buffer.as_record();
    let mut fields = Vec::new(alloc);
    read_fields(&record, &mut fields)?;
    read_supply(alloc, &fields)
}

/// The market of a Territory, as the desk reads it. `Wrong` exactly where it reads none.
pub(crate) fn read_market(
    alloc: Global,
    area: &Area<'_>,
    renamed: &Renamed,
) -> Result<ProductSupply, RowFault>
    ensures { AreRenamed renamed.now (area_view area.now)
        → Gives result (market_of (area_view area.now)) }
{
    let mut fields = FieldBuffer::new(alloc);
    push_texts(&mut fields, &area_fields(area, renamed))?;
    read_fields_of_market(alloc, &fields)
}

fn are_countries(alloc: Global, text: &[u8]) -> Result<bool, AllocError>
    ensures { IfOk result (λ is. is ≡ is_some (parsed_term countries_of text.now)) }
{
    let Some(text) = utf8_text(text) else {
        return Ok(false);
    };
    match read_countries(alloc, text) {
        Ok(_) => Ok(true),
        Err(TermFault::NotATerm) => Ok(false),
        Err(TermFault::Memory) => Err(AllocError),
    }
}

/// The first of the texts of a territory that is no countries, or that the desk would not take it
/// for another reason.
pub(crate) fn countries_reason<'a>(
    alloc: Global,
    area: &Area<'a>,
    renamed: &Renamed,
) -> Result<Reason<'a>, AllocError>
    ensures { AreRenamed renamed.now (area_view area.now) → IfOk result (λ kind. reason_view kind
        ≡ unwrap_or (first_some (area_reasons (area_view area.now))) (wrong bad.Territory [])) }
{
    let included = unless(
        are_countries(alloc, countries_written(area.included, &renamed.included))?,
        Wrong::CountriesIncluded,
        area.included,
    );
    let excluded = unless(
        are_countries(alloc, countries_written(area.excluded, &renamed.excluded))?,
        Wrong::CountriesExcluded,
        area.excluded,
    );
    match former(included, excluded) {
        Some(reason) => Ok(reason),
        None => Ok(Reason::wrong(Wrong::Territory, b"")),
    }
}

/// Why the desk would not take a territory, where it would not.
pub(crate) fn area_reason<'a>(
    alloc: Global,
    area: &Area<'a>,
    renamed: &Renamed,
) -> Result<Option<Reason<'a>>, AllocError>
    ensures { AreRenamed renamed.now (area_view area.now)
        → IfOk result (λ reason. reason_read reason ≡ area_reason (area_view area.now)) }
{
    match read_market(alloc, area, renamed) {
        Ok(_) => Ok(None),
        Err(RowFault::Wrong) => Ok(Some(countries_reason(alloc, area, renamed)?)),
        Err(RowFault::Memory) => Err(AllocError),
    }
}

// Adds the three fields of a territory, written out.
fn push_territory(
    alloc: Global,
    fields: &mut FieldBuffer,
    territory: &Territory,
) -> Result<(), AllocError>
    ensures { OnOk result (fields.new ≡ fields.old ++ territory_fields territory.now) }
{
    fields.push(countries_text(alloc, territory.included.as_slice())?.as_str())?;
    fields.push(if territory.world { "WORLD" } else { "" })?;
    fields.push(countries_text(alloc, territory.excluded.as_slice())?.as_str())
}

// The market of a territory that is written out.
fn reread_market(alloc: Global, territory: &Territory) -> Result<ProductSupply, RowFault>
    ensures { Gives result (clean supply_of (territory_fields territory.now)) }
{
    let mut fields = FieldBuffer::new(alloc);
    push_territory(alloc, &mut fields, territory)?;
    read_fields_of_market(alloc, &fields)
}

/// Puts the record of a ProductSupply with this Territory into the buffer, as it stands. The
/// desk takes it.
pub(crate) fn fill_as_it_stands(
    alloc: Global,
    fields: &mut FieldBuffer,
    area: &Area<'_>,
) -> Result<(), AllocError>
    ensures { OnOk result (fields.new ≡ supply_record (area_fields (area_view area.now))) }
{
    let renamed = renamed_in(alloc, area)?;
    fields.clear();
    fields.push("ProductSupply")?;
    match push_texts(fields, &area_fields(area, &renamed)) {
        Ok(()) => Ok(()),
        // The desk takes the territory, so its texts are UTF-8, and it is memory that ran out.
        Err(_) => Err(AllocError),
    }
}

/// Puts the record of a ProductSupply with this union of territories into the buffer. It is false
/// where the desk would not take it, since it is too long.
pub(crate) fn fill_as_union(
    alloc: Global,
    fields: &mut FieldBuffer,
    territory: &Territory,
) -> Result<bool, AllocError>
    ensures { IfOk result (λ is. IsFilled is fields.new (union_fields territory.now)) }
{
    match reread_market(alloc, territory) {
        Ok(_) => {
            fields.clear();
            fields.push("ProductSupply")?;
            push_territory(alloc, fields, territory)?;
            Ok(true)
        }
        Err(RowFault::Wrong) => Ok(false),
        Err(RowFault::Memory) => Err(AllocError),
    }
}
