//! The JSON of a catalogue.

ghost use Rattle.std.specs.Prelude.{◌≡◌, IfOk, map};
ghost use Rattle.serde_json.specs.View.{view};
ghost use Rattle.catalogue_rules.specs.Records.{records_of};
ghost use Rattle.desk_http.specs.CatalogueJson as json;

use crate::member::Member;
use crate::members::{object_of, object_with};
use crate::to_json::{ToJson, array_of};
use catalogue_rules::catalogue::Catalogue;
use catalogue_rules::entry::Entry;
use onix_records::parts::{Price, ProductSupply, SupplyDetail};
use onix_terms::series_name::SeriesName;
use onix_terms::territory::Territory;
use serde_json::{Value, json};
use std::alloc::{AllocError, Global};

fn territory_json(alloc: Global, territory: &Territory) -> Result<Value, AllocError>
    ensures { IfOk result (λ v. view v ≡ json.territory territory.now) }
{
    let members = [
        Member::Countries("excluded", territory.excluded.as_slice()),
        Member::Countries("included", territory.included.as_slice()),
        Member::Boolean("world", territory.world),
    ];
    object_of(alloc, &members)
}

impl ToJson for Price {
    ghost json_of = { json.price };

    fn to_json(&self, alloc: Global) -> Result<Value, AllocError> {
        let territory = territory_json(alloc, &self.territory)?;
        let members = [
            Member::Amount("amount", &self.amount),
            Member::Text("currency", self.currency.as_str()),
            Member::OptionalDay("from", &self.from),
            Member::Number("minimum", self.minimum.value()),
            Member::Text("type", self.price_type.as_str()),
            Member::OptionalDay("until", &self.until),
        ];
        object_with(alloc, &members, "territory", territory)
    }
}

impl ToJson for SupplyDetail {
    ghost json_of = { json.detail };

    fn to_json(&self, alloc: Global) -> Result<Value, AllocError> {
        let prices = array_of(alloc, self.prices.as_slice())?;
        let supplier = &self.supplier;
        let members = [
            Member::Text("availability", self.availability.as_str()),
            Member::Text("name", supplier.name.as_str()),
            Member::Text("role", supplier.role.as_str()),
            Member::OptionalParty("supplier", &supplier.party),
            Member::OptionalCode("unpriced", &self.unpriced),
        ];
        object_with(alloc, &members, "prices", prices)
    }
}

impl ToJson for ProductSupply {
    ghost json_of = { json.supply };

    fn to_json(&self, alloc: Global) -> Result<Value, AllocError> {
        let details = array_of(alloc, self.details.as_slice())?;
        let market = territory_json(alloc, &self.market)?;
        json!(in alloc; {"details": details, "market": market})
    }
}

fn entry_json(alloc: Global, reference: &str, entry: &Entry) -> Result<Value, AllocError>
    ensures { IfOk result (λ v. view v ≡ json.entry (reference.now, entry.now)) }
{
    let supplies = array_of(alloc, entry.supplies.as_slice())?;
    let members = [
        Member::Identifiers("ids", entry.ids.as_slice()),
        Member::Text("reference", reference),
    ];
    object_with(alloc, &members, "supplies", supplies)
}

fn entry_list(alloc: Global, catalogue: &Catalogue) -> Result<Vec<Value>, AllocError>
    ensures { IfOk result (λ vs. map view vs.items ≡ map json.entry (records_of catalogue.now)) }
{
    let mut list = Vec::new(alloc);
    for (reference, entry) in catalogue.entries() {
        list.push(entry_json(alloc, reference.as_str(), entry)?)?;
    }
    Ok(list)
}

/// The JSON of the catalogue of a series, its records in order of reference.
pub(crate) fn catalogue_json(
    alloc: Global,
    series: &SeriesName,
    catalogue: &Catalogue,
) -> Result<Value, AllocError>
    ensures { IfOk result (λ v. view v ≡ json.catalogue series.now catalogue.now) }
{
    let records = Value::Array(entry_list(alloc, catalogue)?);
    let members = [
        Member::Text("answer", "catalogue"),
        Member::Text("series", series.as_str()),
    ];
    object_with(alloc, &members, "records", records)
}
