//! The JSON of answers about the offers of an article.

ghost use Rattle.std.specs.Prelude.{◌≡◌, IfOk};
ghost use Rattle.serde_json.specs.View.{view};
ghost use Rattle.desk_http.specs.Json.{or_null};
ghost use Rattle.desk_http.specs.OfferJson as json;

use crate::member::Member;
use crate::members::{object_of, object_with};
use crate::to_json::{ToJson, array_of};
use onix_terms::isbn13::Isbn13;
use price_rules::calendar::Span;
use serde_json::Value;
use series_rules::answers::{ChosenOffer, OfferCalendar, PricedOffer};
use std::alloc::{AllocError, Global};

impl ToJson for PricedOffer {
    ghost json_of = { json.priced };

    fn to_json(&self, alloc: Global) -> Result<Value, AllocError> {
        let offer = &self.offer;
        let members = [
            Member::OptionalAmount("amount", &self.amount),
            Member::Text("availability", offer.availability.as_str()),
            Member::Number("place", offer.place),
            Member::Text("reference", offer.reference.as_str()),
            Member::Text("series", offer.series.as_str()),
        ];
        object_of(alloc, &members)
    }
}

fn chosen_offer_json(alloc: Global, chosen: &ChosenOffer) -> Result<Value, AllocError>
    ensures { IfOk result (λ v. view v ≡ json.chosen_offer chosen.now) }
{
    let offer = &chosen.offer;
    let members = [
        Member::Amount("amount", &chosen.amount),
        Member::Text("availability", offer.availability.as_str()),
        Member::Number("place", offer.place),
        Member::Text("reference", offer.reference.as_str()),
        Member::Number("rule", chosen.rule),
        Member::Text("series", offer.series.as_str()),
    ];
    object_of(alloc, &members)
}

fn chosen_json(alloc: Global, choice: &Option<ChosenOffer>) -> Result<Value, AllocError>
    ensures { IfOk result (λ v. view v ≡ or_null json.chosen_offer choice.now) }
{
    match choice {
        None => Ok(Value::Null),
        Some(chosen) => chosen_offer_json(alloc, chosen),
    }
}

/// The JSON of the choice among the offers of an article.
pub(crate) fn choice_json(
    alloc: Global,
    isbn: &Isbn13,
    choice: &Option<ChosenOffer>,
) -> Result<Value, AllocError>
    ensures { IfOk result (λ v. view v ≡ json.choice isbn.now choice.now) }
{
    let chosen = chosen_json(alloc, choice)?;
    let members = [
        Member::Text("answer", "choice"),
        Member::Text("isbn", isbn.as_str()),
    ];
    object_with(alloc, &members, "choice", chosen)
}

impl ToJson for Span {
    ghost json_of = { json.span };

    fn to_json(&self, alloc: Global) -> Result<Value, AllocError> {
        let members = [
            Member::OptionalAmount("amount", &self.amount),
            Member::Day("first", &self.first),
            Member::Day("last", &self.last),
        ];
        object_of(alloc, &members)
    }
}

impl ToJson for OfferCalendar {
    ghost json_of = { json.dated };

    fn to_json(&self, alloc: Global) -> Result<Value, AllocError> {
        let spans = array_of(alloc, self.spans.as_slice())?;
        let offer = &self.offer;
        let members = [
            Member::Text("availability", offer.availability.as_str()),
            Member::Number("place", offer.place),
            Member::Text("reference", offer.reference.as_str()),
            Member::Text("series", offer.series.as_str()),
        ];
        object_with(alloc, &members, "spans", spans)
    }
}
