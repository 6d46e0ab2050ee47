//! The JSON of terms, and of those that may be missing.

ghost use Rattle.std.specs.Prelude.{◌≡◌, IfOk};
ghost use Rattle.serde_json.specs.Data.{string};
ghost use Rattle.serde_json.specs.View.{view};
ghost use Rattle.desk_http.specs.CatalogueJson.{identifier, party as party_data, type_and_value};
ghost use Rattle.desk_http.specs.Json as json;

use crate::to_json::ToJson;
use onix_records::parts::ProductIdentifier;
use onix_terms::amount::Amount;
use onix_terms::code::{Code2, Country};
use onix_terms::day::Day;
use onix_terms::number::Number;
use onix_terms::party::Party;
use serde_json::{Value, json};
use std::alloc::{AllocError, Global};

/// A number, or null where there is none. It does not allocate.
pub(crate) fn number_or_null(number: &Option<Number>) -> Value
    ensures { view result ≡ json.or_null json.count number.now }
{
    match number {
        None => Value::Null,
        Some(number) => Value::from(number.value()),
    }
}

/// An amount as a text in three decimals.
pub(crate) fn amount_json(alloc: Global, amount: &Amount) -> Result<Value, AllocError>
    ensures { IfOk result (λ v. view v ≡ json.amount amount.now) }
{
    let mut text = String::new(alloc);
    amount.write(&mut text)?;
    Ok(Value::from(text))
}

/// An amount as a text in three decimals, or null where there is none.
pub(crate) fn amount_or_null(alloc: Global, amount: &Option<Amount>) -> Result<Value, AllocError>
    ensures { IfOk result (λ v. view v ≡ json.or_null json.amount amount.now) }
{
    match amount {
        None => Ok(Value::Null),
        Some(amount) => amount_json(alloc, amount),
    }
}

/// A day as a text YYYYMMDD.
pub(crate) fn day_json(alloc: Global, day: &Day) -> Result<Value, AllocError>
    ensures { IfOk result (λ v. view v ≡ json.day day.now) }
{
    let mut text = String::new(alloc);
    day.write(&mut text)?;
    Ok(Value::from(text))
}

/// A day as a text YYYYMMDD, or null where there is none.
pub(crate) fn day_or_null(alloc: Global, day: &Option<Day>) -> Result<Value, AllocError>
    ensures { IfOk result (λ v. view v ≡ json.or_null json.day day.now) }
{
    match day {
        None => Ok(Value::Null),
        Some(day) => day_json(alloc, day),
    }
}

/// A code as a text, or null where there is none.
pub(crate) fn code_or_null(alloc: Global, code: &Option<Code2>) -> Result<Value, AllocError>
    ensures { IfOk result (λ v. view v ≡ json.or_null string code.now) }
{
    match code {
        None => Ok(Value::Null),
        Some(code) => Value::try_from_str(alloc, code.as_str()),
    }
}

fn pair_json(alloc: Global, id_type: Code2, id_value: &str) -> Result<Value, AllocError>
    ensures { IfOk result (λ v. view v ≡ type_and_value id_type id_value.now) }
{
    json!(in alloc; [id_type.as_str(), id_value])
}

/// A type and a value that identify a party, or null where there is none.
pub(crate) fn party_or_null(alloc: Global, party: &Option<Party>) -> Result<Value, AllocError>
    ensures { IfOk result (λ v. view v ≡ json.or_null party_data party.now) }
{
    match party {
        None => Ok(Value::Null),
        Some(party) => pair_json(alloc, party.id_type, party.id_value.as_str()),
    }
}

impl ToJson for ProductIdentifier {
    ghost json_of = { identifier };

    fn to_json(&self, alloc: Global) -> Result<Value, AllocError> {
        pair_json(alloc, self.id_type, self.id_value.as_str())
    }
}

impl ToJson for Country {
    ghost json_of = { string };

    fn to_json(&self, alloc: Global) -> Result<Value, AllocError> {
        Value::try_from_str(alloc, self.as_str())
    }
}
