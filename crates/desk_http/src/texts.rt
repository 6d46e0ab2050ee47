//! The text of an answer with a list, which is written item by item, so that no more of its JSON is
//! held than its text and one item.

ghost use Rattle.std.specs.Prelude.{◌≡◌, ◌≤◌, ◌++◌, ◌∷◌, [], All, IfOk, OnOk, Some, codes, false, map};
ghost use Rattle.std.specs.String.{string_bytes};
ghost use Rattle.serde_json.specs.Data.{array, depth, string};
ghost use Rattle.serde_json.specs.Read.{max_depth, read};
ghost use Rattle.serde_json.specs.View.{items_of, view};
ghost use Rattle.serde_json.specs.Written.{compact_text, has_float, items_text};
ghost use Rattle.json.specs.Print.{quoted};
ghost use Rattle.desk_http.specs.Json.{list_of};
ghost use Rattle.desk_http.specs.private.Sound.{IsSound, offers_json};

use crate::to_json::ToJson;
use onix_terms::isbn13::Isbn13;
use serde_json::Value;
use std::alloc::{AllocError, Global};

// Writes a value behind a text.
fn push_value(alloc: Global, text: &mut String, value: &Value) -> Result<(), AllocError>
    requires plain { has_float (view value.now) ≡ false }
    requires shallow { depth (view value.now) ≤ max_depth }
    ensures text { OnOk result
        (string_bytes text.new ≡ string_bytes text.old ++ compact_text (view value.now)) }
    ensures sound { OnOk result (IsSound (view value.now)) }
{
    let written = value.to_string(alloc)?;
    text.push_str(written.as_str())
}

// Writes a text in quotation marks behind a text.
fn push_quoted(alloc: Global, text: &mut String, inner: &str) -> Result<(), AllocError>
    ensures { OnOk result
        (string_bytes text.new ≡ string_bytes text.old ++ quoted inner.now) }
{
    let value = Value::try_from_str(alloc, inner)?;
    push_value(alloc, text, &value)
}

// Writes a key behind what stands before it.
fn push_key(alloc: Global, text: &mut String, before: &str, key: &str) -> Result<(), AllocError>
    ensures { OnOk result (string_bytes text.new
        ≡ string_bytes text.old ++ (before.now ++ (quoted key.now ++ 58 ∷ []))) }
{
    text.push_str(before)?;
    push_quoted(alloc, text, key)?;
    text.push_str(":")
}

// Writes the JSON of an item behind what stands before it.
fn push_item<T: ToJson>(
    alloc: Global,
    text: &mut String,
    before: &str,
    item: &T,
) -> Result<(), AllocError>
    requires plain { has_float (T.json_of item.now) ≡ false }
    requires shallow { depth (T.json_of item.now) ≤ max_depth }
    ensures text { OnOk result (string_bytes text.new
        ≡ string_bytes text.old ++ (before.now ++ compact_text (T.json_of item.now))) }
    ensures sound { OnOk result (IsSound (T.json_of item.now)) }
{
    let value = item.to_json(alloc)?;
    text.push_str(before)?;
    push_value(alloc, text, &value)
}

// Writes the items of a list behind its bracket, and the bracket that closes it.
fn push_items<T: ToJson>(alloc: Global, text: &mut String, items: &[T]) -> Result<(), AllocError>
    requires plain { (item : T) → has_float (T.json_of item) ≡ false }
    requires shallow { (item : T) → depth (T.json_of item) ≤ max_depth }
    ensures text { OnOk result (string_bytes text.new
        ≡ string_bytes text.old ++ items_text false (items_of (map T.json_of items.now))) }
    ensures sound { OnOk result (All (λ item. IsSound (T.json_of item)) items.now) }
{
    let Some((first, rest)) = items.split_first() else {
        return text.push_str("]");
    };
    push_item(alloc, text, "", first)?;
    for item in rest {
        push_item(alloc, text, ",", item)?;
    }
    text.push_str("]")
}

/// The text of an answer of that name about an article: its offers, each with its JSON. Whoever reads
/// it as JSON gets the answer's data. Fails only where memory runs out.
pub(crate) fn offers_text<T: ToJson>(
    alloc: Global,
    answer: &str,
    isbn: &Isbn13,
    offers: &[T],
) -> Result<String, AllocError>
    requires plain { (item : T) → has_float (T.json_of item) ≡ false }
    requires shallow { (item : T) → depth (T.json_of item) ≤ 3 }
    ensures text { IfOk result (λ text. string_bytes text
        ≡ compact_text (offers_json answer.now isbn.now (list_of T.json_of offers.now))) }
    ensures reads { IfOk result (λ text. read (string_bytes text)
        ≡ Some (offers_json answer.now isbn.now (list_of T.json_of offers.now))) }
{
    let mut text = String::new(alloc);
    push_key(alloc, &mut text, "{", "answer")?;
    push_quoted(alloc, &mut text, answer)?;
    push_key(alloc, &mut text, ",", "isbn")?;
    push_quoted(alloc, &mut text, isbn.as_str())?;
    push_key(alloc, &mut text, ",", "offers")?;
    text.push_str("[")?;
    push_items(alloc, &mut text, offers)?;
    text.push_str("}")?;
    Ok(text)
}
