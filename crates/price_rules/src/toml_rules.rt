//! Reading the text of a precedence table.

ghost use Rattle.std.specs.Prelude.{◌≡◌, ◌≤◌, IfOk, IfErr, Ok, codes, length, option_map};
ghost use Rattle.price_rules.specs.RulesFile.{Explains, code_of, codes_at, codes_of, is_rule_key, is_top_key, keys_pass, max_at, precedence_of, rule_of, rules_from, rules_of, series_at, series_of, top_items};
ghost use Rattle.toml.specs.Data.{get_member};
ghost use Rattle.toml.specs.View.{items_view, table_view, view};

use crate::precedence::{PrecedenceFault, Rule};
use onix_terms::amount::Amount;
use onix_terms::code::Code2;
use onix_terms::items::Items;
use onix_terms::series_name::SeriesName;
use std::alloc::{AllocError, Global};
use toml::{Table, Value};

// Whether the table has no key but those of a rule.
fn has_rule_keys(table: &Table) -> bool
    ensures { result ≡ keys_pass is_rule_key (table_view table.now) }
{
    table.keys().all(|key| {
        let key = key.as_str();
        key == "series" || key == "codes" || key == "max"
    })
}

// Whether the table has no key but that of the top-level table.
fn has_top_keys(table: &Table) -> bool
    ensures { result ≡ keys_pass is_top_key (table_view table.now) }
{
    table.keys().all(|key| key.as_str() == "rule")
}

// The series that a text names, or all of them for a star.
fn read_series(text: &str) -> Option<Option<SeriesName>>
    ensures { result ≡ series_of text.now }
{
    if text == "*" {
        return Some(None);
    }
    Some(Some(SeriesName::read(text)?))
}

// The value at a key of the table.
fn member<'a>(table: &'a Table, key: &str) -> Option<&'a Value>
    ensures { option_map (λ value. view value.now) result
        ≡ get_member key.now (table_view table.now) }
{
    table.get(key)
}

// The series of a rule.
fn series_at(table: &Table) -> Option<Option<SeriesName>>
    ensures { result ≡ series_at (get_member (codes "series") (table_view table.now)) }
{
    let value = member(table, "series")?;
    read_series(value.as_str()?)
}

// The greatest amount of a rule, if it has one.
fn max_at(table: &Table) -> Option<Option<Amount>>
    ensures { result ≡ max_at (get_member (codes "max") (table_view table.now)) }
{
    match member(table, "max") {
        None => Some(None),
        Some(value) => Some(Some(Amount::read(value.as_str()?)?)),
    }
}

fn code_of(value: &Value) -> Option<Code2>
    ensures { result ≡ code_of (view value.now) }
{
    Code2::read(value.as_str()?)
}

// The availability codes that values are, or `None` if one of them is not one.
fn read_codes(alloc: Global, items: &[Value]) -> Result<Option<Items<Code2>>, AllocError>
    ensures { IfOk result (λ found. found ≡ codes_of (items_view items.now)) }
{
    let mut found = Items::new(alloc);
    for item in items {
        let Some(code) = code_of(item) else {
            return Ok(None);
        };
        found.push(code)?;
    }
    Ok(Some(found))
}

// The availability codes of a rule.
fn codes_at(alloc: Global, table: &Table) -> Result<Option<Items<Code2>>, AllocError>
    ensures { IfOk result
        (λ found. found ≡ codes_at (get_member (codes "codes") (table_view table.now))) }
{
    let Some(value) = member(table, "codes") else {
        return Ok(None);
    };
    let Some(items) = value.as_array() else {
        return Ok(None);
    };
    if items.is_empty() {
        return Ok(None);
    }
    read_codes(alloc, items.as_slice())
}

// The rule that a value is, or `None` where it is none.
#[tactic(auto, unfolding(crate::specs::RulesFile::rule_of))]
fn read_rule(alloc: Global, value: &Value) -> Result<Option<Rule>, AllocError>
    ensures { IfOk result (λ rule. rule ≡ rule_of (view value.now)) }
{
    let Some(table) = value.as_table() else {
        return Ok(None);
    };
    if !has_rule_keys(table) {
        return Ok(None);
    }
    let Some(series) = series_at(table) else {
        return Ok(None);
    };
    let Some(max) = max_at(table) else {
        return Ok(None);
    };
    let Some(codes) = codes_at(alloc, table)? else {
        return Ok(None);
    };
    Ok(Some(Rule { series, codes, max }))
}

// The rules that the items of the array `rule` are.
fn read_items(alloc: Global, items: &[Value]) -> Result<Vec<Rule>, PrecedenceFault>
    ensures rules { IfOk result (λ rules. rules_from 1 (items_view items.now) ≡ Ok rules.items) }
    ensures few { IfOk result (λ rules. length rules.items ≤ 1_000) }
    ensures fault { IfErr result (Explains (rules_from 1 (items_view items.now))) }
{
    let mut rules = Vec::new(alloc);
    let mut number = 1;
    for item in items {
        if number > 1_000 {
            return Err(PrecedenceFault::BadRule { index: number });
        }
        let Some(rule) = read_rule(alloc, item)? else {
            return Err(PrecedenceFault::BadRule { index: number });
        };
        rules.push(rule)?;
        number += 1;
    }
    Ok(rules)
}

// The rules that the top-level table has.
fn rules_in(alloc: Global, table: &Table) -> Result<Vec<Rule>, PrecedenceFault>
    ensures rules { IfOk result
        (λ rules. rules_of (top_items (table_view table.now)) ≡ Ok rules.items) }
    ensures few { IfOk result (λ rules. length rules.items ≤ 1_000) }
    ensures fault { IfErr result (Explains (rules_of (top_items (table_view table.now)))) }
{
    if !has_top_keys(table) {
        return Err(PrecedenceFault::NotToml);
    }
    let Some(value) = member(table, "rule") else {
        return Ok(Vec::new(alloc));
    };
    let Some(items) = value.as_array() else {
        return Err(PrecedenceFault::NotToml);
    };
    read_items(alloc, items.as_slice())
}

/// The rules that a text of the precedence table has.
#[tactic(auto, unfolding(crate::specs::RulesFile::precedence_of))]
pub fn read_rules(alloc: Global, text: &str) -> Result<Vec<Rule>, PrecedenceFault>
    ensures rules { IfOk result (λ rules. precedence_of text.now ≡ Ok rules.items) }
    ensures few { IfOk result (λ rules. length rules.items ≤ 1_000) }
    ensures fault { IfErr result (Explains (precedence_of text.now)) }
{
    match toml::table_from_str(alloc, text) {
        Ok(table) => rules_in(alloc, &table),
        Err(error) if error.is_memory() => Err(PrecedenceFault::Memory),
        Err(_) => Err(PrecedenceFault::NotToml),
    }
}
