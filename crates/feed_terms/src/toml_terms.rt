//! Reading the text of a table of terms.

ghost use Rattle.std.specs.Prelude.{◌≡◌, ◌≤◌, ◌+◌, [], IfOk, IfErr, Ok, Some, None, codes, length, option_map, if◌then◌else◌};
ghost use Rattle.feed_terms.specs.declared.term.TermsFault.TheVariants.{BadTerm};
ghost use Rattle.price_rules.specs.RulesFile.{code_of, keys_pass};
ghost use Rattle.onix_terms.specs.Code.{currency_of};
ghost use Rattle.toml.specs.Data.{get_member};
ghost use Rattle.toml.specs.View.{items_view, table_view, view};
ghost use Rattle.feed_terms.specs.TermsFile.{Explains, any_percent, array_at, codes_at, is_discount, is_spaced, is_term_key, is_top_key, net_of, optional_at, rate_of, scheme_at, scheme_in, scheme_of, table_of, term_in, term_of, terms_behind, terms_of, text_at, top_items, typed_behind, typed_in, typed_of, types_behind};

use crate::fits::has_type;
use crate::percent::Percent;
use crate::term::{Rate, Term, TermsFault};
use onix_records::fields::is_clean;
use onix_terms::code::{Code2, Currency};
use onix_terms::items::Items;
use onix_terms::text::Text;
use std::alloc::{AllocError, Global};
use toml::{Table, Value};

/// The most terms that a table has.
const MOST_TERMS: usize = 1_000;

// Whether the table has no key but those of a term.
fn has_term_keys(table: &Table) -> bool
    ensures { result ≡ keys_pass is_term_key (table_view table.now) }
{
    table.keys().all(|key| {
        let key = key.as_str();
        key == "types"
            || key == "codes"
            || key == "scheme"
            || key == "supplier"
            || key == "currency"
            || key == "net"
            || key == "percent"
            || key == "tax"
    })
}

// Whether the table has no key but that of the top-level table.
fn has_top_keys(table: &Table) -> bool
    ensures { result ≡ keys_pass is_top_key (table_view table.now) }
{
    table.keys().all(|key| key.as_str() == "term")
}

// The value at a key of the table.
fn member<'a>(table: &'a Table, key: &str) -> Option<&'a Value>
    ensures { option_map (λ value. view value.now) result
        ≡ get_member key.now (table_view table.now) }
{
    table.get(key)
}

// Whether a text is not empty and has no space at its ends, nor two in a row.
fn is_spaced(text: &[u8]) -> bool
    ensures { result ≡ is_spaced text.now }
{
    let mut behind_space = true;
    for byte in text {
        let is_space = *byte == b' ';
        if behind_space && is_space {
            return false;
        }
        behind_space = is_space;
    }
    !behind_space
}

// Whether a text is a value with its type.
fn is_typed(text: &str) -> bool
    ensures { typed_of text.now ≡ (if result then Some text.now else None) }
{
    match text.as_bytes() {
        [tens, ones, comma, value @ ..] => {
            tens.is_ascii_digit()
                && ones.is_ascii_digit()
                && *comma == b','
                && is_clean(value)
                && is_spaced(value)
        }
        _ => false,
    }
}

// A value with its type.
fn read_typed(alloc: Global, text: &str) -> Result<Option<Text>, AllocError>
    ensures { IfOk result (λ found. found ≡ typed_of text.now) }
{
    if !is_typed(text) {
        return Ok(None);
    }
    Ok(Some(Text::from_str(alloc, text)?))
}

// A discount, or that it stands in the feed.
fn read_discount(text: &str) -> Option<Rate>
    ensures { result ≡ rate_of is_discount text.now }
{
    if text == "feed" {
        return Some(Rate::Feed);
    }
    let percent = Percent::read(text)?;
    if percent.hundredths() > 10_000 {
        return None;
    }
    Some(Rate::Fixed(percent))
}

// A tax, or that it stands in the feed.
fn read_tax(text: &str) -> Option<Rate>
    ensures { result ≡ rate_of any_percent text.now }
{
    if text == "feed" {
        return Some(Rate::Feed);
    }
    Some(Rate::Fixed(Percent::read(text)?))
}

fn code_of(value: &Value) -> Option<Code2>
    ensures { result ≡ code_of (view value.now) }
{
    Code2::read(value.as_str()?)
}

// The types that values are, none twice, or `None` where they are not.
fn read_types(alloc: Global, items: &[Value]) -> Result<Option<Items<Code2>>, AllocError>
    ensures { IfOk result (λ found. found ≡ types_behind [] (items_view items.now)) }
{
    let mut found = Items::new(alloc);
    for item in items {
        let Some(code) = code_of(item) else {
            return Ok(None);
        };
        if has_type(found.as_slice(), code) {
            return Ok(None);
        }
        found.push(code)?;
    }
    Ok(Some(found))
}

// The discount code that a value is.
fn typed_in(alloc: Global, value: &Value) -> Result<Option<Text>, AllocError>
    ensures { IfOk result (λ found. found ≡ typed_in (view value.now)) }
{
    match value.as_str() {
        Some(text) => read_typed(alloc, text),
        None => Ok(None),
    }
}

// The discount codes that values are, or `None` where one of them is none.
fn read_codes(alloc: Global, items: &[Value]) -> Result<Option<Items<Text>>, AllocError>
    ensures { IfOk result (λ found. found ≡ typed_behind [] (items_view items.now)) }
{
    let mut found = Items::new(alloc);
    for item in items {
        let Some(code) = typed_in(alloc, item)? else {
            return Ok(None);
        };
        found.push(code)?;
    }
    Ok(Some(found))
}

// The types of a term.
fn types_at(alloc: Global, table: &Table) -> Result<Option<Items<Code2>>, AllocError>
    ensures { IfOk result (λ found. found
        ≡ array_at (types_behind []) (get_member (codes "types") (table_view table.now))) }
{
    let Some(value) = member(table, "types") else {
        return Ok(None);
    };
    let Some(items) = value.as_array() else {
        return Ok(None);
    };
    if items.is_empty() {
        return Ok(None);
    }
    read_types(alloc, items.as_slice())
}

// The discount codes of an array of one or more.
fn codes_in(alloc: Global, value: &Value) -> Result<Option<Items<Text>>, AllocError>
    ensures { IfOk result (λ found. found
        ≡ array_at (typed_behind []) (Some (view value.now))) }
{
    let Some(items) = value.as_array() else {
        return Ok(None);
    };
    if items.is_empty() {
        return Ok(None);
    }
    read_codes(alloc, items.as_slice())
}

// The discount codes of a term, if it has such.
fn codes_at(alloc: Global, table: &Table) -> Result<Option<Option<Items<Text>>>, AllocError>
    ensures { IfOk result (λ found. found
        ≡ codes_at (get_member (codes "codes") (table_view table.now))) }
{
    let Some(value) = member(table, "codes") else {
        return Ok(Some(None));
    };
    match codes_in(alloc, value)? {
        Some(found) => Ok(Some(Some(found))),
        None => Ok(None),
    }
}

// Whether a text may be the name of a scheme.
fn is_scheme(text: &str) -> bool
    ensures { scheme_of text.now ≡ (if result then Some text.now else None) }
{
    let bytes = text.as_bytes();
    is_clean(bytes) && is_spaced(bytes)
}

// The name of a scheme.
fn read_scheme(alloc: Global, text: &str) -> Result<Option<Text>, AllocError>
    ensures { IfOk result (λ found. found ≡ scheme_of text.now) }
{
    if !is_scheme(text) {
        return Ok(None);
    }
    Ok(Some(Text::from_str(alloc, text)?))
}

// The scheme that a value is.
fn scheme_in(alloc: Global, value: &Value) -> Result<Option<Text>, AllocError>
    ensures { IfOk result (λ found. found ≡ scheme_in (view value.now)) }
{
    match value.as_str() {
        Some(text) => read_scheme(alloc, text),
        None => Ok(None),
    }
}

// The scheme of the codes of a term, if it has one: it has codes then.
fn scheme_at(
    alloc: Global,
    has_codes: bool,
    table: &Table,
) -> Result<Option<Option<Text>>, AllocError>
    ensures { IfOk result (λ found. found
        ≡ scheme_at has_codes (get_member (codes "scheme") (table_view table.now))) }
{
    let Some(value) = member(table, "scheme") else {
        return Ok(Some(None));
    };
    if !has_codes {
        return Ok(None);
    }
    match scheme_in(alloc, value)? {
        Some(text) => Ok(Some(Some(text))),
        None => Ok(None),
    }
}

// The supplier of a term, if it has one.
fn supplier_at(alloc: Global, table: &Table) -> Result<Option<Option<Text>>, AllocError>
    ensures { IfOk result (λ found. found
        ≡ optional_at typed_of (get_member (codes "supplier") (table_view table.now))) }
{
    let Some(value) = member(table, "supplier") else {
        return Ok(Some(None));
    };
    match typed_in(alloc, value)? {
        Some(text) => Ok(Some(Some(text))),
        None => Ok(None),
    }
}

// The currency of a term, if it has one.
fn currency_at(table: &Table) -> Option<Option<Currency>>
    ensures { result
        ≡ optional_at currency_of (get_member (codes "currency") (table_view table.now)) }
{
    match member(table, "currency") {
        None => Some(None),
        Some(value) => Some(Some(Currency::read(value.as_str()?)?)),
    }
}

// The type of the net prices of a term, which is none of its types.
fn net_at(types: &[Code2], table: &Table) -> Option<Code2>
    ensures { result
        ≡ text_at (net_of types.now) (get_member (codes "net") (table_view table.now)) }
{
    let net = Code2::read(member(table, "net")?.as_str()?)?;
    if has_type(types, net) {
        return None;
    }
    Some(net)
}

// The discount of a term.
fn percent_at(table: &Table) -> Option<Rate>
    ensures { result ≡ text_at (rate_of is_discount)
        (get_member (codes "percent") (table_view table.now)) }
{
    read_discount(member(table, "percent")?.as_str()?)
}

// The tax of a term, if it has one.
fn tax_at(table: &Table) -> Option<Option<Rate>>
    ensures { result ≡ optional_at (rate_of any_percent)
        (get_member (codes "tax") (table_view table.now)) }
{
    match member(table, "tax") {
        None => Some(None),
        Some(value) => Some(Some(read_tax(value.as_str()?)?)),
    }
}

// The term that a table is, or `None` where it is none.
fn term_in(alloc: Global, table: &Table) -> Result<Option<Term>, AllocError>
    ensures { IfOk result (λ term. term ≡ term_in (table_view table.now)) }
{
    if !has_term_keys(table) {
        return Ok(None);
    }
    let Some(types) = types_at(alloc, table)? else {
        return Ok(None);
    };
    let Some(codes) = codes_at(alloc, table)? else {
        return Ok(None);
    };
    let Some(scheme) = scheme_at(alloc, codes.is_some(), table)? else {
        return Ok(None);
    };
    let Some(supplier) = supplier_at(alloc, table)? else {
        return Ok(None);
    };
    let Some(currency) = currency_at(table) else {
        return Ok(None);
    };
    let Some(net) = net_at(types.as_slice(), table) else {
        return Ok(None);
    };
    let Some(percent) = percent_at(table) else {
        return Ok(None);
    };
    let Some(tax) = tax_at(table) else {
        return Ok(None);
    };
    Ok(Some(Term {
        types,
        codes,
        scheme,
        supplier,
        currency,
        net,
        percent,
        tax,
    }))
}

// The term that a value is, or `None` where it is none.
#[tactic(auto, unfolding(crate::specs::TermsFile::term_of))]
fn read_term(alloc: Global, value: &Value) -> Result<Option<Term>, AllocError>
    ensures { IfOk result (λ term. term ≡ term_of (view value.now)) }
{
    let Some(table) = value.as_table() else {
        return Ok(None);
    };
    term_in(alloc, table)
}

// That the item behind so many terms is none.
fn bad_term(before: usize) -> TermsFault
    requires { before ≤ 1_000 }
    ensures { result ≡ BadTerm (before + 1) }
{
    TermsFault::BadTerm {
        index: before as u32 + 1,
    }
}

// The terms that the items of the array `term` are.
fn read_items(alloc: Global, items: &[Value]) -> Result<Vec<Term>, TermsFault>
    ensures terms { IfOk result (λ terms. terms_behind [] (items_view items.now) ≡ Ok terms.items) }
    ensures few { IfOk result (λ terms. length terms.items ≤ 1_000) }
    ensures fault { IfErr result (Explains (terms_behind [] (items_view items.now))) }
{
    let mut terms = Vec::new(alloc);
    for item in items {
        if terms.len() >= MOST_TERMS {
            return Err(bad_term(terms.len()));
        }
        let Some(term) = read_term(alloc, item)? else {
            return Err(bad_term(terms.len()));
        };
        terms.push(term)?;
    }
    Ok(terms)
}

// The terms that the top-level table has.
fn terms_in(alloc: Global, table: &Table) -> Result<Vec<Term>, TermsFault>
    ensures terms { IfOk result
        (λ terms. terms_of (top_items (table_view table.now)) ≡ Ok terms.items) }
    ensures few { IfOk result (λ terms. length terms.items ≤ 1_000) }
    ensures fault { IfErr result (Explains (terms_of (top_items (table_view table.now)))) }
{
    if !has_top_keys(table) {
        return Err(TermsFault::NotToml);
    }
    let Some(value) = member(table, "term") else {
        return Ok(Vec::new(alloc));
    };
    let Some(items) = value.as_array() else {
        return Err(TermsFault::NotToml);
    };
    read_items(alloc, items.as_slice())
}

/// The terms that a text of a table has.
#[tactic(auto, unfolding(crate::specs::TermsFile::table_of))]
pub(crate) fn read_table(alloc: Global, text: &str) -> Result<Vec<Term>, TermsFault>
    ensures terms { IfOk result (λ terms. table_of text.now ≡ Ok terms.items) }
    ensures few { IfOk result (λ terms. length terms.items ≤ 1_000) }
    ensures fault { IfErr result (Explains (table_of text.now)) }
{
    match toml::table_from_str(alloc, text) {
        Ok(table) => terms_in(alloc, &table),
        Err(error) if error.is_memory() => Err(TermsFault::Memory),
        Err(_) => Err(TermsFault::NotToml),
    }
}
