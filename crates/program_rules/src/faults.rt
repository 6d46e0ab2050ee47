//! Why a text is no precedence table or no table of terms. Of an item that is none its reader is asked
//! which key makes it so: each in turn stands in one that is right, in place of that one's own.

use crate::keys::{Form, Key};
use feed_terms::table::Terms;
use price_rules::precedence::Precedence;
use std::alloc::{AllocError, Global};
use std::io::Write;
use toml::{Table, Value};

// A table of one item that is right, but for this key and the one beside it, which are those of
// another.
fn text_with(alloc: Global, form: &Form, item: &Table, judged: &Key) -> Result<String, AllocError> {
    let mut text = format!(in alloc; "[[{}]]\n", form.array)?;
    for key in form.keys {
        let name = key.name;
        if name != judged.name && name != judged.beside {
            text.push_str(key.right)?;
        } else if let Some(value) = item.get(name) {
            write!(text, "{name} = {value}\n")?;
        }
    }
    Ok(text)
}

// That a table has another key than these, with commas between them, where it has one.
fn why_other(alloc: Global, names: &str, table: &Table) -> Result<Option<String>, AllocError> {
    for key in table.keys() {
        let key = key.as_str();
        if !names.split(", ").any(|name| name == key) {
            let why = format!(in alloc; "another key than {names}: {key:?}")?;
            return Ok(Some(why));
        }
    }
    Ok(None)
}

// Why an item is none: another key, or the first of its own for which it is.
fn why_item(alloc: Global, form: &Form, item: Option<&Value>) -> Result<String, AllocError> {
    let Some(item) = item.and_then(Value::as_table) else {
        return String::from_str(alloc, "no table");
    };
    if let Some(why) = why_other(alloc, form.names, item)? {
        return Ok(why);
    }
    for key in form.keys {
        let text = text_with(alloc, form, item, key)?;
        let is_taken = match form.array {
            "rule" => Precedence::read(alloc, text.as_str()).is_ok(),
            _ => Terms::read(alloc, text.as_str()).is_ok(),
        };
        if !is_taken {
            let is = if item.get(key.name).is_some() {
                "not"
            } else {
                "missing; it has to be"
            };
            return format!(in alloc; "{} is {is} {}", key.name, key.rule);
        }
    }
    String::from_str(alloc, "past number 1000")
}

// Why a text is no table, or why the item at a number of its array is none.
fn why(
    alloc: Global,
    form: &Form,
    text: &[u8],
    number: Option<usize>,
) -> Result<String, AllocError> {
    let array = form.array;
    let table = match toml::table_from_slice(alloc, text) {
        Ok(table) => table,
        Err(error) => {
            let place = error.span().map_or(0, |span| span.start);
            let line = text
                .iter()
                .take(place)
                .filter(|byte| **byte == b'\n')
                .count();
            return format!(in alloc; "line {}: {}", line.saturating_add(1), error.message());
        }
    };
    if let Some(number) = number {
        let items = table.get(array).and_then(Value::as_array);
        let item = items.and_then(|items| items.get(number.saturating_sub(1)));
        return why_item(alloc, form, item);
    }
    match why_other(alloc, array, &table)? {
        Some(why) => Ok(why),
        None => format!(in alloc; "{array} is not an array"),
    }
}

/// Writes the line of a fault of the text of this name, of the item at a number where there is one.
/// Without memory it is lost.
pub(crate) fn write_fault<E: Write>(
    alloc: Global,
    form: &Form,
    name: &str,
    text: &[u8],
    number: Option<usize>,
    errors: &mut E,
) {
    let Ok(told) = why(alloc, form, text, number) else {
        return;
    };
    let _ = match number {
        Some(number) => write!(errors, "onixdesk: {name}: {}{number}: {told}\n", form.item),
        None => write!(errors, "onixdesk: {name}: {}{told}\n", form.whole),
    };
}
