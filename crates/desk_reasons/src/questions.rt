//! Why a question over HTTP is a bad query, in words.

ghost use Rattle.std.specs.Prelude.{◌≡◌, IfOk, map};
ghost use Rattle.desk_http.specs.Query.{pairs_of, texts};

use crate::causes::{field_at, place_of, push_broken};
use crate::rows::{Form, QUESTIONS};
use csv_records::fields::FieldBuffer;
use form_urlencoded::parse;
use std::alloc::{AllocError, Global};
use std::borrow::CowStr;

// The names and values of a query.
fn pairs_of<'q>(alloc: Global, query: &'q str) -> Result<Vec<(CowStr<'q>, CowStr<'q>)>, AllocError>
    ensures { IfOk result (λ pairs. map texts pairs.items ≡ pairs_of query.now) }
{
    let mut pairs = Vec::new(alloc);
    for pair in parse(alloc, query.as_bytes()) {
        pairs.push(pair?)?;
    }
    Ok(pairs)
}

// Adds the values of the keys of a question to its request, and says whether each is given once. If
// one is not, this is told.
fn fill(
    text: &mut String,
    request: &mut FieldBuffer,
    form: &Form,
    pairs: &[(CowStr<'_>, CowStr<'_>)],
) -> Result<bool, AllocError> {
    for field in form.fields.iter().skip(1) {
        let key = field.name;
        let mut given = pairs.iter().filter(|pair| pair.0.as_str() == key);
        match (given.next(), given.next()) {
            (Some((_, value)), None) => request.push(value.as_str())?,
            (None, _) if key == "quantity" => {}
            (first, _) => {
                let why = if first.is_none() {
                    "missing"
                } else {
                    "given more than once"
                };
                write!(text, "{key} is {why}")?;
                return Ok(false);
            }
        }
    }
    Ok(true)
}

/// The line on the question at a target, whose query is bad; none where nothing is wrong. The desk is
/// asked a request with the same values.
pub(crate) fn line_of(alloc: Global, target: &str) -> Result<Option<String>, AllocError> {
    let (path, query) = target.split_once('?').unwrap_or((target, ""));
    let path = path.strip_prefix("/articles/").unwrap_or(path);
    let (article, question) = path.split_once('/').unwrap_or((path, ""));
    let form = &QUESTIONS[usize::from(question == "calendar")];
    let mut line = String::from_str(alloc, "onixdesk: bad-query: ")?;
    let mut request = FieldBuffer::new(alloc);
    request.push(form.name)?;
    request.push(article)?;
    let pairs = pairs_of(alloc, query)?;
    if fill(&mut line, &mut request, form, pairs.as_slice())? {
        let request = request.as_record();
        let place = place_of(alloc, "", form, &request)?.unwrap_or(0);
        let Some(field) = form.field(place) else {
            return Ok(None);
        };
        push_broken(&mut line, field, field_at(&request, place))?;
    }
    line.push_str("\n")?;
    Ok(Some(line))
}
