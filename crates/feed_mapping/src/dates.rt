//! The days between which a Price holds.

ghost use Rattle.std.specs.Prelude.{◌≡◌, ◌++◌, ◌∷◌, [], None, codes, map, option_and_then, option_map};
ghost use Rattle.std.specs.List.{list_any};
ghost use Rattle.std.specs.Str.{bytes_eq};
ghost use Rattle.std.specs.Result.{result_err, result_unwrap_or};
ghost use Rattle.feed_mapping.specs.Elements.{element_view};
ghost use Rattle.feed_mapping.specs.PriceViews.{reason_read};
ghost use Rattle.feed_mapping.specs.DateViews.{days_read};
ghost use Rattle.feed_mapping.specs.Dates.{and_days, are_one, days, date_in, days_by_role, parsed_day, days_in, days_of, parsed_days, digits_in, format_in, formats, is_time, or_days, role_days, span, two_days};
ghost use Rattle.feed_mapping.specs.Notes.{wrong};
ghost use Rattle.feed_mapping.specs.Records.{first_some};

use crate::again::again_in;
use crate::elements::{next_composite, text_or_empty};
use crate::notes::{Foreign, Reason, Wrong};
use crate::records::utf8_text;
use feed_outline::{Elements, Line, text_in};
use onix_terms::day::Day;

/// The first and the last day on which a Price holds, each where there is one.
#[derive(Clone, Copy, Debug)]
pub struct Days {
    pub first: Option<Day>,
    pub last: Option<Day>,
}

/// What PriceDates say: their days, or why they leave their Price out.
pub type Dated<'a> = Result<Days, Reason<'a>>;

const NO_DAYS: Days = Days {
    first: None,
    last: None,
};

// The day of eight digits.
fn parsed_day(text: &[u8]) -> Option<Day>
    ensures { result ≡ parsed_day text.now }
{
    utf8_text(text)?.parse().ok()
}

// Whether a text may stand behind a day.
fn is_time(text: &[u8]) -> bool
    ensures { result ≡ is_time text.now }
{
    match text {
        [] => true,
        [byte, ..] => *byte == b'T',
    }
}

// The digits of YYYYMMDD or YYYY-MM-DD, behind which nothing stands or a time.
fn day_digits(text: &[u8]) -> Option<[u8; 8]>
    ensures { result ≡ digits_in is_time ("YYYYMMDD" ∷ "YYYY-MM-DD" ∷ []) text.now }
{
    match text {
        [a, b, c, d, e, f, g, h, behind @ ..] if is_time(behind) => {
            Some([*a, *b, *c, *d, *e, *f, *g, *h])
        }
        [a, b, c, d, b'-', e, f, b'-', g, h, behind @ ..] if is_time(behind) => {
            Some([*a, *b, *c, *d, *e, *f, *g, *h])
        }
        _ => None,
    }
}

// The first and the last day of a day, a month and a year.
fn in_day(text: &[u8]) -> Option<Days>
    ensures { result
        ≡ option_and_then (span "" ("" ∷ []))
        (digits_in is_time ("YYYYMMDD" ∷ "YYYY-MM-DD" ∷ []) text.now) }
{
    let day = parsed_day(&day_digits(text)?)?;
    Some(Days {
        first: Some(day),
        last: Some(day),
    })
}

// The digits of YYYYMM or YYYY-MM.
fn month_digits(text: &[u8]) -> Option<[u8; 6]>
    ensures { result ≡ digits_in (bytes_eq []) ("YYYYMM" ∷ "YYYY-MM" ∷ []) text.now }
{
    match text {
        [a, b, c, d, e, f] | [a, b, c, d, b'-', e, f] => Some([*a, *b, *c, *d, *e, *f]),
        _ => None,
    }
}

// The day of a month, by the two digits of its number.
fn day_in_month(month: &[u8; 6], day: &[u8; 2]) -> Option<Day>
    ensures { result ≡ parsed_day (month.now ++ day.now) }
{
    let [a, b, c, d, e, f] = *month;
    let [g, h] = *day;
    parsed_day(&[a, b, c, d, e, f, g, h])
}

// The last day of a month.
fn last_of_month(month: &[u8; 6]) -> Option<Day>
    ensures { result ≡ first_some (map (λ last. parsed_day (month.now ++ codes last))
        ("31" ∷ "30" ∷ "29" ∷ "28" ∷ [])) }
{
    day_in_month(month, b"31")
        .or(day_in_month(month, b"30"))
        .or(day_in_month(month, b"29"))
        .or(day_in_month(month, b"28"))
}

fn in_month(text: &[u8]) -> Option<Days>
    ensures { result
        ≡ option_and_then (span "01" ("31" ∷ "30" ∷ "29" ∷ "28" ∷ []))
        (digits_in (bytes_eq []) ("YYYYMM" ∷ "YYYY-MM" ∷ []) text.now) }
{
    let month = month_digits(text)?;
    let first = day_in_month(&month, b"01")?;
    let last = last_of_month(&month)?;
    Some(Days {
        first: Some(first),
        last: Some(last),
    })
}

// The digits of a year.
fn year_digits(text: &[u8]) -> Option<[u8; 4]>
    ensures { result ≡ digits_in (bytes_eq []) ("YYYY" ∷ []) text.now }
{
    match text {
        [a, b, c, d] => Some([*a, *b, *c, *d]),
        _ => None,
    }
}

// The day of a year, by the four digits of its month and its number.
fn day_in_year(year: &[u8; 4], day: &[u8; 4]) -> Option<Day>
    ensures { result ≡ parsed_day (year.now ++ day.now) }
{
    let [a, b, c, d] = *year;
    let [e, f, g, h] = *day;
    parsed_day(&[a, b, c, d, e, f, g, h])
}

fn in_year(text: &[u8]) -> Option<Days>
    ensures { result
        ≡ option_and_then (span "0101" ("1231" ∷ []))
        (digits_in (bytes_eq []) ("YYYY" ∷ []) text.now) }
{
    let year = year_digits(text)?;
    let first = day_in_year(&year, b"0101")?;
    let last = day_in_year(&year, b"1231")?;
    Some(Days {
        first: Some(first),
        last: Some(last),
    })
}

// Whether it is the format of a day, of a month or of a year.
fn is_format(format: &[u8]) -> bool
    ensures { result ≡ list_any (bytes_eq format.now) formats }
{
    format == b"00".as_slice()
        || format == b"13".as_slice()
        || format == b"14".as_slice()
        || format == b"01".as_slice()
        || format == b"05".as_slice()
}

// The days of a text of such a format, or that it is no month, year or day.
fn parsed_days<'a>(format: &[u8], text: &'a [u8]) -> Dated<'a>
    ensures { days_read result ≡ parsed_days format.now text.now }
{
    let (days, kind) = if format == b"01".as_slice() {
        (in_month(text), Wrong::Month)
    } else if format == b"05".as_slice() {
        (in_year(text), Wrong::Year)
    } else {
        (in_day(text), Wrong::Day)
    };
    match days {
        Some(days) => Ok(days),
        None => Err(Reason::wrong(kind, text)),
    }
}

// The two days of a Date.
#[tactic(auto, unfolding(crate::specs::Dates::two_days))]
fn two_days<'a>(text: &'a [u8]) -> Dated<'a>
    ensures { days_read result ≡ two_days text.now }
{
    if text.len() != 16 {
        return Err(Reason::wrong(Wrong::NotTwoDays, text));
    }
    let (first, last) = text.split_at(8);
    let Some(first) = parsed_day(first) else {
        return Err(Reason::wrong(Wrong::Day, text));
    };
    let Some(last) = parsed_day(last) else {
        return Err(Reason::wrong(Wrong::Day, text));
    };
    Ok(Days {
        first: Some(first),
        last: Some(last),
    })
}

// The Date of a PriceDate.
fn date_in<'a>(elements: &Elements<'a>) -> Option<&'a Line>
    ensures { option_map (λ l. element_view l.now) result ≡ date_in elements.now }
{
    let mut rest = elements.copy();
    while let Some(node) = rest.first() {
        if node.line.name == b"Date".as_slice() && !node.line.text.is_empty() {
            return Some(node.line);
        }
        rest = node.rest;
    }
    None
}

// The format of a PriceDate with this Date.
fn format_in<'a>(date: Option<&'a Line>, elements: &Elements<'a>) -> &'a [u8]
    ensures { option_map (λ l. element_view l.now) date.entry ≡ date_in elements.now
        → result.now ≡ format_in elements.now }
{
    if let Some(line) = date {
        if let Some(format) = &line.format {
            return format.as_slice();
        }
    }
    match text_in(b"DateFormat", elements) {
        Some(format) => format,
        None => b"00",
    }
}

// The days of the Date of a role that has one day.
fn one_day<'a>(role: &'a [u8], elements: &Elements<'a>) -> Dated<'a>
    ensures { days_read result
        ≡ role_days elements.now formats (parsed_days (format_in elements.now)) role.now }
{
    let date = date_in(elements);
    let format = format_in(date, elements);
    if !is_format(format) {
        return Err(Reason::foreign(Foreign::DateFormat, format));
    }
    match date {
        Some(line) => parsed_days(format, line.text.as_slice()),
        None => Err(Reason::wrong(Wrong::NoDate, role)),
    }
}

// The days of the Date of the role that has two.
fn both_days<'a>(role: &'a [u8], elements: &Elements<'a>) -> Dated<'a>
    ensures { days_read result ≡ role_days elements.now (codes "06" ∷ []) two_days role.now }
{
    let date = date_in(elements);
    let format = format_in(date, elements);
    if format != b"06".as_slice() {
        return Err(Reason::foreign(Foreign::DateFormat, format));
    }
    match date {
        Some(line) => two_days(line.text.as_slice()),
        None => Err(Reason::wrong(Wrong::NoDate, role)),
    }
}

// What a PriceDate says by its role.
fn read_role<'a>(elements: &Elements<'a>) -> Dated<'a>
    ensures { days_read result ≡ days_by_role elements.now }
{
    let role = text_or_empty(b"PriceDateRole", elements);
    if role == b"14".as_slice() {
        let days = one_day(role, elements)?;
        return Ok(Days {
            first: days.first,
            last: None,
        });
    }
    if role == b"15".as_slice() {
        let days = one_day(role, elements)?;
        return Ok(Days {
            first: None,
            last: days.last,
        });
    }
    if role == b"24".as_slice() {
        return both_days(role, elements);
    }
    Err(Reason::wrong(Wrong::DateRole, role))
}

// What a PriceDate says, unless an element comes again in it.
fn days_of<'a>(elements: &Elements<'a>) -> Dated<'a>
    ensures { days_read result ≡ days_of elements.now }
{
    let days = read_role(elements)?;
    match again_in(elements) {
        None => Ok(days),
        Some(name) => Err(Reason::wrong(Wrong::ComesAgain, name)),
    }
}

// Whether two days are one, where both are there.
fn are_one(one: Option<Day>, other: Option<Day>) -> bool
    ensures { result ≡ are_one one other }
{
    match one {
        None => true,
        Some(one) => match other {
            None => true,
            Some(other) => !(one < other || other < one),
        },
    }
}

// The days of both, where they give no first and no last day that is another.
fn or_days<'a>(days: Days, more: Days) -> Dated<'a>
    ensures { days_read result ≡ or_days days more }
{
    if are_one(days.first, more.first) && are_one(days.last, more.last) {
        Ok(Days {
            first: days.first.or(more.first),
            last: days.last.or(more.last),
        })
    } else {
        Err(Reason::wrong(Wrong::OtherDay, b""))
    }
}

// What one more PriceDate says behind others; of two reasons the first that is foreign, else the
// first.
fn and_days<'a>(one: &Dated<'a>, other: &Dated<'a>) -> Dated<'a>
    ensures { days_read result ≡ and_days (days_read one.now) (days_read other.now) }
{
    match one {
        Ok(days) => match other {
            Ok(more) => or_days(*days, *more),
            Err(reason) => Err(*reason),
        },
        Err(reason) => match other {
            Ok(_) => Err(*reason),
            Err(second) => if reason.kind.is_wrong() && !second.kind.is_wrong() {
                Err(*second)
            } else {
                Err(*reason)
            },
        },
    }
}

/// What the PriceDates among the elements say: by its role each gives the first day (14), the last
/// day (15) or both (24). They leave their Price out where one has another role, has no Date, has a
/// format that is not that of its role, or a Date that has not the form of its format, where an
/// element comes again in one, or where two give two first or two last days: for the first reason
/// that is foreign, else for the first.
pub fn days_in<'a>(elements: &Elements<'a>) -> Dated<'a>
    ensures { days_read result ≡ days_in elements.now }
{
    let mut dated = Ok(NO_DAYS);
    let mut rest = elements.copy();
    while let Some((found, behind)) = next_composite(b"PriceDate", &rest) {
        dated = and_days(&dated, &days_of(&found.below));
        rest = behind;
    }
    dated
}

/// The reason for which PriceDates leave their Price out.
pub(crate) fn wrong_date<'a>(dated: &Dated<'a>) -> Option<Reason<'a>>
    ensures { reason_read result ≡ result_err (days_read dated.now) }
{
    match dated {
        Ok(_) => None,
        Err(reason) => Some(*reason),
    }
}

/// The days, none where they are wrong.
pub(crate) fn right_days(dated: &Dated<'_>) -> Days
    ensures { result ≡ result_unwrap_or (days_read dated.now) (days None None) }
{
    match dated {
        Ok(days) => *days,
        Err(_) => NO_DAYS,
    }
}
