//! What the path and the query of a GET ask.

ghost use Rattle.std.specs.Prelude.{◌≡◌};
ghost use Rattle.desk_http.specs.Questions.{calendar_asked, prices_asked, prices_on, series_asked};
ghost use Rattle.http_requests.specs.Steps.{Gives};

use crate::query::Form;
use http_requests::fault::InputFault;
use http_requests::refusal::Refusal;
use onix_terms::day::Day;
use onix_terms::isbn13::Isbn13;
use onix_terms::series_name::SeriesName;
use price_rules::offer::{CalendarQuery, PriceQuery};
use std::alloc::Global;

// The prices that the pairs of a query ask for, on the day under a key.
#[tactic(auto, unfolding(crate::specs::Questions::prices_on))]
fn read_prices(form: &Form<'_>, key: &str) -> Result<PriceQuery, Refusal>
    ensures { result ≡ prices_on key.now form.now }
{
    let day = form.needed_value(key)?;
    let country = form.needed_value("country")?;
    let currency = form.needed_value("currency")?;
    let price_type = form.needed_value("type")?;
    let quantity = form.value("quantity")?;
    PriceQuery::read(day, country, currency, price_type, quantity).ok_or(Refusal::BadQuery)
}

/// The article and the prices that a question about prices or about a choice asks for.
#[tactic(auto, unfolding(crate::specs::Questions::prices_asked))]
pub(crate) fn read_price_question(
    alloc: Global,
    part: &str,
    query: &[u8],
) -> Result<(Isbn13, PriceQuery), InputFault>
    ensures { Gives result (prices_asked part.now query.now) }
{
    let isbn = Isbn13::read(part).ok_or(Refusal::BadQuery)?;
    let form = Form::read(alloc, query)?;
    Ok((isbn, read_prices(&form, "day")?))
}

/// The article and the calendar that a question about a calendar asks for. A range that is reversed
/// or too long is asked for too: the answer refuses it.
#[tactic(auto, unfolding(crate::specs::Questions::calendar_asked))]
pub(crate) fn read_calendar_question(
    alloc: Global,
    part: &str,
    query: &[u8],
) -> Result<(Isbn13, CalendarQuery), InputFault>
    ensures { Gives result (calendar_asked part.now query.now) }
{
    let isbn = Isbn13::read(part).ok_or(Refusal::BadQuery)?;
    let form = Form::read(alloc, query)?;
    let first = read_prices(&form, "from")?;
    let to = form.needed_value("to")?;
    let last = Day::read(to).ok_or(Refusal::BadQuery)?;
    Ok((isbn, first.until(last)))
}

/// The series that a question names.
pub(crate) fn read_series(part: &str) -> Result<SeriesName, Refusal>
    ensures { result ≡ series_asked part.now }
{
    SeriesName::read(part).ok_or(Refusal::UnknownSeries)
}
