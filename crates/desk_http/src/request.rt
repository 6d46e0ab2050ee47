//! The request that an input asks for.

ghost use Rattle.std.specs.Prelude.{◌≡◌, ◌++◌, ◌-◌, ℕ, List, length, IfSome};
ghost use Rattle.httparse.specs.Grammar.{RequestHead};
ghost use Rattle.csv_records.specs.Streams.{TakesAtMost};
ghost use Rattle.desk_http.specs.Asks.{AsksFor, IfDecided, asks_of, most_at, most_behind, question_at, question_of, request_at};
ghost use Rattle.desk_http.specs.Serves.{TakesWanted};
ghost use Rattle.http_requests.specs.HeadRead.{IsHeadOf};
ghost use Rattle.http_requests.specs.Steps.{Gives};

use crate::exchange::Observer;
use crate::questions::{read_calendar_question, read_price_question, read_series};
use crate::routes::{Route, Routes, cut, part};
use crate::routing::read_route;
use http_requests::body::read_posted;
use http_requests::fault::InputFault;
use http_requests::head::read_head;
use http_requests::parts::Head;
use http_requests::refusal::Refusal;
use series_rules::requests::Request;
use std::alloc::Global;
use std::io::Read;

// The question of a GET.
fn ask(alloc: Global, route: Route, part: &str, query: &[u8]) -> Result<Request, InputFault>
    ensures { Gives result (question_of route part.now query.now) }
{
    match route {
        Route::Messages => Err(InputFault::Refused(Refusal::NotFound)),
        Route::Price => {
            let (isbn, query) = read_price_question(alloc, part, query)?;
            Ok(Request::AskPrice { isbn, query })
        }
        Route::Choice => {
            let (isbn, query) = read_price_question(alloc, part, query)?;
            Ok(Request::AskChoice { isbn, query })
        }
        Route::Calendar => {
            let (isbn, query) = read_calendar_question(alloc, part, query)?;
            Ok(Request::AskCalendar { isbn, query })
        }
        Route::Gaps => Ok(Request::AskGaps(read_series(part)?)),
        Route::Catalogue => Ok(Request::AskCatalogue(read_series(part)?)),
    }
}

// The same by the target of a head. A bad query is observed.
fn ask_at<O: Observer>(
    alloc: Global,
    route: Route,
    target: &str,
    observer: &mut O,
) -> Result<Request, InputFault>
    ensures { Gives result (question_at route target.now) }
{
    let (path, query) = cut(target, '?');
    let asked = ask(alloc, route, part(route, path), query.as_bytes());
    if let Err(InputFault::Refused(Refusal::BadQuery)) = &asked {
        observer.observe_query(target);
    }
    asked
}

// The request of a route, by a head, the bytes that were read behind it and those that follow in
// the input.
fn read_at<R: Read, O: Observer>(
    alloc: Global,
    reader: &mut R,
    head: &Head,
    behind: &[u8],
    route: Route,
    observer: &mut O,
) -> Result<Request, InputFault>
    ensures gives { (h : RequestHead) → IsHeadOf head.now h → IfSome (R.remaining reader.old)
        (λ more. Gives result (request_at h (behind.now ++ more) route)) }
    ensures taken { (h : RequestHead) → IsHeadOf head.now h
        → TakesAtMost (most_at h route - length behind.now)
        (R.remaining reader.old) (R.remaining reader.new) }
{
    match route {
        Route::Messages => {
            let records = read_posted(alloc, reader, head, behind)?;
            Ok(Request::Deliver(records))
        }
        Route::Price | Route::Choice | Route::Calendar | Route::Gaps | Route::Catalogue => {
            ask_at(alloc, route, head.target_text(), observer)
        }
    }
}

// What a head and the bytes behind it ask for.
fn read_behind<R: Read, O: Observer>(
    alloc: Global,
    routes: &Routes,
    reader: &mut R,
    head: &Head,
    behind: &[u8],
    observer: &mut O,
) -> Result<Request, InputFault>
    ensures gives { (h : RequestHead) → IsHeadOf head.now h → IfSome (R.remaining reader.old)
        (λ more. Gives result (asks_of h (behind.now ++ more))) }
    ensures taken { (h : RequestHead) → IsHeadOf head.now h
        → TakesAtMost (most_behind h - length behind.now)
        (R.remaining reader.old) (R.remaining reader.new) }
{
    match read_route(routes, head) {
        Ok(route) => read_at(alloc, reader, head, behind, route, observer),
        Err(why) => Err(InputFault::Refused(why)),
    }
}

/// Reads the request that an input asks for: its head, and the body of a POST that gets so far. A
/// refusal comes as soon as the bytes that were read decide it, and no byte behind the body is
/// read. A bad query is observed.
pub(crate) fn read_request<R: Read, O: Observer>(
    alloc: Global,
    routes: &Routes,
    reader: &mut R,
    observer: &mut O,
) -> Result<Request, InputFault>
    ensures asks { IfSome (R.remaining reader.old) (λ input. IfDecided result (AsksFor input)) }
    ensures taken { TakesWanted (R.remaining reader.old) (R.remaining reader.new) }
{
    let head = read_head(alloc, reader)?;
    read_behind(alloc, routes, reader, &head, head.behind(), observer)
}
