//! The route that a head asks for.

ghost use Rattle.std.specs.Prelude.{◌≡◌};
ghost use Rattle.httparse.specs.Grammar.{RequestHead};
ghost use Rattle.http_requests.specs.HeadRead.{IsHeadOf};
ghost use Rattle.desk_http.specs.Routing.{method_name, method_of, route_asked, route_found};

use crate::routes::{Route, Routes, cut};
use http_requests::parts::Head;
use http_requests::refusal::{Method, Refusal};

// The method that a route takes.
fn method_of(route: Route) -> Method
    ensures { result ≡ method_of route }
{
    match route {
        Route::Messages => Method::Post,
        Route::Price | Route::Choice | Route::Calendar | Route::Gaps | Route::Catalogue =>
            Method::Get,
    }
}

/// The name of a method.
pub(crate) fn method_name(method: Method) -> &'static str
    ensures { result.now ≡ method_name method }
{
    match method {
        Method::Get => "GET",
        Method::Post => "POST",
    }
}

// The route of a path, where it is asked by its method.
fn take_route(routes: &Routes, path: &str, name: &[u8]) -> Result<Route, Refusal>
    ensures { result ≡ route_found path.now name.now }
{
    let route = routes.find(path).ok_or(Refusal::NotFound)?;
    let method = method_of(route);
    if name == method_name(method).as_bytes() {
        Ok(route)
    } else {
        Err(Refusal::MethodNotAllowed(method))
    }
}

/// The route that a head asks for.
#[tactic(auto, unfolding(crate::specs::Routing::route_asked))]
pub(crate) fn read_route(routes: &Routes, head: &Head) -> Result<Route, Refusal>
    ensures { (h : RequestHead) → IsHeadOf head.now h → result ≡ route_asked h }
{
    if head.has_field(b"transfer-encoding") {
        return Err(Refusal::TransferEncoding);
    }
    let (path, _) = cut(head.target_text(), '?');
    take_route(routes, path, head.method())
}
