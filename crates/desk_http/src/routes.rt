//! The routes of the desk.

ghost use Rattle.std.specs.Prelude.{◌≡◌, ◌<◌, ◌==◌, [], ℕ, List, Some, OnOk};
ghost use Rattle.std.specs.List.{after_first, before_first};
ghost use Rattle.desk_http.specs.Keys.{part_at, route_at, segment_behind};
ghost use Rattle.desk_http.specs.Paths.{IsPathOf};
ghost use Rattle.desk_http.specs.Table.{table, with_route};

use matchit::{InsertError, Router};
use std::alloc::Global;

/// What a path asks for.
#[derive(Clone, Copy, PartialEq, Eq)]
pub enum Route {
    Messages,
    Price,
    Choice,
    Calendar,
    Gaps,
    Catalogue,
}

// Adds a route to those of the router.
fn add(router: &mut Router<Route>, text: &str, route: Route) -> Result<(), InsertError>
    ensures { OnOk result (router.new ≡ with_route text.now route router.old) }
{
    router.insert(text, route)
}

// Adds all routes, to a borrowed router, so that no early return drops it.
fn add_all(router: &mut Router<Route>) -> Result<(), InsertError>
    ensures { router.old ≡ [] → OnOk result (router.new ≡ table) }
{
    add(router, "/messages", Route::Messages)?;
    add(router, "/articles/{isbn}/price", Route::Price)?;
    add(router, "/articles/{isbn}/choice", Route::Choice)?;
    add(router, "/articles/{isbn}/calendar", Route::Calendar)?;
    add(router, "/series/{name}/gaps", Route::Gaps)?;
    add(router, "/series/{name}/catalogue", Route::Catalogue)?;
    Ok(())
}

/// All routes of the desk, made once for many requests.
#[derive(Drop)]
pub struct Routes {
    router: Router<Route>,
    ghost all: { router ≡ table },
}

impl Routes {
    /// Builds the routes. Fails only where memory runs out.
    pub fn new(alloc: Global) -> Result<Routes, InsertError> {
        let mut router = Router::new(alloc);
        add_all(&mut router)?;
        Ok(Routes { router })
    }

    /// The route of a path.
    pub fn find(&self, path: &str) -> Option<Route>
        ensures { result ≡ route_at path.now }
    {
        match self.router.at(path) {
            Ok(found) => Some(*found.value),
            Err(_) => None,
        }
    }
}

/// What stands before the first `at` of a text, or all of it where there is none, and what stands
/// behind it.
pub fn cut(text: &str, at: char) -> (&str, &str)
    requires { at < 128 }
    ensures before { result.0.now ≡ before_first (λ b. b == at) text.now }
    ensures behind { result.1.now ≡ after_first (λ b. b == at) text.now }
{
    match text.split_once(at) {
        Some((before, behind)) => (before, behind),
        None => (text, ""),
    }
}

// The segment of a path that follows these bytes.
fn segment_behind<'p>(front: &str, path: &'p str) -> &'p str
    ensures { result.now ≡ segment_behind front.now path.now }
{
    match path.strip_prefix(front) {
        Some(rest) => cut(rest, '/').0,
        None => "",
    }
}

/// The variable segment of a path: the article or the series.
pub fn part(route: Route, path: &str) -> &str
    ensures { result.now ≡ part_at route path.now }
{
    match route {
        Route::Messages => "",
        Route::Price | Route::Choice | Route::Calendar => segment_behind("/articles/", path),
        Route::Gaps | Route::Catalogue => segment_behind("/series/", path),
    }
}

/// Exactly the paths of the desk have a route, each its own.
pub fn takes_paths_alone()
    ensures takes { (path : List ℕ) (route : Route) (part : List ℕ) → IsPathOf path route part
        → route_at path ≡ Some route }
    ensures part { (path : List ℕ) (route : Route) (part : List ℕ) → IsPathOf path route part
        → part_at route path ≡ part }
    ensures only { (path : List ℕ) (route : Route) → route_at path ≡ Some route
        → (part : List ℕ) × IsPathOf path route part }
{}
