//! The desk over HTTP/1.1: one request and one reply for each connection. `one_exchange::serve_one` reads
//! a request, finds its route, asks a desk, and writes the reply; `one_exchange::serve_routed` does so by
//! `Routes` that are made once for all connections. `answer_reply::reply_of` makes the reply to an
//! answer.
//!
//! `specs/Asks.antt` says what the bytes of a connection ask for. Its parts: the head and the body,
//! which are defined in `http_requests`; `Routing` over `Place`, `Table` and `Keys` (the path and
//! the method: which paths there are and where each leads, the table of the router of `matchit`,
//! and what it finds); `Questions` over `Query` (what a GET asks). `AnswerReply` and `Refusals` say
//! what is replied, and `Reply` has the text of a reply. `Exchange` puts both together for a list
//! that a desk stands for, and `Serves` for the desk itself. `laws` has what these definitions come
//! to.
//!
//! The body of a reply is JSON: `answer_json::answer_text` writes that of an answer, by `texts` offer
//! by offer where it has many, `bodies` those
//! of what is refused before a desk is asked and of faults of storage. `AnswerJson` says which JSON
//! an answer is, over `CatalogueJson`, `OfferJson` and `Json` (the values that all of it is made
//! of).
//!
//! It stands beside `desk_batch` over the same desks. The bytes of a reply are written by
//! `csv_records`.
#![tactic(auto)]

pub mod answer_json;
pub mod answer_reply;
pub mod bodies;
mod catalogue_json;
pub mod exchange;
pub mod laws;
mod member;
mod members;
mod offer_json;
pub mod one_exchange;
mod query;
mod questions;
pub mod reply;
mod request;
pub mod routes;
mod routing;
mod texts;
mod to_json;
mod values;

pub use answer_reply::reply_of;
pub use exchange::{HttpFault, Observer};
pub use one_exchange::{serve_one, serve_routed};
pub use routes::Routes;
