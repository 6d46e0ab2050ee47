//! What is asked for in an exchange, its reply, and why there is none; and who observes that.

use http_requests::refusal::Refusal;
use series_rules::answers::Answer;
use series_rules::requests::Request;
use thiserror::Error;

/// Who observes what a desk is asked, and answers. It decides nothing, and no contract speaks of it.
pub trait Observer {
    /// A request was answered so.
    fn observe_answer(&mut self, request: &Request, answer: &Answer);

    /// The question at this target is a bad query.
    fn observe_query(&mut self, target: &str);
}

/// Nobody.
impl Observer for () {
    fn observe_answer(&mut self, _request: &Request, _answer: &Answer) {}

    fn observe_query(&mut self, _target: &str) {}
}

/// What an input asks for.
#[derive(Drop)]
pub enum Wanted {
    /// A request to the desk.
    Asked(Request),
    /// A refusal, before the desk is asked.
    Refused(Refusal),
}

/// Why a request has no reply.
#[derive(Debug, Drop, Error)]
pub enum HttpFault {
    /// A read failed. Nothing was asked of the desk and nothing written.
    #[error("the request cannot be read")]
    Read,
    /// A write failed or wrote nothing. The request has had the effect that the status of its reply
    /// tells, and what was written is a part of the reply, from its first byte on.
    #[error("the reply with status {status} cannot be written")]
    Write { status: u16 },
    /// Memory ran out outside the desk. Nothing was written; `taken` says whether the desk had
    /// answered without a fault.
    #[error("out of memory")]
    Memory { taken: bool },
}

/// A reply that is not yet written.
#[derive(Drop)]
pub(crate) struct PreparedReply {
    pub(crate) status: u16,
    pub(crate) allow: Option<&'static str>,
    pub(crate) body: String,
    /// The desk answered without a fault.
    pub(crate) taken: bool,
}
