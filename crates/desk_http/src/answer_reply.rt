//! The replies to answers.

ghost use Rattle.std.specs.Prelude.{◌≡◌, IfOk, Some};
ghost use Rattle.std.specs.String.{string_bytes};
ghost use Rattle.serde_json.specs.Read.{read};
ghost use Rattle.desk_http.specs.AnswerJson.{answer_json};
ghost use Rattle.desk_http.specs.AnswerReply.{agree_status, delivery_status, fault_kind, reply_of_answer, status_of, waiver_status};

use crate::answer_json::answer_text;
use onix_records::StoreFault;
use series_rules::answers::{AgreeAnswer, Answer, DeliveryAnswer, WaiveAnswer};
use std::alloc::{AllocError, Global};

fn agree_status(answer: &AgreeAnswer) -> u16
    ensures { result ≡ agree_status answer.now }
{
    match answer {
        AgreeAnswer::Agreed => 200,
        AgreeAnswer::NameTaken | AgreeAnswer::SeriesTaken { .. } => 409,
    }
}

fn delivery_status(answer: &DeliveryAnswer) -> u16
    ensures { result ≡ delivery_status answer.now }
{
    match answer {
        DeliveryAnswer::Applied { .. } => 200,
        DeliveryAnswer::Held { .. } => 202,
        DeliveryAnswer::Waived { .. } | DeliveryAnswer::OtherContents { .. } => 409,
        DeliveryAnswer::Malformed { .. }
        | DeliveryAnswer::Unnumbered
        | DeliveryAnswer::UnknownSeries
        | DeliveryAnswer::BeforeFirst { .. } => 422,
    }
}

fn waiver_status(answer: &WaiveAnswer) -> u16
    ensures { result ≡ waiver_status answer.now }
{
    match answer {
        WaiveAnswer::Waived => 200,
        WaiveAnswer::UnknownSeries => 404,
        WaiveAnswer::Had => 409,
        WaiveAnswer::BeforeFirst { .. } => 422,
    }
}

fn status_of(answer: &Answer) -> u16
    ensures { result ≡ status_of answer.now }
{
    match answer {
        Answer::Agreement { answer, .. } => agree_status(answer),
        Answer::Delivery(answer) => delivery_status(answer),
        Answer::Waiver { answer, .. } => waiver_status(answer),
        Answer::Price { .. } | Answer::Choice { .. } | Answer::Calendar { .. } => 200,
        Answer::Gaps(_) | Answer::Catalogue { .. } => 200,
        Answer::BadRange => 400,
        Answer::UnknownSeries => 404,
        Answer::Malformed { .. } => 422,
    }
}

/// The status of the reply to an answer, and its body: JSON without spaces, the keys of each
/// object in the order of their bytes. Whoever reads the body as JSON gets the answer's data.
/// Fails only where memory runs out.
#[tactic(auto, unfolding(crate::specs::AnswerReply::reply_of_answer))]
pub fn reply_of(alloc: Global, answer: &Answer) -> Result<(u16, String), AllocError>
    ensures status { IfOk result (λ r. r.0 ≡ (reply_of_answer answer.now).status) }
    ensures body { IfOk result (λ r. string_bytes r.1 ≡ (reply_of_answer answer.now).body) }
    ensures reads { IfOk result (λ r. read (string_bytes r.1) ≡ Some (answer_json answer.now)) }
{
    let body = answer_text(alloc, answer)?;
    Ok((status_of(answer), body))
}

/// The kind of a fault of storage, which the body of the reply with status 503 names.
pub fn fault_kind(fault: &StoreFault) -> &'static str
    ensures { result.now ≡ fault_kind fault.now }
{
    match fault {
        StoreFault::Memory => "memory",
        StoreFault::Size => "size",
        StoreFault::Disk => "disk",
        StoreFault::Unusable => "unusable",
    }
}
