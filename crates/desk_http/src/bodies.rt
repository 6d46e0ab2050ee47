//! The bodies that need no answer of the desk.

ghost use Rattle.std.specs.Prelude.{◌≡◌, ◌∷◌, [], IfOk};
ghost use Rattle.std.specs.String.{string_bytes};
ghost use Rattle.serde_json.specs.Data.{string};
ghost use Rattle.serde_json.specs.View.{view};
ghost use Rattle.serde_json.specs.Written.{compact_text};
ghost use Rattle.desk_http.specs.Json as json;

use crate::member::Member;
use crate::members::object_of;
use serde_json::Value;
use std::alloc::{AllocError, Global};

/// The JSON of a refusal that has nothing to say but its reason. Fails only where memory runs out.
pub(crate) fn refused_json(alloc: Global, reason: &str) -> Result<Value, AllocError>
    ensures { IfOk result (λ v. view v
        ≡ json.answered "refused" (("reason", string reason.now) ∷ [])) }
{
    let members = [
        Member::Text("answer", "refused"),
        Member::Text("reason", reason),
    ];
    object_of(alloc, &members)
}

/// The body of a refusal that has nothing to say but its reason, such as `not-found`. Fails only
/// where memory runs out.
pub fn refused_body(alloc: Global, reason: &str) -> Result<String, AllocError>
    ensures { IfOk result (λ text. string_bytes text
        ≡ compact_text (json.answered "refused" (("reason", string reason.now) ∷ []))) }
{
    let value = refused_json(alloc, reason)?;
    value.to_string(alloc)
}

fn fault_json(alloc: Global, kind: &str) -> Result<Value, AllocError>
    ensures { IfOk result (λ v. view v ≡ json.fault kind.now) }
{
    let members = [
        Member::Text("answer", "fault"),
        Member::Text("reason", kind),
    ];
    object_of(alloc, &members)
}

/// The body of the reply to a request that met a fault of storage of this kind, such as `disk`.
/// Fails only where memory runs out.
pub fn fault_body(alloc: Global, kind: &str) -> Result<String, AllocError>
    ensures { IfOk result (λ text. string_bytes text ≡ compact_text (json.fault kind.now)) }
{
    let value = fault_json(alloc, kind)?;
    value.to_string(alloc)
}
