//! What has JSON of its own, and arrays of it.

ghost use Rattle.std.specs.Prelude.{◌≡◌, IfOk};
ghost use Rattle.serde_json.specs.Data.{Data};
ghost use Rattle.serde_json.specs.View.{view};
ghost use Rattle.desk_http.specs.Json.{list_of};

use serde_json::Value;
use std::alloc::{AllocError, Global};

/// A type whose values have JSON.
pub(crate) trait ToJson {
    ghost json_of: { Self → Data };

    /// The JSON of the value. Fails only where memory runs out.
    fn to_json(&self, alloc: Global) -> Result<Value, AllocError>
        ensures { IfOk result (λ v. view v ≡ json_of self.now) };
}

/// The array of the JSON of each item. Fails only where memory runs out.
pub(crate) fn array_of<T: ToJson>(alloc: Global, items: &[T]) -> Result<Value, AllocError>
    ensures { IfOk result (λ v. view v ≡ list_of T.json_of items.now) }
{
    let mut list = Vec::new(alloc);
    for item in items {
        list.push(item.to_json(alloc)?)?;
    }
    Ok(Value::Array(list))
}
