//! Objects, written from lists of members. A member borrows its term, so a function that writes an
//! object owns no value of a member while others are written, and has no early return where one
//! would have to be dropped.

ghost use Rattle.std.specs.Prelude.{◌≡◌, IfOk};
ghost use Rattle.serde_json.specs.Data.{no_members, object, put};
ghost use Rattle.serde_json.specs.View.{members_view, view};
ghost use Rattle.desk_http.specs.private.Members as json;

use crate::member::Member;
use crate::to_json::array_of;
use crate::values::{
    amount_json, amount_or_null, code_or_null, day_json, day_or_null, number_or_null, party_or_null,
};
use serde_json::{Map, Value};
use std::alloc::{AllocError, Global};

fn key_of<'a>(member: &Member<'a>) -> &'a str
    ensures { result.now ≡ json.key_of member.now }
{
    match member {
        Member::Text(key, _) => key,
        Member::Number(key, _) => key,
        Member::Count(key, _) => key,
        Member::Boolean(key, _) => key,
        Member::OptionalNumber(key, _) => key,
        Member::Amount(key, _) => key,
        Member::OptionalAmount(key, _) => key,
        Member::Day(key, _) => key,
        Member::OptionalDay(key, _) => key,
        Member::OptionalCode(key, _) => key,
        Member::OptionalParty(key, _) => key,
        Member::Countries(key, _) => key,
        Member::Identifiers(key, _) => key,
    }
}

fn value_of(alloc: Global, member: &Member) -> Result<Value, AllocError>
    ensures { IfOk result (λ v. view v ≡ json.value_of member.now) }
{
    match member {
        Member::Text(_, text) => Value::try_from_str(alloc, text),
        Member::Number(_, number) => Ok(Value::from(*number)),
        Member::Count(_, count) => Ok(Value::from(*count)),
        Member::Boolean(_, boolean) => Ok(Value::from(*boolean)),
        Member::OptionalNumber(_, number) => Ok(number_or_null(number)),
        Member::Amount(_, amount) => amount_json(alloc, amount),
        Member::OptionalAmount(_, amount) => amount_or_null(alloc, amount),
        Member::Day(_, day) => day_json(alloc, day),
        Member::OptionalDay(_, day) => day_or_null(alloc, day),
        Member::OptionalCode(_, code) => code_or_null(alloc, code),
        Member::OptionalParty(_, party) => party_or_null(alloc, party),
        Member::Countries(_, countries) => array_of(alloc, countries),
        Member::Identifiers(_, ids) => array_of(alloc, ids),
    }
}

fn map_of(alloc: Global, members: &[Member]) -> Result<Map<String, Value>, AllocError>
    ensures { IfOk result (λ map. members_view map.entries ≡ json.put_all members.now no_members) }
{
    let mut map = Map::new(alloc);
    for member in members {
        let value = value_of(alloc, member)?;
        serde_json::put(&mut map, alloc, key_of(member), value)?;
    }
    Ok(map)
}

/// The object of these members. Fails only where memory runs out.
pub(crate) fn object_of(alloc: Global, members: &[Member]) -> Result<Value, AllocError>
    ensures { IfOk result (λ v. view v ≡ object (json.put_all members.now no_members)) }
{
    Ok(Value::Object(map_of(alloc, members)?))
}

/// The object of these members and of one whose value is made already. Fails only where
/// memory runs out.
pub(crate) fn object_with(
    alloc: Global,
    members: &[Member],
    key: &str,
    value: Value,
) -> Result<Value, AllocError>
    ensures { IfOk result (λ v. view v
        ≡ object (put key.now (view value) (json.put_all members.now no_members))) }
{
    let mut map = map_of(alloc, members)?;
    serde_json::put(&mut map, alloc, key, value)?;
    Ok(Value::Object(map))
}
