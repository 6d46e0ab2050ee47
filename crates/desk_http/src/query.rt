//! The query of a request, as `application/x-www-form-urlencoded`.

ghost use Rattle.std.specs.Prelude.{◌≡◌, Err, IfErr, IfOk, Ok, option_map};
ghost use Rattle.desk_http.specs.Query.{needed_value, pairs_of, value_of};

use form_urlencoded::parse;
use http_requests::refusal::Refusal;
use std::alloc::{AllocError, Global};
use std::borrow::CowStr;
use std::marker::Model;

/// The names and values of a query, which contracts see as the list of these pairs.
#[derive(Drop)]
pub(crate) struct Form<'q> {
    pairs: Vec<(CowStr<'q>, CowStr<'q>)>,
}

impl<'q> Model for Form<'q> {
    ghost use Rattle.std.specs.Prelude.{List, ℕ, map};
    ghost use Rattle.desk_http.specs.Query.{texts};

    ghost Value = { List (List ℕ × List ℕ) };

    ghost view = { λ form. map texts form.pairs.items };
}

impl<'q> Form<'q> {
    /// Decodes a query.
    pub(crate) fn read(alloc: Global, query: &'q [u8]) -> Result<Form<'q>, AllocError>
        ensures { IfOk result (λ form. form ≡ pairs_of query.now) }
    {
        let mut pairs = Vec::new(alloc);
        for pair in parse(alloc, query) {
            pairs.push(pair?)?;
        }
        Ok(Form { pairs })
    }

    /// The value of a key that may be there once.
    #[tactic(auto, unfolding(crate::specs::Query::value_of))]
    pub(crate) fn value(&self, key: &str) -> Result<Option<&str>, Refusal>
        ensures value { IfOk result
            (λ found. value_of key.now self.now ≡ Ok (option_map (λ v. v.now) found)) }
        ensures refusal { IfErr result (λ why. value_of key.now self.now ≡ Err why) }
    {
        let mut found: Option<&str> = None;
        for (name, value) in &self.pairs {
            if name.as_str() == key {
                if found.is_some() {
                    return Err(Refusal::BadQuery);
                }
                found = Some(value.as_str());
            }
        }
        Ok(found)
    }

    /// The value of a key that has to be there once.
    #[tactic(auto, unfolding(crate::specs::Query::needed_value))]
    pub(crate) fn needed_value(&self, key: &str) -> Result<&str, Refusal>
        ensures value { IfOk result (λ value. needed_value key.now self.now ≡ Ok value.now) }
        ensures refusal { IfErr result (λ why. needed_value key.now self.now ≡ Err why) }
    {
        match self.value(key) {
            Ok(Some(value)) => Ok(value),
            Ok(None) => Err(Refusal::BadQuery),
            Err(why) => Err(why),
        }
    }
}
