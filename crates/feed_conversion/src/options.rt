//! What the caller chooses.

use feed_mapping::Choices;
use feed_terms::table::Terms;

/// Of how many wrong products a message is taken all the same. A product is wrong where a note says
/// that the desk would not take something of it.
#[derive(Clone, Copy, Debug, PartialEq, Eq)]
pub enum Allowed {
    /// Of none.
    NoWrong,
    /// Of ten, or one in a hundred, but of no more than half of its products where two are wrong.
    FewWrong,
    /// Of any number.
    AllWrong,
}

/// What the caller chooses: for the Header and the parts, of how many wrong products a message is
/// taken, and the terms of the shop, if it has any.
#[derive(Clone, Copy)]
pub struct Options<'a> {
    pub choices: Choices<'a>,
    pub wrong: Allowed,
    pub terms: Option<&'a Terms>,
}
