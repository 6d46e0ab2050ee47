//! What the fields of a record have to be, in words.

/// What a field holds.
#[derive(Clone, Copy, PartialEq, Eq)]
pub(crate) enum Kind {
    Series,
    Code,
    Filled,
    Anything,
    // The type of an identifier, and its value behind it, which are both empty where there is none.
    Type,
    Value,
    // Where it is empty, the identifier before it is not.
    SupplierName,
    Number,
    FirstNumber,
    Digits,
    Isbn,
    Day,
    Country,
    Currency,
    Quantity,
    Amount,
    Countries,
    World,
    Form,
}

/// A field of a record: its name, a text that it may have, and what its text has to be.
#[derive(Clone, Copy)]
pub(crate) struct Field {
    pub(crate) name: &'static str,
    pub(crate) kind: Kind,
    pub(crate) rule: (&'static str, &'static str),
}
