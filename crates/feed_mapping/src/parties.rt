//! The type and the value of an identifier of a sender, an addressee or a supplier.

/// The type and the value of an identifier, each empty where it has none.
#[derive(Clone, Copy, Debug)]
pub struct Pair<'a> {
    pub id_type: &'a [u8],
    pub id_value: &'a [u8],
}

/// No identifier.
pub(crate) const NO_PAIR: Pair<'static> = Pair {
    id_type: b"",
    id_value: b"",
};
