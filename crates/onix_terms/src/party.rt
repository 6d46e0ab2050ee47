//! Identifiers of a sender, an addressee or a supplier.

use crate::code::Code2;
use crate::text::Text;

/// A sender, an addressee or a supplier, by an identifier of a type.
#[derive(Clone, Debug, Drop, PartialEq, Eq)]
pub struct Party {
    /// The type of the identifier, such as `06` for a GLN.
    pub id_type: Code2,
    /// The identifier, compared byte by byte.
    pub id_value: Text,
}
