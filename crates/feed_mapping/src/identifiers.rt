//! Identifiers.

ghost use Rattle.std.specs.Prelude.{◌≡◌, find, option_map};
ghost use Rattle.std.specs.List.{list_any};
ghost use Rattle.std.specs.Str.{bytes_eq};
ghost use Rattle.feed_mapping.specs.Elements.{with_others};
ghost use Rattle.feed_mapping.specs.Identifiers.{identifiers_in, chosen};
ghost use Rattle.feed_mapping.specs.Parties.{is_there, same_pair};
ghost use Rattle.feed_mapping.specs.PartyViews.{pair_view};

use crate::elements::text_or_empty;
use crate::parties::Pair;
use feed_outline::{Elements, Line};

/// The names of an identifier and of its type.
#[derive(Clone, Copy, Debug)]
pub(crate) struct Kind {
    pub(crate) name: &'static [u8],
    pub(crate) type_name: &'static [u8],
}

/// The identifiers of a sender.
pub(crate) const SENDER: Kind = Kind {
    name: b"SenderIdentifier",
    type_name: b"SenderIDType",
};

/// The identifiers of an addressee.
pub(crate) const ADDRESSEE: Kind = Kind {
    name: b"AddresseeIdentifier",
    type_name: b"AddresseeIDType",
};

/// The identifiers of a supplier.
pub(crate) const SUPPLIER: Kind = Kind {
    name: b"SupplierIdentifier",
    type_name: b"SupplierIDType",
};

// Whether an identifier has a type or a value: one with neither is as none.
pub(crate) fn is_there(identifier: Pair<'_>) -> bool
    ensures { result ≡ is_there (pair_view identifier.entry) }
{
    !identifier.id_type.is_empty() || !identifier.id_value.is_empty()
}

/// The first identifier, and the elements behind it.
pub(crate) fn next_identifier<'a>(
    kind: Kind,
    elements: &Elements<'a>,
) -> Option<(Pair<'a>, Elements<'a>)>
    ensures { let identifiers = identifiers_in kind.name.now kind.type_name.now in
        with_others identifiers (option_map (λ x. (pair_view x.0, x.1)) result)
        ≡ identifiers elements.now }
{
    let mut rest = elements.copy();
    while let Some(node) = rest.first() {
        if node.line.name == kind.name {
            let found = Pair {
                id_type: text_or_empty(kind.type_name, &node.below),
                id_value: text_or_empty(b"IDValue", &node.below),
            };
            if is_there(found) {
                return Some((found, node.rest));
            }
        }
        rest = node.rest;
    }
    None
}

/// Whether one of the identifiers has that type and value.
pub(crate) fn has_pair(kind: Kind, pair: Pair<'_>, elements: &Elements<'_>) -> bool
    ensures { result ≡ list_any (same_pair (pair_view pair.entry))
        (identifiers_in kind.name.now kind.type_name.now elements.now) }
{
    let mut rest = elements.copy();
    while let Some((found, behind)) = next_identifier(kind, &rest) {
        if pair.id_type == found.id_type && pair.id_value == found.id_value {
            return true;
        }
        rest = behind;
    }
    false
}

// The first identifier of a type.
fn first_of_type<'a>(kind: Kind, id_type: &[u8], elements: &Elements<'a>) -> Option<Pair<'a>>
    ensures { option_map pair_view result ≡ find (λ i. bytes_eq i.id_type id_type.now)
        (identifiers_in kind.name.now kind.type_name.now elements.now) }
{
    let mut rest = elements.copy();
    while let Some((found, behind)) = next_identifier(kind, &rest) {
        if found.id_type == id_type {
            return Some(found);
        }
        rest = behind;
    }
    None
}

/// Of several identifiers the first of the preferred type, else the first.
pub(crate) fn choose_identifier<'a>(
    kind: Kind,
    preferred: &[u8],
    elements: &Elements<'a>,
) -> Option<Pair<'a>>
    ensures { option_map pair_view result
        ≡ chosen preferred.now (identifiers_in kind.name.now kind.type_name.now elements.now) }
{
    match first_of_type(kind, preferred, elements) {
        Some(found) => Some(found),
        None => match next_identifier(kind, elements) {
            Some((first, _)) => Some(first),
            None => None,
        },
    }
}
