//! What the summary counts of a Product beside its notes.

ghost use Rattle.std.specs.Prelude.{◌≡◌};
ghost use Rattle.feed_conversion.specs.Tallies.{is_of_others};
ghost use Rattle.feed_mapping.specs.Notes.{note_views};

use crate::reasons::{Fate, told_of};
use crate::summary::{Beside, Summary};
use csv_records::buffer::RecordBuffer;
use csv_records::record::Record;
use feed_mapping::{
    Composite, Note, Pair, first_composite, is_of_other, next_composite, next_detail, text_or_empty,
};
use feed_outline::{Elements, Line, Node, text_in};

// What repeats, or is counted alone.
const REPEATABLE: [&[u8]; 17] = [
    b"Addressee",
    b"SenderIdentifier",
    b"AddresseeIdentifier",
    b"ProductIdentifier",
    b"ProductSupply",
    b"Market",
    b"SupplyDetail",
    b"SupplierIdentifier",
    b"Price",
    b"PriceCondition",
    b"PriceConstraint",
    b"PriceDate",
    b"Discount",
    b"DiscountCoded",
    b"PublishingDetail",
    b"SalesRights",
    b":",
];

// Whether all SupplyDetails of a ProductSupply, which has some, are of others than the supplier that
// is named: it is as absent.
fn is_supply_of_others(named: Option<Pair<'_>>, supply: &Elements<'_>) -> bool {
    named.is_some() && next_detail(None, supply).is_some() && next_detail(named, supply).is_none()
}

// Whether an element is not looked at: in a Price or a Market a second one is wrong, and has a note;
// of a deletion supplies are not read; what is of other suppliers is as absent.
fn is_passed_over(named: Option<Pair<'_>>, element: &Node<'_>, is_deletion: bool) -> bool {
    match element.line.name {
        b"Price" | b"Market" => true,
        b"SupplyDetail" => is_of_other(named, &element.below),
        b"ProductSupply" => is_deletion || is_supply_of_others(named, &element.below),
        _ => false,
    }
}

// Whether one of the elements is the first of its name.
fn is_first(line: &Line, elements: &Elements<'_>) -> bool {
    match first_composite(line.name, elements) {
        Some(first) => first.line.place.is_at(&line.place),
        None => true,
    }
}

// Whether an element comes again among those behind it: a composite, empty or not; and of one of
// text, which has a text, another with one.
fn comes_again(element: &Node<'_>) -> bool {
    let name = element.line.name;
    if name == b"Sender".as_slice() || name == b"Supplier".as_slice() {
        first_composite(name, &element.rest).is_some()
    } else {
        !element.line.text.as_slice().is_empty() && text_in(name, &element.rest).is_some()
    }
}

/// How many of the elements come again, and of those in what is read of them: one of them is not.
pub(crate) fn count_again(
    named: Option<Pair<'_>>,
    elements: &Elements<'_>,
    is_deletion: bool,
) -> u64 {
    let mut count = 0u64;
    let mut rest = elements.copy();
    while let Some(node) = rest.first() {
        if !is_passed_over(named, &node, is_deletion) {
            let repeats = REPEATABLE.iter().any(|name| *name == node.line.name);
            count = count.saturating_add(u64::from(!repeats && comes_again(&node)));
            if repeats || is_first(node.line, elements) {
                let below = count_again(named, &node.below, is_deletion);
                count = count.saturating_add(below);
            }
        }
        rest = node.rest;
    }
    count
}

// What counts below a Product, by its name and those of what it stands in.
const DETAILS: [&[u8]; 2] = [b"ProductSupply", b"SupplyDetail"];

const PRICES: [&[u8]; 3] = [b"ProductSupply", b"SupplyDetail", b"Price"];

const RIGHTS: [&[u8]; 2] = [b"PublishingDetail", b"SalesRights"];

// How many elements of that path count: a SupplyDetail of the supplier that is named, a Price with
// an amount, and any other.
fn count_at(named: Option<Pair<'_>>, path: &[&[u8]], elements: &Elements<'_>) -> u64 {
    let Some((name, deeper)) = path.split_first() else {
        return 1;
    };
    let mut count = 0u64;
    let mut rest = elements.copy();
    while let Some((element, behind)) = next_composite(name, &rest) {
        let is_counted = match *name {
            b"SupplyDetail" => !is_of_other(named, &element.below),
            b"Price" => text_in(b"PriceAmount", &element.below).is_some(),
            _ => true,
        };
        if is_counted {
            count = count.saturating_add(count_at(named, deeper, &element.below));
        }
        rest = behind;
    }
    count
}

// Whether one of the records has this name.
fn has_record(name: &str, written: &RecordBuffer) -> bool {
    for index in 0..written.len() {
        if written.record(index).get(0) == Some(name) {
            return true;
        }
    }
    false
}

// Whether a ProductSupply of a Product has no Market, and is written, as these notes have it.
fn has_world_supply(named: Option<Pair<'_>>, product: &Elements<'_>, notes: &[Note<'_>]) -> bool {
    let mut rest = product.copy();
    while let Some((supply, behind)) = next_composite(b"ProductSupply", &rest) {
        let is_left_out = is_supply_of_others(named, &supply.below)
            || notes
                .iter()
                .any(|note| note.line.place.is_at(&supply.line.place));
        if !is_left_out && first_composite(b"Market", &supply.below).is_none() {
            return true;
        }
        rest = behind;
    }
    false
}

// Whether the records of two SupplyDetails are of different suppliers, by type and value, or by name
// where neither has them.
fn are_of_two(one: &Record<'_>, other: &Record<'_>) -> bool {
    let is_named = one.get(2) == Some("") && one.get(3) == Some("");
    one.get(2) != other.get(2)
        || one.get(3) != other.get(3)
        || (is_named && one.get(4) != other.get(4))
}

// Whether the records of a Product are of SupplyDetails of different suppliers.
fn are_of_several(written: &RecordBuffer) -> bool {
    let mut first = None;
    for index in 0..written.len() {
        let record = written.record(index);
        if record.get(0) == Some("SupplyDetail") {
            match &first {
                None => first = Some(record),
                Some(first) => {
                    if are_of_two(first, &record) {
                        return true;
                    }
                }
            }
        }
    }
    false
}

/// Whether a note says that a Product is of other suppliers alone.
pub(crate) fn is_of_others(notes: &[Note<'_>]) -> bool
    ensures { result ≡ is_of_others (note_views notes.now) }
{
    let mut rest = notes;
    while let [note, tail @ ..] = rest {
        if !note.is_aside && note.reason.kind.is_of_others() {
            return true;
        }
        rest = tail;
    }
    false
}

/// Counts a Product, of which these records are written, with these notes, where that supplier is
/// named, or none.
pub(crate) fn count_product(
    summary: &mut Summary,
    named: Option<Pair<'_>>,
    product: &Composite<'_>,
    written: &RecordBuffer,
    notes: &[Note<'_>],
) {
    let below = &product.below;
    // Its supplies are not looked at then.
    let is_deletion = text_or_empty(b"NotificationType", below) == b"05".as_slice();
    let is_written = written.len() != 0;
    let is_emptied = is_written
        && notes
            .iter()
            .any(|note| told_of(note.reason.kind).fate == Fate::Emptied);
    let is_unpriced = !is_deletion
        && !has_record("Price", written)
        && count_at(named, &PRICES, below) != 0;
    let has_rights = has_record("ProductSupply", written)
        && count_at(None, &RIGHTS, below) != 0
        && has_world_supply(named, below, notes);
    summary.count(Beside::Products, 1);
    summary.count(Beside::Emptied, u64::from(is_emptied));
    summary.count(Beside::Unpriced, u64::from(is_unpriced));
    summary.count(Beside::WithRights, u64::from(has_rights));
    summary.count(Beside::OfOthers, u64::from(is_of_others(notes)));
    let is_of_several = named.is_none() && are_of_several(written);
    summary.count(Beside::OfSeveral, u64::from(is_of_several));
    summary.count(Beside::Again, count_again(named, below, is_deletion));
    if is_written && !is_emptied && !is_deletion {
        let own = count_at(named, &DETAILS, below);
        let others = count_at(None, &DETAILS, below).saturating_sub(own);
        summary.count(Beside::OtherDetails, others);
    }
}
