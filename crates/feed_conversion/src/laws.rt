//! What the definitions of the conversion come to. Each law is the contract of a function that does
//! nothing.

ghost use Rattle.std.specs.Prelude.{◌≡◌, [], None, Ok, Some};
ghost use Rattle.feed_outline.specs.Nodes.{Nodes};
ghost use Rattle.feed_mapping.specs.Rows.{HaveCodes};
ghost use Rattle.feed_conversion.specs.Conversion.{Options, by_terms, conversion};
ghost use Rattle.feed_conversion.specs.Packing.{Converted};
ghost use Rattle.feed_conversion.specs.Parts.{AreParts};

use csv_records::laws::one_text;
use feed_mapping::laws::{parts_say_the_same, records_are_products};
use feed_terms::laws::nothing_by_no_terms;

/// The products of a message, each once and in order, stand in its parts, one part after the other
/// and each in the first of its variants that is not too large, as many as there is room for; one
/// stands in none only where none of its variants is right for some part. The desk takes each part
/// with just its products: its text is UTF-8 and at most 4,194,304 bytes, and the records that are
/// read of it are a message, of at most 20,000 records, whose header has the part's number. Where
/// there are terms of the shop, the types of their net prices are codes, as those of each table are.
pub fn products_stand_in_parts()
    ensures { (o : Options) (nodes : Nodes) (made : Converted) → HaveCodes o.terms
        → conversion o nodes ≡ Ok made → AreParts o nodes made }
{
    one_text();
    parts_say_the_same();
    records_are_products();
}

/// With a table of no term what comes of a message is what comes of it without terms: the same
/// parts and counts, or the same refusal.
pub fn no_term_converts_as_none()
    ensures { (o : Options) (nodes : Nodes)
        → conversion (by_terms (Some []) o) nodes ≡ conversion (by_terms None o) nodes }
{
    nothing_by_no_terms();
}
