//! What the definitions of the mapping come to. Each law is the contract of a function that does
//! nothing.

ghost use Rattle.std.specs.Prelude.{◌≡◌, ◌+◌, ◌<◌, ◌≤◌, ◌++◌, [], ℕ, List, None, Ok, Some, length};
ghost use Rattle.feed_mapping.specs.Header.{Choices, Heading, heading_in};
ghost use Rattle.std.specs.List.{AllByRecursion};
ghost use Rattle.feed_mapping.specs.ProductRecords.{fate_of, variants};
ghost use Rattle.feed_mapping.specs.Details.{detail_outcome};
ghost use Rattle.feed_mapping.specs.Outcomes.{outcome_reason};
ghost use Rattle.feed_mapping.specs.PriceFates.{HasDetails, HasPrices, HasSupplies};
ghost use Rattle.feed_mapping.specs.Supplies.{supply_outcome};
ghost use Rattle.feed_mapping.specs.Rows.{AreOf, AreProducts, MayCompute, message_records, numbered, part_record, references_of};
ghost use Rattle.feed_mapping.specs.SupplyChoices.{SupplyChoices};
ghost use Rattle.feed_mapping.specs.TermsLaws.{GivenStands, IsAdded};
ghost use Rattle.feed_terms.specs.declared.term.Term.{Term};
ghost use Rattle.onix_records.specs.Grammar.{IsMessage, most_records};
ghost use Rattle.onix_records.specs.Opening.{opening_of};
ghost use Rattle.onix_records.specs.Row.{row_of};
ghost use Rattle.onix_records.specs.declared.parts.Product.{Product};
ghost use Rattle.onix_records.specs.declared.row.Opening.{Opening};
ghost use Rattle.feed_outline.specs.Nodes.{Nodes};

use crate::product_records::Fate;
use feed_terms::laws::{computed_reads_back, given_price_stands, less_computed_is_without};
use onix_records::row::Form;
use onix_terms::laws::number_reads_back;

/// The record of each part says what that of the first says, but for its number, and records are
/// read behind it as behind that; it begins a message of form 2.
pub fn parts_say_the_same()
    ensures opening { (c : Choices) (header : Nodes) (h : Heading) → heading_in c header ≡ Ok h
        → (before : ℕ) → before < c.parts → opening_of (part_record h header before)
        ≡ Some (numbered (h.number + before) h.opening) }
    ensures form { (c : Choices) (header : Nodes) (h : Heading) → heading_in c header ≡ Ok h
        → h.opening.form ≡ Form.Two }
    ensures rows { (n : ℕ) (o : Opening) (fields : List (List ℕ))
        → row_of (numbered n o) fields ≡ row_of o fields }
{
    number_reads_back();
}

/// The records of each variant of a Product are the rows of a product of its reference, or there
/// are none where it has no RecordReference that the desk would take, with terms in form 2; and so
/// are those of several Products, one after the other. With a first record and an end they are a
/// message, if they are not too many.
pub fn records_are_products()
    ensures one { (o : Opening) (choices : SupplyChoices) (nodes : Nodes)
        → MayCompute o choices.terms → AllByRecursion
        (λ f. AreOf o f.records (references_of nodes)) (variants o choices nodes) }
    ensures none { (o : Opening) → AreProducts o [] [] }
    ensures joined { (o : Opening) (a b : List (List (List ℕ))) (c d : List Product)
        → AreProducts o a c → AreProducts o b d → AreProducts o (a ++ b) (c ++ d) }
    ensures message { (o : Opening) (first : List (List ℕ)) (records : List (List (List ℕ)))
        (products : List Product) → opening_of first ≡ Some o → AreProducts o records products
        → length (message_records first records) ≤ most_records
        → IsMessage (message_records first records) o.header products }
{
    number_reads_back();
    computed_reads_back();
}

/// No Price is lost: in a SupplyDetail that is not left out each Price, in order, is nothing by the
/// rule, one record, or has one note; a ProductSupply that is not left out has what its
/// SupplyDetails come to, in order, each its records or one note; and a Product that is neither
/// emptied nor left out has what its ProductSupplys come to, in the same way.
pub fn prices_stand_or_are_told()
    ensures details { (o : Opening) (choices : SupplyChoices) (nodes : Nodes)
        → outcome_reason (detail_outcome o choices nodes) ≡ None
        → HasPrices o choices nodes }
    ensures supplies { (o : Opening) (choices : SupplyChoices) (nodes : Nodes)
        → outcome_reason (supply_outcome o choices nodes) ≡ None
        → HasDetails o choices nodes }
    ensures products { (o : Opening) (choices : SupplyChoices) (nodes : Nodes)
        → fate_of o choices nodes ≡ Fate.Written → HasSupplies o choices nodes }
{}

/// The terms of the shop only add records behind those of Prices: of a SupplyDetail the records
/// less the computed ones are those without terms; and wherever a price of the feed is the current
/// one of the offer that the desk reads of the records, by the desk's own definition, it is that
/// with the computed ones too.
pub fn terms_only_add()
    ensures added { (o : Opening) (terms : List Term) (preferred : List ℕ) (nodes : Nodes)
        → IsAdded o terms preferred nodes }
    ensures stands { (o : Opening) (terms : List Term) (preferred : List ℕ) (nodes : Nodes)
        → MayCompute o (Some terms) → GivenStands o terms preferred nodes }
{
    less_computed_is_without();
    given_price_stands();
    computed_reads_back();
}
