//! Laws: facts about the definitions alone. Each is the contract of a function that does nothing.

ghost use Rattle.std.specs.Prelude.{◌≡◌, ◌↔◌, ℕ, List, None, Some, true};
ghost use Rattle.onix_records.specs.ContentsText.{IsContents, contents_text};
ghost use Rattle.onix_records.specs.Grammar.{BeginsMessage, EndsMessage, IsBadRow, IsFront, IsMessage};
ghost use Rattle.onix_records.specs.Message.{bad_row, message_of};
ghost use Rattle.onix_records.specs.SameContents.{same_contents};
ghost use Rattle.onix_records.specs.declared.parts.Header.{Header};
ghost use Rattle.onix_records.specs.declared.parts.Product.{Product};

use csv_records::laws::one_text;
use onix_terms::laws::{
    amount_reads_back, day_reads_back, number_reads_back, terms_are_in_range, territory_reads_back,
};

/// The message that is computed of records is the one that they are by the grammar: there is
/// no other, and if none is computed they are none. A message is a front, and of the fronts
/// just those are messages whose last row is an `EndMessage`.
pub fn messages()
    ensures computed { (records : List (List (List ℕ))) (h : Header) (c : List Product)
        → IsMessage records h c → message_of records ≡ Some (h, c) }
    ensures meant { (records : List (List (List ℕ))) (h : Header) (c : List Product)
        → message_of records ≡ Some (h, c) → IsMessage records h c }
    ensures none { (records : List (List (List ℕ)))
        → ((h : Header) (c : List Product) → IsMessage records h c → ⊥)
        → message_of records ≡ None }
    ensures fronts { (records : List (List (List ℕ))) (h : Header) (c : List Product)
        → IsMessage records h c → IsFront records }
    ensures ended { (records : List (List (List ℕ))) (b : BeginsMessage records)
        → EndsMessage b.rows ↔ ((c : List Product) × IsMessage records b.opening.header c) }
{}

/// The row that is computed of records is the one at which they stop being a front, and no
/// other is.
pub fn bad_rows()
    ensures computed { (records : List (List (List ℕ))) (number : ℕ) → IsBadRow records number
        → number ≡ bad_row records }
    ensures meant { (records : List (List (List ℕ))) → IsBadRow records (bad_row records) }
{}

/// The test of contents is passed exactly by those that are equal.
pub fn equal_contents()
    ensures passed { (c d : List Product) → same_contents c d ≡ true → c ≡ d }
    ensures equal { (c d : List Product) → c ≡ d → same_contents c d ≡ true }
{}

/// Two contents with one text are equal.
pub fn one_contents_text()
    ensures { (c d : List Product) → IsContents c → IsContents d
        → contents_text c ≡ contents_text d → c ≡ d }
{
    one_text();
}

/// The contents of a message are contents, so the text that is written of them is read as
/// these contents.
pub fn contents_of_messages()
    ensures { (records : List (List (List ℕ))) (h : Header) (c : List Product)
        → message_of records ≡ Some (h, c) → IsContents c }
{
    number_reads_back();
    amount_reads_back();
    day_reads_back();
    terms_are_in_range();
    territory_reads_back();
}
