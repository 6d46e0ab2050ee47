//! Laws: facts about the definitions alone. Each is the contract of a function that does nothing.

ghost use Rattle.std.specs.Prelude.{◌≡◌, ℕ, List, Some, length};
ghost use Rattle.onix_records.specs.Message.{message_of};
ghost use Rattle.onix_records.specs.declared.parts.Header.{Header};
ghost use Rattle.onix_records.specs.declared.parts.Product.{Product};
ghost use Rattle.desk_export.specs.Exports.{ExportIsTrue};
ghost use Rattle.desk_export.specs.MessageRecords.{message_records, numbered_header};
ghost use Rattle.desk_export.specs.RequestTexts.{ExportIsRead};

use csv_records::laws::one_text;
use onix_records::laws::contents_of_messages;
use onix_terms::laws::{number_reads_back, terms_are_in_range};

/// A message with a number is read again from the records that are written of its parties, its
/// number and its contents: these records are a message with just that, and are as many as those
/// that came.
pub fn messages_read_back()
    ensures read { (records : List (List (List ℕ))) (h : Header) (c : List Product) (n : ℕ)
        → message_of records ≡ Some (h, c) → h.number ≡ Some n
        → message_of (message_records h.sender h.addressee n c)
        ≡ Some (numbered_header h.sender h.addressee n, c) }
    ensures count { (records : List (List (List ℕ))) (h : Header) (c : List Product) (n : ℕ)
        → message_of records ≡ Some (h, c) → h.number ≡ Some n
        → length (message_records h.sender h.addressee n c) ≡ length records }
{
    number_reads_back();
    terms_are_in_range();
    contents_of_messages();
}

/// The requests of an export come to the same as the list that is exported: every further request
/// is answered alike, and two lists come to the same exactly where their exports are equal.
pub fn export_is_true()
    ensures { ExportIsTrue }
{
    messages_read_back();
}

/// The text of an export is read as the requests of the export, if each agreement and each
/// waiver of the list that is exported can be written. So a batch of that text makes, of nothing,
/// what comes to the same as the list, and so do its parts, asked one after the other.
pub fn export_is_read()
    ensures { ExportIsRead }
{
    one_text();
    export_is_true();
}
