//! Laws: facts about the definitions alone. Each is the contract of a function that does nothing.

ghost use Rattle.std.specs.Prelude.{◌≡◌, ℕ, List};
ghost use Rattle.csv.specs.Reading.{strip_bom};
ghost use Rattle.csv_records.specs.RecordTexts.{AllFilled, records_of, records_text};

/// Records that each have a field have one text, which is read as these records.
pub fn one_text()
    ensures read { (rows : List (List (List ℕ))) → AllFilled rows
        → strip_bom (records_text rows) ≡ records_text rows
        → records_of (records_text rows) ≡ rows }
    ensures only { (rows others : List (List (List ℕ))) → AllFilled rows → AllFilled others
        → records_text rows ≡ records_text others → rows ≡ others }
{}
