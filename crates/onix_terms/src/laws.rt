//! What the definitions of the terms come to. Each law is the contract of a function that does
//! nothing.

ghost use Rattle.std.specs.Prelude.{◌≡◌, ◌↔◌, ◌<◌, ◌≤◌, true, Contains, List, length, ℕ, ℤ, Some, decimal};
ghost use Rattle.std.specs.List.{list_all};
ghost use Rattle.onix_terms.specs.Amount.{amount_of, amount_text};
ghost use Rattle.onix_terms.specs.Digits.{digits_of};
ghost use Rattle.onix_terms.specs.Day.{IsDayNumber, day_of, day_text};
ghost use Rattle.onix_terms.specs.Number.{number_of};
ghost use Rattle.onix_terms.specs.Quantity.{quantity_of};
ghost use Rattle.onix_terms.specs.Territory.{IsInOrder, countries_text, is_letter_or_space, territory_of, words_of, world_text};
ghost use Rattle.onix_terms.specs.declared.territory.Territory.{Territory};

/// The decimal digits of a number are read as that number.
pub fn number_reads_back()
    ensures digits { (n : ℕ) → n < 1_000_000_000 → digits_of (decimal n) ≡ Some n }
    ensures number { (n : ℕ) → 0 < n → n < 1_000_000_000 → number_of (decimal n) ≡ Some n }
    ensures quantity { (n : ℕ) → 0 < n → n < 1_000_000 → quantity_of (decimal n) ≡ Some n }
{}

/// The text of an amount is read as that amount.
pub fn amount_reads_back()
    ensures { (n : ℕ) → n < 1_000_000_000_000 → amount_of (amount_text n) ≡ Some n }
{}

/// The text of a day is read as that day, and no other text is.
pub fn day_reads_back()
    ensures read { (day : ℤ) → IsDayNumber day → day_of (day_text day) ≡ Some day }
    ensures only { (text : List ℕ) (day : ℤ) → day_of text ≡ Some day → text ≡ day_text day }
{}

/// The numbers that texts write are in their ranges.
pub fn terms_are_in_range()
    ensures number { (text : List ℕ) (n : ℕ) → number_of text ≡ Some n
        → (0 < n) × (n < 1_000_000_000) }
    ensures quantity { (text : List ℕ) (n : ℕ) → quantity_of text ≡ Some n
        → (0 < n) × (n < 1_000_000) }
    ensures amount { (text : List ℕ) (n : ℕ) → amount_of text ≡ Some n → n < 1_000_000_000_000 }
    ensures day { (text : List ℕ) (day : ℤ) → day_of text ≡ Some day → IsDayNumber day }
{}

/// The countries of a territory that was read are in order, each once.
pub fn territory_is_in_order()
    ensures included { (included regions excluded : List ℕ) (t : Territory)
        → territory_of included regions excluded ≡ Some t → IsInOrder t.included }
    ensures excluded { (included regions excluded : List ℕ) (t : Territory)
        → territory_of included regions excluded ≡ Some t → IsInOrder t.excluded }
{}

/// The countries of a territory that was read are exactly the words of its fields.
pub fn territory_has_named_countries()
    ensures included { (included regions excluded : List ℕ) (t : Territory)
        → territory_of included regions excluded ≡ Some t
        → (country : List ℕ) → Contains t.included country ↔ Contains (words_of included) country }
    ensures excluded { (included regions excluded : List ℕ) (t : Territory)
        → territory_of included regions excluded ≡ Some t
        → (country : List ℕ) → Contains t.excluded country ↔ Contains (words_of excluded) country }
{}

/// A territory that was read is read again from its countries in order with one space between
/// them, and from `WORLD` or nothing. These texts of countries are no longer than the fields
/// that were read, and have letters and spaces alone.
pub fn territory_reads_back()
    ensures read { (included regions excluded : List ℕ) (t : Territory)
        → territory_of included regions excluded ≡ Some t
        → territory_of (countries_text t.included) (world_text t.world) (countries_text t.excluded)
        ≡ Some t }
    ensures short { (included regions excluded : List ℕ) (t : Territory)
        → territory_of included regions excluded ≡ Some t
        → (length (countries_text t.included) ≤ length included)
        × (length (countries_text t.excluded) ≤ length excluded) }
    ensures letters { (included regions excluded : List ℕ) (t : Territory)
        → territory_of included regions excluded ≡ Some t
        → (list_all is_letter_or_space (countries_text t.included) ≡ true)
        × (list_all is_letter_or_space (countries_text t.excluded) ≡ true) }
{}
