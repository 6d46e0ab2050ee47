//! What rows keep. Each law is the contract of a function that does nothing.

ghost use Rattle.std.specs.Prelude.{◌≡◌, ℕ, All, List, Option, map};
ghost use Rattle.std.specs.List.{AllZip};
ghost use Rattle.catalogue_rules.specs.declared.entry.Entry.{Entry};
ghost use Rattle.desk_catalogue.specs.ArticleOffers.{HeldOffersAreAnswered};
ghost use Rattle.desk_catalogue.specs.EntryRows.{article_rows, ids_of, offer_rows_of, record_row, supplied_details, supplies_of};
ghost use Rattle.desk_catalogue.specs.Holding.{HoldsEntry};
ghost use Rattle.desk_catalogue.specs.Storable.{IsStorableProduct};
ghost use Rattle.desk_tables.specs.ArticleAnswers.{AreArticlesOf, AreOfferRowsOf, ArePricesAt};
ghost use Rattle.desk_tables.specs.Rows.{DeskRows};
ghost use Rattle.desk_tables.specs.declared.articles.ArticleRow.{ArticleRow};
ghost use Rattle.desk_tables.specs.declared.offers.OfferRow.{OfferRow};
ghost use Rattle.onix_records.specs.ContentsText.{IsContents};
ghost use Rattle.onix_records.specs.declared.parts.Price.{Price};
ghost use Rattle.onix_records.specs.declared.parts.Product.{Product};

/// Each product of a message can be kept.
pub fn contents_are_storable()
    ensures { (c : List Product) → IsContents c → All IsStorableProduct c }
{}

/// Where the tables hold an entry, the queries for its rows answer its identifiers, its offers and
/// the prices of each offer, in order.
pub fn held_entries_are_answered()
    ensures articles { (series reference : List ℕ) (o : Option Entry) (rows : DeskRows)
        (got : List ArticleRow)
        → HoldsEntry series reference o rows
        → AreArticlesOf series reference rows got → got ≡ article_rows series reference (ids_of o) }
    ensures offers { (series reference : List ℕ) (o : Option Entry) (rows : DeskRows)
        (got : List OfferRow)
        → HoldsEntry series reference o rows
        → AreOfferRowsOf rows (record_row series reference) got
        → got ≡ offer_rows_of series reference (supplies_of o) }
    ensures prices { (series reference : List ℕ) (o : Option Entry) (rows : DeskRows)
        (got : List (List Price))
        → HoldsEntry series reference o rows
        → AllZip (λ row prices. ArePricesAt row.series row.reference row.place rows prices)
        (offer_rows_of series reference (supplies_of o)) got
        → got ≡ map (λ d. d.detail.prices) (supplied_details (supplies_of o)) }
{}

/// Where the tables hold all catalogues, the queries for the offers of an article answer those that
/// its records have in the catalogues, in order of series name, reference and place.
pub fn held_offers_are_answered()
    ensures { HeldOffersAreAnswered }
{}
