//! Laws about the definitions, each the contract of a function with an empty body.

ghost use Rattle.feed_terms.specs.Laws.{AmountIsRounded, ComputedIsNoMore, ComputedReadsBack, GivenPriceStands, LessComputedIsWithout, NothingByNoTerms, TablesHaveCodes, WrittenAreWritable};

/// An amount is the exact one, rounded to hundredths, halves up.
pub fn amount_is_rounded()
    ensures { AmountIsRounded }
{}

/// A computed price is never more than the price that it comes from.
pub fn computed_is_no_more()
    ensures { ComputedIsNoMore }
{}

/// An empty table computes nothing.
pub fn nothing_by_no_terms()
    ensures { NothingByNoTerms }
{}

/// The records with the terms, less the computed ones, are those without.
pub fn less_computed_is_without()
    ensures { LessComputedIsWithout }
{}

/// Wherever a price of the feed holds, the answer with the terms is that without.
pub fn given_price_stands()
    ensures { GivenPriceStands }
{}

/// The record of a computed price says that price: its terms have codes, as those of each table, and
/// the price that it comes from says what the desk can hold.
pub fn computed_reads_back()
    ensures codes { TablesHaveCodes }
    ensures writable { WrittenAreWritable }
    ensures read { ComputedReadsBack }
{}
