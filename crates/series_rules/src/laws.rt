//! Laws of the definitions.

ghost use Rattle.series_rules.specs.Laws.{AgreementsAreDistinct, NextIsLeast, FrontIsExact, ByContentAlone, FrontOnlyGrows, GapsAreTrue};
ghost use Rattle.series_rules.specs.OfferLaws.{OffersAreTrue};
ghost use Rattle.series_rules.specs.PriceLaws.{CalendarsAreTrue, ChoiceIsTrue, PricesAreTrue};
ghost use Rattle.series_rules.specs.Steps.{TracesLead};
ghost use Rattle.price_rules.specs.declared.precedence.Rule.{Rule};
ghost use Rattle.std.specs.Prelude.{List};

use crate::desk::Desk;
use price_rules::laws::{calendar_is_exact, choice_is_exact, current_is_exact};

/// No two agreements share a name, nor a sender and addressee. What is found by its name is found
/// by its sender and addressee too, and the other way round.
pub fn agreements_are_distinct()
    ensures { AgreementsAreDistinct }
{}

/// The next number of a series is the least, from the agreed first on, that has nothing.
pub fn next_is_least()
    ensures { NextIsLeast }
{}

/// The front of a series is what stands at its numbers from the agreed first on, up to the first
/// that has nothing, and no other list is.
pub fn front_is_exact()
    ensures { FrontIsExact }
{}

/// Two lists of requests with the same agreements and the same at each number are answered the
/// same under any precedence table, now and after any further request.
pub fn by_content_alone()
    ensures { ByContentAlone }
{}

/// What stands below the first gap of a series stays, and what a message did there never changes.
pub fn front_only_grows()
    ensures { FrontOnlyGrows }
{}

/// The report on the gaps of a series has its name and its first number, the first number that has
/// nothing, how many from that on have something, the greatest of them, and in ranges of which no
/// two touch just the numbers up to it that have nothing.
pub fn gaps_are_true()
    ensures { GapsAreTrue }
{}

/// The offers of an article are each SupplyDetail of each record of an agreed series that has an
/// identifier of type 03 or 15 with its number, and no other, each once, in order of series,
/// reference and place.
pub fn offers_are_true()
    ensures { OffersAreTrue }
{}

/// An answer about prices has the offers in their order, each with its current price.
pub fn prices_are_true()
    ensures { PricesAreTrue }
{
    current_is_exact();
}

/// An answer about a choice has the offer that the shop chooses, with its rule and its price. It
/// has none exactly where no rule takes an offer.
pub fn choice_is_true()
    ensures { ChoiceIsTrue }
{
    choice_is_exact();
}

/// A question about a calendar is refused exactly where its range is bad. Else its answer has the
/// offers in their order, each with its calendar.
pub fn calendars_are_true()
    ensures { CalendarsAreTrue }
{
    calendar_is_exact();
}

/// Whatever is asked of a desk, one request after the other: for every list that it stood for, each
/// answer is the definition's, and it stands for the list with the requests that were answered. A
/// crash leaves all of these and at most one request that had a fault of the store, behind which no
/// answer changed something; or, while no answer has changed something, what it could leave before.
/// Questions add nothing to that, and beside questions a fault leaves what the desk holds, of a list
/// or not. Each fault is `Memory` or one that the desk may give.
pub fn traces_lead<D: Desk>()
    ensures { (rules : List Rule) → TracesLead D.seen rules }
{}
