//! The answers of a desk.

use catalogue_rules::catalogue::Catalogue;
use onix_message::Effect;
use onix_terms::amount::Amount;
use onix_terms::code::Code2;
use onix_terms::isbn13::Isbn13;
use onix_terms::items::Items;
use onix_terms::number::Number;
use onix_terms::series_name::SeriesName;
use onix_terms::text::Text;
use price_rules::calendar::Span;

/// The answer to an agreement.
#[derive(Drop)]
pub enum AgreeAnswer {
    /// It stands.
    Agreed,
    /// Another agreement has the name.
    NameTaken,
    /// The agreement of this name has the sender and the addressee.
    SeriesTaken { name: SeriesName },
}

/// The answer to a delivery.
#[derive(Drop)]
pub enum DeliveryAnswer {
    /// The records are no message: they stop being one at this row, counted from 1.
    Malformed {
        row: u32,
    },
    /// The message has no MessageNumber.
    Unnumbered,
    /// No agreement has its sender and addressee.
    UnknownSeries,
    /// Its number is below the agreed first.
    BeforeFirst {
        series: SeriesName,
        number: Number,
        first: Number,
    },
    /// Its number was waived.
    Waived {
        series: SeriesName,
        number: Number,
    },
    /// An earlier message of its number has other contents.
    OtherContents {
        series: SeriesName,
        number: Number,
    },
    /// It is applied, with the effect that it had at its place in the order of numbers.
    Applied {
        series: SeriesName,
        number: Number,
        effect: Effect,
    },
    /// It waits for the message of this number.
    Held {
        series: SeriesName,
        number: Number,
        waiting_for: u32,
    },
}

/// The answer to a waiver.
#[derive(Drop)]
pub enum WaiveAnswer {
    /// No agreement has the name.
    UnknownSeries,
    /// The number is below the agreed first.
    BeforeFirst { first: Number },
    /// A message has the number.
    Had,
    /// The number is waived.
    Waived,
}

/// Which numbers of a series have something, and which have nothing.
#[derive(Drop)]
pub struct GapReport {
    pub series: SeriesName,
    /// The agreed first number.
    pub first: Number,
    /// The first number that has nothing.
    pub next: u32,
    /// The greatest number that has something.
    pub greatest: Option<Number>,
    /// How many numbers from `next` on have something.
    pub held: u64,
    /// The numbers from the first to the greatest that have nothing, as ranges in order, each
    /// by its first and its last number. Between two ranges some number has something.
    pub missing: Items<(Number, Number)>,
}

/// Which offer an answer speaks of: the place, from 1, of a SupplyDetail among all those of its
/// record, and its ProductAvailability.
#[derive(Drop)]
pub struct ListedOffer {
    pub series: SeriesName,
    pub reference: Text,
    pub place: u32,
    pub availability: Code2,
}

/// An offer and its current price, if a price holds.
#[derive(Drop)]
pub struct PricedOffer {
    pub offer: ListedOffer,
    pub amount: Option<Amount>,
}

/// The offer that the shop chooses, the number of the rule that takes it, from 1, and its current
/// price.
#[derive(Drop)]
pub struct ChosenOffer {
    pub rule: u32,
    pub offer: ListedOffer,
    pub amount: Amount,
}

/// An offer and its current prices from one day to another, as spans in order.
#[derive(Drop)]
pub struct OfferCalendar {
    pub offer: ListedOffer,
    pub spans: Items<Span>,
}

/// The answer to a request, with the values that its lines print.
#[derive(Drop)]
pub enum Answer {
    Agreement {
        name: SeriesName,
        first: Number,
        answer: AgreeAnswer,
    },
    Delivery(DeliveryAnswer),
    Waiver {
        series: SeriesName,
        number: Number,
        answer: WaiveAnswer,
    },
    /// The offers of an article, in order of series name, reference and place.
    Price {
        isbn: Isbn13,
        offers: Items<PricedOffer>,
    },
    /// The choice, where the precedence table takes an offer of the article.
    Choice {
        isbn: Isbn13,
        choice: Option<ChosenOffer>,
    },
    /// The offers of an article, in the same order.
    Calendar {
        isbn: Isbn13,
        offers: Items<OfferCalendar>,
    },
    /// The last day of a calendar was before its first, or it had more than 3,660 days.
    BadRange,
    Gaps(GapReport),
    Catalogue {
        series: SeriesName,
        catalogue: Catalogue,
    },
    /// The answer to a question about a series that is not agreed.
    UnknownSeries,
    /// The piece was no request: it stops being one at this row, counted from 1.
    Malformed {
        row: u32,
    },
}
