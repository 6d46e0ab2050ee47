//! Requests, and what stands at the numbers of a series.

use csv_records::buffer::RecordBuffer;
use onix_message::Agreement;
use onix_message::contents::Contents;
use onix_terms::isbn13::Isbn13;
use onix_terms::number::Number;
use onix_terms::series_name::SeriesName;
use price_rules::offer::{CalendarQuery, PriceQuery};

/// One request of a batch.
#[derive(Drop)]
pub enum Request {
    /// An agreement with a wholesaler.
    Agree(Agreement),
    /// The records of a message.
    Deliver(RecordBuffer),
    /// The wholesaler says that a number will never come.
    Waive { series: SeriesName, number: Number },
    /// What each offer of an article costs.
    AskPrice { isbn: Isbn13, query: PriceQuery },
    /// Which offer of an article the shop chooses.
    AskChoice { isbn: Isbn13, query: PriceQuery },
    /// What each offer of an article costs from one day to another, both included.
    AskCalendar { isbn: Isbn13, query: CalendarQuery },
    /// Which numbers a series lacks.
    AskGaps(SeriesName),
    /// Which records a series has.
    AskCatalogue(SeriesName),
    /// No request: it stops being one at this row of its piece, counted from 1.
    Malformed { row: u32 },
}

/// What stands at a number of a series.
#[derive(Drop)]
pub enum Standing {
    /// The contents of a message.
    Message(Contents),
    /// A waiver: the number will never come.
    Waived,
}
