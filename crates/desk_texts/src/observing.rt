//! Who observes the requests of a batch.

use csv_records::buffer::RecordBuffer;
use series_rules::answers::Answer;
use series_rules::requests::Request;

/// Who observes what is read of a batch, and what a desk answers. It decides nothing, and no contract
/// speaks of it.
pub trait Observer {
    /// A piece is no request: it stops being one at this row, counted from 1.
    fn observe_piece(&mut self, piece: &RecordBuffer, row: u32);

    /// A request was answered so.
    fn observe_answer(&mut self, request: &Request, answer: &Answer);
}

/// Nobody.
impl Observer for () {
    fn observe_piece(&mut self, _piece: &RecordBuffer, _row: u32) {}

    fn observe_answer(&mut self, _request: &Request, _answer: &Answer) {}
}
