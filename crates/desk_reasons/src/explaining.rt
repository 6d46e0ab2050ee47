//! The lines that say why requests are malformed.

ghost use Rattle.std.specs.Prelude.{◌≡◌, ◌++◌, ◌-◌, [], IfOk, OnOk, fold, length, nat_lt, string_bytes};
ghost use Rattle.desk_reasons.specs.Lines.{counted, line_text, room_after, row_of};
ghost use Rattle.desk_reasons.specs.Refused.{malformed_row};

use crate::causes::push_cause;
use crate::lines::RecordLines;
use crate::questions::line_of;
use crate::refused::row_of_message;
use csv_records::buffer::RecordBuffer;
use series_rules::answers::{Answer, DeliveryAnswer};
use series_rules::requests::Request;
use std::alloc::{AllocError, Global};
use std::collections::VecDeque;
use std::io::Write;
use watched_output::shown_texts::push_shown;

/// How many lines may be written, and how many requests were malformed so far, each of which has
/// one as far as there is room.
#[derive(Clone, Copy)]
pub struct Room {
    most: u32,
    malformed: u64,
}

impl Room {
    /// Room for so many lines.
    pub fn new(most: u32) -> Room
        ensures { result ≡ record { most = most; malformed = 0 } }
    {
        Room { most, malformed: 0 }
    }

    /// How many requests were malformed so far.
    pub fn malformed(&self) -> u64
        ensures { result ≡ self.now.malformed }
    {
        self.malformed
    }

    /// How many of them have no line, since there was no room.
    pub fn untold(&self) -> u64
        ensures { result ≡ self.now.malformed - self.now.most }
    {
        self.malformed.saturating_sub(u64::from(self.most))
    }

    // Counts a malformed request, and says whether there is room for its line.
    fn take(&mut self) -> bool
        ensures room { self.new ≡ counted self.old }
        ensures has_room { result ≡ nat_lt self.old.malformed self.old.most }
    {
        let has_room = self.malformed < u64::from(self.most);
        self.malformed = self.malformed.saturating_add(1);
        has_room
    }
}

// What is said of a piece that is no request, which stops being one at a row, and how many records
// it has.
#[derive(Drop)]
struct Kept {
    cause: String,
    row: u32,
    count: usize,
}

// What is said of the piece of these records.
fn kept_of(alloc: Global, piece: &RecordBuffer, row: u32) -> Result<Kept, AllocError>
    ensures row { IfOk result (λ kept. kept.row ≡ row) }
    ensures count { IfOk result (λ kept. kept.count ≡ length piece.now) }
{
    let mut cause = String::new(alloc);
    push_cause(alloc, &mut cause, &piece.as_records(), row)?;
    let count = piece.len();
    Ok(Kept { cause, row, count })
}

// Adds the line on what stands at a place of the file of this name, which may be empty.
fn push_line(text: &mut String, name: &str, place: &str, cause: &str) -> Result<(), AllocError>
    ensures { OnOk result (string_bytes text.new
        ≡ string_bytes text.old ++ line_text name.now place.now cause.now) }
{
    text.push_str("onixdesk: ")?;
    if !name.is_empty() {
        push_shown(text, name, 100)?;
        text.push_str(": ")?;
    }
    text.push_str(place)?;
    text.push_str(":")?;
    text.push_str(cause)?;
    text.push_str("\n")
}

/// The lines on malformed requests, each made while its records are in hand, as far as there is room
/// and memory.
///
/// It observes a batch: its pieces that are no requests as they are read, and then its answers, in
/// the order of its text. Or it observes an exchange over HTTP.
#[derive(Drop)]
pub struct Reasons<'a> {
    alloc: Global,
    // The name of the file of the records, or none; and their lines, which a message that was posted
    // has not.
    name: &'a str,
    lines: Option<RecordLines<'a>>,
    kept: VecDeque<Kept>,
    room: Room,
    text: String,
}

impl<'a> Reasons<'a> {
    /// Those of an exchange.
    pub fn of_exchange(alloc: Global, room: Room) -> Reasons<'a>
        ensures { (result.room ≡ room) × (result.kept.items ≡ [])
            × (string_bytes result.text ≡ []) }
    {
        Reasons {
            alloc,
            name: "",
            lines: None,
            kept: VecDeque::new(alloc),
            room,
            text: String::new(alloc),
        }
    }

    /// Those of the requests of a text. NAME is that of its file, or empty.
    pub fn of_text(alloc: Global, name: &'a str, bytes: &'a [u8], room: Room) -> Reasons<'a>
        ensures { (result.room ≡ room) × (result.kept.items ≡ [])
            × (string_bytes result.text ≡ []) }
    {
        let mut reasons = Reasons::of_exchange(alloc, room);
        reasons.name = name;
        reasons.lines = Some(RecordLines::new(bytes));
        reasons
    }

    // Adds the line of the next piece, of which this is said.
    fn add(&mut self, kept: &Kept) -> Result<(), AllocError>
        ensures { self.new.room ≡ self.old.room }
    {
        let place = match &mut self.lines {
            Some(lines) => format!(in self.alloc; "line {}", lines.line_at(kept.row, kept.count))?,
            None => format!(in self.alloc; "row {}", kept.row)?,
        };
        let mut line = String::new(self.alloc);
        push_line(&mut line, self.name, place.as_str(), kept.cause.as_str())?;
        self.text.push_str(line.as_str())
    }

    // Adds the line of a request, if it is malformed, at this row.
    fn tell(&mut self, request: &Request, row: Option<u32>)
        ensures { self.new.room ≡ room_after self.old.room row }
    {
        let Some(row) = row else {
            if let Some(lines) = &mut self.lines {
                let count = match request {
                    Request::Deliver(records) => records.len(),
                    _ => 1,
                };
                lines.passed = lines.passed.saturating_add(count);
            }
            return;
        };
        let has_room = self.room.take();
        let kept = match request {
            Request::Deliver(records) if has_room => kept_of(self.alloc, records, row).ok(),
            Request::Deliver(_) => None,
            _ => self.kept.pop_front(),
        };
        if let Some(kept) = kept {
            if has_room {
                let _ = self.add(&kept);
            }
        }
    }

    /// Adds the lines of requests whose answers are not there: which deliveries are of no message is
    /// found here.
    pub fn tell_all(&mut self, requests: &[Request]) -> Result<(), AllocError>
        ensures { OnOk result (self.new.room
            ≡ fold (λ room request. room_after room (malformed_row request)) self.old.room
            requests.now) }
    {
        let mut rest = requests;
        while let [request, behind @ ..] = rest {
            let row = match request {
                Request::Deliver(records) => row_of_message(self.alloc, &records.as_records())?,
                Request::Malformed { row } => Some(*row),
                _ => None,
            };
            self.tell(request, row);
            rest = behind;
        }
        Ok(())
    }

    /// Writes the lines, and gives the room that is left. Lines that cannot be written are lost.
    pub fn write<E: Write>(self, errors: &mut E) -> Room
        ensures { result ≡ self.entry.room }
    {
        let _ = errors.write_all(self.text.as_bytes());
        self.room
    }
}

// The row at which a request or a message is malformed, where that is its answer.
fn row_of(answer: &Answer) -> Option<u32>
    ensures { result ≡ row_of answer.now }
{
    match answer {
        Answer::Malformed { row } => Some(*row),
        Answer::Delivery(DeliveryAnswer::Malformed { row }) => Some(*row),
        _ => None,
    }
}

impl<'a> desk_texts::observing::Observer for Reasons<'a> {
    fn observe_piece(&mut self, piece: &RecordBuffer, row: u32)
        ensures { self.new.room.malformed ≡ self.old.room.malformed }
    {
        if self.kept.len() < self.room.most as usize {
            let is_kept = match kept_of(self.alloc, piece, row) {
                Ok(kept) => self.kept.push_back(kept).is_ok(),
                Err(_) => false,
            };
            if !is_kept {
                // Those that follow would get the lines of others.
                self.room.most = 0;
            }
        }
    }

    fn observe_answer(&mut self, request: &Request, answer: &Answer)
        ensures { self.new.room ≡ room_after self.old.room (row_of answer.now) }
    {
        self.tell(request, row_of(answer));
    }
}

impl<'a> desk_http::Observer for Reasons<'a> {
    fn observe_answer(&mut self, request: &Request, answer: &Answer)
        ensures { self.new.room ≡ room_after self.old.room (row_of answer.now) }
    {
        self.tell(request, row_of(answer));
    }

    fn observe_query(&mut self, target: &str)
        ensures { self.new.room ≡ counted self.old.room }
    {
        if self.room.take() {
            if let Ok(Some(line)) = line_of(self.alloc, target) {
                let _ = self.text.push_str(line.as_str());
            }
        }
    }
}
