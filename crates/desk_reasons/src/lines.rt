//! The lines of a text on which its records begin.

ghost use Rattle.std.specs.Prelude.{◌≡◌, IfNone, IfSome};

use memchr::{memchr, memchr2};

/// The line on which each record of a text begins, counted from 1, one after the other.
#[derive(Drop)]
pub(crate) struct RecordLines<'a> {
    text: &'a [u8],
    line: u64,
    at: usize,
    /// How many records are passed over before the next.
    pub(crate) passed: usize,
}

impl<'a> RecordLines<'a> {
    /// Those of this text. A byte order mark at its front is on the first line.
    pub(crate) fn new(text: &'a [u8]) -> RecordLines<'a>
        ensures { (result.text.now ≡ text.now) × (result.line ≡ 1) × (result.at ≡ 0)
            × (result.passed ≡ 0) }
    {
        RecordLines {
            text,
            line: 1,
            at: 0,
            passed: 0,
        }
    }

    /// The line of the record at this row of the next records, counted from 1, of which there are so
    /// many, or that of the last of them. They are passed over then.
    pub(crate) fn line_at(&mut self, row: u32, count: usize) -> u64 {
        let row = (row as usize).clamp(1, count.max(1));
        let before = self.passed.saturating_add(row);
        let mut line = 1u64;
        for _ in 0..before {
            line = self.next_line();
        }
        self.passed = count.saturating_sub(row);
        line
    }

    // The line of the next record where it is one line without quotation marks, as most are: such
    // lines are passed over by many bytes at once.
    fn plain_line(&mut self) -> Option<u64>
        ensures some { IfSome result (λ line. line ≡ self.old.line) }
        ensures none { IfNone result (self.new ≡ self.old) }
    {
        let rest = self.text.get(self.at..)?;
        let end = memchr(b'\n', rest)?;
        let record = rest.get(..end)?;
        if record.is_empty() || memchr2(b'"', b'\r', record).is_some() {
            return None;
        }
        let begun = self.line;
        self.line = begun.saturating_add(1);
        self.at = self.at.saturating_add(end).saturating_add(1);
        Some(begun)
    }

    // The line of the next record, or the last line where there is none.
    fn next_line(&mut self) -> u64 {
        if let Some(line) = self.plain_line() {
            return line;
        }
        let rest = self.text.get(self.at..).unwrap_or(&[]);
        // Whether a byte stands between quotation marks, and whether a mark in its place would open
        // them: at the beginning of a field, and behind the mark that closes them.
        let mut place = (false, true);
        let mut has_begun = false;
        let mut begun = self.line;
        for byte in rest {
            self.at = self.at.saturating_add(1);
            let ends_line = *byte == b'\n';
            if ends_line {
                self.line = self.line.saturating_add(1);
            }
            if !place.0 && (ends_line || *byte == b'\r') {
                if has_begun {
                    return begun;
                }
                begun = self.line;
                continue;
            }
            has_begun = true;
            place = match (*byte, place) {
                (b'"', (true, _)) => (false, true),
                (b'"', (false, may_open)) => (may_open, false),
                (byte, (is_quoted, _)) => (is_quoted, byte == b','),
            };
        }
        begun
    }
}
