//! Percents.

ghost use Rattle.std.specs.Prelude.{◌≡◌, ◌<◌, ◌+◌, ◌*◌, ◌==◌, IfSome};
ghost use Rattle.std.specs.List.{list_all};
ghost use Rattle.feed_terms.specs.Percents.{feed_percent_of, hundredths_of, is_fraction, percent_by, percent_of, short_hundredths_of, whole_of};

use onix_terms::digits::read_digits;
use std::marker::Model;

/// A percent from 0 to 999.99, which contracts see as its hundredths.
#[derive(Clone, Copy, Debug, PartialEq, Eq, PartialOrd, Ord)]
pub struct Percent {
    hundredths: u32,
}

impl Model for Percent {
    ghost use Rattle.std.specs.Prelude.{ℕ, ◌<◌};

    ghost Value = { ℕ };

    ghost view = { λ p. p.hundredths };

    ghost invariant = { λ p. p.hundredths < 100_000 };

    ghost inverse = { λ n. record { hundredths = n } };
}

// The number that one to three digits write.
fn read_whole(text: &str) -> Option<u32>
    ensures value { result ≡ whole_of text.now }
    ensures below { IfSome result (λ n. n < 1000) }
{
    if text.len() > 3 {
        return None;
    }
    read_digits(text)
}

// The hundredths that one or two digits behind the point write.
fn read_hundredths(text: &str) -> Option<u32>
    ensures value { result ≡ hundredths_of text.now }
    ensures below { IfSome result (λ n. n < 100) }
{
    let last_digit_worth = match text.len() {
        1 => 10,
        2 => 1,
        _ => return None,
    };
    Some(read_digits(text)? * last_digit_worth)
}

/// Whether each byte is a zero.
pub(crate) fn are_zeros(bytes: &[u8]) -> bool
    ensures { result ≡ list_all (λ b. b == 48) bytes.now }
{
    bytes.iter().all(|byte| *byte == b'0')
}

// The hundredths that digits behind the point write, of which those behind the second are zeros.
fn read_short_hundredths(text: &str) -> Option<u32>
    ensures value { result ≡ short_hundredths_of text.now }
    ensures below { IfSome result (λ n. n < 100) }
{
    let bytes = text.as_bytes();
    if bytes.len() <= 2 {
        return read_hundredths(text);
    }
    let (front, zeros) = bytes.split_at(2);
    if !are_zeros(zeros) {
        return None;
    }
    match str::from_utf8(front) {
        Ok(front) => read_hundredths(front),
        Err(_) => None,
    }
}

// Whether a percent is a fraction of 1 that was meant as percents.
fn is_fraction(percent: Percent) -> bool
    ensures { result ≡ is_fraction percent }
{
    percent.hundredths() > 0 && percent.hundredths() < 100
}

impl Percent {
    /// None at all.
    pub fn zero() -> Percent
        ensures { result ≡ 0 }
    {
        Percent { hundredths: 0 }
    }

    // The percent of a whole part and of hundredths.
    fn from_parts(whole: u32, hundredths: u32) -> Percent
        requires { (whole < 1000) × (hundredths < 100) }
        ensures { result ≡ whole * 100 + hundredths }
    {
        Percent {
            hundredths: whole * 100 + hundredths,
        }
    }

    /// The percent that one to three digits write, with a point and one or two further digits or
    /// without.
    pub fn read(text: &str) -> Option<Percent>
        ensures { result ≡ percent_of text.now }
    {
        match text.split_once('.') {
            Some((whole, part)) => {
                let whole = read_whole(whole)?;
                let part = read_hundredths(part)?;
                Some(Percent::from_parts(whole, part))
            }
            None => Some(Percent::from_parts(read_whole(text)?, 0)),
        }
    }

    /// The percent that a text of a feed writes: zeros behind the second decimal are nothing, and
    /// one above 0 and below 1 is none.
    pub fn read_of_feed(text: &str) -> Option<Percent>
        ensures { result ≡ feed_percent_of text.now }
    {
        let percent = Percent::read_with_zeros(text)?;
        if is_fraction(percent) {
            None
        } else {
            Some(percent)
        }
    }

    // The same, where one below 1 is one.
    fn read_with_zeros(text: &str) -> Option<Percent>
        ensures { result ≡ percent_by short_hundredths_of text.now }
    {
        match text.split_once('.') {
            Some((whole, part)) => {
                let whole = read_whole(whole)?;
                let part = read_short_hundredths(part)?;
                Some(Percent::from_parts(whole, part))
            }
            None => Some(Percent::from_parts(read_whole(text)?, 0)),
        }
    }

    /// The percent in hundredths.
    pub fn hundredths(self) -> u32
        ensures value { result ≡ self }
        ensures below { result < 100_000 }
    {
        self.hundredths
    }
}
