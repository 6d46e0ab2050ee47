//! Positive numbers of a few digits.

ghost use Rattle.std.specs.Prelude.{◌≡◌, ◌<◌};
ghost use Rattle.std.specs.Result.{result_ok};
ghost use Rattle.onix_terms.specs.Positive.{positive_from, positive_of};

use crate::NotATerm;
use crate::digits::read_digits;
use std::marker::Model;
use std::str::FromStr;

/// A number from 1 and below `BELOW` that is written in at most `DIGITS` digits.
#[derive(Clone, Copy, Debug, PartialEq, Eq, PartialOrd, Ord)]
pub struct Positive<const DIGITS: usize, const BELOW: u32> {
    value: u32,
}

impl<const DIGITS: usize, const BELOW: u32> Model for Positive<DIGITS, BELOW> {
    ghost use Rattle.std.specs.Prelude.{ℕ, ◌<◌};

    ghost Value = { ℕ };

    ghost view = { λ n. n.value };

    ghost invariant = { λ n. (0 < n.value) × (n.value < BELOW) };

    ghost inverse = { λ n. record { value = n } };
}

impl<const DIGITS: usize, const BELOW: u32> Positive<DIGITS, BELOW> {
    /// The number that a text writes, or `None` where it writes none or has too many digits.
    /// Leading zeros are allowed.
    pub fn read(text: &str) -> Option<Positive<DIGITS, BELOW>>
        ensures { result ≡ positive_of DIGITS BELOW text.now }
    {
        if text.len() > DIGITS {
            return None;
        }
        Positive::from_value(read_digits(text)?)
    }

    /// The number of this value, or `None` where it is 0 or not below `BELOW`.
    pub fn from_value(value: u32) -> Option<Positive<DIGITS, BELOW>>
        ensures { result ≡ positive_from BELOW value }
    {
        if value == 0 || value >= BELOW {
            return None;
        }
        Some(Positive { value })
    }

    /// Its value.
    pub fn value(self) -> u32
        ensures value { result ≡ self.entry }
        ensures above { 0 < result }
        ensures below { result < BELOW }
    {
        self.value
    }
}

impl<const DIGITS: usize, const BELOW: u32> FromStr for Positive<DIGITS, BELOW> {
    type Err = NotATerm;

    ghost from_str_gives = { λ text given. result_ok given ≡ positive_of DIGITS BELOW text };

    fn from_str(text: &str) -> Result<Positive<DIGITS, BELOW>, NotATerm> {
        Positive::read(text).ok_or(NotATerm)
    }
}
