//! Codes of fixed length.

ghost use Rattle.std.specs.Prelude.{◌≡◌, Some};
ghost use Rattle.std.specs.Int.{is_in_range};
ghost use Rattle.std.specs.Result.{result_ok};
ghost use Rattle.onix_terms.specs.Code.{country_of, fixed_text};

use crate::NotATerm;
use crate::ascii::{are_within, text_of};
use std::marker::Model;
use std::str::FromStr;

/// A code: `N` characters, each from `FIRST` to `LAST`.
#[derive(Clone, Copy, Debug, PartialEq, Eq, PartialOrd, Ord)]
pub struct Code<const FIRST: u8, const LAST: u8, const N: usize> {
    bytes: [u8; N],
}

impl<const FIRST: u8, const LAST: u8, const N: usize> Model for Code<FIRST, LAST, N> {
    ghost use Rattle.std.specs.Prelude.{ℕ, List, ◌≡◌, IsUtf8, Some};
    ghost use Rattle.std.specs.Int.{is_in_range};
    ghost use Rattle.onix_terms.specs.Code.{fixed_text};

    ghost Value = { List ℕ };

    ghost view = { λ c. c.bytes };

    ghost invariant = { λ c.
        (fixed_text (is_in_range FIRST LAST) N c.bytes ≡ Some c.bytes) × IsUtf8 c.bytes };

    ghost inverse = { λ c. record { bytes = c } };
}

/// A code of an ONIX code list: two digits.
pub type Code2 = Code<b'0', b'9', 2>;

/// A country: two letters `A` to `Z`.
pub type Country = Code<b'A', b'Z', 2>;

/// A currency: three letters `A` to `Z`.
pub type Currency = Code<b'A', b'Z', 3>;

impl<const FIRST: u8, const LAST: u8, const N: usize> Code<FIRST, LAST, N> {
    /// The code that a text is, or `None` where it is none.
    pub fn read(text: &str) -> Option<Code<FIRST, LAST, N>>
        ensures { result ≡ fixed_text (is_in_range FIRST LAST) N text.now }
    {
        let bytes: [u8; N] = text.as_bytes().try_into().ok()?;
        if !are_within(FIRST, LAST, &bytes) {
            return None;
        }
        Some(Code { bytes })
    }

    /// Its text.
    pub fn as_str(&self) -> &str
        ensures text { result.now ≡ self.now }
        ensures read { fixed_text (is_in_range FIRST LAST) N self.now ≡ Some self.now }
    {
        text_of(&self.bytes)
    }
}

impl Country {
    pub(crate) fn from_letters(bytes: [u8; 2]) -> Country
        requires { country_of bytes ≡ Some bytes }
        ensures { result ≡ bytes }
    {
        Code { bytes }
    }
}

impl<const FIRST: u8, const LAST: u8, const N: usize> FromStr for Code<FIRST, LAST, N> {
    type Err = NotATerm;

    ghost from_str_gives = { λ text given.
        result_ok given ≡ fixed_text (is_in_range FIRST LAST) N text };

    fn from_str(text: &str) -> Result<Code<FIRST, LAST, N>, NotATerm> {
        Code::read(text).ok_or(NotATerm)
    }
}
