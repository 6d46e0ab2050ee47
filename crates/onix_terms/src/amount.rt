//! Amounts of money.

ghost use Rattle.std.specs.Prelude.{◌≡◌, ◌<◌, ◌++◌, ◌∷◌, IfOk, IfSome, OnOk, OnErr};
ghost use Rattle.std.specs.String.{string_bytes};
ghost use Rattle.std.specs.Result.{result_ok};
ghost use Rattle.onix_terms.specs.Amount.{amount_from, amount_of, amount_text, thousandths_of, three_digits};

use crate::ascii::text_of;
use crate::digits::{read_digits, two_digits};
use crate::text::Text;
use crate::{Memory, NotATerm};
use itoa::Buffer;
use std::alloc::Global;
use std::marker::Model;
use std::str::FromStr;

/// An amount of money from 0 to 999,999,999.999, which contracts see as its thousandths.
#[derive(Clone, Copy, Debug, PartialEq, Eq, PartialOrd, Ord)]
pub struct Amount {
    thousandths: u64,
}

impl Model for Amount {
    ghost use Rattle.std.specs.Prelude.{ℕ, ◌<◌};

    ghost Value = { ℕ };

    ghost view = { λ a. a.thousandths };

    ghost invariant = { λ a. a.thousandths < 1_000_000_000_000 };

    ghost inverse = { λ n. record { thousandths = n } };
}

impl Amount {
    /// The amount that 1 to 9 digits write, with a point and 1 to 3 further digits or without.
    /// Leading zeros are allowed, and so are zeros at the end.
    pub fn read(text: &str) -> Option<Amount>
        ensures { result ≡ amount_of text.now }
    {
        match text.split_once('.') {
            Some((whole, part)) => {
                let whole = read_digits(whole)?;
                let part = read_part(part)?;
                Some(Amount {
                    thousandths: u64::from(whole) * 1000 + part,
                })
            }
            None => {
                let whole = read_digits(text)?;
                Some(Amount {
                    thousandths: u64::from(whole) * 1000,
                })
            }
        }
    }

    /// The amount of this many thousandths, or `None` where they are above 999,999,999,999.
    pub fn from_thousandths(thousandths: u64) -> Option<Amount>
        ensures { result ≡ amount_from thousandths }
    {
        if thousandths >= 1_000_000_000_000 {
            return None;
        }
        Some(Amount { thousandths })
    }

    /// The amount in thousandths.
    pub fn thousandths(self) -> u64
        ensures value { result ≡ self }
        ensures below { result < 1_000_000_000_000 }
    {
        self.thousandths
    }

    /// The text that `write` appends. Fails only if memory runs out.
    pub fn text(self, alloc: Global) -> Result<Text, Memory>
        ensures { IfOk result (λ t. t ≡ amount_text self) }
    {
        let mut buffer = Buffer::new();
        let decimals = decimals_of(self.thousandths % 1000);
        let mut text = Text::new(alloc);
        text.push_str(buffer.format(self.thousandths / 1000))?;
        text.push_str(text_of(&decimals))?;
        Ok(text)
    }

    /// Appends the whole part without needless zeros, a point and three decimals. Fails only
    /// if memory runs out, and the `String` is then as it was.
    pub fn write(self, out: &mut String) -> Result<(), Memory>
        ensures ok { OnOk result (string_bytes out.new ≡ string_bytes out.old ++ amount_text self) }
        ensures err { OnErr result (string_bytes out.new ≡ string_bytes out.old) }
    {
        let mut buffer = Buffer::new();
        let whole = buffer.format(self.thousandths / 1000);
        let decimals = decimals_of(self.thousandths % 1000);
        out.reserve(whole.len() + 4)?;
        out.push_str(whole)?;
        out.push_str(text_of(&decimals))?;
        Ok(())
    }
}

impl FromStr for Amount {
    type Err = NotATerm;

    ghost from_str_gives = { λ text given. result_ok given ≡ amount_of text };

    fn from_str(text: &str) -> Result<Amount, NotATerm> {
        Amount::read(text).ok_or(NotATerm)
    }
}

// The thousandths that 1 to 3 digits write after the point.
fn read_part(text: &str) -> Option<u64>
    ensures value { result ≡ thousandths_of text.now }
    ensures below { IfSome result (λ n. n < 1000) }
{
    let last_digit_worth = match text.len() {
        1 => 100,
        2 => 10,
        3 => 1,
        _ => return None,
    };
    Some(u64::from(read_digits(text)?) * last_digit_worth)
}

// A point and the three digits of a number below 1,000.
fn decimals_of(thousandths: u64) -> [u8; 4]
    requires { thousandths < 1000 }
    ensures digits { result ≡ 46 ∷ three_digits thousandths }
{
    let [tens, ones] = two_digits(thousandths % 100);
    [b'.', b'0' + (thousandths / 100) as u8, tens, ones]
}
