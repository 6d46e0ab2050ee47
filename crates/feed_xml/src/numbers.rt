//! The numbers of characters, as references write them.

ghost use Rattle.std.specs.Prelude.{◌≡◌, ◌<◌, ◌≤◌, ◌-◌, true, MatchOption};
ghost use Rattle.std.specs.List.{list_all};
ghost use Rattle.feed_xml.specs.Characters.{digit_value, in_base, number_code};
ghost use Rattle.feed_xml.specs.Grammar.{is_digit, is_hex_digit, is_number};

use crate::classes::{Kind, all_pass, is_filled};

/// The greatest code point.
pub(crate) const GREATEST: u32 = 1_114_111;

// Whether this is a number, which is hexadecimal behind an x.
pub(crate) fn is_number(bytes: &[u8]) -> bool
    ensures { result ≡ is_number bytes.now }
{
    match bytes {
        [] => false,
        [b'x', digits @ ..] => is_filled(digits) && all_pass(Kind::HexDigit, digits),
        [_first, ..] => all_pass(Kind::Digit, bytes),
    }
}

// The number of decimal digits, where it is no greater than a code point may be.
fn decimal(digits: &[u8]) -> Option<u32>
    requires { list_all is_digit digits.now ≡ true }
    ensures { MatchOption result (GREATEST < in_base 10 0 digits.now) (λ n.
        (n ≡ in_base 10 0 digits.now) × (n ≤ GREATEST)) }
{
    let mut number = 0u32;
    let mut rest = digits;
    while let [b, tail @ ..] = rest {
        number = 10 * number + digit_value(*b);
        if number > GREATEST {
            return None;
        }
        rest = tail;
    }
    Some(number)
}

// The number of a digit, in hexadecimal too.
fn digit_value(b: u8) -> u32
    requires { is_hex_digit b ≡ true }
    ensures value { result ≡ digit_value b }
    ensures bound { result < 16 }
{
    if b <= 57 {
        u32::from(b - 48)
    } else if b >= 97 {
        u32::from(b - 87)
    } else {
        u32::from(b - 55)
    }
}

// The number of hexadecimal digits, where it is no greater than a code point may be.
fn hexadecimal(digits: &[u8]) -> Option<u32>
    requires { list_all is_hex_digit digits.now ≡ true }
    ensures { MatchOption result (GREATEST < in_base 16 0 digits.now) (λ n.
        (n ≡ in_base 16 0 digits.now) × (n ≤ GREATEST)) }
{
    let mut number = 0u32;
    let mut rest = digits;
    while let [b, tail @ ..] = rest {
        number = 16 * number + digit_value(*b);
        if number > GREATEST {
            return None;
        }
        rest = tail;
    }
    Some(number)
}

// The code point that a number says, where it is no greater than one may be.
pub(crate) fn number_code(body: &[u8]) -> Option<u32>
    requires { is_number body.now ≡ true }
    ensures { MatchOption result (GREATEST < number_code body.now) (λ n. (n ≡ number_code body.now)
        × (n ≤ GREATEST)) }
{
    match body {
        [b'x', digits @ ..] => hexadecimal(digits),
        _ => decimal(body),
    }
}
