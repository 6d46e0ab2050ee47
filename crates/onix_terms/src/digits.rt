//! Decimal digits.

ghost use Rattle.std.specs.Prelude.{◌≡◌, ◌<◌, ◌^◌, IfSome, length};
ghost use Rattle.onix_terms.specs.Digits.{digits_of, two_digits};

use crate::ascii::are_digits;

/// The number that 1 to 9 digits write.
pub fn read_digits(text: &str) -> Option<u32>
    ensures value { result ≡ digits_of text.now }
    ensures places { IfSome result (λ n. n < 10 ^ length text.now) }
    ensures below { IfSome result (λ n. n < 1_000_000_000) }
{
    if text.is_empty() || text.len() > 9 {
        return None;
    }
    if !are_digits(text.as_bytes()) {
        return None;
    }
    text.parse::<u32>().ok()
}

/// The two digits of a number below 100.
pub fn two_digits(n: u64) -> [u8; 2]
    requires { n < 100 }
    ensures { result ≡ two_digits n }
{
    [b'0' + (n / 10) as u8, b'0' + (n % 10) as u8]
}
