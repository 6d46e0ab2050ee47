//! Amounts of Prices, as they are written.

ghost use Rattle.std.specs.Prelude.{◌≡◌, ◌<◌, ◌^◌, IfOk, IfSome, option_map};
ghost use Rattle.feed_mapping.specs.Amounts.{amount_said, is_zero, long_part_of, point_in, rounded_amount, rounded_of, written_amount};
ghost use Rattle.onix_terms.specs.Amount.{amount_text};

use crate::elements::text_or_empty;
use crate::records::{are_zeros, utf8_text};
use feed_outline::Elements;
use onix_terms::amount::Amount;
use onix_terms::ascii::are_digits;
use onix_terms::digits::read_digits;
use onix_terms::text::Text;
use std::alloc::{AllocError, Global};

fn point_in(text: &[u8]) -> Option<usize>
    ensures { result ≡ point_in text.now }
{
    text.iter().position(|byte| *byte == b'.')
}

/// The amount of a Price as it stands, without the zeros behind its third decimal.
pub(crate) fn amount_said<'a>(elements: &Elements<'a>) -> &'a [u8]
    ensures { result.now ≡ amount_said elements.now }
{
    let text = text_or_empty(b"PriceAmount", elements);
    let Some(at) = point_in(text) else {
        return text;
    };
    if text.len() - at <= 4 {
        return text;
    }
    let (front, zeros) = text.split_at(at + 4);
    if are_zeros(zeros) { front } else { text }
}

// The thousandths of more than three digits behind the point: to the third, halves up.
fn long_part_of(part: &str) -> Option<u64>
    ensures value { result ≡ long_part_of part.now }
    ensures below { IfSome result (λ n. n < 2 ^ 32) }
{
    let bytes = part.as_bytes();
    if bytes.len() <= 3 || !are_digits(bytes) {
        return None;
    }
    let (front, _) = bytes.split_at(4);
    match str::from_utf8(front) {
        Ok(front) => Some((u64::from(read_digits(front)?) + 5) / 10),
        Err(_) => None,
    }
}

// The amount of one to nine digits, a point and more than three others.
fn rounded_of(text: &str) -> Option<Amount>
    ensures { result ≡ rounded_of text.now }
{
    match text.split_once('.') {
        Some((whole, part)) => {
            let whole = read_digits(whole)?;
            let part = long_part_of(part)?;
            Amount::from_thousandths(u64::from(whole) * 1000 + part)
        }
        None => None,
    }
}

/// The amount that is written in place of one with more than three decimals.
pub(crate) fn rounded_amount(said: &[u8]) -> Option<Amount>
    ensures { result ≡ rounded_amount said.now }
{
    rounded_of(utf8_text(said)?)
}

/// The text of that amount.
pub(crate) fn rounded_text(alloc: Global, said: &[u8]) -> Result<Option<Text>, AllocError>
    ensures { IfOk result (λ text. text ≡ option_map amount_text (rounded_amount said.now)) }
{
    let Some(amount) = rounded_amount(said) else {
        return Ok(None);
    };
    match amount.text(alloc) {
        Ok(text) => Ok(Some(text)),
        Err(_) => Err(AllocError),
    }
}

/// The amount that is written.
pub(crate) fn written_amount(said: &[u8]) -> Option<Amount>
    ensures { result ≡ written_amount said.now }
{
    match rounded_amount(said) {
        Some(amount) => Some(amount),
        None => utf8_text(said)?.parse().ok(),
    }
}

/// Whether an amount is 0.
pub(crate) fn is_zero(said: &[u8]) -> bool
    ensures { result ≡ is_zero said.now }
{
    match written_amount(said) {
        None => false,
        Some(amount) => amount.thousandths() == 0,
    }
}
