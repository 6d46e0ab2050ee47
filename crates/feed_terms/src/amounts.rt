//! What is left of an amount.

ghost use Rattle.std.specs.Prelude.{◌≡◌, ◌≤◌, ◌<◌, ◌+◌, ◌*◌, IfOk};
ghost use Rattle.std.specs.Str.{IsUtf8};
ghost use Rattle.feed_terms.specs.Amounts.{net_amount, rounded, two_decimals};

use crate::percent::Percent;
use itoa::Buffer;
use onix_terms::amount::Amount;
use onix_terms::digits::two_digits;
use onix_terms::text::Text;
use std::alloc::{AllocError, Global};

// An amount without a tax and less a discount, rounded to hundredths of the currency, halves up.
fn rounded(thousandths: u64, tax: u64, discount: u64) -> u64
    requires { (thousandths < 1_000_000_000_000) × (tax < 100_000) }
    ensures { result ≡ rounded thousandths tax discount }
{
    let whole = 10_000 + tax;
    (thousandths * 10_000u64.saturating_sub(discount) + 5 * whole) / (10 * whole)
}

/// What is left of an amount without a tax, which is in hundredths of a percent, and less a
/// discount, nothing from 100 percent on: rounded to hundredths of the currency, and never more than
/// the amount.
pub fn net_amount(amount: Amount, tax: u32, discount: Percent) -> Amount
    requires { tax < 100_000 }
    ensures { result ≡ net_amount amount tax discount }
{
    let thousandths = amount.thousandths();
    let rest = rounded(
        thousandths,
        u64::from(tax),
        u64::from(discount.hundredths()),
    );
    let hundredths = if rest > thousandths / 10 {
        thousandths / 10
    } else {
        rest
    };
    match Amount::from_thousandths(10 * hundredths) {
        Some(net) => net,
        None => unreachable!(),
    }
}

// The text of bytes that are UTF-8.
fn text_of(bytes: &[u8]) -> &str
    requires { IsUtf8 bytes.now }
    ensures { result.now ≡ bytes.now }
{
    match str::from_utf8(bytes) {
        Ok(text) => text,
        Err(_) => unreachable!(),
    }
}

/// The text of an amount with two decimals.
pub fn two_decimals(alloc: Global, amount: Amount) -> Result<Text, AllocError>
    ensures { IfOk result (λ text. text ≡ two_decimals amount) }
{
    let thousandths = amount.thousandths();
    let decimals = two_digits(thousandths % 1000 / 10);
    let mut buffer = Buffer::new();
    let mut text = Text::new(alloc);
    text.push_str(buffer.format(thousandths / 1000))?;
    text.push_str(".")?;
    text.push_str(text_of(&decimals))?;
    Ok(text)
}
