//! Which terms an earlier one always precedes, so that they never count.

ghost use Rattle.std.specs.Prelude.{◌≡◌, position};
ghost use Rattle.std.specs.Option.{option_copied};
ghost use Rattle.feed_terms.specs.Fits.{is_asked};
ghost use Rattle.feed_terms.specs.Precedes.{are_among, takes_all, takes_codes, takes_discount, takes_tax};

use crate::fits::{has_type, is_among, is_text};
use crate::term::{Rate, Term};
use onix_terms::code::{Code2, Currency};
use onix_terms::items::Items;
use onix_terms::text::Text;

fn have_types(types: &[Code2], others: &[Code2]) -> bool
    ensures { result ≡ are_among types.now others.now }
{
    others.iter().all(|other| has_type(types, *other))
}

fn have_texts(texts: &[Text], others: &[Text]) -> bool
    ensures { result ≡ are_among texts.now others.now }
{
    others.iter().all(|other| is_among(texts, other))
}

fn takes_codes(asked: Option<&Items<Text>>, codes: Option<&Items<Text>>) -> bool
    ensures { result ≡ takes_codes (option_copied asked.entry) (option_copied codes.entry) }
{
    let Some(asked) = asked else {
        return true;
    };
    match codes {
        None => false,
        Some(codes) => have_texts(asked.as_slice(), codes.as_slice()),
    }
}

fn takes_currency(asked: Option<Currency>, currency: Option<Currency>) -> bool
    ensures { result ≡ is_asked asked currency }
{
    match asked {
        None => true,
        Some(asked) => match currency {
            None => false,
            Some(currency) => asked == currency,
        },
    }
}

fn takes_discount(percent: Rate, other: Rate) -> bool
    ensures { result ≡ takes_discount percent other }
{
    match percent {
        Rate::Fixed(_) => true,
        Rate::Feed => match other {
            Rate::Fixed(_) => false,
            Rate::Feed => true,
        },
    }
}

fn takes_tax(tax: Option<Rate>, other: Option<Rate>) -> bool
    ensures { result ≡ takes_tax tax other }
{
    match tax {
        Some(Rate::Feed) => match other {
            Some(Rate::Feed) => true,
            _ => false,
        },
        _ => true,
    }
}

/// Whether a term fits each price that another fits.
pub fn takes_all(first: &Term, later: &Term) -> bool
    ensures { result ≡ takes_all first.now later.now }
{
    have_types(first.types.as_slice(), later.types.as_slice())
        && takes_codes(first.codes.as_ref(), later.codes.as_ref())
        && is_text(first.scheme.as_ref(), later.scheme.as_ref())
        && is_text(first.supplier.as_ref(), later.supplier.as_ref())
        && takes_currency(first.currency, later.currency)
        && takes_discount(first.percent, later.percent)
        && takes_tax(first.tax, later.tax)
}

/// The index of the first of earlier terms that takes all prices of a term, if there is one.
pub fn first_taking(earlier: &[Term], later: &Term) -> Option<usize>
    ensures { result ≡ position (λ first. takes_all first later.now) earlier.now }
{
    earlier.iter().position(|first| takes_all(first, later))
}
