//! Which term fits a price.

ghost use Rattle.std.specs.Prelude.{◌≡◌, IfOk};
ghost use Rattle.std.specs.List.{list_any};
ghost use Rattle.std.specs.Option.{option_copied};
ghost use Rattle.feed_terms.specs.Fits.{fits, fits_besides, has_code, has_discount, has_tax, is_among, is_asked, supplier_text, takes_code};

use crate::percent::Percent;
use crate::price::{Discount, GivenPrice, SaidCode};
use crate::term::{Rate, Term};
use onix_terms::code::{Code2, Currency};
use onix_terms::party::Party;
use onix_terms::text::Text;
use std::alloc::{AllocError, Global};

/// The identifier of a supplier, as a term has it.
pub fn supplier_text(alloc: Global, party: &Party) -> Result<Text, AllocError>
    ensures { IfOk result (λ text. text ≡ supplier_text party.now) }
{
    let mut text = Text::from_str(alloc, party.id_type.as_str())?;
    text.push_str(",")?;
    text.push_str(party.id_value.as_str())?;
    Ok(text)
}

/// Whether a type is among these.
pub(crate) fn has_type(types: &[Code2], code: Code2) -> bool
    ensures { result ≡ is_among types.now code }
{
    types.iter().any(|other| code == *other)
}

pub(crate) fn is_among(texts: &[Text], text: &Text) -> bool
    ensures { result ≡ is_among texts.now text.now }
{
    texts.iter().any(|other| text == other)
}

/// Whether a text is the one that a term asks for, if it does.
pub(crate) fn is_text(asked: Option<&Text>, text: Option<&Text>) -> bool
    ensures { result ≡ is_asked (option_copied asked.entry) (option_copied text.entry) }
{
    match asked {
        None => true,
        Some(asked) => match text {
            None => false,
            Some(text) => asked == text,
        },
    }
}

fn is_currency(asked: Option<Currency>, currency: Currency) -> bool
    ensures { result ≡ is_asked asked (Some currency) }
{
    match asked {
        None => true,
        Some(asked) => asked == currency,
    }
}

/// Whether a term is for this type and currency.
pub(crate) fn is_for(term: &Term, price_type: Code2, currency: Currency) -> bool {
    has_type(term.types.as_slice(), price_type) && is_currency(term.currency, currency)
}

// Whether a Discount says a percent, where a term goes by it.
fn has_discount(percent: Rate, discounts: &[Discount]) -> bool
    ensures { result ≡ has_discount percent discounts.now }
{
    match percent {
        Rate::Fixed(_) => true,
        Rate::Feed => match discounts {
            [] => false,
            [_, ..] => true,
        },
    }
}

// Whether the Tax says a percent, where a term goes by it.
fn has_tax(tax: Option<Rate>, said: Option<Percent>) -> bool
    ensures { result ≡ has_tax tax said }
{
    match tax {
        Some(Rate::Feed) => said.is_some(),
        _ => true,
    }
}

// Whether a term fits a price of this supplier but for its codes.
fn fits_besides(term: &Term, supplier: Option<&Text>, given: &GivenPrice) -> bool
    ensures { result ≡ fits_besides (option_copied supplier.entry) given.now term.now }
{
    has_type(term.types.as_slice(), given.price.price_type)
        && is_text(term.supplier.as_ref(), supplier)
        && is_currency(term.currency, given.price.currency)
        && has_discount(term.percent, given.discounts.as_slice())
        && has_tax(term.tax, given.tax)
}

// Whether a term with these codes and this scheme takes what a DiscountCoded says.
fn takes_code(asked: &[Text], scheme: Option<&Text>, said: &SaidCode) -> bool
    ensures { result ≡ takes_code asked.now (option_copied scheme.entry) said.now }
{
    is_among(asked, &said.code) && is_text(scheme, Some(&said.scheme))
}

// Whether it takes what one of several says.
fn takes_one(asked: &[Text], scheme: Option<&Text>, said: &[SaidCode]) -> bool
    ensures { result ≡ list_any (takes_code asked.now (option_copied scheme.entry)) said.now }
{
    said.iter().any(|code| takes_code(asked, scheme, code))
}

// Whether a term takes what one and the same DiscountCoded of a price says, if it asks for codes.
fn has_code(term: &Term, said: &[SaidCode]) -> bool
    ensures { result ≡ has_code term.now said.now }
{
    match &term.codes {
        None => true,
        Some(asked) => takes_one(asked.as_slice(), term.scheme.as_ref(), said),
    }
}

/// Whether a term fits a price of this supplier.
pub(crate) fn fits(term: &Term, supplier: Option<&Text>, given: &GivenPrice) -> bool
    ensures { result ≡ fits (option_copied supplier.entry) given.now term.now }
{
    !given.garbled && has_code(term, given.codes.as_slice()) && fits_besides(term, supplier, given)
}
