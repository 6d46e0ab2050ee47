//! What an instruction may have.

ghost use Rattle.std.specs.Prelude.{◌≡◌, codes};
ghost use Rattle.std.specs.List.{list_all};
ghost use Rattle.feed_xml.specs.Grammar.{target_of, is_apart, is_xml, is_instruction, is_declaration, declared_at, is_version, is_letter, is_encoding_byte, is_encoding_name, is_standalone, is_from_standalone, is_from_encoding, is_from_version, is_named};
ghost use Rattle.feed_xml.specs.Steps.{Gives};

use crate::classes::{Kind, all_pass, is_digit, is_filled, is_name, is_space};
use crate::scan::{byte, literal, quote, run, space};
use crate::stop::Stop;

// The bytes at the front that names may have, and what is behind them.
fn target(body: &[u8]) -> (&[u8], &[u8])
    ensures { (result.0.now, result.1.now) ≡ target_of body.now }
{
    match run(Kind::Name, body) {
        Ok((name, behind)) => (name, behind),
        Err(_) => (body, &[]),
    }
}

// Whether there is nothing, or white space first.
fn is_apart(bytes: &[u8]) -> bool
    ensures { result ≡ is_apart bytes.now }
{
    match bytes {
        [] => true,
        [first, ..] => is_space(*first),
    }
}

// Whether this is xml, in capital letters or small ones.
fn is_xml(name: &[u8]) -> bool
    ensures { result ≡ is_xml name.now }
{
    name.eq_ignore_ascii_case(b"xml")
}

/// Whether this may stand between `<?` and `?>`, and is no XML declaration.
pub(crate) fn is_instruction(body: &[u8]) -> bool
    ensures { result ≡ is_instruction body.now }
{
    let (name, behind) = target(body);
    !is_xml(name) && (is_name(name) && is_apart(behind))
}

/// The value of an attribute of this name behind white space, and what is behind it.
#[tactic(auto, unfolding(crate::specs::Grammar::declared_at))]
pub(crate) fn declared<'a>(name: &[u8], bytes: &'a [u8]) -> Result<(&'a [u8], &'a [u8]), Stop>
    ensures { Gives (λ x. (x.0.now, x.1.now)) result (declared_at name.now bytes.now) }
{
    let (before, rest) = space(bytes)?;
    let rest = literal(name, rest)?;
    let (_, rest) = space(rest)?;
    let rest = byte(rest, b'=')?;
    let (_, rest) = space(rest)?;
    let (quote, rest) = quote(rest)?;
    let (value, rest) = run(Kind::Value(quote), rest)?;
    let rest = byte(rest, quote)?;
    if is_filled(before) {
        Ok((value, rest))
    } else {
        Err(Stop::Never)
    }
}

// Whether this is 1. and a number.
fn is_version(value: &[u8]) -> bool
    ensures { result ≡ is_version value.now }
{
    match value {
        [a, b, number @ ..] => {
            (*a == b'1' && *b == b'.') && (is_filled(number) && all_pass(Kind::Digit, number))
        }
        _ => false,
    }
}

fn is_letter(b: u8) -> bool
    ensures { result ≡ is_letter b }
{
    (65 <= b && b <= 90) || (97 <= b && b <= 122)
}

fn is_encoding_byte(b: u8) -> bool
    ensures { result ≡ is_encoding_byte b }
{
    (is_letter(b) || is_digit(b)) || (b == b'.' || (b == b'_' || b == b'-'))
}

fn are_of_encoding_name(bytes: &[u8]) -> bool
    ensures { result ≡ list_all is_encoding_byte bytes.now }
{
    let mut rest = bytes;
    while let [b, tail @ ..] = rest {
        if !is_encoding_byte(*b) {
            return false;
        }
        rest = tail;
    }
    true
}

// Whether this is the name of an encoding, known or not.
fn is_encoding_name(value: &[u8]) -> bool
    ensures { result ≡ is_encoding_name value.now }
{
    match value {
        [] => false,
        [first, rest @ ..] => is_letter(*first) && are_of_encoding_name(rest),
    }
}

fn is_standalone(value: &[u8]) -> bool
    ensures { result ≡ is_standalone value.now }
{
    value == b"yes".as_slice() || value == b"no".as_slice()
}

// Whether a declaration may end so: with standalone, where it is.
fn is_from_standalone(bytes: &[u8]) -> bool
    ensures { result ≡ is_from_standalone bytes.now }
{
    match declared(b"standalone", bytes) {
        Ok((value, rest)) => is_standalone(value) && all_pass(Kind::Space, rest),
        Err(_) => all_pass(Kind::Space, bytes),
    }
}

// Whether a declaration may go on so: with encoding, where it is.
fn is_from_encoding(bytes: &[u8]) -> bool
    ensures { result ≡ is_from_encoding bytes.now }
{
    match declared(b"encoding", bytes) {
        Ok((value, rest)) => is_encoding_name(value) && is_from_standalone(rest),
        Err(_) => is_from_standalone(bytes),
    }
}

// Whether what stands behind `xml` is that of a declaration.
fn is_from_version(bytes: &[u8]) -> bool
    ensures { result ≡ is_from_version (declared_at (codes "version") bytes.now) }
{
    match declared(b"version", bytes) {
        Ok((value, rest)) => is_version(value) && is_from_encoding(rest),
        Err(_) => false,
    }
}

/// Whether this is an XML declaration: `xml`, version, and encoding and standalone where they are
/// (XMLDecl).
pub(crate) fn is_declaration(body: &[u8]) -> bool
    ensures { result ≡ is_declaration body.now }
{
    let (name, behind) = target(body);
    name == b"xml".as_slice() && is_from_version(behind)
}

/// Whether a DOCTYPE of this has a name behind white space.
pub(crate) fn is_named(body: &[u8]) -> bool
    ensures { result ≡ is_named body.now }
{
    match space(body) {
        Ok((before, rest)) => is_filled(before) && is_name(target(rest).0),
        Err(_) => false,
    }
}
