//! Kinds of bytes.

ghost use Rattle.std.specs.Prelude.{◌≡◌, ◌<◌, ◌+◌, ◌++◌, length, true, false};
ghost use Rattle.std.specs.List.{list_all};
ghost use Rattle.std.specs.Str.{chars};
ghost use Rattle.feed_xml.specs.Characters.{are_of_name};
ghost use Rattle.feed_xml.specs.Grammar.{is_space, starts_name, is_name_byte, is_plain, is_value_byte, is_quote, is_filled, is_unbracketed, begins_name, is_reference_byte, is_digit, is_hex_digit, is_name};
ghost use Rattle.feed_xml.specs.Kinds.{passes, first_passes, has_column, is_continuation};

use crate::characters::are_of_name;

/// The bytes that a run may have.
#[derive(Clone, Copy)]
pub(crate) enum Kind {
    Space,
    Name,
    Plain,
    Value(u8),
    Reference,
    Digit,
    HexDigit,
    Unbracketed,
    /// The bytes that are characters by themselves.
    Ascii,
    /// The bytes each of which has a column of its own.
    Column,
}

#[inline]
pub(crate) fn is_space(b: u8) -> bool
    ensures { result ≡ is_space b }
{
    b == 32 || b == 10 || b == 13 || b == 9
}

#[inline]
pub(crate) fn starts_name(b: u8) -> bool
    ensures { result ≡ starts_name b }
{
    (b >= 97 && b <= 122) || (b >= 65 && b <= 90) || b == 95 || b == 58 || b >= 128
}

// Most bytes of names are small letters.
#[inline]
pub(crate) fn is_name_byte(b: u8) -> bool
    ensures { result ≡ is_name_byte b }
{
    if b >= 97 && b <= 122 {
        return true;
    }
    starts_name(b) || (b >= 48 && b <= 57) || b == 45 || b == 46
}

#[inline]
pub(crate) fn is_plain(b: u8) -> bool
    ensures { result ≡ is_plain b }
{
    !(b == 60 || b == 38)
}

#[inline]
pub(crate) fn is_unbracketed(b: u8) -> bool
    ensures { result ≡ is_unbracketed b }
{
    b != 93
}

#[inline]
pub(crate) fn is_value_byte(quote: u8, b: u8) -> bool
    ensures { result ≡ is_value_byte quote b }
{
    !(b == quote || b == 60)
}

#[inline]
pub(crate) fn is_quote(b: u8) -> bool
    ensures { result ≡ is_quote b }
{
    b == 34 || b == 39
}

// Whether a byte goes on with a character.
#[inline(always)]
pub(crate) fn is_continuation(b: u8) -> bool
    ensures { result ≡ is_continuation b }
{
    b >= 128 && b < 192
}

// Whether a byte begins a character of the same line.
#[inline(always)]
fn has_column(b: u8) -> bool
    ensures { result ≡ has_column b }
{
    b != b'\n' && !is_continuation(b)
}

#[inline(always)]
pub(crate) fn passes(kind: Kind, b: u8) -> bool
    ensures { result ≡ passes kind b }
{
    match kind {
        Kind::Space => is_space(b),
        Kind::Name => is_name_byte(b),
        Kind::Plain => is_plain(b),
        Kind::Value(quote) => is_value_byte(quote, b),
        Kind::Reference => is_reference_byte(b),
        Kind::Digit => is_digit(b),
        Kind::HexDigit => is_hex_digit(b),
        Kind::Unbracketed => is_unbracketed(b),
        Kind::Ascii => b < 128,
        Kind::Column => has_column(b),
    }
}

#[inline]
pub(crate) fn is_filled(bytes: &[u8]) -> bool
    ensures { result ≡ is_filled bytes.now }
{
    match bytes {
        [] => false,
        [_first, ..] => true,
    }
}

// Whether the first of the bytes is of the kind.
#[inline(always)]
pub(crate) fn first_passes(kind: Kind, bytes: &[u8]) -> bool
    ensures { result ≡ first_passes kind bytes.now }
{
    match bytes {
        [] => false,
        [first, ..] => passes(kind, *first),
    }
}

#[inline]
pub(crate) fn begins_name(bytes: &[u8]) -> bool
    ensures { result ≡ begins_name bytes.now }
{
    match bytes {
        [] => false,
        [first, ..] => starts_name(*first),
    }
}

#[inline]
pub(crate) fn is_reference_byte(b: u8) -> bool
    ensures { result ≡ is_reference_byte b }
{
    is_name_byte(b) || b == 35
}

#[inline]
pub(crate) fn is_digit(b: u8) -> bool
    ensures { result ≡ is_digit b }
{
    b >= 48 && b <= 57
}

#[inline]
pub(crate) fn is_hex_digit(b: u8) -> bool
    ensures { result ≡ is_hex_digit b }
{
    is_digit(b) || (b >= 97 && b <= 102) || (b >= 65 && b <= 70)
}

// Whether each of the bytes is of the kind.
#[inline(always)]
pub(crate) fn all_pass(kind: Kind, bytes: &[u8]) -> bool
    ensures { result ≡ list_all (passes kind) bytes.now }
{
    let mut rest = bytes;
    while let [b, tail @ ..] = rest {
        if !passes(kind, *b) {
            return false;
        }
        rest = tail;
    }
    true
}

/// The bytes of a kind at the front, as many as there are, and those behind them.
#[inline(always)]
pub(crate) fn split_run(kind: Kind, bytes: &[u8]) -> (&[u8], &[u8])
    ensures whole { bytes.now ≡ result.0.now ++ result.1.now }
    ensures size { length bytes.now ≡ length result.0.now + length result.1.now }
    ensures each { list_all (passes kind) result.0.now ≡ true }
    ensures some { first_passes kind bytes.now ≡ true → length result.1.now < length bytes.now }
    ensures ends { first_passes kind result.1.now ≡ false }
{
    let mut at = 0;
    while at < bytes.len() {
        if passes(kind, bytes[at]) {
            at += 1;
        } else {
            return bytes.split_at(at);
        }
    }
    bytes.split_at(at)
}

// Whether the characters of the bytes, which may be those of a name, are so. Most names are of
// ASCII.
fn have_name_chars(bytes: &[u8]) -> bool
    requires begins { begins_name bytes.now ≡ true }
    requires all { list_all is_name_byte bytes.now ≡ true }
    ensures { result ≡ are_of_name (chars bytes.now) }
{
    all_pass(Kind::Ascii, bytes) || are_of_name(bytes)
}

/// Whether this is a name, each of whose bytes may stand in one.
pub(crate) fn are_name(bytes: &[u8]) -> bool
    requires { list_all is_name_byte bytes.now ≡ true }
    ensures { result ≡ is_name bytes.now }
{
    begins_name(bytes) && have_name_chars(bytes)
}

/// Whether this is a name.
pub(crate) fn is_name(bytes: &[u8]) -> bool
    ensures { result ≡ is_name bytes.now }
{
    begins_name(bytes) && all_pass(Kind::Name, bytes) && have_name_chars(bytes)
}
