//! The characters of XML, by their code points.

ghost use Rattle.std.specs.Prelude.{◌≡◌, ◌<◌, ◌≤◌, true};
ghost use Rattle.std.specs.Str.{chars};
ghost use Rattle.std.specs.Str.{continuation_len, lead_bits, chars_after};
ghost use Rattle.feed_xml.specs.Characters.{within, is_char, starts_name_char, is_name_char, are_of_name};
ghost use Rattle.feed_xml.specs.private.NameCharacters.{passes, are_left, are_named};

fn within(least: u32, most: u32, c: u32) -> bool
    ensures { result ≡ within least most c }
{
    c >= least && c <= most
}

/// Whether a document may have the character.
pub(crate) fn is_char(c: u32) -> bool
    ensures { result ≡ is_char c }
{
    c == 9
        || c == 10
        || c == 13
        || within(32, 55295, c)
        || within(57344, 65533, c)
        || within(65536, 1_114_111, c)
}

// Whether a name may begin with the character.
fn starts_name_char(c: u32) -> bool
    ensures { result ≡ starts_name_char c }
{
    c == 58
        || within(65, 90, c)
        || c == 95
        || within(97, 122, c)
        || within(192, 214, c)
        || within(216, 246, c)
        || within(248, 767, c)
        || within(880, 893, c)
        || within(895, 8191, c)
        || within(8204, 8205, c)
        || within(8304, 8591, c)
        || within(11264, 12271, c)
        || within(12289, 55295, c)
        || within(63744, 64975, c)
        || within(65008, 65533, c)
        || within(65536, 983_039, c)
}

// Whether a name may have the character.
fn is_name_char(c: u32) -> bool
    ensures { result ≡ is_name_char c }
{
    starts_name_char(c)
        || c == 45
        || c == 46
        || within(48, 57, c)
        || c == 183
        || within(768, 879, c)
        || within(8255, 8256, c)
}

// Whether a name may have the character there.
fn passes(first: bool, c: u32) -> bool
    ensures { result ≡ passes first c }
{
    if first {
        starts_name_char(c)
    } else {
        is_name_char(c)
    }
}

// How many bytes follow the first one of a character.
fn continuation_len(b: u8) -> u8
    ensures count { result ≡ continuation_len b }
    ensures most { result ≤ 3 }
{
    if b < 128 {
        0
    } else if b < 224 {
        1
    } else if b < 240 {
        2
    } else {
        3
    }
}

// What the first byte of a character says of its code point.
fn lead_bits(b: u8) -> u32
    ensures bits { result ≡ lead_bits b }
    ensures most { result < 128 }
    ensures four { continuation_len b ≡ 3 → result < 16 }
{
    if b < 128 {
        u32::from(b)
    } else if b < 224 {
        u32::from(b.saturating_sub(192))
    } else if b < 240 {
        u32::from(b - 224)
    } else {
        u32::from(b - 240)
    }
}

// Whether the character whose bytes so far come to the value, and the characters behind it, are
// those of a name.
fn are_left(left: u8, value: u32, bytes: &[u8]) -> bool
    requires left { left ≤ 3 }
    requires value { value < 128 }
    ensures { result ≡ are_left true (chars_after left value bytes.now) }
{
    let mut first = true;
    let mut left = left;
    let mut value = value;
    let mut rest = bytes;
    while let [b, tail @ ..] = rest {
        if left == 0 {
            if !passes(first, value) {
                return false;
            }
            first = false;
            left = continuation_len(*b);
            value = lead_bits(*b);
        } else {
            left -= 1;
            value = value * 64 + u32::from(b.saturating_sub(128));
        }
        rest = tail;
    }
    if left == 0 {
        passes(first, value)
    } else {
        !first
    }
}

// The same of all characters that the bytes spell.
fn are_named(bytes: &[u8]) -> bool
    ensures { result ≡ are_named bytes.now }
{
    match bytes {
        [] => false,
        [b, rest @ ..] => are_left(continuation_len(*b), lead_bits(*b), rest),
    }
}

/// Whether the characters that the bytes spell are those of a name.
pub(crate) fn are_of_name(bytes: &[u8]) -> bool
    ensures { result ≡ are_of_name (chars bytes.now) }
{
    are_named(bytes)
}
