//! The names of elements.

ghost use Rattle.std.specs.Prelude.{◌≡◌, option_map};
ghost use Rattle.std.specs.Str.{bytes_eq};
ghost use Rattle.feed_outline.specs.Names.{is_called, is_called_among, is_called_apart, name_among, naming_of_root, root, spelled, stranger, stranger_apart};
ghost use Rattle.feed_outline.specs.Views.{vocabulary_view, word_view, word_views};

/// The kinds of names that a message may be written in.
#[derive(Clone, Copy, Debug)]
pub enum Naming {
    /// Reference names, as `ProductSupply`.
    Reference,
    /// Short tags, as `productsupply` and `j151`.
    Short,
}

/// An element that counts: the composite that it stands in, its reference name and its short tag,
/// whether no element is a stranger for its name, and whether one that would be is told apart from
/// those.
#[derive(Clone, Copy, Debug)]
pub struct Word {
    pub composite: &'static [u8],
    pub reference: &'static [u8],
    pub short: &'static [u8],
    pub is_counted_alone: bool,
    pub is_apart: bool,
}

/// Words, by their composites: of each of its children the reference name and the short tag, with
/// `~` between them where it is counted alone, and `^` where its strangers are told apart.
#[macro_export]
macro_rules! words {
    ($($composite:literal: $($reference:literal $mark:tt $short:literal),+;)+) => {
        [$($($crate::Word {
            composite: $composite,
            reference: $reference,
            short: $short,
            is_counted_alone: $crate::is_counted_alone!($mark),
            is_apart: $crate::is_apart!($mark),
        },)+)+]
    };
}

/// Whether the mark is that of an element that is counted alone.
#[macro_export]
macro_rules! is_counted_alone {
    (=) => {
        false
    };
    (~) => {
        true
    };
    (^) => {
        true
    };
}

/// Whether the mark is that of an element whose strangers are told apart.
#[macro_export]
macro_rules! is_apart {
    (=) => {
        false
    };
    (~) => {
        false
    };
    (^) => {
        true
    };
}

/// The elements that count, in lists of which none is too long for the prover, and behind those a
/// list that some takers have besides.
#[derive(Clone, Copy, Debug)]
pub struct Vocabulary {
    pub first: &'static [Word],
    pub others: &'static [Word],
    pub apart: &'static [Word],
}

// Whether two names are the same. Most have another length or last byte, and the others are not
// looked at.
#[inline(always)]
#[tactic(auto, using(crate::proofs::NameLaws::other_length))]
fn is_same(name: &[u8], other: &[u8]) -> bool
    ensures { result ≡ bytes_eq name.now other.now }
{
    name.len() == other.len() && name.last() == other.last() && name == other
}

// The name of a word in a kind of names.
fn spelled(naming: Naming, word: &Word) -> &'static [u8]
    ensures { result.now ≡ spelled naming (word_view word.now) }
{
    match naming {
        Naming::Reference => word.reference,
        Naming::Short => word.short,
    }
}

// The reference name of the first of some words of a composite that is spelled so.
fn name_among(
    naming: Naming,
    words: &[Word],
    composite: &[u8],
    name: &[u8],
) -> Option<&'static [u8]>
    ensures { option_map (λ t. t.now) result
        ≡ name_among naming (word_views words.now) composite.now name.now }
{
    let mut rest = words;
    while let [first, tail @ ..] = rest {
        if is_same(spelled(naming, first), name) && is_same(first.composite, composite) {
            return Some(first.reference);
        }
        rest = tail;
    }
    None
}

/// The reference name of the first word of a composite that is spelled so.
#[tactic(auto, using(crate::proofs::NameLaws::named_in_three))]
pub(crate) fn name_in(
    naming: Naming,
    vocabulary: &Vocabulary,
    composite: &[u8],
    name: &[u8],
) -> Option<&'static [u8]>
    ensures { option_map (λ t. t.now) result
        ≡ name_among naming (vocabulary_view vocabulary.now) composite.now name.now }
{
    match name_among(naming, vocabulary.first, composite, name) {
        Some(reference) => Some(reference),
        None => match name_among(naming, vocabulary.others, composite, name) {
            Some(reference) => Some(reference),
            None => name_among(naming, vocabulary.apart, composite, name),
        },
    }
}

// Whether an element is called so by one of the names of a word, in whatever case of letters.
fn is_called(name: &[u8], word: &Word) -> bool
    ensures { result ≡ is_called name.now (word_view word.now) }
{
    word.reference.eq_ignore_ascii_case(name) || word.short.eq_ignore_ascii_case(name)
}

// Whether an element of a composite is called as one of these words, in any namespace, kind of names
// and case of letters, and one that is not only counted.
fn is_called_among(words: &[Word], composite: &[u8], name: &[u8]) -> bool
    ensures { result ≡ is_called_among (word_views words.now) composite.now name.now }
{
    let mut rest = words;
    while let [first, tail @ ..] = rest {
        if is_same(first.composite, composite)
            && !first.is_counted_alone
            && is_called(name, first)
        {
            return true;
        }
        rest = tail;
    }
    false
}

/// Whether an element of a composite is called as one that counts in any namespace, kind of names
/// and case of letters, and is not only counted.
#[tactic(auto, using(crate::proofs::NameLaws::called_in_three))]
pub(crate) fn is_called_in(vocabulary: &Vocabulary, composite: &[u8], name: &[u8]) -> bool
    ensures { result
        ≡ is_called_among (vocabulary_view vocabulary.now) composite.now name.now }
{
    is_called_among(vocabulary.first, composite, name)
        || is_called_among(vocabulary.others, composite, name)
        || is_called_among(vocabulary.apart, composite, name)
}

// Whether an element of a composite is called as one of these words whose strangers are told apart.
fn is_called_apart(words: &[Word], composite: &[u8], name: &[u8]) -> bool
    ensures { result ≡ is_called_apart (word_views words.now) composite.now name.now }
{
    let mut rest = words;
    while let [first, tail @ ..] = rest {
        if first.is_apart && is_same(first.composite, composite) && is_called(name, first) {
            return true;
        }
        rest = tail;
    }
    false
}

/// Whether an element of a composite is called as one that counts in any namespace, kind of names
/// and case of letters, whose strangers are told apart.
#[tactic(auto, using(crate::proofs::NameLaws::apart_in_three))]
pub(crate) fn is_called_apart_in(vocabulary: &Vocabulary, composite: &[u8], name: &[u8]) -> bool
    ensures { result
        ≡ is_called_apart (vocabulary_view vocabulary.now) composite.now name.now }
{
    is_called_apart(vocabulary.first, composite, name)
        || is_called_apart(vocabulary.others, composite, name)
        || is_called_apart(vocabulary.apart, composite, name)
}

/// The reference name of the root.
pub(crate) fn root() -> &'static [u8]
    ensures { result.now ≡ root }
{
    b"ONIXMessage"
}

/// The name of an element that is called as one that counts where it stands, and does not count.
/// No element of ONIX is called so.
pub(crate) fn stranger() -> &'static [u8]
    ensures { result.now ≡ stranger }
{
    b":"
}

/// The name of one that is told apart from these.
pub(crate) fn stranger_apart() -> &'static [u8]
    ensures { result.now ≡ stranger_apart }
{
    b";"
}

/// The kind of names of a message whose root has this one.
pub(crate) fn naming_of_root(name: &[u8]) -> Option<Naming>
    ensures { result ≡ naming_of_root name.now }
{
    if name == b"ONIXMessage".as_slice() {
        Some(Naming::Reference)
    } else if name == b"ONIXmessage".as_slice() {
        Some(Naming::Short)
    } else {
        None
    }
}
