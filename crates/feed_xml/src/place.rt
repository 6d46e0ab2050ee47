//! Where tokens may stand.

ghost use Rattle.std.specs.Prelude.{◌≡◌, ◌≤◌, ◌∷◌, [], ℕ, Some, None, true, false, OnOk, OnErr, IfErr, IsErrOf, map, length};
ghost use Rattle.feed_xml.specs.Distinct.{are_many, is_large};
ghost use Rattle.feed_xml.specs.Grammar.{raw, cdata, are_distinct};
ghost use Rattle.feed_xml.specs.Limits.{IsStart};
ghost use Rattle.feed_xml.specs.Sections.{with_bracket};
ghost use Rattle.feed_xml.specs.Trees.{next_tail, tail_after, tail_in};
ghost use Rattle.feed_xml.specs.private.Places.{further, ordered, prolog_after, brackets_after, section_of, is_clear, steps, first_place, is_last};
ghost use Rattle.feed_xml.specs.Distinct.{has_distinct};
ghost use Rattle.feed_xml.specs.Faults.{IsOfPlace};
ghost use Rattle.feed_xml.specs.View.{token_view};

use crate::attributes::Attributes;
use crate::classes::{is_plain, is_space};
use crate::fault::Fault;
use crate::nesting::{MOST_OPEN, Nesting};
use crate::sections::ends_section;
use crate::tags::Token;
use std::alloc::Global;

// The bytes from the first closing bracket on.
#[inline(always)]
fn from_bracket(run: &[u8]) -> &[u8]
    ensures same { brackets_after 0 result.now ≡ brackets_after 0 run.now }
    ensures shorter { length result.now ≤ length run.now }
{
    let mut rest = run;
    while let [b, tail @ ..] = rest {
        if *b == b']' {
            return rest;
        }
        rest = tail;
    }
    rest
}

// The same, where none is counted so far.
#[inline(always)]
fn skip_uncounted(count: u8, run: &[u8]) -> &[u8]
    ensures same { brackets_after count result.now ≡ brackets_after count run.now }
    ensures shorter { length result.now ≤ length run.now }
{
    if count == 0 { from_bracket(run) } else { run }
}

// How many closing brackets of a text stand behind a run of it, two at most, unless it has a `]]>`.
fn brackets_behind(before: u8, run: &[u8]) -> Option<u8>
    ensures { result ≡ brackets_after before run.now }
{
    let mut count = before;
    let mut rest = skip_uncounted(count, run);
    while let [b, tail @ ..] = rest {
        if *b == b']' {
            if count < 2 {
                count += 1;
            }
        } else if *b == b'>' && count == 2 {
            return None;
        } else {
            count = 0;
        }
        rest = skip_uncounted(count, tail);
    }
    Some(count)
}

// How many bytes of a text may stand there, from the first on, by the number of its closing
// brackets before them.
fn fitting(is_outside: bool, before: u8, run: &[u8]) -> usize
    ensures { result ≤ length run.now }
{
    let mut count = before;
    let mut rest = run;
    while let [b, tail @ ..] = rest {
        if !is_plain(*b) || (is_outside && !is_space(*b)) || (*b == b'>' && count == 2) {
            break;
        }
        count = if *b == b']' { with_bracket(count) } else { 0 };
        rest = tail;
    }
    run.len() - rest.len()
}

/// What stands before the next token.
#[derive(Clone, Copy, Debug)]
pub(crate) enum Tail {
    /// The number of closing brackets of a text, two at most.
    Text(u8),
    /// A CDATA section that is open, with the number of its closing brackets, two at most.
    Section(u8),
}

// One closing bracket more, two at most.
fn with_bracket(count: u8) -> u8
    ensures { result ≡ with_bracket count }
{
    if count < 2 { count + 1 } else { count }
}

// Behind a byte of a section that is no closing bracket.
fn tail_in(count: u8, byte: u8) -> Tail
    ensures { result ≡ tail_in count byte }
{
    if ends_section(count, byte) {
        Tail::Text(0)
    } else {
        Tail::Section(0)
    }
}

// Behind a token in a section, where that may stand there.
fn tail_within(count: u8, token: &Token<'_>) -> Option<Tail>
    ensures { result ≡ next_tail (Tail.Section count) (token_view token.now) }
{
    match token {
        Token::Bracket(before) => {
            if count == *before {
                Some(Tail::Section(with_bracket(count)))
            } else {
                None
            }
        }
        Token::CData(before, byte) => {
            if count == *before {
                Some(tail_in(count, *byte))
            } else {
                None
            }
        }
        _ => None,
    }
}

// Behind a token, where that may stand there.
fn tail_with(before: Tail, token: &Token<'_>) -> Option<Tail>
    ensures { result ≡ next_tail before (token_view token.now) }
{
    match before {
        Tail::Section(count) => tail_within(count, token),
        Tail::Text(_) => match token {
            Token::Opening => Some(Tail::Section(0)),
            Token::Bracket(_) | Token::CData(_, _) => None,
            _ => Some(Tail::Text(0)),
        },
    }
}

// Behind a stretch of text, by the closing brackets of one before it, where that may stand there.
fn text_tail(count: u8, run: &[u8]) -> Option<Tail>
    ensures { result ≡ tail_after (Tail.Text count) (map raw run.now) }
{
    match brackets_behind(count, run) {
        Some(behind) => Some(Tail::Text(behind)),
        None => None,
    }
}

// Behind a stretch of text in a section, where none may stand.
fn section_tail(count: u8, run: &[u8]) -> Option<Tail>
    ensures { result ≡ tail_after (Tail.Section count) (map raw run.now) }
{
    match run {
        [] => Some(Tail::Section(count)),
        [_first, ..] => None,
    }
}

// Behind a stretch of text, where that may stand there.
fn tail_behind(before: Tail, run: &[u8]) -> Option<Tail>
    ensures { result ≡ tail_after before (map raw run.now) }
{
    match before {
        Tail::Text(count) => text_tail(count, run),
        Tail::Section(count) => section_tail(count, run),
    }
}

// Whether a section is open, and no closing bracket of it stands there.
fn is_in_stretch(tail: Tail) -> bool
    ensures held { result ≡ true → tail ≡ Tail.Section 0 }
    ensures refused { result ≡ false → (b : ℕ) → next_tail tail (cdata 0 b) ≡ None }
{
    match tail {
        Tail::Text(_) => false,
        Tail::Section(count) => count == 0,
    }
}

// Whether no closing bracket of a text stands there, and no section is open.
fn is_clear(tail: Tail) -> bool
    ensures { result ≡ is_clear tail }
{
    match tail {
        Tail::Text(count) => count == 0,
        Tail::Section(_) => false,
    }
}

// Whether the attributes of a tag are few enough, and have names of their own.
fn check_tag(token: &Token<'_>) -> Result<(), Fault>
    ensures ok { OnOk result (has_distinct (token_view token.now) ≡ true) }
    ensures malformed { IsErrOf result Fault.Malformed
        → has_distinct (token_view token.now) ≡ false }
    ensures deep { ¬ (IsErrOf result Fault.TooDeep) }
    ensures large { IsErrOf result Fault.LargeTag → is_large (token_view token.now) ≡ true }
    ensures fault { IfErr result IsOfPlace }
{
    match token {
        Token::Start(_, attributes, _) => check_attributes(attributes),
        Token::Empty(_, attributes, _) => check_attributes(attributes),
        _ => Ok(()),
    }
}

// The same of the attributes alone.
fn check_attributes(attributes: &Attributes<'_>) -> Result<(), Fault>
    ensures ok { OnOk result (are_distinct attributes.now ≡ true) }
    ensures malformed { IsErrOf result Fault.Malformed → are_distinct attributes.now ≡ false }
    ensures deep { ¬ (IsErrOf result Fault.TooDeep) }
    ensures large { IsErrOf result Fault.LargeTag → are_many attributes.now ≡ true }
    ensures fault { IfErr result IsOfPlace }
{
    if attributes.is_empty() {
        Ok(())
    } else if attributes.are_many() {
        Err(Fault::LargeTag)
    } else if attributes.are_distinct() {
        Ok(())
    } else {
        Err(Fault::Malformed)
    }
}

/// What may still come before the root.
#[derive(Clone, Copy, Debug)]
pub(crate) enum Prolog {
    /// A declaration and a DOCTYPE, since nothing was read.
    Front,
    /// A DOCTYPE.
    Open,
    /// Neither, behind a DOCTYPE or the root's tag.
    Closed,
}

// What may come behind text, a comment or an instruction.
fn further(prolog: Prolog) -> Prolog
    ensures { result ≡ further prolog }
{
    match prolog {
        Prolog::Closed => Prolog::Closed,
        _ => Prolog::Open,
    }
}

// What may come behind a stretch of text.
fn behind_text(prolog: Prolog, run: &[u8]) -> Prolog
    ensures { prolog_after prolog (map raw run.now) ≡ Some result }
{
    match run {
        [] => prolog,
        [_first, ..] => further(prolog),
    }
}

// What may come behind a token, where that may come.
fn behind_token(prolog: Prolog, token: &Token<'_>) -> Option<Prolog>
    ensures { result ≡ ordered prolog (token_view token.now) }
{
    match token {
        Token::Declaration(_) => match prolog {
            Prolog::Front => Some(Prolog::Open),
            _ => None,
        },
        Token::Doctype(_) => match prolog {
            Prolog::Closed => None,
            _ => Some(Prolog::Closed),
        },
        Token::Start(_, _, _) => Some(Prolog::Closed),
        Token::Empty(_, _, _) => Some(Prolog::Closed),
        _ => Some(further(prolog)),
    }
}

/// Where the next token stands.
#[derive(Drop)]
pub(crate) struct Place {
    nesting: Nesting,
    tail: Tail,
    prolog: Prolog,
}

impl Place {
    /// Before the first token.
    pub(crate) fn first(alloc: Global) -> Place
        ensures { result ≡ first_place }
    {
        Place {
            nesting: Nesting::first(alloc),
            tail: Tail::Text(0),
            prolog: Prolog::Front,
        }
    }

    /// Whether a document may end here.
    pub(crate) fn is_last(&self) -> bool
        ensures { result ≡ is_last self.now }
    {
        self.nesting.is_closed() && (is_clear(self.tail) && matches!(self.prolog, Prolog::Closed))
    }

    /// Goes on by a stretch of text.
    pub(crate) fn take_text(&mut self, run: &[u8]) -> Result<(), Fault>
        ensures ok { OnOk result (steps self.old (map raw run.now) ≡ Some self.new) }
        ensures malformed { IsErrOf result Fault.Malformed
            → steps self.old (map raw run.now) ≡ None }
        ensures same { OnErr result (self.new ≡ self.old) }
        ensures deep { ¬ (IsErrOf result Fault.TooDeep) }
        ensures large { ¬ (IsErrOf result Fault.LargeTag) }
        ensures fault { IfErr result IsOfPlace }
    {
        match tail_behind(self.tail, run) {
            None => Err(Fault::Malformed),
            Some(tail) => {
                self.nesting.take_text(run)?;
                self.tail = tail;
                self.prolog = behind_text(self.prolog, run);
                Ok(())
            }
        }
    }

    /// How many bytes of a text may stand here, from the first on.
    pub(crate) fn fitting(&self, run: &[u8]) -> usize
        ensures { result ≤ length run.now }
    {
        match self.tail {
            Tail::Text(count) => fitting(self.nesting.is_outside(), count, run),
            Tail::Section(_) => 0,
        }
    }

    /// In what section the next token stands: behind how many closing brackets of it, if in one.
    pub(crate) fn section(&self) -> Option<u8>
        ensures { result ≡ section_of self.now.tail }
    {
        match self.tail {
            Tail::Text(_) => None,
            Tail::Section(count) => Some(count),
        }
    }

    /// Goes on by a stretch of a section.
    pub(crate) fn take_section(&mut self, run: &[u8]) -> Result<(), Fault>
        ensures ok { OnOk result (steps self.old (map (cdata 0) run.now) ≡ Some self.new) }
        ensures malformed { OnErr result (steps self.old (map (cdata 0) run.now) ≡ None) }
        ensures fault { IfErr result (λ fault. fault ≡ Fault.Malformed) }
    {
        if run.len() == 0 {
            return Ok(());
        }
        if self.nesting.is_outside() {
            return Err(Fault::Malformed);
        }
        if !is_in_stretch(self.tail) {
            return Err(Fault::Malformed);
        }
        self.prolog = behind_text(self.prolog, run);
        Ok(())
    }

    /// Goes on by a token.
    pub(crate) fn take_markup(&mut self, token: &Token<'_>) -> Result<(), Fault>
        ensures ok { OnOk result (steps self.old (token_view token.now ∷ []) ≡ Some self.new) }
        ensures malformed { IsErrOf result Fault.Malformed
            → steps self.old (token_view token.now ∷ []) ≡ None }
        ensures deep { IsErrOf result Fault.TooDeep → MOST_OPEN ≤ length self.old.nesting.names }
        ensures start { IsErrOf result Fault.TooDeep → IsStart (token_view token.now) }
        ensures large { IsErrOf result Fault.LargeTag → is_large (token_view token.now) ≡ true }
        ensures fault { IfErr result IsOfPlace }
    {
        check_tag(token)?;
        self.nesting.take_token(token)?;
        let Some(tail) = tail_with(self.tail, token) else {
            return Err(Fault::Malformed);
        };
        let Some(prolog) = behind_token(self.prolog, token) else {
            return Err(Fault::Malformed);
        };
        self.tail = tail;
        self.prolog = prolog;
        Ok(())
    }
}
