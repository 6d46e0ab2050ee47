//! A DOCTYPE is passed over.

ghost use Rattle.std.specs.Prelude.{◌≡◌, ◌∷◌, []};
ghost use Rattle.feed_xml.specs.Skims.{next_skim, ends_skim, on};
ghost use Rattle.feed_xml.specs.Steps.{Gives, skim};

use crate::stop::Stop;

/// Where a byte stands in a DOCTYPE.
#[derive(Clone, Copy)]
pub(crate) enum Skim {
    Outside,
    Quoted(u8),
    Inside,
    InsideQuoted(u8),
    Opened,
    Exclaimed,
    Dashed,
    Comment,
    CommentDash,
    CommentDashes,
    Instruction,
    InstructionMark,
}

// What a byte leads to: to one if it is the wanted byte, else to another.
fn on(b: u8, wanted: u8, found: Skim, other: Skim) -> Skim
    ensures { result ≡ on ((wanted, found) ∷ []) other b }
{
    if b == wanted { found } else { other }
}

fn next_outside(b: u8) -> Skim
    ensures { result ≡ next_skim Skim.Outside b }
{
    if b == b'"' {
        Skim::Quoted(b'"')
    } else if b == b'\'' {
        Skim::Quoted(b'\'')
    } else if b == b'[' {
        Skim::Inside
    } else {
        Skim::Outside
    }
}

fn next_inside(b: u8) -> Skim
    ensures { result ≡ next_skim Skim.Inside b }
{
    if b == b'"' {
        Skim::InsideQuoted(b'"')
    } else if b == b'\'' {
        Skim::InsideQuoted(b'\'')
    } else if b == b'<' {
        Skim::Opened
    } else if b == b']' {
        Skim::Outside
    } else {
        Skim::Inside
    }
}

fn next_opened(b: u8) -> Skim
    ensures { result ≡ next_skim Skim.Opened b }
{
    if b == b'!' {
        Skim::Exclaimed
    } else if b == b'?' {
        Skim::Instruction
    } else {
        Skim::Inside
    }
}

fn next_dashes(b: u8) -> Skim
    ensures { result ≡ next_skim Skim.CommentDashes b }
{
    if b == b'>' {
        Skim::Inside
    } else if b == b'-' {
        Skim::CommentDashes
    } else {
        Skim::Comment
    }
}

fn next_mark(b: u8) -> Skim
    ensures { result ≡ next_skim Skim.InstructionMark b }
{
    if b == b'>' {
        Skim::Inside
    } else if b == b'?' {
        Skim::InstructionMark
    } else {
        Skim::Instruction
    }
}

fn next_skim(s: Skim, b: u8) -> Skim
    ensures { result ≡ next_skim s b }
{
    match s {
        Skim::Outside => next_outside(b),
        Skim::Quoted(quote) => on(b, quote, Skim::Outside, s),
        Skim::Inside => next_inside(b),
        Skim::InsideQuoted(quote) => on(b, quote, Skim::Inside, s),
        Skim::Opened => next_opened(b),
        Skim::Exclaimed => on(b, b'-', Skim::Dashed, Skim::Inside),
        Skim::Dashed => on(b, b'-', Skim::Comment, Skim::Inside),
        Skim::Comment => on(b, b'-', Skim::CommentDash, Skim::Comment),
        Skim::CommentDash => on(b, b'-', Skim::CommentDashes, Skim::Comment),
        Skim::CommentDashes => next_dashes(b),
        Skim::Instruction => on(b, b'?', Skim::InstructionMark, Skim::Instruction),
        Skim::InstructionMark => next_mark(b),
    }
}

fn ends_skim(s: Skim, b: u8) -> bool
    ensures { result ≡ ends_skim s b }
{
    match s {
        Skim::Outside => b == b'>',
        _ => false,
    }
}

/// The bytes before the end of a DOCTYPE, and those behind it.
pub(crate) fn doctype_body(bytes: &[u8]) -> Result<(&[u8], &[u8]), Stop>
    ensures { Gives (λ x. (x.0.now, x.1.now)) result (skim Skim.Outside bytes.now) }
{
    let mut at = 0;
    let mut stage = Skim::Outside;
    while at < bytes.len() {
        if ends_skim(stage, bytes[at]) {
            return Ok((&bytes[..at], &bytes[at + 1..]));
        }
        stage = next_skim(stage, bytes[at]);
        at += 1;
    }
    Err(Stop::More)
}
