//! The tokens of a message, of which each element in the root becomes an outline.

ghost use Rattle.std.specs.Prelude.{◌≡◌, [], IfOk, OnOk, true, fold, unwrap_or, is_some};
ghost use Rattle.feed_xml.specs.References.{reference_text};
ghost use Rattle.feed_xml.specs.Sections.{section_text};
ghost use Rattle.feed_xml.specs.View.{piece_view, token_view};
ghost use Rattle.feed_outline.specs.private.Feed.{feeding, first_feed, begun, ended, emptied, feed, spoken, handed, settled, takes_more};
ghost use Rattle.feed_outline.specs.private.Finishing.{finished, stopped};
ghost use Rattle.feed_outline.specs.private.Growing.{closed};
ghost use Rattle.feed_outline.specs.Views.{line_views};

use crate::dialect::{Dialect, Wrong, format_of};
use crate::grower::Grower;
use crate::line::Line;
use crate::message_reading::{Fault, Stopped};
use crate::names::Vocabulary;
use crate::namespaces::bindings_of;
use crate::refusal_hints::RefusalHints;
use feed_xml::{
    Attributes, Bytes, Piece, Sink, Token, bracket_text, push_reference, push_section_byte,
};
use std::alloc::{AllocError, Global};
use std::marker::Model;

/// What takes the outlines of a message: those of the elements that count in its root, as its Header
/// and its Products, and of the strangers there, in order.
pub trait Taker {
    ghost use Rattle.std.specs.Prelude.{◌≡◌, List};
    ghost use Rattle.feed_outline.specs.Names.{Word};
    ghost use Rattle.feed_outline.specs.Outline.{Line};
    ghost use Rattle.feed_outline.specs.Views.{vocabulary_view};

    /// The elements that count for it.
    ghost vocabulary: { List Word };

    /// What it is after an outline.
    ghost after: { Self → List Line → Self };

    /// The elements that count for it.
    fn vocabulary() -> Vocabulary
        ensures { vocabulary_view result ≡ vocabulary };

    /// Takes an outline, whose first line is the element in the root itself.
    fn take(&mut self, lines: &[Line]) -> Result<(), AllocError>
        ensures { OnOk result (self.new ≡ after self.old (line_views lines.now)) };
}

/// The state of reading a message.
#[derive(Drop)]
pub struct Outliner<T> {
    alloc: Global,
    taker: T,
    root: Option<Result<Dialect, Wrong>>,
    child: Grower,
    known: bool,
    told: RefusalHints,
}

impl<T> Model for Outliner<T> {
    ghost use Rattle.feed_outline.specs.private.Feed.{Feed, feeding};

    ghost Value = { Feed T };

    ghost view = { λ o. feeding o.taker o.root o.child o.known };
}

// What a reference stands for, and whether it stands for anything.
fn reference_text(alloc: Global, body: &[u8]) -> Result<(Vec<u8>, bool), AllocError>
    ensures text { IfOk result (λ x. x.0.items ≡ unwrap_or (reference_text body.now) []) }
    ensures known { IfOk result (λ x. x.1 ≡ is_some (reference_text body.now)) }
{
    let mut text = Vec::new(alloc);
    let known = push_reference(&mut text, body)?;
    Ok((text, known))
}

// What a byte of a section stands for that is no closing bracket, behind so many of them.
fn section_text(alloc: Global, count: u8, byte: u8) -> Result<Vec<u8>, AllocError>
    ensures { IfOk result (λ text. text.items ≡ section_text count byte) }
{
    let mut text = Vec::new(alloc);
    push_section_byte(&mut text, count, byte)?;
    Ok(text)
}

// That no message was read, for this reason.
fn refused<T>(fault: Fault, taker: T, told: RefusalHints) -> Result<T, Stopped<T>>
    ensures { result ≡ Err (record { fault = fault; taker = taker; told = tt }) }
{
    Err(Stopped { fault, taker, told })
}

impl<T: Taker + Drop> Outliner<T> {
    /// Before the first token.
    pub(crate) fn new(alloc: Global, taker: T) -> Outliner<T>
        ensures { result ≡ first_feed taker }
    {
        Outliner {
            alloc,
            taker,
            root: None,
            child: Grower::new(alloc),
            known: true,
            told: RefusalHints::new(),
        }
    }

    /// What comes of the message at its end.
    pub(crate) fn finish(self) -> Result<T, Stopped<T>>
        ensures { result ≡ finished self }
    {
        let Outliner {
            alloc,
            taker,
            root,
            child,
            known,
            mut told,
        } = self;
        match root {
            None => {
                let name = Bytes::from_vec(Vec::new(alloc));
                refused(Fault::Message(Wrong::Root(name)), taker, told)
            }
            Some(Err(wrong)) => refused(Fault::Message(wrong), taker, told),
            Some(Ok(_)) => {
                if !known {
                    return refused(Fault::Reference, taker, told);
                }
                if child.fits() {
                    return Ok(taker);
                }
                told.stand_at(child.lines());
                refused(Fault::TooLarge, taker, told)
            }
        }
    }

    /// No message was read, for this reason.
    pub(crate) fn stop(self, fault: Fault) -> Stopped<T>
        ensures { result ≡ stopped fault self }
    {
        let Outliner {
            alloc: _,
            taker,
            root: _,
            child: _,
            known: _,
            told,
        } = self;
        Stopped { fault, taker, told }
    }

    // Hands on the lines of a child of the root.
    fn hand_on(&mut self) -> Result<(), AllocError>
        ensures { OnOk result (self.new ≡ feeding
            (handed T.after self.old.taker self.old.child.lines)
            self.old.root self.old.child self.old.known) }
    {
        match self.child.lines() {
            [] => Ok(()),
            lines => self.taker.take(lines),
        }
    }

    // Ends an element of a message, which may be a child of the root.
    fn settle(&mut self) -> Result<(), AllocError>
        ensures { OnOk result (self.new ≡ settled T.after self.old
            (closed self.old.child.passed self.old.child)) }
    {
        self.child.close();
        if self.child.is_idle() && self.child.fits() {
            self.hand_on()?;
            self.child.clear();
            self.told.end_child();
        }
        Ok(())
    }

    // Takes the tag of an element. In one that is passed over nothing is asked of it.
    #[tactic(auto, using(crate::proofs::GrowerLaws::opened_in_passed))]
    fn begin(&mut self, name: &[u8], attributes: &Attributes<'_>) -> Result<(), AllocError>
        ensures { OnOk result (self.new
            ≡ begun T.vocabulary self.old.root name.now attributes.now self.old) }
    {
        match &self.root {
            None => {
                self.root = Some(Dialect::of_root(self.alloc, name, attributes)?);
                Ok(())
            }
            Some(Err(_)) => Ok(()),
            Some(Ok(dialect)) => {
                if self.child.is_passing() {
                    return self.child.pass();
                }
                let bindings = bindings_of(self.alloc, attributes)?;
                let counted = dialect.counted(&T::vocabulary(), &self.child, name, &bindings);
                let called = if self.told.is_first_stranger(counted) {
                    dialect.called(self.alloc, &self.child, name, &bindings)?
                } else {
                    Vec::new(self.alloc)
                };
                let format = format_of(self.alloc, attributes)?;
                self.child
                    .open(counted, self.told.here(), format, bindings, called)
            }
        }
    }

    // Takes an end tag.
    fn end(&mut self) -> Result<(), AllocError>
        ensures { OnOk result (self.new ≡ ended T.after self.old.root self.old) }
    {
        match &self.root {
            None => Ok(()),
            Some(Err(_)) => Ok(()),
            Some(Ok(_)) => self.settle(),
        }
    }

    // Takes an empty element.
    fn empty(&mut self, name: &[u8], attributes: &Attributes<'_>) -> Result<(), AllocError>
        ensures { OnOk result (self.new
            ≡ emptied T.vocabulary T.after self.old.root name.now attributes.now self.old) }
    {
        let is_root = self.root.is_none();
        self.begin(name, attributes)?;
        if is_root { Ok(()) } else { self.end() }
    }

    // Takes text.
    fn speak(&mut self, text: &[u8], known: bool) -> Result<(), AllocError>
        ensures { OnOk result (self.new ≡ spoken self.old.root text.now known self.old) }
    {
        self.known = known && self.known;
        match &self.root {
            None => Ok(()),
            Some(Err(_)) => Ok(()),
            Some(Ok(_)) => self.child.add(text),
        }
    }

    // Takes a reference.
    fn refer(&mut self, body: &[u8]) -> Result<(), AllocError>
        ensures { OnOk result (self.new ≡ spoken self.old.root
            (unwrap_or (reference_text body.now) [])
            (is_some (reference_text body.now)) self.old) }
    {
        let (text, known) = reference_text(self.alloc, body)?;
        if !known {
            self.told.take_reference(self.alloc, body)?;
        }
        self.speak(&text, known)
    }

    // Takes a byte of a section that is no closing bracket, behind so many of them.
    fn speak_byte(&mut self, count: u8, byte: u8) -> Result<(), AllocError>
        ensures { OnOk result (self.new
            ≡ spoken self.old.root (section_text count byte) true self.old) }
    {
        let text = section_text(self.alloc, count, byte)?;
        self.speak(&text, true)
    }

    // Takes a token.
    fn take_token(&mut self, token: Token<'_>) -> Result<(), AllocError>
        ensures { OnOk result (self.new
            ≡ feed T.vocabulary T.after self.old (token_view token.entry)) }
    {
        match token {
            Token::Start(name, attributes, _) => self.begin(name, &attributes),
            Token::Empty(name, attributes, _) => self.empty(name, &attributes),
            Token::End(_, _) => self.end(),
            Token::Reference(body) => self.refer(body),
            Token::Opening => self.speak(b"", true),
            Token::Bracket(count) => self.speak(bracket_text(count), true),
            Token::CData(count, byte) => self.speak_byte(count, byte),
            Token::Comment(_) => self.speak(b"", true),
            Token::Instruction(_) => self.speak(b"", true),
            Token::Declaration(_) => self.speak(b"", true),
            Token::Doctype(_) => self.speak(b"", true),
        }
    }

    // Takes what was read next.
    fn take_piece(&mut self, piece: Piece<'_>) -> Result<(), AllocError>
        ensures { OnOk result (self.new
            ≡ fold (feed T.vocabulary T.after) self.old (piece_view piece.entry)) }
    {
        match piece {
            Piece::Text(run) => self.speak(run, true),
            Piece::Section(run) => self.speak(run, true),
            Piece::Markup(token) => self.take_token(token),
        }
    }

    // Whether the root may be that of a message, and each reference stands for something.
    fn is_sound(&self) -> bool {
        match &self.root {
            None => true,
            Some(Err(_)) => false,
            Some(Ok(_)) => self.known,
        }
    }

    // Whether more tokens are taken.
    fn takes_more(&self) -> bool
        ensures { result ≡ takes_more self.now }
    {
        match &self.root {
            None => true,
            Some(Err(_)) => false,
            Some(Ok(_)) => self.known && self.child.fits(),
        }
    }

    // Goes behind what was read, unless it is refused.
    fn move_on(&mut self, spelled: &[u8])
        ensures { self.new ≡ self.old }
    {
        if self.is_sound() {
            self.told.pass(spelled);
        }
    }
}

impl<T: Taker + Drop> Sink for Outliner<T> {
    ghost use Rattle.feed_outline.specs.private.Feed.{feed, takes_more};

    ghost after = { λ f token. feed T.vocabulary T.after f token };

    ghost goes_on = { λ f. takes_more f };

    fn take(&mut self, piece: Piece<'_>, spelled: &[u8]) -> Result<bool, AllocError> {
        self.take_piece(piece)?;
        self.move_on(spelled);
        Ok(self.takes_more())
    }

    fn stuck(&mut self, front: &[u8], rest: &[u8]) {
        self.told.pass(front);
        self.told.take_stuck(self.alloc, rest);
    }
}
