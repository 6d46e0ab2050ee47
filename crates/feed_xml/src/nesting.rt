//! Elements in one another.

ghost use Rattle.std.specs.Prelude.{◌≡◌, ◌≤◌, ◌<◌, true, false, Some, None, OnOk, OnErr, IfErr, IsErrOf, map, length};
ghost use Rattle.std.specs.List.{list_all};
ghost use Rattle.feed_xml.specs.Grammar.{is_space, raw};
ghost use Rattle.feed_xml.specs.Limits.{IsStart};
ghost use Rattle.feed_xml.specs.private.Places.{nested, nests, first_nesting, opened, is_closed, is_nothing};
ghost use Rattle.feed_xml.specs.Faults.{IsOfPlace};
ghost use Rattle.feed_xml.specs.View.{token_view};

use crate::classes::{Kind, all_pass};
use crate::fault::Fault;
use crate::names::Names;
use crate::tags::Token;
use std::alloc::Global;

/// How many elements may be open.
pub(crate) const MOST_OPEN: usize = 1000;

/// The elements that are open, and whether the root was begun.
#[derive(Drop)]
pub(crate) struct Nesting {
    names: Names,
    begun: bool,
}

// What is no document unless this holds.
fn only_if(holds: bool) -> Result<(), Fault>
    ensures ok { OnOk result (holds ≡ true) }
    ensures malformed { OnErr result (holds ≡ false) }
    ensures fault { IfErr result (λ fault. fault ≡ Fault.Malformed) }
{
    if holds { Ok(()) } else { Err(Fault::Malformed) }
}

impl Nesting {
    /// Before the first token.
    pub(crate) fn first(alloc: Global) -> Nesting
        ensures { result ≡ first_nesting }
    {
        Nesting {
            names: Names::new(alloc),
            begun: false,
        }
    }

    /// Whether the root was closed.
    pub(crate) fn is_closed(&self) -> bool
        ensures { result ≡ is_closed self.now }
    {
        self.begun && self.names.is_nothing()
    }

    /// Whether no element is open.
    pub(crate) fn is_outside(&self) -> bool
        ensures { result ≡ is_nothing self.now.names }
    {
        self.names.is_nothing()
    }

    /// Goes on by a stretch of text.
    pub(crate) fn take_text(&mut self, run: &[u8]) -> Result<(), Fault>
        ensures ok { OnOk result (nests self.old (map raw run.now) ≡ Some self.new) }
        ensures malformed { IsErrOf result Fault.Malformed
            → nests self.old (map raw run.now) ≡ None }
        ensures same { OnErr result (self.new ≡ self.old) }
        ensures deep { ¬ (IsErrOf result Fault.TooDeep) }
        ensures large { ¬ (IsErrOf result Fault.LargeTag) }
        ensures fault { IfErr result IsOfPlace }
    {
        if self.names.is_nothing() {
            if all_pass(Kind::Space, run) {
                Ok(())
            } else {
                Err(Fault::Malformed)
            }
        } else {
            Ok(())
        }
    }

    // Goes on by a start tag.
    fn take_start(&mut self, name: &[u8]) -> Result<(), Fault>
        ensures ok { OnOk result (opened name.now self.old ≡ Some self.new) }
        ensures malformed { IsErrOf result Fault.Malformed → opened name.now self.old ≡ None }
        ensures deep { IsErrOf result Fault.TooDeep → MOST_OPEN ≤ length self.old.names }
        ensures large { ¬ (IsErrOf result Fault.LargeTag) }
        ensures fault { IfErr result IsOfPlace }
    {
        only_if(!self.is_closed())?;
        if self.names.len() >= MOST_OPEN {
            return Err(Fault::TooDeep);
        }
        let Ok(()) = self.names.push(name) else {
            return Err(Fault::Memory);
        };
        self.begun = true;
        Ok(())
    }

    // Goes on by an empty element.
    fn take_empty(&mut self) -> Result<(), Fault>
        ensures open { OnOk result (is_closed self.old ≡ false) }
        ensures begun { OnOk result (self.new ≡ record self.old { begun = true }) }
        ensures malformed { OnErr result (is_closed self.old ≡ true) }
        ensures fault { IfErr result (λ fault. fault ≡ Fault.Malformed) }
    {
        only_if(!self.is_closed())?;
        self.begun = true;
        Ok(())
    }

    /// Goes on by a token.
    pub(crate) fn take_token(&mut self, token: &Token<'_>) -> Result<(), Fault>
        ensures ok { OnOk result (nested self.old (token_view token.now) ≡ Some self.new) }
        ensures malformed { IsErrOf result Fault.Malformed
            → nested self.old (token_view token.now) ≡ None }
        ensures deep { IsErrOf result Fault.TooDeep → MOST_OPEN ≤ length self.old.names }
        ensures start { IsErrOf result Fault.TooDeep → IsStart (token_view token.now) }
        ensures large { ¬ (IsErrOf result Fault.LargeTag) }
        ensures fault { IfErr result IsOfPlace }
    {
        match token {
            Token::Comment(_) | Token::Instruction(_) => Ok(()),
            Token::Doctype(_) | Token::Declaration(_) => only_if(!self.begun),
            Token::Reference(_) | Token::Opening | Token::Bracket(_) | Token::CData(_, _) => {
                only_if(!self.names.is_nothing())
            }
            Token::Start(name, _, _) => self.take_start(name),
            Token::Empty(_, _, _) => self.take_empty(),
            Token::End(name, _) => only_if(self.names.close(name)),
        }
    }
}
