//! The reading of messages.

ghost use Rattle.std.specs.Prelude.{◌≡◌, ℕ, List, [], IfOk, IfErr, fold, true, false};
ghost use Rattle.feed_xml.specs.declared.fault.Fault.TheVariants.{Refused};
ghost use Rattle.feed_xml.specs.EncodingNames.{IsTextOf};
ghost use Rattle.feed_xml.specs.Tree.{Content};
ghost use Rattle.feed_outline.specs.Dialect.{Dialect};
ghost use Rattle.feed_outline.specs.Faults.{Explains};
ghost use Rattle.feed_outline.specs.Message.{IsMessage};
ghost use Rattle.feed_outline.specs.Nodes.{nodes_in};
ghost use Rattle.feed_outline.specs.Outline.{parts_of};

use crate::dialect::Wrong;
use crate::outliner::{Outliner, Taker};
use crate::refusal_hints::RefusalHints;
use feed_xml::read_document;
use std::alloc::Global;
use std::io::Read;

/// Why no message was read.
#[derive(Debug, Drop)]
pub enum Fault {
    /// No document was read.
    Document(feed_xml::Fault),
    /// The document is no ONIX message.
    Message(Wrong),
    /// A reference stands for nothing.
    Reference,
    /// A Header or a Product is larger than 4,194,304 bytes: those of the texts and of the
    /// attributes `dateformat` of its elements that count, and 64 for each of them.
    TooLarge,
}

/// Why no message was read, and what took the Header and Products until then.
#[derive(Debug, Drop)]
pub struct Stopped<T> {
    pub fault: Fault,
    pub taker: T,
    pub told: RefusalHints,
}

// Whether no more tokens were taken.
fn is_refused(fault: &feed_xml::Fault) -> bool
    ensures yes { result ≡ true → fault.now ≡ Refused }
    ensures no { result ≡ false → ¬ (fault.now ≡ Refused) }
{
    matches!(fault, feed_xml::Fault::Refused)
}

/// Reads a message, hands on each element in its root that counts, and each stranger there, in
/// order, and gives back what took them. Its first bytes tell its encoding.
pub fn read_message<R: Read, T: Taker + Drop>(
    alloc: Global,
    reader: &mut R,
    taker: T,
) -> Result<T, Stopped<T>>
    ensures message { IfOk result (λ taken. (text : List ℕ) × (d : Dialect)
        × (inside : Content) × IsTextOf (R.remaining reader.old) text
        × IsMessage T.vocabulary text d inside
        × (taken ≡ fold T.after taker (parts_of (nodes_in T.vocabulary d [] inside)))) }
    ensures refused { IfErr result (λ stopped.
        Explains T.vocabulary (R.remaining reader.old) stopped.fault) }
{
    let mut outliner = Outliner::new(alloc, taker);
    match read_document(alloc, reader, &mut outliner) {
        Ok(()) => outliner.finish(),
        Err(fault) => {
            if is_refused(&fault) {
                return outliner.finish();
            }
            Err(outliner.stop(Fault::Document(fault)))
        }
    }
}
