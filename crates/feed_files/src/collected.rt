//! What is made of a FILE while it is read.

ghost use Rattle.std.specs.Prelude.{◌≡◌};

use crate::notes::Notes;
use crate::store::Store;
use csv_records::buffer::RecordBuffer;
use feed_conversion::Target;
use feed_mapping::{Composite, Note};
use program_files::FileFault;
use std::alloc::AllocError;

/// The parts of a message, and the notes on what is left out of it. Where the parts cannot be kept,
/// the fault.
#[derive(Drop)]
pub struct Collected<'a, S> {
    pub store: S,
    pub notes: Notes<'a>,
    pub fault: Option<FileFault>,
}

impl<'a, S: Store + Drop> Target for Collected<'a, S> {
    type Parts = S::Texts;

    ghost with_part = { S.with_text };

    ghost parts = { λ c. S.texts c.store };

    fn part(&mut self, text: &[u8]) -> Result<(), AllocError> {
        match self.store.add(text) {
            Ok(()) => Ok(()),
            Err(fault) => {
                self.fault = Some(fault);
                Err(AllocError)
            }
        }
    }

    fn product(
        &mut self,
        product: &Composite<'_>,
        written: &RecordBuffer,
        on_it: &[Note<'_>],
    ) -> Result<(), AllocError> {
        self.notes.add(product, written, on_it)
    }

    fn notice(&mut self, element: &Composite<'_>) {
        self.notes.notice(element);
    }
}
