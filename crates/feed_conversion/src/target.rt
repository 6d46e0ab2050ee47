//! What takes the messages.

use csv_records::buffer::RecordBuffer;
use feed_mapping::{Composite, Note};
use std::alloc::AllocError;

/// What takes the texts of the parts of a message, in order, and the notes on what is left out of
/// it, in order.
pub trait Target {
    ghost use Rattle.std.specs.Prelude.{◌≡◌, ℕ, List, OnOk};

    /// The values of this type are what it makes of parts. Where it is `Items<Items<u8>>` and
    /// `with_part` adds the text at the end, the clause of `convert` says that just these parts
    /// were taken.
    type Parts;

    /// How it makes them.
    ghost with_part: { Self.Parts → List ℕ → Self.Parts };

    /// What it has made of the parts that it has taken.
    ghost parts: { Self → Self.Parts };

    /// Takes the text of the next part. After an error nothing more is handed to it.
    fn part(&mut self, text: &[u8]) -> Result<(), AllocError>
        ensures { OnOk result (parts self.new ≡ with_part (parts self.old) text.now) };

    /// Takes the next product, the records that are written of it, and the notes on it, in order,
    /// also where there are none. After an error nothing more is handed to it.
    fn product(
        &mut self,
        product: &Composite<'_>,
        written: &RecordBuffer,
        on_it: &[Note<'_>],
    ) -> Result<(), AllocError>
        ensures { OnOk result (parts self.new ≡ parts self.old) };

    /// Takes notice of a Header, of a stranger in the root, or of what stands in the place of
    /// Products, of which neither parts nor notes come.
    fn notice(&mut self, element: &Composite<'_>)
        ensures { parts self.new ≡ parts self.old };
}
