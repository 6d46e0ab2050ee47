//! Where the parts of a message are kept until the whole FILE was read.

use onix_terms::items::Items;
use program_files::{FileFault, NamedFiles, PartFiles, Spool};

/// Keeps the texts of parts.
pub trait Store {
    ghost use Rattle.std.specs.Prelude.{◌≡◌, ℕ, List, OnOk};

    /// The values of this type are what is told of the texts that it keeps.
    type Texts;

    /// What is told of texts, with one more.
    ghost with_text: { Self.Texts → List ℕ → Self.Texts };

    /// What is told of the texts that it keeps.
    ghost texts: { Self → Self.Texts };

    /// Keeps the text of the next part.
    fn add(&mut self, text: &[u8]) -> Result<(), FileFault>
        ensures { OnOk result (texts self.new ≡ with_text (texts self.old) text.now) };
}

impl<'a, F: NamedFiles> Store for Spool<'a, F> {
    ghost use Rattle.program_files.specs.Texts.{told_texts, with_text};

    type Texts = Option<Items<u8>>;

    ghost with_text = { with_text };

    ghost texts = { λ s. told_texts s.first.items s.rest };

    fn add(&mut self, text: &[u8]) -> Result<(), FileFault> {
        Spool::add(self, text)
    }
}

impl<'a, F: NamedFiles> Store for PartFiles<'a, F> {
    type Texts = ();

    ghost with_text = { λ kept text. kept };

    ghost texts = { λ files. tt };

    fn add(&mut self, text: &[u8]) -> Result<(), FileFault> {
        PartFiles::add(self, text)
    }
}
