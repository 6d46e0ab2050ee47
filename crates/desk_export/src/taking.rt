//! What takes the texts of an export.

use csv_records::streams::{WriteFault, write_whole};
use std::io::Write;

/// Takes the texts of requests, one after the other.
pub trait TakesTexts {
    ghost use Rattle.std.specs.Prelude.{List, ℕ, OnErr, OnOk};

    /// Why a text was not taken.
    type Fault: Drop;

    /// This text was taken.
    ghost takes: { Self → Self → List ℕ → Type 0 };

    /// This text was not taken, or a part of it.
    ghost takes_part: { Self → Self → List ℕ → Type 0 };

    /// Takes one more text.
    fn take(&mut self, text: &str) -> Result<(), Self::Fault>
        ensures ok { OnOk result (takes self.old self.new text.now) }
        ensures err { OnErr result (takes_part self.old self.new text.now) };
}

// Whoever writes takes each text behind the one before it.
impl<W: Write> TakesTexts for W {
    ghost use Rattle.std.specs.Io.KnownBytes.{Appends};
    ghost use Rattle.desk_export.specs.Exporting.{AppendsFront};

    type Fault = WriteFault;

    ghost takes = { λ old new text. Appends (W.contents old) (W.contents new) text };

    ghost takes_part = { λ old new text. AppendsFront (W.contents old) (W.contents new) text };

    fn take(&mut self, text: &str) -> Result<(), WriteFault> {
        write_whole(self, text.as_bytes())
    }
}
