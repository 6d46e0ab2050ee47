//! What opens files by their names, and what makes new ones.

use crate::fault::FileFault;
use std::io::Read;

/// Files by their names, and new ones, which `convert` alone makes: only who has leave makes any.
///
/// A message is written into files that are made under hidden names, so that nobody takes a part
/// of it for the whole, and that get their own names when all are whole. Hidden names are none of
/// those that hold texts here.
pub trait NamedFiles {
    ghost use Rattle.std.specs.Prelude.{◌≡◌, List, Option, ℕ, IfOk, false};

    /// What the file of each name holds, where there is one and that is told.
    ghost holds: { Self → List ℕ → Option (List ℕ) };

    /// No folder has this name.
    ghost lacks_folder: { Self → List ℕ → Type 0 };

    /// Reads a file.
    type Reader: Read + Drop;

    /// The leave to make files.
    type Leave: Drop;

    /// A file for temporary use, which has no name.
    type Scratch: Drop;

    /// Hidden names for the files of one message.
    type Hidden: Drop;

    /// A file that was made under a hidden name.
    type Made: Drop;

    /// Whether a folder has this name.
    fn is_folder(&self, name: &str) -> bool
        ensures { result ≡ false → lacks_folder self.now name.now };

    /// The size of the file of this name, where it is a regular one.
    fn size(&self, name: &str) -> Option<u64>;

    /// Opens the file of this name to be read.
    fn open(&self, name: &str) -> Result<Self::Reader, FileFault>
        ensures { IfOk result (λ reader. Self.Reader.remaining reader ≡ holds self.now name.now) };

    /// Gives leave to make files, which who borrows files only to read cannot take. Names hold what
    /// they held.
    fn leave(&mut self) -> Self::Leave
        ensures { holds self.new ≡ holds self.old };

    /// A new file without a name. It is gone with the program.
    fn new_scratch(&self, leave: &Self::Leave) -> Result<Self::Scratch, FileFault>;

    /// Writes a text to a file without a name, behind what it has.
    fn append(&self, file: &mut Self::Scratch, text: &[u8]) -> Result<(), FileFault>;

    /// Reads a file without a name from its beginning on.
    fn read_scratch(&self, file: Self::Scratch) -> Result<Self::Reader, FileFault>;

    /// Hidden names in a folder for the files of a message of this NAME, which no other run takes.
    fn hide(
        &self,
        leave: &Self::Leave,
        folder: &str,
        name: &str,
    ) -> Result<Self::Hidden, FileFault>;

    /// Makes the file of the part of this number under its hidden name, with this text.
    fn make(
        &self,
        hidden: &Self::Hidden,
        folder: &str,
        number: u32,
        text: &[u8],
    ) -> Result<Self::Made, FileFault>;

    /// A fault where the name has a file with another text, as far as that can be seen. An empty
    /// file is none.
    fn check_name(&self, made: &Self::Made, name: &str) -> Result<(), FileFault>;

    /// Takes the name away from an empty file, which counts as not there: from a regular one that
    /// has the name itself, and is not reached by a link.
    fn clear_name(&mut self, name: &str);

    /// Gives a file that was made its name too, and says whether it was free. A file with the same
    /// text that has the name stays; one with another text is a fault.
    fn give_name(&mut self, made: &Self::Made, name: &str) -> Result<bool, FileFault>;

    /// Makes the names in a folder outlast a loss of power.
    fn sync_folder(&self, folder: &str) -> Result<(), FileFault>;

    /// Takes a name away from its file, as far as that can be done.
    fn take_name(&mut self, name: &str);

    /// Removes the hidden name of a file.
    fn unhide(&self, made: &Self::Made);

    /// Lets hidden names go, of which no file has any.
    fn let_go(&self, hidden: &Self::Hidden);
}
