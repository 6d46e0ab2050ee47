//! The parts of a message as files of a folder, made under hidden names.

use crate::fault::FileFault;
use crate::files::NamedFiles;
use crate::placing::name_all;
use crate::targets::targets_of;
use std::alloc::Global;

/// The files of the parts of one message.
#[derive(Drop)]
pub struct PartFiles<'a, F: NamedFiles> {
    alloc: Global,
    files: &'a F,
    leave: &'a F::Leave,
    folder: &'a str,
    name: &'a str,
    hidden: Option<F::Hidden>,
    made: Vec<F::Made>,
}

/// The files of the parts of one message, all of which were made.
#[derive(Drop)]
pub struct MadeFiles<F: NamedFiles> {
    alloc: Global,
    hidden: Option<F::Hidden>,
    made: Vec<F::Made>,
}

impl<'a, F: NamedFiles> PartFiles<'a, F> {
    /// No part yet, of a message of this NAME that goes into that folder.
    pub fn new(
        alloc: Global,
        files: &'a F,
        leave: &'a F::Leave,
        folder: &'a str,
        name: &'a str,
    ) -> PartFiles<'a, F> {
        PartFiles {
            alloc,
            files,
            leave,
            folder,
            name,
            hidden: None,
            made: Vec::new(alloc),
        }
    }

    // The number of the next part.
    fn next_number(&self) -> Result<u32, FileFault> {
        let next = match u32::try_from(self.made.len()) {
            Ok(before) => before.checked_add(1),
            Err(_) => None,
        };
        match next {
            Some(number) => Ok(number),
            None => Err(FileFault::new(self.alloc, self.folder, "has too many parts")),
        }
    }

    // Makes the file of the part of a number. The hidden names are taken for the first one.
    fn make(&mut self, number: u32, text: &[u8]) -> Result<F::Made, FileFault> {
        let hidden = match self.hidden.take() {
            Some(hidden) => hidden,
            None => self.files.hide(self.leave, self.folder, self.name)?,
        };
        let made = self.files.make(&hidden, self.folder, number, text);
        self.hidden = Some(hidden);
        made
    }

    /// Makes the file of the next part, with this text.
    pub fn add(&mut self, text: &[u8]) -> Result<(), FileFault> {
        let number = self.next_number()?;
        // Before there is a file, so that none is forgotten.
        self.made.reserve(1)?;
        let made = self.make(number, text)?;
        self.made.push(made)?;
        Ok(())
    }

    /// No part follows.
    pub fn finish(self) -> MadeFiles<F> {
        MadeFiles {
            alloc: self.alloc,
            hidden: self.hidden,
            made: self.made,
        }
    }
}

impl<F: NamedFiles> MadeFiles<F> {
    /// Gives the files the names of the parts of a message of this NAME in so many parts, in that
    /// folder: all of them or, with a fault, none where those that were given can be taken back. A
    /// file that has such a name already keeps it: that is a fault, unless it has the same text, or
    /// is empty, which counts as not there.
    pub fn place(
        &self,
        files: &mut F,
        folder: &str,
        name: &str,
        parts: u32,
    ) -> Result<(), FileFault> {
        let targets = targets_of(self.alloc, self.made.as_slice(), folder, name, parts)?;
        name_all(self.alloc, files, folder, targets.as_slice())
    }

    /// Removes the hidden names of the files, and lets those names go.
    pub fn discard(&self, files: &F) {
        for made in self.made.iter() {
            files.unhide(made);
        }
        if let Some(hidden) = &self.hidden {
            files.let_go(hidden);
        }
    }
}
