//! Memory that may be refused once in a test, by `tests/refused-memory`, which says so in the environment.
//! Where none is refused, a call that answers out of memory ends the test, and so does a second one where one
//! request was refused. The words by which a test ends that could not go on are those of no fault.

use crate::asking::{End, Taken};
use std::process::Abort;
use std::rt::Env;

/// How often a call may still lack memory.
#[derive(Drop)]
pub struct Refusals {
    left: u32,
    // Whether a list ends behind the case in which a call lacked it.
    ends: bool,
}

impl Refusals {
    /// Once where `REFUSED` stands in the environment, else never. No memory is refused before this call. A list
    /// ends behind that one case where `case` stands there, and else goes on.
    pub fn of(rt: &impl Env) -> Refusals {
        let mut text = [0u8; 32];
        match rt.var("REFUSED", &mut text) {
            Ok(_) => Refusals {
                left: 1,
                ends: text.starts_with("case".as_bytes()),
            },
            Err(_) => Refusals::none(),
        }
    }

    /// Never.
    pub fn none() -> Refusals {
        Refusals {
            left: 0,
            ends: false,
        }
    }

    /// Whether a list ends here.
    pub fn are_over(&self) -> bool {
        self.ends && self.left == 0
    }

    /// A call lacked memory.
    pub fn meet(&mut self, stop: &impl Abort) {
        match self.left.checked_sub(1) {
            Some(left) => self.left = left,
            None => stop.panic("out of memory that no refusal explains"),
        }
    }

    /// If a request ended out of memory, whether it has taken effect. A disk in memory that lacked
    /// it has lost what it had, so that nothing can be compared.
    pub fn met(&mut self, stop: &impl Abort, ended: End) -> Option<Taken> {
        match ended {
            End::Memory(taken) => {
                self.meet(stop);
                Some(taken)
            }
            End::Lost => {
                self.meet(stop);
                stop.panic("a disk in memory that could not grow")
            }
            _ => None,
        }
    }

    /// What the test makes for itself.
    pub fn own<T, E: Drop>(&mut self, stop: &impl Abort, made: Result<T, E>) -> T {
        match made {
            Ok(made) => made,
            Err(_) => {
                self.meet(stop);
                stop.panic("refused to the test itself")
            }
        }
    }
}

/// Whether the cases of this name are to be run: `CASES` names them in the environment, or nothing does.
pub fn are_chosen(rt: &impl Env, name: &str) -> bool {
    let mut text = [0u8; 32];
    match rt.var("CASES", &mut text) {
        Ok(length) => length == name.len() && text.starts_with(name.as_bytes()),
        Err(_) => true,
    }
}
