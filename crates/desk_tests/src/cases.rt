//! What a test says of each of its cases, by functions of their own, since a macro that makes words is some
//! thirty times as dear to prove as a call; and cases that stand in one text: a function that names a table
//! of many texts takes as many seconds to prove as one that names the text takes tenths.

use std::alloc::AllocError;
use std::process::Abort;

/// Ends the test with the name of the case, unless the case holds.
pub fn expect(stop: &impl Abort, holds: bool, case: &str) {
    if !holds {
        stop.panic(case);
    }
}

/// What a test makes for itself; the test ends where it is not made. A test that handed the fault on would
/// be dearer to prove, by all that it lets go of on that way out.
pub fn made<T, E: Drop>(stop: &impl Abort, made: Result<T, E>) -> T {
    match made {
        Ok(made) => made,
        Err(_) => stop.panic("what the test makes for itself"),
    }
}

/// The same of what is read or found, by its name.
pub fn found<T>(stop: &impl Abort, found: Option<T>, name: &str) -> T {
    match found {
        Some(found) => found,
        None => stop.panic(name),
    }
}

/// Ends the test with both and the name of the case, unless these are the same bytes.
pub fn expect_bytes(stop: &impl Abort, found: &[u8], wanted: &[u8], case: &str) {
    assert_eq!(stop; found, wanted, "{case}");
}

/// A case of a text of cases: what is given, what is to come of it, and what is to be found after it.
#[derive(Clone, Copy)]
pub struct Step<'a> {
    pub name: &'a str,
    pub given: &'a str,
    pub wanted: &'a str,
    pub after: &'a str,
}

// What is wanted, and what is to be found after it, where the case before it has that.
fn wanted_of<'a>(text: &'a str, before: &'a str) -> (&'a str, &'a str) {
    match text.strip_suffix("-- as before\n") {
        Some(wanted) => (wanted, before),
        None => text.split_once("-- after\n").unwrap_or((text, "")),
    }
}

// The case behind its `== `: a line with its name, what is given, a line `-- wanted`, what is wanted, and
// where something is looked at after it, a line `-- after` and that, or a line `-- as before` where it is
// what was found after the case before it.
fn read_step<'a>(text: &'a str, before: &'a str) -> Step<'a> {
    let (name, rest) = text.split_once('\n').unwrap_or((text, ""));
    let (given, rest) = rest.split_once("-- wanted\n").unwrap_or((rest, ""));
    let (wanted, after) = wanted_of(rest, before);
    Step {
        name,
        given,
        wanted,
        after,
    }
}

// More cases than any text has.
const MOST_STEPS: usize = 100;

/// Adds the cases of a text, each behind a line end and `== `. They are found one after the other, since a
/// loop over the parts of a text is dear to prove, and are added to a list that is lent, so that no way out
/// lets go of them.
pub fn add_steps<'a>(
    stop: &impl Abort,
    text: &'a str,
    steps: &mut Vec<Step<'a>>,
) -> Result<(), AllocError> {
    let mut rest = text.strip_prefix("\n== ").unwrap_or("");
    let mut before = "";
    for _ in 0..MOST_STEPS {
        let (step, more) = rest.split_once("\n== ").unwrap_or((rest, ""));
        if step.is_empty() {
            return Ok(());
        }
        let step = read_step(step, before);
        before = step.after;
        steps.push(step)?;
        rest = more;
    }
    stop.panic("more cases than are read")
}
