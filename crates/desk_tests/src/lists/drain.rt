//! Forty messages that wait behind the first of their series, and the first, which lets all be applied.

use std::alloc::{AllocError, Global};

const FRONT: &str = "
== forty
AskGaps,north
-- wanted
refused,unknown-series

== forty that wait
Agree,north,06,4012345000009,06,5012345678900,1
";

const AFTER: &str = "-- after
gaps,north,first=1,next=1,greatest=41,held=40,missing=1
missing,1,1
";

fn push_messages(list: &mut String) -> Result<(), AllocError> {
    for below in 0..40u32 {
        let number = 41 - below;
        write!(
            list,
            "Message,1,06,4012345000009,06,5012345678900,{number},,,,\nEndMessage,1\n"
        )?;
    }
    Ok(())
}

fn push_answers(list: &mut String) -> Result<(), AllocError> {
    for below in 0..40u32 {
        let number = 41 - below;
        write!(list, "held,north,{number},waiting-for=1\n")?;
    }
    Ok(())
}

/// The list of the forty, from the last to the first, with a report on gaps.
pub fn forty(alloc: Global) -> Result<String, AllocError> {
    let mut list = String::from_str(alloc, FRONT)?;
    push_messages(&mut list)?;
    list.push_str("-- wanted\nagreed,north,1\n")?;
    push_answers(&mut list)?;
    list.push_str(AFTER)?;
    Ok(list)
}

/// The first behind them, with a report on gaps.
pub const DRAIN: &str = "
== drain
AskGaps,north
-- wanted
gaps,north,first=1,next=1,greatest=41,held=40,missing=1
missing,1,1

== the first
Message,1,06,4012345000009,06,5012345678900,1,,,,
EndMessage,1
-- wanted
applied,north,1,replaced=0,updated=0,deleted=0,unknown=0,ignored=0
-- after
gaps,north,first=1,next=42,greatest=41,held=0,missing=0
";
