//! The first behind the forty that wait, with a report on the rows of the tables.

/// The first behind the forty: the rows are as they are before it, or after it.
pub const DRAINED_ROWS: &str = "
== rows
count
-- wanted
40 wait

== the first
Message,1,06,4012345000009,06,5012345678900,1,,,,
EndMessage,1
-- wanted
applied,north,1,replaced=0,updated=0,deleted=0,unknown=0,ignored=0
-- after
41 are applied
";
