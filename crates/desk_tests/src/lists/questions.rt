//! Choices of a supplier under rules whose text is read within the test, and calendars.

/// The list. Each request has the same answers when it is made again.
pub const QUESTIONS: &str = "
== questions
-- wanted
-- after
[[rule]]
series = \"south\"
codes = [\"31\"]
[[rule]]
series = \"*\"
codes = [\"20\", \"21\"]
max = \"12.99\"

== an offer of the second rule where the first admits none, of two at one amount
Agree,north,06,4012345000009,06,5012345678900,1
Agree,south,06,5000000000005,06,5012345678900,1
Message,1,06,4012345000009,06,5012345678900,1,1,20250301,02,GBP
Product,R1,03,15,9781234567897
ProductSupply,GB IE,,
SupplyDetail,04,06,4012345000009,North Books,21,
Price,,12.99,,,,,,
EndMessage,5
Message,1,06,5000000000005,06,5012345678900,1,1,20250301,02,GBP
Product,X1,03,15,9781234567897
ProductSupply,GB IE,,
SupplyDetail,04,06,5000000000005,South Books,21,
Price,,12.99,,,,,,
EndMessage,5
AskChoice,9781234567897,20250301,GB,GBP,02
-- wanted
agreed,north,1
agreed,south,1
applied,north,1,replaced=1,updated=0,deleted=0,unknown=0,ignored=0
applied,south,1,replaced=1,updated=0,deleted=0,unknown=0,ignored=0
choice,9781234567897,2,north,R1,1,21,12.990

== the greatest amount of the rule is below the price
Message,1,06,4012345000009,06,5012345678900,2,1,20250301,02,GBP
Product,R2,03,15,9780000000002
ProductSupply,GB IE,,
SupplyDetail,04,06,4012345000009,North Books,21,
Price,,13,,,,,,
EndMessage,5
AskChoice,9780000000002,20250301,GB,GBP,02
-- wanted
applied,north,2,replaced=1,updated=0,deleted=0,unknown=0,ignored=0
choice,9780000000002,none

== calendars, and a range that ends before it begins
Message,1,06,4012345000009,06,5012345678900,3,1,20250301,02,GBP
Product,R1,03,15,9781234567897
ProductSupply,GB IE,,
SupplyDetail,04,06,4012345000009,North Books,21,
Price,,10,,,,,20250401,20250430
Price,,11,,,,,20250501,20250531
Price,,9.5,,,,,20250515,20250520
Price,,9,,,,,20250515,20250516
EndMessage,8
AskCalendar,9781234567897,20250331,20250601,GB,GBP,02
AskCalendar,9781234567897,20250402,20250401,GB,GBP,02
-- wanted
applied,north,3,replaced=1,updated=0,deleted=0,unknown=0,ignored=0
calendar,9781234567897,2
offer,north,R1,1,21
span,20250331,20250331,
span,20250401,20250430,10.000
span,20250501,20250514,11.000
span,20250515,20250516,9.000
span,20250517,20250520,9.500
span,20250521,20250531,11.000
span,20250601,20250601,
offer,south,X1,1,21
span,20250331,20250601,12.990
refused,bad-range

== messages that are malformed at their last row, and within
Message,1,06,4012345000009,06,5012345678900,4,1,20250301,02,GBP
Product,R1,03,15,9781234567897
ProductSupply,GB IE,,
SupplyDetail,04,06,4012345000009,North Books,21,
Price,,1,,,,,,
EndMessage,4
Message,1,06,4012345000009,06,5012345678900,4,1,20250301,,
Product,R1,03,15,9781234567897
ProductSupply,GB IE,,
SupplyDetail,04,06,4012345000009,North Books,21,
Price,,1,,,,,,
EndMessage,5
-- wanted
refused,malformed,6
refused,malformed,5
";
