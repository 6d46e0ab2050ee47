//! Seventeen requests, each under its title: messages that are late, behind one gap or two, what is applied
//! together and alone, deletions, updates, minimums, waivers, repeats and refusals.

/// The list, with a report on gaps, the price of ten copies and the catalogue.
pub const STEPS: &str = "
== steps
AskGaps,north
AskPrice,9781234567897,20250301,GB,GBP,02,10
AskCatalogue,north
-- wanted
refused,unknown-series
price,9781234567897,0
refused,unknown-series

== the agreement
Agree,north,06,4012345000009,06,5012345678900,1
-- wanted
agreed,north,1
-- after
gaps,north,first=1,next=1,greatest=,held=0,missing=0
price,9781234567897,0
catalogue,north,0

== 3 comes before 1
Message,1,06,4012345000009,06,5012345678900,3,1,20250301,02,GBP
Product,R3,03,15,9781234567897
ProductSupply,GB IE,,
SupplyDetail,04,06,4012345000009,North Books,21,
Price,,3,,,,,,
EndMessage,5
-- wanted
held,north,3,waiting-for=1
-- after
gaps,north,first=1,next=1,greatest=3,held=1,missing=1
missing,1,2
price,9781234567897,0
catalogue,north,0

== 3 again with other contents
Message,1,06,4012345000009,06,5012345678900,3,,,,
EndMessage,1
-- wanted
refused,other-contents,north,3
-- as before

== 4 waits too: it updates what 3 brings, and its greater minimum has the greater price
Message,2,06,4012345000009,06,5012345678900,4,1,20250301,02,GBP
Product,R3,04,15,9781234567897
ProductSupply,GB IE,,
SupplyDetail,04,06,4012345000009,North Books,21,
Price,,5,,,,,,
Product,R4,03,15,9781234567897
ProductSupply,GB IE,,
SupplyDetail,04,06,4012345000009,North Books,21,
Price,,4,,,,,,
Price,,20,,,,,,,10
EndMessage,10
-- wanted
held,north,4,waiting-for=1
-- after
gaps,north,first=1,next=1,greatest=4,held=2,missing=1
missing,1,2
price,9781234567897,0
catalogue,north,0

== 5 is waived behind the gap
Waive,north,5
-- wanted
waived,north,5
-- after
gaps,north,first=1,next=1,greatest=5,held=3,missing=1
missing,1,2
price,9781234567897,0
catalogue,north,0

== an update, 8, waits behind a second gap
Message,1,06,4012345000009,06,5012345678900,8,1,20250301,02,GBP
Product,R3,04,15,9781234567897
ProductSupply,GB,,
SupplyDetail,04,06,4012345000009,North Books,21,
Price,,7,,,,,,
EndMessage,5
-- wanted
held,north,8,waiting-for=1
-- after
gaps,north,first=1,next=1,greatest=8,held=4,missing=2
missing,1,2
missing,6,7
price,9781234567897,0
catalogue,north,0

== 1 is applied and fills no gap
Message,1,06,4012345000009,06,5012345678900,1,1,20250301,02,GBP
Product,R1,03,15,9781234567897
ProductSupply,GB IE,,
SupplyDetail,04,06,4012345000009,North Books,21,
Price,,1,,,,,,
EndMessage,5
-- wanted
applied,north,1,replaced=1,updated=0,deleted=0,unknown=0,ignored=0
-- after
gaps,north,first=1,next=2,greatest=8,held=4,missing=2
missing,2,2
missing,6,7
price,9781234567897,1
offer,north,R1,1,21,1.000
catalogue,north,1
record,R1,15,9781234567897
ProductSupply,GB IE,,
SupplyDetail,04,06,4012345000009,North Books,21,
Price,02,1.000,GBP,,WORLD,,,

== 2 deletes and lets all up to the second gap be applied
Message,1,06,4012345000009,06,5012345678900,2,1,20250301,,
Product,R1,05,15,9781234567897
EndMessage,2
-- wanted
applied,north,2,replaced=0,updated=0,deleted=1,unknown=0,ignored=0
-- after
gaps,north,first=1,next=6,greatest=8,held=1,missing=1
missing,6,7
price,9781234567897,2
offer,north,R3,1,21,5.000
offer,north,R4,1,21,20.000
catalogue,north,2
record,R3,15,9781234567897
ProductSupply,GB IE,,
SupplyDetail,04,06,4012345000009,North Books,21,
Price,02,5.000,GBP,,WORLD,,,
record,R4,15,9781234567897
ProductSupply,GB IE,,
SupplyDetail,04,06,4012345000009,North Books,21,
Price,02,4.000,GBP,,WORLD,,,
Price,02,20.000,GBP,,WORLD,,,,10

== 3, which waited, again: of another date, and with its price written in another way
Message,1,06,4012345000009,06,5012345678900,3,2,20250302,02,GBP
Product,R3,03,15,9781234567897
ProductSupply,GB IE,,
SupplyDetail,04,06,4012345000009,North Books,21,
Price,,3.000,,,,,,
EndMessage,5
-- wanted
applied,north,3,replaced=1,updated=0,deleted=0,unknown=0,ignored=0
-- as before

== 6 updates, brings minimums that ten copies reach and do not, and is applied alone
Message,2,06,4012345000009,06,5012345678900,6,1,20250301,02,GBP
Product,R3,04,15,9781234567897
ProductSupply,,WORLD,
SupplyDetail,04,06,4012345000009,North Books,20,
Price,,7,,,,,,,11
Price,,8,,,,,,,5
EndMessage,6
-- wanted
applied,north,6,replaced=0,updated=1,deleted=0,unknown=0,ignored=0
-- after
gaps,north,first=1,next=7,greatest=8,held=1,missing=1
missing,7,7
price,9781234567897,2
offer,north,R3,1,20,8.000
offer,north,R4,1,21,20.000
catalogue,north,2
record,R3,15,9781234567897
ProductSupply,,WORLD,
SupplyDetail,04,06,4012345000009,North Books,20,
Price,02,7.000,GBP,,WORLD,,,,11
Price,02,8.000,GBP,,WORLD,,,,5
record,R4,15,9781234567897
ProductSupply,GB IE,,
SupplyDetail,04,06,4012345000009,North Books,21,
Price,02,4.000,GBP,,WORLD,,,
Price,02,20.000,GBP,,WORLD,,,,10

== 7 is waived and lets 8 be applied
Waive,north,7
-- wanted
waived,north,7
-- after
gaps,north,first=1,next=9,greatest=8,held=0,missing=0
price,9781234567897,2
offer,north,R3,1,21,7.000
offer,north,R4,1,21,20.000
catalogue,north,2
record,R3,15,9781234567897
ProductSupply,GB,,
SupplyDetail,04,06,4012345000009,North Books,21,
Price,02,7.000,GBP,,WORLD,,,
record,R4,15,9781234567897
ProductSupply,GB IE,,
SupplyDetail,04,06,4012345000009,North Books,21,
Price,02,4.000,GBP,,WORLD,,,
Price,02,20.000,GBP,,WORLD,,,,10

== 7 is waived again
Waive,north,7
-- wanted
waived,north,7
-- as before

== updates, deletions and another type, of which two are unknown
Message,1,06,4012345000009,06,5012345678900,9,1,20250301,,
Product,R3,04,15,9780000000002
Product,R9,04,15,9780000000002
Product,R9,05,15,9780000000002
Product,R3,88,15,9780000000002
Product,R4,05,15,9781234567897
EndMessage,6
-- wanted
applied,north,9,replaced=0,updated=1,deleted=1,unknown=2,ignored=1
-- after
gaps,north,first=1,next=10,greatest=9,held=0,missing=0
price,9781234567897,1
offer,north,R3,1,21,7.000
catalogue,north,1
record,R3,15,9781234567897
ProductSupply,GB,,
SupplyDetail,04,06,4012345000009,North Books,21,
Price,02,7.000,GBP,,WORLD,,,

== 1 again changes nothing
Message,1,06,4012345000009,06,5012345678900,1,1,20250301,02,GBP
Product,R1,03,15,9781234567897
ProductSupply,GB IE,,
SupplyDetail,04,06,4012345000009,North Books,21,
Price,,1,,,,,,
EndMessage,5
-- wanted
applied,north,1,replaced=1,updated=0,deleted=0,unknown=0,ignored=0
-- as before

== 7 again, which was waived
Message,1,06,4012345000009,06,5012345678900,7,,,,
EndMessage,1
-- wanted
refused,waived,north,7
-- as before

== 9, which was had, is waived
Waive,north,9
-- wanted
refused,had,north,9
-- as before

== a waiver of a series that is not agreed
Waive,west,1
-- wanted
refused,unknown-series
-- as before
";
