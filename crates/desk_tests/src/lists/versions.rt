//! Files of version 1, by statements that do not come from `desk_tables`, in which two messages were applied,
//! one waits, and so does a waiver, until they are migrated; then the desk in them goes on.

/// The files of version 1. No desk is opened in them for a report.
pub const FIRST_FILES: &str = "
== first
-- wanted

== files of version 1
execute
BEGIN;
CREATE TABLE meta (item TEXT NOT NULL PRIMARY KEY, amount INTEGER NOT NULL) STRICT;
CREATE TABLE series (name TEXT NOT NULL PRIMARY KEY, sender_type TEXT NOT NULL, sender_value TEXT NOT NULL, addressee_type TEXT NOT NULL, addressee_value TEXT NOT NULL, first_number INTEGER NOT NULL, next_number INTEGER NOT NULL, UNIQUE (sender_type, sender_value, addressee_type, addressee_value)) STRICT;
CREATE TABLE held (series TEXT NOT NULL REFERENCES series (name), number INTEGER NOT NULL, contents TEXT NOT NULL, PRIMARY KEY (series, number)) STRICT;
CREATE TABLE applied (series TEXT NOT NULL REFERENCES series (name), number INTEGER NOT NULL, contents TEXT NOT NULL, replaced INTEGER NOT NULL, updated INTEGER NOT NULL, deleted INTEGER NOT NULL, unknown INTEGER NOT NULL, ignored INTEGER NOT NULL, PRIMARY KEY (series, number)) STRICT;
CREATE TABLE record (series TEXT NOT NULL REFERENCES series (name), reference TEXT NOT NULL, PRIMARY KEY (series, reference)) STRICT;
CREATE TABLE article (series TEXT NOT NULL, reference TEXT NOT NULL, id_place INTEGER NOT NULL, id_type TEXT NOT NULL, id_value TEXT NOT NULL, PRIMARY KEY (series, reference, id_place), FOREIGN KEY (series, reference) REFERENCES record (series, reference) ON DELETE CASCADE) STRICT;
CREATE TABLE offer (series TEXT NOT NULL, reference TEXT NOT NULL, place INTEGER NOT NULL, supply INTEGER NOT NULL, included TEXT NOT NULL, world INTEGER NOT NULL, excluded TEXT NOT NULL, role TEXT NOT NULL, supplier_type TEXT NOT NULL, supplier_value TEXT NOT NULL, supplier_name TEXT NOT NULL, availability TEXT NOT NULL, unpriced TEXT NOT NULL, PRIMARY KEY (series, reference, place), FOREIGN KEY (series, reference) REFERENCES record (series, reference) ON DELETE CASCADE) STRICT;
CREATE TABLE price (series TEXT NOT NULL, reference TEXT NOT NULL, place INTEGER NOT NULL, price_place INTEGER NOT NULL, price_type TEXT NOT NULL, amount INTEGER NOT NULL, currency TEXT NOT NULL, included TEXT NOT NULL, world INTEGER NOT NULL, excluded TEXT NOT NULL, from_day INTEGER, until_day INTEGER, PRIMARY KEY (series, reference, place, price_place), FOREIGN KEY (series, reference, place) REFERENCES offer (series, reference, place) ON DELETE CASCADE) STRICT;
INSERT INTO meta VALUES ('version', 1);
INSERT INTO series VALUES ('north', '06', '4012345000009', '06', '5012345678900', 1, 3);
INSERT INTO applied VALUES ('north', 1, 'Product,R1,03,15,9781234567897
ProductSupply,GB IE,,
SupplyDetail,04,06,4012345000009,North Books,21,
Price,02,1.000,GBP,,WORLD,,,
', 1, 0, 0, 0, 0);
INSERT INTO record VALUES ('north', 'R1');
INSERT INTO article VALUES ('north', 'R1', 1, '15', '9781234567897');
INSERT INTO offer VALUES ('north', 'R1', 1, 1, 'GB IE', 0, '', '04', '06', '4012345000009', 'North Books', '21', '');
INSERT INTO price VALUES ('north', 'R1', 1, 1, '02', 1000, 'GBP', '', 1, '', NULL, NULL);
INSERT INTO applied VALUES ('north', 2, 'Product,R2,03,15,9781234567897
ProductSupply,GB IE,,
SupplyDetail,04,06,4012345000009,North Books,21,
Price,02,2.000,GBP,,WORLD,,,
', 1, 0, 0, 0, 0);
INSERT INTO record VALUES ('north', 'R2');
INSERT INTO article VALUES ('north', 'R2', 1, '15', '9781234567897');
INSERT INTO offer VALUES ('north', 'R2', 1, 1, 'GB IE', 0, '', '04', '06', '4012345000009', 'North Books', '21', '');
INSERT INTO price VALUES ('north', 'R2', 1, 1, '02', 2000, 'GBP', '', 1, '', NULL, NULL);
INSERT INTO held VALUES ('north', 4, '');
INSERT INTO held VALUES ('north', 6, 'waived');
COMMIT;
-- wanted
";

/// Their way to version 2, with a report on gaps and the catalogue, which files of version 1 do not give.
pub const MIGRATION: &str = "
== migration
AskGaps,north
AskCatalogue,north
-- wanted
version 1

== migration
migrate
-- wanted
version 2
-- after
gaps,north,first=1,next=3,greatest=6,held=2,missing=2
missing,3,3
missing,5,5
catalogue,north,2
record,R1,15,9781234567897
ProductSupply,GB IE,,
SupplyDetail,04,06,4012345000009,North Books,21,
Price,02,1.000,GBP,,WORLD,,,
record,R2,15,9781234567897
ProductSupply,GB IE,,
SupplyDetail,04,06,4012345000009,North Books,21,
Price,02,2.000,GBP,,WORLD,,,
";

/// What the desk is asked then. Each request has the same answers when it is made again.
pub const MIGRATED: &str = "
== migrated
-- wanted

== 2 again, 3, and 5 with a minimum order quantity
Message,1,06,4012345000009,06,5012345678900,2,1,20250301,02,GBP
Product,R2,03,15,9781234567897
ProductSupply,GB IE,,
SupplyDetail,04,06,4012345000009,North Books,21,
Price,,2,,,,,,
EndMessage,5
Message,1,06,4012345000009,06,5012345678900,3,1,20250301,02,GBP
Product,R3,03,15,9781234567897
ProductSupply,GB IE,,
SupplyDetail,04,06,4012345000009,North Books,21,
Price,,3,,,,,,
EndMessage,5
Message,2,06,4012345000009,06,5012345678900,5,1,20250301,02,GBP
Product,R5,03,15,9781234567897
ProductSupply,GB IE,,
SupplyDetail,04,06,4012345000009,North Books,21,
Price,,12.99,,,,,,
Price,,9.99,,,,,,,10
EndMessage,6
AskPrice,9781234567897,20250301,GB,GBP,02,10
AskGaps,north
-- wanted
applied,north,2,replaced=1,updated=0,deleted=0,unknown=0,ignored=0
applied,north,3,replaced=1,updated=0,deleted=0,unknown=0,ignored=0
applied,north,5,replaced=1,updated=0,deleted=0,unknown=0,ignored=0
price,9781234567897,4
offer,north,R1,1,21,1.000
offer,north,R2,1,21,2.000
offer,north,R3,1,21,3.000
offer,north,R5,1,21,9.990
gaps,north,first=1,next=7,greatest=6,held=0,missing=0
";
